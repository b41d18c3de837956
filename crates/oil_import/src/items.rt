//! OIL: grammar. Tokens to items: objects and attributes by the depth of braces.

use crate::attributes::kind_of;
use crate::reasons;
use crate::sources::Place;
use crate::tokens::{Lexeme, Token};
use std::alloc::{AllocError, Global};

/// What stands behind the first word of an item.
#[derive(Clone, Copy)]
pub(crate) enum Written<'a> {
    Nothing,
    /// Another word, as an object's name.
    Name(&'a str),
    /// `=` and a word.
    Word(&'a str),
    /// `=` and a string.
    Text(&'a [u8]),
}

/// What stands between two semicolons or braces: an object or an attribute.
#[derive(Clone, Copy)]
pub(crate) struct Item<'a> {
    /// How many braces are open round it.
    pub depth: usize,
    pub place: Place,
    /// Its first word.
    pub word: &'a str,
    pub written: Written<'a>,
    /// The place of what is written.
    pub written_place: Place,
    /// The place of its closing brace or semicolon.
    pub end: Place,
    /// Where it isn't of its form, and why.
    pub fault: Option<(Place, &'static str)>,
}

/// The value of the first attribute of that word at that depth.
pub(crate) fn value_in<'a>(items: &[Item<'a>], depth: usize, word: &str) -> Option<&'a str> {
    for item in items {
        if item.depth == depth && item.word == word {
            return match item.written {
                Written::Word(value) => Some(value),
                _ => None,
            };
        }
    }
    None
}

/// Takes `KIND = NAME` among the objects of a CPU as some tools mean it: it declares an object.
pub(crate) fn declare_assigned(items: &mut Vec<Item<'_>>) {
    for item in items.iter_mut() {
        if let (1, Written::Word(name)) = (item.depth, item.written) {
            if kind_of(item.word).is_some() {
                item.written = Written::Name(name);
            }
        }
    }
}

/// How far an item is read.
#[derive(Clone, Copy)]
enum Reading {
    /// Nothing of it.
    Begin,
    /// Its first word.
    Word,
    /// The `=`.
    Equals,
    /// A word or string behind the first word.
    Written,
    /// The colon before a description.
    Colon,
    /// Its description, or its block: what follows is a semicolon.
    Done,
    /// Something that can't stand there, up to the next semicolon or brace.
    Lost,
}

/// The items of the tokens so far.
#[derive(Drop)]
struct Reader<'a> {
    items: Vec<Item<'a>>,
    /// The numbers of the items whose braces are open, the innermost last.
    open: Vec<usize>,
    reading: Reading,
}

impl<'a> Reader<'a> {
    /// Begins an item.
    fn begin(&mut self, place: Place, word: &'a str) -> Result<(), AllocError> {
        self.items.push(Item {
            depth: self.open.len(),
            place,
            word,
            written: Written::Nothing,
            written_place: place,
            end: place,
            fault: None,
        })?;
        self.reading = Reading::Word;
        Ok(())
    }

    /// Tells that the last item isn't of its form. Of several faults the first counts.
    fn fail(&mut self, place: Place, reason: &'static str) {
        self.reading = Reading::Lost;
        if let Some(item) = self.items.last_mut() {
            if item.fault.is_none() {
                item.fault = Some((place, reason));
            }
        }
    }

    /// An item that is a fault alone.
    fn fail_alone(
        &mut self,
        place: Place,
        word: &'a str,
        reason: &'static str,
    ) -> Result<(), AllocError> {
        self.begin(place, word)?;
        self.fail(place, reason);
        Ok(())
    }

    /// Something stands where it can't, behind the beginning of an item or by itself.
    fn misplace(
        &mut self,
        place: Place,
        word: &'a str,
        reason: &'static str,
    ) -> Result<(), AllocError> {
        match self.reading {
            Reading::Begin | Reading::Done => self.fail_alone(place, word, reason),
            _ => {
                self.fail(place, reason);
                Ok(())
            }
        }
    }

    /// What is written behind the first word.
    fn write(&mut self, place: Place, written: Written<'a>) {
        self.reading = Reading::Written;
        if let Some(item) = self.items.last_mut() {
            item.written = written;
            item.written_place = place;
        }
    }

    fn word(&mut self, place: Place, word: &'a str) -> Result<(), AllocError> {
        match self.reading {
            Reading::Begin | Reading::Done => self.begin(place, word),
            Reading::Word => {
                self.write(place, Written::Name(word));
                Ok(())
            }
            Reading::Equals => {
                self.write(place, Written::Word(word));
                Ok(())
            }
            _ => self.misplace(place, word, reasons::MISPLACED),
        }
    }

    fn text(&mut self, place: Place, text: &'a [u8]) -> Result<(), AllocError> {
        match self.reading {
            Reading::Equals => self.write(place, Written::Text(text)),
            Reading::Colon => self.reading = Reading::Done,
            _ => return self.misplace(place, "\"", reasons::MISPLACED),
        }
        Ok(())
    }

    fn equals(&mut self, place: Place) -> Result<(), AllocError> {
        if self.reading != Reading::Word {
            return self.misplace(place, "=", reasons::MISPLACED);
        }
        self.reading = Reading::Equals;
        Ok(())
    }

    fn colon(&mut self, place: Place) -> Result<(), AllocError> {
        match self.reading {
            Reading::Word | Reading::Written | Reading::Done => {
                self.reading = Reading::Colon;
                Ok(())
            }
            _ => self.misplace(place, ":", reasons::MISPLACED),
        }
    }

    /// An item's end, where it has no braces.
    fn semicolon(&mut self, place: Place) {
        match self.reading {
            Reading::Begin | Reading::Done => {}
            Reading::Equals => self.fail(place, reasons::NO_VALUE),
            Reading::Colon => self.fail(place, reasons::MISPLACED),
            _ => {}
        }
        if self.reading != Reading::Done {
            self.end(place);
        }
        self.reading = Reading::Begin;
    }

    /// The place of the end of the last item.
    fn end(&mut self, place: Place) {
        if let Some(item) = self.items.last_mut() {
            item.end = place;
        }
    }

    /// An opening brace.
    fn open(&mut self, place: Place) -> Result<(), AllocError> {
        match self.reading {
            Reading::Begin | Reading::Done => self.fail_alone(place, "{", reasons::MISPLACED)?,
            Reading::Equals => self.fail(place, reasons::NO_VALUE),
            Reading::Colon => self.fail(place, reasons::MISPLACED),
            Reading::Word | Reading::Written | Reading::Lost => {}
        }
        let number = self.items.len().saturating_sub(1);
        self.open.push(number)?;
        self.reading = Reading::Begin;
        Ok(())
    }

    /// A closing brace, which is the end of the item that it closes.
    fn close(&mut self, place: Place) -> Result<(), AllocError> {
        match self.reading {
            Reading::Begin | Reading::Done => {}
            _ => self.semicolon(place),
        }
        let Some(number) = self.open.pop() else {
            self.fail_alone(place, "}", reasons::NOTHING_TO_CLOSE)?;
            self.reading = Reading::Done;
            return Ok(());
        };
        if let Some(item) = self.items.get_mut(number) {
            item.end = place;
        }
        self.reading = Reading::Done;
        Ok(())
    }

    /// A line of the preprocessor. Between items it ends with the line.
    fn directive(&mut self, place: Place) -> Result<(), AllocError> {
        let reading = self.reading;
        self.misplace(place, "#", reasons::DIRECTIVE)?;
        if reading == Reading::Begin || reading == Reading::Done {
            self.reading = reading;
        }
        Ok(())
    }

    fn take(&mut self, token: Token<'a>) -> Result<(), AllocError> {
        let place = token.place;
        match token.lexeme {
            Lexeme::Word(word) => self.word(place, word),
            Lexeme::Text(text) => self.text(place, text),
            Lexeme::Equals => self.equals(place),
            Lexeme::Colon => self.colon(place),
            Lexeme::Open => self.open(place),
            Lexeme::Close => self.close(place),
            Lexeme::Semicolon => {
                self.semicolon(place);
                Ok(())
            }
            Lexeme::Directive => self.directive(place),
            Lexeme::Unended => self.misplace(place, "?", reasons::UNENDED),
            Lexeme::Include(_) | Lexeme::Other => self.misplace(place, "?", reasons::NO_TOKEN),
        }
    }
}

/// The items of tokens, up to a text's end. An item that isn't of its form tells it.
pub(crate) fn items_of<'a>(
    alloc: Global,
    tokens: &[Token<'a>],
    end: Place,
) -> Result<Vec<Item<'a>>, AllocError> {
    let mut reader = Reader {
        items: Vec::new(alloc),
        open: Vec::new(alloc),
        reading: Reading::Begin,
    };
    for token in tokens {
        reader.take(*token)?;
    }
    match reader.reading {
        Reading::Begin | Reading::Done => {}
        _ => reader.fail(end, reasons::MISPLACED),
    }
    if !reader.open.is_empty() {
        reader.open.clear();
        reader.fail_alone(end, "}", reasons::NOT_CLOSED)?;
    }
    Ok(reader.items)
}
