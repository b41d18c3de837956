//! OIL: `#include`. The tokens of all files, in the order in which they include one another.

use crate::messages::{Messages, Subject};
use crate::reasons;
use crate::sources::{Place, Source, last_part};
use crate::tokens::{Lexeme, Token, tokenize};
use std::alloc::{AllocError, Global};
use std::mem;

/// The tokens of a file, and how far they are taken.
#[derive(Drop)]
struct File<'a> {
    tokens: Vec<Token<'a>>,
    end: Place,
    /// How many tokens are taken.
    taken: usize,
    /// Whether it is the first file, or one that another includes.
    is_included: bool,
}

impl<'a> File<'a> {
    fn new(alloc: Global, number: usize, source: Source<'a>) -> Result<Self, AllocError> {
        let (tokens, end) = tokenize(alloc, number, source)?;
        Ok(File {
            tokens,
            end,
            taken: 0,
            is_included: number == 0,
        })
    }

    /// The next token that isn't taken.
    fn next(&mut self) -> Option<Token<'a>> {
        let token = *self.tokens.get(self.taken)?;
        self.taken = self.taken.saturating_add(1);
        Some(token)
    }
}

/// The files, in the order given, and the numbers of those that are open, the innermost last.
#[derive(Drop)]
struct Files<'a> {
    files: Vec<File<'a>>,
    open: Vec<usize>,
}

/// What comes next of files.
enum Next<'a> {
    Token(Token<'a>),
    /// A file ended, at that place.
    End(Place),
}

impl<'a> Files<'a> {
    fn new(alloc: Global, sources: &[Source<'a>]) -> Result<Self, AllocError> {
        let mut files = Files {
            files: Vec::new(alloc),
            open: Vec::new(alloc),
        };
        files.add_all(alloc, sources)?;
        Ok(files)
    }

    /// Adds all files, of which the first is open.
    fn add_all(&mut self, alloc: Global, sources: &[Source<'a>]) -> Result<(), AllocError> {
        self.open.push(0)?;
        for (number, source) in sources.iter().enumerate() {
            self.files.push(File::new(alloc, number, *source)?)?;
        }
        Ok(())
    }

    /// How many steps it takes to go through all files: a token or an end each.
    fn steps(&self) -> usize {
        let mut steps = self.files.len();
        for file in &self.files {
            steps = steps.saturating_add(file.tokens.len());
        }
        steps
    }

    /// What comes next, unless all open files have ended.
    fn next(&mut self) -> Option<Next<'a>> {
        let number = *self.open.last()?;
        let file = self.files.get_mut(number)?;
        match file.next() {
            Some(token) => Some(Next::Token(token)),
            None => {
                let end = file.end;
                let _ = self.open.pop();
                Some(Next::End(end))
            }
        }
    }

    /// Goes on with a file that is included, unless it was included already.
    fn include(&mut self, number: usize) -> Result<bool, AllocError> {
        let Some(file) = self.files.get_mut(number) else {
            return Ok(false);
        };
        if file.is_included {
            return Ok(false);
        }
        file.is_included = true;
        self.open.push(number)?;
        Ok(true)
    }
}

/// The number of the first file whose path has that last part.
fn number_of(sources: &[Source<'_>], path: &[u8]) -> Option<usize> {
    let wanted = last_part(path);
    for (number, source) in sources.iter().enumerate() {
        if last_part(source.name.as_bytes()) == wanted {
            return Some(number);
        }
    }
    None
}

/// Goes on with the file of an include.
fn enter<'a>(
    files: &mut Files<'a>,
    sources: &[Source<'_>],
    place: Place,
    path: &'a [u8],
    messages: &mut Messages<'a>,
) -> Result<(), AllocError> {
    let Some(number) = number_of(sources, path) else {
        return messages.leave_out(place, Subject::Word("#include"), reasons::NOT_GIVEN);
    };
    if files.include(number)? {
        return Ok(());
    }
    messages.leave_out(place, Subject::Word("#include"), reasons::INCLUDED_ALREADY)
}

/// Tells which files no other includes.
fn tell_unused<'a>(
    files: &Files<'a>,
    sources: &[Source<'a>],
    messages: &mut Messages<'a>,
) -> Result<(), AllocError> {
    for (number, file) in files.files.iter().enumerate() {
        if !file.is_included {
            let name = match sources.get(number) {
                Some(source) => source.name,
                None => "",
            };
            let place = Place::first(number);
            messages.leave_out(place, Subject::Word(name), reasons::NOT_INCLUDED)?;
        }
    }
    Ok(())
}

/// Takes a token, or goes on with the file that it includes.
fn take<'a>(
    files: &mut Files<'a>,
    sources: &[Source<'_>],
    token: Token<'a>,
    tokens: &mut Vec<Token<'a>>,
    messages: &mut Messages<'a>,
) -> Result<(), AllocError> {
    if let Lexeme::Include(path) = token.lexeme {
        return enter(files, sources, token.place, path, messages);
    }
    tokens.push(token)?;
    Ok(())
}

/// Takes the tokens of all files that are included, and answers the place of the end.
fn take_all<'a>(
    files: &mut Files<'a>,
    sources: &[Source<'a>],
    tokens: &mut Vec<Token<'a>>,
    messages: &mut Messages<'a>,
) -> Result<Place, AllocError> {
    let mut end = Place::first(0);
    for _ in 0..files.steps() {
        match files.next() {
            None => break,
            Some(Next::End(place)) => end = place,
            Some(Next::Token(token)) => take(files, sources, token, tokens, messages)?,
        }
    }
    tell_unused(files, sources, messages)?;
    Ok(end)
}

/// The tokens of all files that are included, and the place of the end. Files are included where
/// they are named, each once, the first file from the front.
pub fn all_tokens<'a>(
    alloc: Global,
    sources: &[Source<'a>],
    messages: &mut Messages<'a>,
) -> Result<(Vec<Token<'a>>, Place), AllocError> {
    let mut files = Files::new(alloc, sources)?;
    let mut tokens = Vec::new(alloc);
    let end = take_all(&mut files, sources, &mut tokens, messages);
    mem::drop(files);
    Ok((tokens, end?))
}
