//! A TOML text as the list of its keys and values with their places. The crate `toml` reads the
//! text first and says what is no TOML; it keeps no places of values, so the text is gone over once
//! more, by the readers of `toml_parser`.

use make_descriptions::node::{Kind, Node};
use std::alloc::{AllocError, Global};
use toml_parser::text::{first, skip_blank, skip_ws};
use toml_parser::{Key, ParseError, Scalar, dotted_key, quoted, starts_string, unquoted};

#[derive(Clone, Copy)]
enum Bracket {
    List,
    Table,
}

/// A text that is gone over.
#[derive(Drop)]
struct TextWalk<'t> {
    len: usize,
    rest: &'t str,
    /// How deep what stands outside of brackets is: 1 in a section.
    base: usize,
    open: Vec<Bracket>,
    nodes: Vec<Node>,
}

/// A key as one text.
fn joined(alloc: Global, key: &Key) -> Result<String, AllocError> {
    let mut text = String::new(alloc);
    for part in &key.path {
        text.push_str(part.as_str())?;
        text.push('.')?;
    }
    text.push_str(key.last.as_str())?;
    Ok(text)
}

impl<'t> TextWalk<'t> {
    fn new(alloc: Global, text: &'t str) -> Self {
        TextWalk {
            len: text.len(),
            rest: text,
            base: 0,
            open: Vec::new(alloc),
            nodes: Vec::new(alloc),
        }
    }

    fn place(&self) -> usize {
        self.len.saturating_sub(self.rest.len())
    }

    /// Takes a sign, where it comes next.
    fn take(&mut self, sign: u8) {
        if first(self.rest) == sign {
            self.rest = self.rest.get(1..).unwrap_or("");
        }
    }

    /// Reads the line that begins a section.
    fn section(&mut self, alloc: Global) -> Result<(), ParseError> {
        let place = self.place();
        self.take(b'[');
        self.take(b'[');
        self.rest = skip_ws(self.rest);
        let key_place = self.place();
        let (key, rest) = dotted_key(alloc, self.rest)?;
        self.rest = rest;
        self.take(b']');
        self.take(b']');
        self.base = 1;
        self.nodes.push(Node {
            depth: 0,
            kind: Kind::Section,
            key: joined(alloc, &key)?,
            key_place,
            place,
            text: String::new(alloc),
        })?;
        Ok(())
    }

    /// Reads the value that comes next, of a list or table only its beginning.
    fn value(&mut self, alloc: Global, key: String, key_place: usize) -> Result<(), ParseError> {
        let place = self.place();
        let depth = self.base.saturating_add(self.open.len());
        let mut text = String::new(alloc);
        let kind = match first(self.rest) {
            b'[' => {
                self.take(b'[');
                self.open.push(Bracket::List)?;
                Kind::List
            }
            b'{' => {
                self.take(b'{');
                self.open.push(Bracket::Table)?;
                Kind::Table
            }
            _ if starts_string(self.rest) => {
                let (found, rest) = quoted(alloc, self.rest)?;
                text = found;
                self.rest = rest;
                Kind::Text
            }
            _ => {
                let (found, rest) = unquoted(alloc, self.rest)?;
                self.rest = rest;
                kind_of(found)
            }
        };
        self.nodes.push(Node {
            depth,
            kind,
            key,
            key_place,
            place,
            text,
        })?;
        Ok(())
    }

    /// Reads a key and its value.
    fn entry(&mut self, alloc: Global) -> Result<(), ParseError> {
        let key_place = self.place();
        let (key, rest) = dotted_key(alloc, self.rest)?;
        self.rest = rest;
        self.take(b'=');
        self.rest = skip_ws(self.rest);
        let key = joined(alloc, &key)?;
        self.value(alloc, key, key_place)
    }

    /// Reads what comes next. False at the end of the text.
    fn step(&mut self, alloc: Global) -> Result<bool, ParseError> {
        self.rest = skip_blank(self.rest, true);
        match first(self.rest) {
            0 => return Ok(false),
            b',' => self.take(b','),
            b']' => {
                let _ = self.open.pop();
                self.take(b']');
            }
            b'}' => {
                let _ = self.open.pop();
                self.take(b'}');
            }
            sign => match self.open.last() {
                None if sign == b'[' => self.section(alloc)?,
                Some(Bracket::List) => {
                    let place = self.place();
                    self.value(alloc, String::new(alloc), place)?;
                }
                _ => self.entry(alloc)?,
            },
        }
        Ok(true)
    }
}

fn kind_of(scalar: Scalar) -> Kind {
    match scalar {
        Scalar::Boolean(is_so) => Kind::Boolean(is_so),
        Scalar::Integer(number) => Kind::Number(number),
        Scalar::Float(_) | Scalar::Datetime(_) => Kind::Other,
    }
}

/// The keys and values of a text that is TOML, in its order.
pub(crate) fn nodes_of(alloc: Global, text: &str) -> Result<Vec<Node>, ParseError> {
    let mut walk = TextWalk::new(alloc, text);
    for _byte in text.as_bytes() {
        if !walk.step(alloc)? {
            break;
        }
    }
    Ok(walk.nodes)
}
