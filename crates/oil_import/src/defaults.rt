//! The defaults that the IMPLEMENTATION of a file sets for attributes: `TYPE [RANGE] NAME = VALUE;`
//! in the braces of a kind.

use crate::attributes::{attribute_of, is_of_hook_code, kind_of, named_by};
use crate::tokens::{Lexeme, Token};
use oil_reader::{AttributeName, Kind, attributes_of};
use std::alloc::{AllocError, Global};

/// An attribute, and the value that it has where it is missing.
#[derive(Clone, Copy)]
struct ImplementedDefault<'a> {
    attribute: AttributeName,
    value: &'a str,
}

/// The defaults of a file, the first of an attribute.
#[derive(Drop)]
pub(crate) struct Defaults<'a> {
    list: Vec<ImplementedDefault<'a>>,
}

/// How far the tokens are read.
#[derive(Drop)]
struct DefaultReader<'a> {
    found: Defaults<'a>,
    depth: usize,
    /// Whether what stands in the outermost braces is of an IMPLEMENTATION.
    is_inside: bool,
    kind: Option<Kind>,
    /// The last word at this depth.
    word: &'a str,
    /// The word before an `=`, until its value is read.
    named: Option<&'a str>,
}

/// Whether a value is none: it is chosen, or it has to be told.
fn is_open(value: &str) -> bool {
    matches!(value, "AUTO" | "NO_DEFAULT")
}

impl<'a> DefaultReader<'a> {
    fn add(&mut self, name: &str, value: &'a str) -> Result<(), AllocError> {
        let Some(kind) = self.kind else {
            return Ok(());
        };
        let Some(attribute) = attribute_of(attributes_of(kind), name) else {
            return Ok(());
        };
        let is_named = named_by(attribute).is_some() || is_of_hook_code(attribute);
        if !is_named && !is_open(value) && self.found.of(attribute).is_none() {
            self.found
                .list
                .push(ImplementedDefault { attribute, value })?;
        }
        Ok(())
    }

    fn word(&mut self, word: &'a str) -> Result<(), AllocError> {
        match self.depth {
            0 if word == "IMPLEMENTATION" => self.is_inside = true,
            0 if word == "CPU" => self.is_inside = false,
            0 => {}
            1 => self.word = word,
            2 => match self.named.take() {
                Some(name) => self.add(name, word)?,
                None => self.word = word,
            },
            _ => {}
        }
        Ok(())
    }

    fn open(&mut self) {
        if self.depth == 1 {
            self.kind = if self.is_inside {
                kind_of(self.word)
            } else {
                None
            };
        }
        self.depth = self.depth.saturating_add(1);
    }

    fn close(&mut self) {
        self.depth = self.depth.saturating_sub(1);
        if self.depth == 0 {
            self.is_inside = false;
        }
        if self.depth <= 1 {
            self.kind = None;
        }
    }

    fn take(&mut self, token: Token<'a>) -> Result<(), AllocError> {
        match token.lexeme {
            Lexeme::Word(word) => self.word(word)?,
            Lexeme::Open => self.open(),
            Lexeme::Close => self.close(),
            Lexeme::Equals if self.depth == 2 => self.named = Some(self.word),
            Lexeme::Semicolon if self.depth == 2 => self.named = None,
            Lexeme::Semicolon if self.depth == 0 => self.is_inside = false,
            _ => {}
        }
        Ok(())
    }
}

impl<'a> Defaults<'a> {
    pub(crate) fn none(alloc: Global) -> Self {
        Defaults {
            list: Vec::new(alloc),
        }
    }

    /// Those among the tokens of a file.
    pub(crate) fn new(alloc: Global, tokens: &[Token<'a>]) -> Result<Self, AllocError> {
        let mut reader = DefaultReader {
            found: Defaults::none(alloc),
            depth: 0,
            is_inside: false,
            kind: None,
            word: "",
            named: None,
        };
        for token in tokens {
            reader.take(*token)?;
        }
        Ok(reader.found)
    }

    /// The value that an attribute has where it is missing.
    pub(crate) fn of(&self, attribute: AttributeName) -> Option<&'a str> {
        for default in &self.list {
            if default.attribute == attribute {
                return Some(default.value);
            }
        }
        None
    }
}
