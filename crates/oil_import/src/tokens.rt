//! OIL: grammar, and what preprocessors add. Bytes to tokens.

use crate::sources::{Place, Source};
use std::alloc::{AllocError, Global};

/// What a token is.
#[derive(Clone, Copy)]
pub enum Lexeme<'a> {
    /// A name or number: a run of letters, digits, `_`, `.`, `+` and `-`.
    Word(&'a str),
    /// What stands between quotation marks.
    Text(&'a [u8]),
    /// `#include` and a path between quotation marks or `<` and `>`.
    Include(&'a [u8]),
    /// Another line that begins with `#`.
    Directive,
    Open,
    Close,
    Equals,
    Semicolon,
    Colon,
    /// A comment or string up to the end of the file.
    Unended,
    /// A byte that no other token has.
    Other,
}

/// A token and its place.
#[derive(Clone, Copy)]
pub struct Token<'a> {
    pub place: Place,
    pub lexeme: Lexeme<'a>,
}

/// What stands at the front of some bytes: a token, or white space or a comment, which is none.
#[derive(Clone, Copy)]
struct Piece<'a> {
    /// How many bytes it has.
    len: usize,
    lexeme: Option<Lexeme<'a>>,
}

fn is_run_byte(byte: u8) -> bool {
    byte.is_ascii_alphanumeric() || matches!(byte, b'_' | b'.' | b'+' | b'-')
}

/// The longest run of letters, digits, `_`, `.`, `+` and `-` at the front.
fn run(bytes: &[u8]) -> &[u8] {
    for (number, byte) in bytes.iter().enumerate() {
        if !is_run_byte(*byte) {
            return first(bytes, number);
        }
    }
    bytes
}

fn first(bytes: &[u8], count: usize) -> &[u8] {
    let (front, _) = bytes.split_at(count.min(bytes.len()));
    front
}

/// What stands behind so many bytes.
fn behind(bytes: &[u8], count: usize) -> &[u8] {
    let (_, rest) = bytes.split_at(count.min(bytes.len()));
    rest
}

/// The bytes before the next line end; all, where there is none.
fn line(bytes: &[u8]) -> &[u8] {
    for (number, byte) in bytes.iter().enumerate() {
        if *byte == b'\n' || *byte == b'\r' {
            return first(bytes, number);
        }
    }
    bytes
}

/// The bytes before the next byte of that kind, where one is there.
fn up_to(bytes: &[u8], end: u8) -> Option<&[u8]> {
    for (number, byte) in bytes.iter().enumerate() {
        if *byte == end {
            return Some(first(bytes, number));
        }
    }
    None
}

/// How many bytes a comment up to `*/` has, where it ends. The `/*` are its first two bytes.
fn block_comment_len(bytes: &[u8]) -> Option<usize> {
    let mut is_behind_star = false;
    for (number, byte) in bytes.iter().enumerate() {
        if is_behind_star && *byte == b'/' {
            return Some(number.saturating_add(1));
        }
        is_behind_star = number >= 2 && *byte == b'*';
    }
    None
}

/// A token of so many bytes.
fn mark(len: usize, lexeme: Lexeme<'_>) -> Piece<'_> {
    Piece {
        len,
        lexeme: Some(lexeme),
    }
}

fn blank<'a>(len: usize) -> Piece<'a> {
    Piece { len, lexeme: None }
}

fn comment(bytes: &[u8]) -> Piece<'_> {
    match bytes {
        [_, b'/', ..] => blank(line(bytes).len()),
        [_, b'*', ..] => match block_comment_len(bytes) {
            Some(len) => blank(len),
            None => mark(bytes.len(), Lexeme::Unended),
        },
        _ => mark(1, Lexeme::Other),
    }
}

/// A string; its first byte is a quotation mark.
fn string(bytes: &[u8]) -> Piece<'_> {
    match up_to(behind(bytes, 1), b'"') {
        Some(text) => mark(text.len().saturating_add(2), Lexeme::Text(text)),
        None => mark(bytes.len(), Lexeme::Unended),
    }
}

/// The bytes without blanks in front.
fn unindented(bytes: &[u8]) -> &[u8] {
    for (number, byte) in bytes.iter().enumerate() {
        if *byte != b' ' && *byte != b'\t' {
            return behind(bytes, number);
        }
    }
    b""
}

/// The path behind `#include` on a line.
fn included(line: &[u8]) -> Option<&[u8]> {
    let words = unindented(line.strip_prefix(b"#")?);
    match unindented(words.strip_prefix(b"include")?) {
        [b'"', path @ ..] => up_to(path, b'"'),
        [b'<', path @ ..] => up_to(path, b'>'),
        _ => None,
    }
}

/// A line that begins with `#`.
fn directive(bytes: &[u8]) -> Piece<'_> {
    let line = line(bytes);
    match included(line) {
        Some(path) => mark(line.len(), Lexeme::Include(path)),
        None => mark(line.len(), Lexeme::Directive),
    }
}

fn word(bytes: &[u8]) -> Piece<'_> {
    let run = run(bytes);
    match std::str::from_utf8(run) {
        Ok(text) if !text.is_empty() => mark(run.len(), Lexeme::Word(text)),
        _ => mark(1, Lexeme::Other),
    }
}

/// What stands at the front of some bytes that begin with that one.
fn piece_at(byte: u8, bytes: &[u8]) -> Piece<'_> {
    match byte {
        b' ' | b'\t' | b'\r' | b'\n' | 0x0B | 0x0C => blank(1),
        b'/' => comment(bytes),
        b'"' => string(bytes),
        b'#' => directive(bytes),
        b'{' => mark(1, Lexeme::Open),
        b'}' => mark(1, Lexeme::Close),
        b'=' => mark(1, Lexeme::Equals),
        b';' => mark(1, Lexeme::Semicolon),
        b':' => mark(1, Lexeme::Colon),
        _ => word(bytes),
    }
}

/// The tokens of a file, and the place of its end.
pub(crate) fn tokenize<'a>(
    alloc: Global,
    file: usize,
    source: Source<'a>,
) -> Result<(Vec<Token<'a>>, Place), AllocError> {
    let text = source.content();
    let mut tokens = Vec::new(alloc);
    let mut place = Place::first(file);
    let mut before = 0;
    let mut next = 0;
    for (number, byte) in text.iter().enumerate() {
        if number >= next {
            let piece = piece_at(*byte, behind(text, number));
            next = number.saturating_add(piece.len);
            if let Some(lexeme) = piece.lexeme {
                tokens.push(Token { place, lexeme })?;
            }
        }
        place = place.behind(before, *byte);
        before = *byte;
    }
    Ok((tokens, place))
}
