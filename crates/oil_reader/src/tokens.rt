//! OIL: grammar. Bytes to tokens.

ghost use Rattle.std.specs.Prelude.{◌≡◌, ◌≢◌, ◌<◌, ◌≤◌, ℕ, length, slice_index, IfOk, IfErr, IfSome, IfNone};
ghost use Rattle.oil_reader.specs.Tokens.{IsBlockComment, IsTokensOf, lexemes_of, class_of};
ghost use Rattle.oil_reader.specs.declared.tokens.Class.TheVariants as class;
ghost use Rattle.oil_reader.specs.Faults.{IsTokenFault, GivesPiece};

use crate::fault::OilFault;
use crate::ident::Ident;
use osek_base::lexing::{self, LexFault, Piece};
use osek_base::words::{line_len, number_at, word_at};
use std::alloc::Global;

/// The signs that are tokens: `{`, `}`, `=` and `;`.
#[derive(Clone, Copy, PartialEq, Eq)]
pub enum Sign {
    Open,
    Close,
    Equals,
    Semicolon,
}

/// What may begin with a byte.
#[derive(Clone, Copy)]
pub enum Class {
    Letter,
    Digit,
    Blank,
    Slash,
    Quote,
    Mark(Sign),
    Other,
}

/// A token.
#[derive(Clone, Copy, PartialEq, Eq)]
pub enum Token<'a> {
    Name(Ident<'a>),
    Number(u32),
    /// The string `"2.5"`.
    Version,
    Sign(Sign),
}

/// A token and its place in the text.
pub type Placed<'a> = lexing::Placed<Token<'a>>;

fn class_of(b: u8) -> Class
    ensures { result ≡ class_of b }
{
    match b {
        b'A'..=b'Z' | b'a'..=b'z' | b'_' => Class::Letter,
        b'0'..=b'9' => Class::Digit,
        b' ' | b'\t' | b'\r' | b'\n' => Class::Blank,
        b'/' => Class::Slash,
        b'"' => Class::Quote,
        b'{' => Class::Mark(Sign::Open),
        b'}' => Class::Mark(Sign::Close),
        b'=' => Class::Mark(Sign::Equals),
        b';' => Class::Mark(Sign::Semicolon),
        _ => Class::Other,
    }
}

/// How many bytes a comment up to `*/` has, where it ends.
fn block_comment_len(bytes: &[u8]) -> Option<usize>
    requires opens { slice_index bytes.now 1 ≡ 42 }
    ensures some { IfSome result (λ n. IsBlockComment bytes.now n) }
    ensures none { IfNone result ((n : ℕ) → ¬ IsBlockComment bytes.now n) }
{
    let mut i = 2;
    while i < bytes.len() && i + 1 < bytes.len() {
        if bytes[i] == b'*' && bytes[i + 1] == b'/' {
            return Some(i + 2);
        }
        i += 1;
    }
    None
}

fn name(bytes: &[u8]) -> Option<Piece<Token<'_>>>
    requires first { class_of (slice_index bytes.now 0) ≡ class.Letter }
    requires some { 0 < length bytes.now }
    ensures { GivesPiece class.Letter bytes.now result }
{
    let text = word_at(bytes)?;
    Some(Piece {
        len: text.len(),
        token: Some(Token::Name(Ident { text })),
    })
}

fn number(bytes: &[u8]) -> Option<Piece<Token<'_>>>
    requires first { class_of (slice_index bytes.now 0) ≡ class.Digit }
    requires some { 0 < length bytes.now }
    ensures { GivesPiece class.Digit bytes.now result }
{
    let number = number_at(bytes)?;
    Some(Piece {
        len: number.len,
        token: Some(Token::Number(number.value)),
    })
}

fn comment(bytes: &[u8]) -> Option<Piece<Token<'_>>>
    requires first { class_of (slice_index bytes.now 0) ≡ class.Slash }
    requires some { 0 < length bytes.now }
    ensures { GivesPiece class.Slash bytes.now result }
{
    match bytes {
        [_, b'/', ..] => Some(Piece {
            len: line_len(bytes),
            token: None,
        }),
        [_, b'*', ..] => {
            let len = block_comment_len(bytes)?;
            Some(Piece { len, token: None })
        }
        _ => None,
    }
}

fn version(bytes: &[u8]) -> Option<Piece<Token<'_>>>
    ensures { GivesPiece class.Quote bytes.now result }
{
    match bytes {
        [b'"', b'2', b'.', b'5', b'"', ..] => {
            Some(Piece {
                len: 5,
                token: Some(Token::Version),
            })
        }
        _ => None,
    }
}

impl<'a> lexing::Token<'a> for Token<'a> {
    ghost use Rattle.oil_reader.specs.Tokens as text;

    ghost Word = { text.Word };

    ghost word = { text.word_of };

    ghost IsPiece = { text.IsPiece };

    fn piece_at(bytes: &'a [u8]) -> Option<Piece<Token<'a>>> {
        match class_of(bytes[0]) {
            Class::Letter => name(bytes),
            Class::Digit => number(bytes),
            Class::Blank => Some(Piece {
                len: 1,
                token: None,
            }),
            Class::Slash => comment(bytes),
            Class::Quote => version(bytes),
            Class::Mark(sign) => Some(Piece {
                len: 1,
                token: Some(Token::Sign(sign)),
            }),
            Class::Other => None,
        }
    }
}

/// The tokens of a text, in order.
pub fn tokenize(alloc: Global, text: &[u8]) -> Result<Vec<Placed<'_>>, OilFault>
    ensures ok { IfOk result (λ tokens. IsTokensOf text.now (lexemes_of tokens.items)) }
    ensures err { IfErr result (λ e. IsTokenFault text.now e) }
{
    match lexing::tokenize(alloc, text) {
        Ok(tokens) => Ok(tokens),
        Err(LexFault::NoPiece(place)) => Err(OilFault::Token(place)),
        Err(LexFault::Memory) => Err(OilFault::Memory),
    }
}
