//! Bytes to tokens. Words and numbers are those of OIL.

ghost use Rattle.std.specs.Prelude.{◌≡◌, ◌<◌, Some, length, slice_index, IfOk, IfErr};
ghost use Rattle.osek_base.specs.Tokens.{Lexes};
ghost use Rattle.task_asm.specs.Tokens.{IsPiece, class_of, lexemes_of, GivesPiece, IsTokenFault};
ghost use Rattle.task_asm.specs.declared.tokens.Class.TheVariants as class;

use crate::fault::AsmFault;
use crate::program::ProgramKind;
use osek_base::lexing::{self, LexFault, Piece};
use osek_base::words::{line_len, number_at, word_at};
use std::alloc::Global;

/// The signs that are tokens.
#[derive(Clone, Copy, PartialEq, Eq)]
pub enum Sign {
    Comma,
    Colon,
    Plus,
}

/// What may begin with a byte.
#[derive(Clone, Copy)]
pub enum Class {
    Letter,
    Digit,
    Blank,
    LineEnd,
    Semicolon,
    Dot,
    Mark(Sign),
    Other,
}

/// A token. The end of a line is one, so that a text's lines are stretches of its tokens.
#[derive(Clone, Copy, PartialEq, Eq)]
pub enum Token<'a> {
    Word(&'a str),
    Number(u32),
    /// `.task` or `.isr`.
    Directive(ProgramKind),
    Sign(Sign),
    LineEnd,
}

/// A token and the place of its first byte.
pub type Placed<'a> = lexing::Placed<Token<'a>>;

fn class_of(byte: u8) -> Class
    ensures { result ≡ class_of byte }
{
    match byte {
        b'A'..=b'Z' | b'a'..=b'z' | b'_' => Class::Letter,
        b'0'..=b'9' => Class::Digit,
        b' ' | b'\t' | b'\r' => Class::Blank,
        b'\n' => Class::LineEnd,
        b';' => Class::Semicolon,
        b'.' => Class::Dot,
        b',' => Class::Mark(Sign::Comma),
        b':' => Class::Mark(Sign::Colon),
        b'+' => Class::Mark(Sign::Plus),
        _ => Class::Other,
    }
}

fn word(bytes: &[u8]) -> Option<Piece<Token<'_>>>
    requires first { class_of (slice_index bytes.now 0) ≡ class.Letter }
    requires some { 0 < length bytes.now }
    ensures { GivesPiece class.Letter bytes.now result }
{
    let text = word_at(bytes)?;
    Some(Piece {
        len: text.len(),
        token: Some(Token::Word(text)),
    })
}

fn number(bytes: &[u8]) -> Option<Piece<Token<'_>>>
    requires first { class_of (slice_index bytes.now 0) ≡ class.Digit }
    requires some { 0 < length bytes.now }
    ensures { GivesPiece class.Digit bytes.now result }
{
    let number = number_at(bytes)?;
    Some(Piece {
        len: number.len,
        token: Some(Token::Number(number.value)),
    })
}

/// A comment, which goes to the line's end.
fn comment(bytes: &[u8]) -> Piece<Token<'_>>
    requires first { class_of (slice_index bytes.now 0) ≡ class.Semicolon }
    requires some { 0 < length bytes.now }
    ensures { GivesPiece class.Semicolon bytes.now (Some result) }
{
    Piece {
        len: line_len(bytes),
        token: None,
    }
}

fn directive(bytes: &[u8]) -> Option<Piece<Token<'_>>>
    ensures { GivesPiece class.Dot bytes.now result }
{
    match bytes {
        [b'.', b't', b'a', b's', b'k', ..] => Some(Piece {
            len: 5,
            token: Some(Token::Directive(ProgramKind::Task)),
        }),
        [b'.', b'i', b's', b'r', ..] => Some(Piece {
            len: 4,
            token: Some(Token::Directive(ProgramKind::Routine)),
        }),
        _ => None,
    }
}

impl<'a> lexing::Token<'a> for Token<'a> {
    ghost use Rattle.task_asm.specs.Tokens as text;

    ghost Word = { text.Symbol };

    ghost word = { text.symbol_of };

    ghost IsPiece = { text.IsPiece };

    fn piece_at(bytes: &'a [u8]) -> Option<Piece<Token<'a>>> {
        match class_of(bytes[0]) {
            Class::Letter => word(bytes),
            Class::Digit => number(bytes),
            Class::Blank => Some(Piece {
                len: 1,
                token: None,
            }),
            Class::LineEnd => Some(Piece {
                len: 1,
                token: Some(Token::LineEnd),
            }),
            Class::Semicolon => Some(comment(bytes)),
            Class::Dot => directive(bytes),
            Class::Mark(sign) => Some(Piece {
                len: 1,
                token: Some(Token::Sign(sign)),
            }),
            Class::Other => None,
        }
    }
}

/// The tokens of a text, in order. A fault is at the place where no piece of the text begins.
pub fn tokenize(alloc: Global, text: &[u8]) -> Result<Vec<Placed<'_>>, AsmFault>
    ensures tokens { IfOk result (λ tokens. Lexes IsPiece text.now 0 (lexemes_of tokens.items)) }
    ensures fault { IfErr result (λ e. IsTokenFault text.now e) }
{
    match lexing::tokenize(alloc, text) {
        Ok(tokens) => Ok(tokens),
        Err(LexFault::NoPiece(place)) => Err(AsmFault::Token(place)),
        Err(LexFault::Memory) => Err(AsmFault::Memory),
    }
}
