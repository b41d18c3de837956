//! OIL: grammar. Bytes to tokens, for any kind of token.

ghost use Rattle.std.specs.Prelude.{◌≡◌, ◌<◌, ◌≤◌, ℕ, List, Option, option_map, length, IfSome, IfNone, IfOk, IfErr};
ghost use Rattle.osek_base.specs.Tokens.{Lexes, lexemes_of, IsLexFault};
ghost use Rattle.osek_base.specs.declared.lexing.LexFault.TheVariants.{Memory};

use std::alloc::{AllocFailed, Global};

/// What stands at the front of some bytes: a token, or white space or a comment, which is none.
#[derive(Clone, Copy)]
pub struct Piece<T> {
    /// How many bytes it has.
    pub len: usize,
    pub token: Option<T>,
}

/// A token and the place of its first byte, counted from 0.
#[derive(Clone, Copy, PartialEq, Eq)]
pub struct Placed<T> {
    pub place: usize,
    pub token: T,
}

/// Why a text has no tokens.
#[derive(Clone, Copy)]
pub enum LexFault {
    /// The first byte at which no piece of the text begins.
    NoPiece(usize),
    /// A growth of the memory was refused.
    Memory,
}

impl<T: Drop> From<AllocFailed<T>> for LexFault {
    ghost from_gives = { λ _ e. e ≡ Memory };

    fn from(_e: AllocFailed<T>) -> LexFault {
        LexFault::Memory
    }
}

/// A kind of token, by the pieces that its texts have.
pub trait Token<'a>: Copy + Drop {
    /// A token without where it lies in memory.
    ghost Word: { Type 0 };

    /// That of a token.
    ghost word: { Self → Word };

    /// The first so many bytes are a piece, with or without a token.
    ghost IsPiece: { List ℕ → ℕ → Option Word → Type 0 };

    /// The piece at the front of some bytes, where one begins there.
    fn piece_at(bytes: &'a [u8]) -> Option<Piece<Self>>
        requires { 0 < length bytes.now }
        ensures some { IfSome result (λ p. IsPiece bytes.now p.len (option_map word p.token)) }
        ensures within { IfSome result (λ p. (0 < p.len) × (p.len ≤ length bytes.now)) }
        ensures none { IfNone result ((n : ℕ) (t : Option Word) → ¬ IsPiece bytes.now n t) };
}

/// The tokens of a text, in order.
pub fn tokenize<'a, T: Token<'a>>(alloc: Global, text: &'a [u8]) -> Result<Vec<Placed<T>>, LexFault>
    ensures tokens { IfOk result
        (λ tokens. Lexes T.IsPiece text.now 0 (lexemes_of T.word tokens.items)) }
    ensures fault { IfErr result (λ e. IsLexFault T.IsPiece text.now e) }
{
    let mut tokens = Vec::new(alloc);
    let mut place = 0;
    'pieces: while place < text.len() {
        let Some(piece) = T::piece_at(&text[place..]) else {
            return Err(LexFault::NoPiece(place));
        };
        if let Some(token) = piece.token {
            tokens.push(Placed { place, token })?;
        }
        place += piece.len;
    }
    Ok(tokens)
}
