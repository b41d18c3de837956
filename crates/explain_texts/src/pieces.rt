//! What is said, piece by piece.

use oil_reader::Kind;
use std::io::{self, Write};

/// A piece of what is said.
#[derive(Clone, Copy)]
pub enum Piece<'a> {
    Text(&'a str),
    Number(usize),
    /// `KIND NAME`, as `TASK A`.
    Named(Kind, &'a str),
}

/// The word of a kind.
pub fn kind_word(kind: Kind) -> &'static str {
    match kind {
        Kind::Os => "OS",
        Kind::AppMode => "APPMODE",
        Kind::Task => "TASK",
        Kind::Isr => "ISR",
        Kind::Resource => "RESOURCE",
        Kind::Event => "EVENT",
        Kind::Counter => "COUNTER",
        Kind::Alarm => "ALARM",
    }
}

fn write_piece<W: Write>(piece: Piece<'_>, out: &mut W) -> io::Result<()> {
    match piece {
        Piece::Text(text) => out.write_all(text.as_bytes()),
        Piece::Number(number) => write!(out, "{number}"),
        Piece::Named(kind, name) => write!(out, "{} {name}", kind_word(kind)),
    }
}

/// Writes pieces, one behind the other, and ends the line.
pub(crate) fn write_pieces<W: Write>(pieces: &[Piece<'_>], out: &mut W) -> io::Result<()> {
    for piece in pieces {
        write_piece(*piece, out)?;
    }
    out.write_all(b"\n")
}
