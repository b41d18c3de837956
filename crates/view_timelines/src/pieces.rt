//! What is written of a picture, piece by piece.

use std::io::{self, Write};

/// A piece of a picture's text.
#[derive(Clone, Copy)]
pub(crate) enum Piece<'a> {
    /// A text of the picture's own.
    Text(&'a str),
    /// A text in which what XML has a meaning for is escaped.
    Name(&'a str),
    Number(u32),
}

/// What stands in XML for a byte that XML has a meaning for.
fn entity(byte: u8) -> Option<&'static [u8]> {
    match byte {
        b'&' => Some(b"&amp;"),
        b'<' => Some(b"&lt;"),
        b'>' => Some(b"&gt;"),
        b'"' => Some(b"&quot;"),
        _ => None,
    }
}

fn write_escaped<W: Write>(text: &str, out: &mut W) -> io::Result<()> {
    for byte in text.as_bytes() {
        let itself = [*byte];
        out.write_all(entity(*byte).unwrap_or(&itself))?;
    }
    Ok(())
}

fn write_piece<W: Write>(piece: Piece<'_>, out: &mut W) -> io::Result<()> {
    match piece {
        Piece::Text(text) => out.write_all(text.as_bytes()),
        Piece::Name(name) => write_escaped(name, out),
        Piece::Number(number) => write!(out, "{number}"),
    }
}

/// Writes pieces, one behind the other. An error is a failed write.
pub(crate) fn write_pieces<W: Write>(pieces: &[Piece<'_>], out: &mut W) -> io::Result<()> {
    for piece in pieces {
        write_piece(*piece, out)?;
    }
    Ok(())
}
