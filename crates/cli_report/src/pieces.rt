//! What is written of a page, piece by piece.

use std::io::{self, Write};

/// A piece of a page's text.
#[derive(Clone, Copy)]
pub(crate) enum Piece<'a> {
    /// A text of the page's own.
    Own(&'a str),
    /// A text in which what HTML has a meaning for is escaped.
    Text(&'a str),
    Number(u32),
}

/// What stands in HTML for a byte that HTML has a meaning for.
fn entity(byte: u8) -> Option<&'static [u8]> {
    match byte {
        b'&' => Some(b"&amp;"),
        b'<' => Some(b"&lt;"),
        b'>' => Some(b"&gt;"),
        b'"' => Some(b"&quot;"),
        _ => None,
    }
}

/// A stream into a page, in which what HTML has a meaning for is escaped.
#[derive(Drop)]
pub(crate) struct Escaped<'o, O> {
    out: &'o mut O,
}

impl<'o, O> Escaped<'o, O> {
    pub(crate) fn new(out: &'o mut O) -> Self {
        Escaped { out }
    }
}

impl<O: Write> Write for Escaped<'_, O> {
    fn write(&mut self, text: &[u8]) -> io::Result<usize> {
        for byte in text {
            let itself = [*byte];
            self.out.write_all(entity(*byte).unwrap_or(&itself))?;
        }
        Ok(text.len())
    }

    fn flush(&mut self) -> io::Result<()> {
        self.out.flush()
    }
}

/// Writes a text, escaped. An error is a failed write.
pub(crate) fn write_text<O: Write>(text: &[u8], out: &mut O) -> io::Result<()> {
    let mut escaped = Escaped::new(out);
    escaped.write_all(text)
}

fn write_piece<O: Write>(piece: Piece<'_>, out: &mut O) -> io::Result<()> {
    match piece {
        Piece::Own(text) => out.write_all(text.as_bytes()),
        Piece::Text(text) => write_text(text.as_bytes(), out),
        Piece::Number(number) => write!(out, "{number}"),
    }
}

/// Writes pieces, one behind the other. An error is a failed write.
pub(crate) fn write_pieces<O: Write>(pieces: &[Piece<'_>], out: &mut O) -> io::Result<()> {
    for piece in pieces {
        write_piece(*piece, out)?;
    }
    Ok(())
}

/// Writes the lines of a text as a list; nothing, where there are none. An error is a failed write.
pub(crate) fn write_list<O: Write>(lines: &[u8], out: &mut O) -> io::Result<()> {
    if lines.is_empty() {
        return Ok(());
    }
    out.write_all(b"<ul>\n")?;
    for line in lines.split(|byte| *byte == b'\n') {
        if !line.is_empty() {
            out.write_all(b"<li>")?;
            write_text(line, out)?;
            out.write_all(b"</li>\n")?;
        }
    }
    out.write_all(b"</ul>\n")
}
