//! A text that was read, and what is said and shown of it.

use crate::pieces::{Piece, write_pieces};
use crate::positions::{Position, line_and_column};
use crate::shown::{columns, write_shown};
use osek_base::words::is_word_byte;
use std::io::{self, Write};

/// A text that was read, and the name of its file.
#[derive(Clone, Copy)]
pub struct Source<'a> {
    pub name: &'a str,
    pub text: &'a [u8],
}

/// The longest line that is shown, in bytes.
const LONGEST: usize = 200;

impl<'a> Source<'a> {
    /// The text before a place and the text from it on.
    pub(crate) fn parts(self, place: usize) -> (&'a [u8], &'a [u8]) {
        self.text.split_at(place.min(self.text.len()))
    }

    /// The text from a place on.
    pub(crate) fn from(self, place: usize) -> &'a [u8] {
        let (_, behind) = self.parts(place);
        behind
    }

    /// The word or number at a place, empty where none is there.
    pub fn word(self, place: usize) -> &'a str {
        let behind = self.from(place);
        let run = match behind.splitn(2, |byte| !is_word_byte(*byte)).next() {
            Some(run) => run,
            None => behind,
        };
        std::str::from_utf8(run).unwrap_or("")
    }

    /// The line of a place: what stands on it before the place, and from the place on.
    fn line(self, place: usize) -> (&'a [u8], &'a [u8]) {
        let (before, behind) = self.parts(place);
        let head = match before.rsplitn(2, |byte| *byte == b'\n').next() {
            Some(head) => head,
            None => before,
        };
        let tail = match behind.splitn(2, |byte| *byte == b'\n').next() {
            Some(tail) => tail,
            None => behind,
        };
        (head, tail.strip_suffix(b"\r").unwrap_or(tail))
    }

    fn position(self, place: usize) -> Position {
        line_and_column(self.text, place.min(usize::MAX - 1))
    }

    /// Writes the line of a place, and below it carets under so many bytes from there on, at least
    /// one. A long line isn't shown.
    fn show<W: Write>(self, place: usize, len: usize, out: &mut W) -> io::Result<()> {
        let (head, tail) = self.line(place);
        if head.len() > LONGEST || tail.len() > LONGEST {
            return Ok(());
        }
        let number = self.position(place).line;
        write_line(number, head, tail, out)?;
        write_carets(number, columns(head), len.min(tail.len()).max(1), out)
    }

    /// Writes `NAME:LINE:COLUMN: WHAT` and nothing below. An error is a failed write.
    pub fn mention<W: Write>(
        self,
        place: usize,
        what: &[Piece<'_>],
        out: &mut W,
    ) -> io::Result<()> {
        let Position { line, column } = self.position(place);
        write!(out, "{}:{line}:{column}: ", self.name)?;
        write_pieces(what, out)
    }

    /// The same, and shows so many bytes from the place on. An error is a failed write.
    pub(crate) fn tell_bytes<W: Write>(
        self,
        place: usize,
        len: usize,
        what: &[Piece<'_>],
        out: &mut W,
    ) -> io::Result<()> {
        self.mention(place, what, out)?;
        self.show(place, len, out)
    }

    /// The same for the word or number at a place. An error is a failed write.
    pub fn tell<W: Write>(self, place: usize, what: &[Piece<'_>], out: &mut W) -> io::Result<()> {
        self.tell_bytes(place, self.word(place).len(), what, out)
    }

    /// The same for so many bytes, and a line ` TITLE: NOTE`.
    pub(crate) fn note_bytes<W: Write>(
        self,
        place: usize,
        len: usize,
        what: &[Piece<'_>],
        title: &str,
        note: &[Piece<'_>],
        out: &mut W,
    ) -> io::Result<()> {
        self.tell_bytes(place, len, what, out)?;
        write!(out, " {title}: ")?;
        write_pieces(note, out)
    }

    /// Writes what is wrong at the word or number at a place, and a line ` TITLE: NOTE`. An error
    /// is a failed write.
    pub fn note<W: Write>(
        self,
        place: usize,
        what: &[Piece<'_>],
        title: &str,
        note: &[Piece<'_>],
        out: &mut W,
    ) -> io::Result<()> {
        self.note_bytes(place, self.word(place).len(), what, title, note, out)
    }

    /// What is wrong at the word or number at a place, and a line ` first: NAME:LINE:COLUMN` with
    /// another place.
    pub(crate) fn tell_second<W: Write>(
        self,
        place: usize,
        what: &[Piece<'_>],
        first: usize,
        out: &mut W,
    ) -> io::Result<()> {
        let Position { line, column } = self.position(first);
        self.tell(place, what, out)?;
        writeln!(out, " first: {}:{line}:{column}", self.name)
    }
}

/// Writes a line behind its number, which stands in four columns or more.
fn write_line<W: Write>(number: usize, head: &[u8], tail: &[u8], out: &mut W) -> io::Result<()> {
    write!(out, "{number:>4} | ")?;
    write_shown(head, out)?;
    write_shown(tail, out)?;
    out.write_all(b"\n")
}

/// Writes as much blank as a line's number is wide.
fn write_blank<W: Write>(number: usize, out: &mut W) -> io::Result<()> {
    let digits = number.checked_ilog10().unwrap_or(0);
    for _ in 0..=digits.max(3) {
        out.write_all(b" ")?;
    }
    Ok(())
}

/// Writes carets behind as much blank as a line's number and so many columns are wide.
fn write_carets<W: Write>(
    number: usize,
    columns: usize,
    count: usize,
    out: &mut W,
) -> io::Result<()> {
    write_blank(number, out)?;
    out.write_all(b" | ")?;
    for _ in 0..columns {
        out.write_all(b" ")?;
    }
    for _ in 0..count {
        out.write_all(b"^")?;
    }
    out.write_all(b"\n")
}
