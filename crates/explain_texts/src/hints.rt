//! Hints: OIL of other kernels, which `import` reads, some of it with another meaning.

use crate::notes::{nearest, write_names};
use crate::source::Source;
use crate::unseen::is_utf8_mark;
use oil_reader::{AttributeName, Kind, Value};
use std::alloc::Global;
use std::io::{self, Write};

/// Writes that `import` reads OIL as other kernels use it. An error is a failed write.
fn write_hint<W: Write>(source: Source<'_>, out: &mut W) -> io::Result<()> {
    writeln!(
        out,
        " hint: osek import {} prints OIL of other kernels as it is read here",
        source.name
    )
}

/// Writes that `import --bend` takes something with another meaning. An error is a failed write.
pub(crate) fn write_bend_hint<W: Write>(source: Source<'_>, out: &mut W) -> io::Result<()> {
    writeln!(
        out,
        " hint: osek import --bend {} takes it with another meaning",
        source.name
    )
}

/// Whether an attribute is one that routines have elsewhere: the resources that they get.
pub(crate) fn is_bent_attribute(kind: Kind, word: &str) -> bool {
    kind == Kind::Isr && word == AttributeName::TaskResource.word()
}

/// Whether a value is a category of routines that there is elsewhere.
pub(crate) fn is_bent_value(attribute: Option<AttributeName>, value: Value<'_>) -> bool {
    attribute == Some(AttributeName::Category) && matches!(value, Value::Number(1 | 3))
}

/// Whether the last byte of a text is a digit.
fn ends_with_digit(text: &[u8]) -> bool {
    match text.last() {
        Some(byte) => byte.is_ascii_digit(),
        None => false,
    }
}

/// Whether no token begins between two parts of a text, and OIL of other kernels may go on so: with
/// a string, a description, `#include`, a range, a number below 0 or with a fraction, or behind a
/// byte order mark.
fn is_foreign(before: &[u8], behind: &[u8]) -> bool {
    match behind {
        [b'.', ..] => ends_with_digit(before),
        [byte, ..] => matches!(*byte, b'"' | b':' | b'#' | b'[' | b'-') || is_utf8_mark(behind),
        [] => false,
    }
}

/// Writes the hint where no token begins at a place, and OIL of other kernels may go on so. An
/// error is a failed write.
pub(crate) fn write_hint_at<W: Write>(
    source: Source<'_>,
    place: usize,
    out: &mut W,
) -> io::Result<()> {
    let (before, behind) = source.parts(place);
    if is_foreign(before, behind) {
        return write_hint(source, out);
    }
    Ok(())
}

/// Writes the name that is nearest to a word, or the hint where none is near. An error is a failed
/// write or want of memory.
pub(crate) fn write_nearest_or_hint<W: Write>(
    alloc: Global,
    source: Source<'_>,
    word: &str,
    names: &[&str],
    out: &mut W,
) -> io::Result<()> {
    match nearest(alloc, word, names)? {
        Some(name) => write_names("nearest", &[name], out),
        None => write_hint(source, out),
    }
}
