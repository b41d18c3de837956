//! Refused lines of an arrival list, and unknown modes.

use crate::notes::{write_choice, write_names};
use crate::pieces::Piece::Text;
use crate::source::Source;
use crate::trees::{names, tree_of};
use crate::unseen::mark_at;
use oil_reader::Kind;
use std::alloc::Global;
use std::io::{self, Write};

/// The place at which a line, counted from 1, begins.
fn place_of(text: &[u8], line: usize) -> usize {
    let mut number: usize = 1;
    for (place, byte) in text.iter().enumerate() {
        if number >= line {
            return place;
        }
        if *byte == b'\n' {
            number = number.saturating_add(1);
        }
    }
    text.len()
}

/// Why a line of an arrival list is refused.
#[derive(Clone, Copy)]
pub enum LineFault {
    /// The line isn't a tick and a name.
    Syntax,
    /// No routine has the name.
    UnknownIsr,
    /// The tick is below that of the line before.
    Order,
    /// The line is one too many.
    TooMany,
    /// The tick is too great.
    TickRange,
}

/// What is wrong with a line, and what is allowed there.
fn told(fault: LineFault) -> (&'static str, &'static str) {
    match fault {
        LineFault::Syntax => (
            "the line isn't a tick and a name",
            "TICK ISR, as 7 Brake; # begins a comment",
        ),
        LineFault::UnknownIsr => ("there is no ISR of that name", "its name"),
        LineFault::Order => (
            "the tick is below that of the line before",
            "ticks that don't fall from line to line",
        ),
        LineFault::TooMany => ("the list is too long", "65536 lines"),
        LineFault::TickRange => ("the tick is too great", "0 to 999999"),
    }
}

/// The place behind the spaces, tabs and CR that stand at a place.
fn behind_blanks(source: Source<'_>, place: usize) -> usize {
    for (number, byte) in source.from(place).iter().enumerate() {
        if !matches!(*byte, b' ' | b'\t' | b'\r') {
            return place.saturating_add(number);
        }
    }
    place
}

/// The place of the name behind the tick at a place.
fn name_place(source: Source<'_>, place: usize) -> usize {
    let digits = source.word(place).len();
    behind_blanks(source, place.saturating_add(digits))
}

/// Writes which objects of a kind an OIL file has, and the one that is nearest to a name.
fn write_named<W: Write>(
    alloc: Global,
    oil: Source<'_>,
    kind: Kind,
    name: &str,
    out: &mut W,
) -> io::Result<()> {
    match tree_of(alloc, oil.text) {
        Some(tree) => write_choice(alloc, name, &names(alloc, &tree, kind)?, out),
        None => Ok(()),
    }
}

/// Explains a refused line, counted from 1, of an arrival list for the system of an OIL file. An
/// error is a failed write, or want of memory for the explanation.
pub fn explain_arrivals<W: Write>(
    alloc: Global,
    oil: Source<'_>,
    irq: Source<'_>,
    line: usize,
    fault: LineFault,
    out: &mut W,
) -> io::Result<()> {
    let place = behind_blanks(irq, place_of(irq.text, line));
    let (what, allowed) = told(fault);
    if let (LineFault::Syntax, Some(mark)) = (fault, mark_at(irq.from(place))) {
        let what = [Text(mark), Text(" stands in the line")];
        return irq.note(place, &what, "allowed", &[Text(allowed)], out);
    }
    if fault != LineFault::UnknownIsr {
        return irq.note(place, &[Text(what)], "allowed", &[Text(allowed)], out);
    }
    let name = name_place(irq, place);
    irq.tell(name, &[Text(what)], out)?;
    write_named(alloc, oil, Kind::Isr, irq.word(name), out)
}

/// Explains a mode that an OIL file doesn't have. An error is a failed write, or want of memory for
/// the explanation.
pub fn explain_mode<W: Write>(
    alloc: Global,
    oil: Source<'_>,
    mode: &str,
    out: &mut W,
) -> io::Result<()> {
    writeln!(out, "{}: there is no APPMODE {mode}", oil.name)?;
    write_named(alloc, oil, Kind::AppMode, mode, out)
}

/// Explains that one of the modes of an OIL file has to be chosen. An error is a failed write, or
/// want of memory for the explanation.
pub fn explain_open_mode<W: Write>(alloc: Global, oil: Source<'_>, out: &mut W) -> io::Result<()> {
    writeln!(
        out,
        "{}: there are several APPMODE, so one has to be named",
        oil.name
    )?;
    match tree_of(alloc, oil.text) {
        Some(tree) => write_names("allowed", &names(alloc, &tree, Kind::AppMode)?, out),
        None => Ok(()),
    }
}
