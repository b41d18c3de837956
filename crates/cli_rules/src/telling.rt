//! What is said of a file of rules that is refused.

use crate::fault::{RuleFault, RuleWrong};
use crate::kind::WORDS;
use crate::names::Names;
use explain_texts::Piece::{Number, Text};
use explain_texts::{Piece, Position, Source, line_and_column, write_choice};
use oil_reader::OilFile;
use std::alloc::Global;
use std::io::{self, Write};

/// Writes the line of a refused file: how many things are wrong, and on which line the first is.
fn write_count<W: Write>(
    source: Source<'_>,
    faults: &[RuleFault<'_>],
    out: &mut W,
) -> io::Result<()> {
    let Some(first) = faults.first() else {
        return Ok(());
    };
    let line = position(source, first.place).line;
    match faults.len() {
        1 => writeln!(out, "rules: 1 fault, at line {line}"),
        count => writeln!(out, "rules: {count} faults, the first at line {line}"),
    }
}

fn position(source: Source<'_>, place: usize) -> Position {
    line_and_column(source.text, place.min(usize::MAX - 1))
}

/// Writes which names are allowed in place of a word, and the nearest.
fn write_names<W: Write>(
    alloc: Global,
    source: Source<'_>,
    fault: &RuleFault<'_>,
    what: &str,
    names: &[&str],
    out: &mut W,
) -> io::Result<()> {
    source.tell(fault.place, &[Text(what)], out)?;
    write_choice(alloc, fault.word, names, out)
}

/// Writes what is wrong, and below it what is allowed.
fn write_allowed<W: Write>(
    source: Source<'_>,
    fault: &RuleFault<'_>,
    what: &str,
    allowed: &[Piece<'_>],
    out: &mut W,
) -> io::Result<()> {
    source.note(fault.place, &[Text(what)], "allowed", allowed, out)
}

/// Writes that no routine has the name, whether a task has it, and which names routines have.
fn write_no_routine<W: Write>(
    alloc: Global,
    names: &Names<'_>,
    source: Source<'_>,
    fault: &RuleFault<'_>,
    out: &mut W,
) -> io::Result<()> {
    source.tell(fault.place, &[Text("there is no ISR of that name")], out)?;
    if names.has_task(fault.word) {
        writeln!(out, " hint: {} is of the kind TASK", fault.word)?;
    }
    write_choice(alloc, fault.word, &names.routines, out)
}

/// Writes what is wrong at a place, and where the same was said first.
fn write_twice<W: Write>(
    source: Source<'_>,
    fault: &RuleFault<'_>,
    first: usize,
    out: &mut W,
) -> io::Result<()> {
    let Position { line, column } = position(source, first);
    source.tell(fault.place, &[Text("this is said twice")], out)?;
    writeln!(out, " first: {}:{line}:{column}", source.name)
}

/// Writes what is wrong, and what would be allowed.
fn write_fault<W: Write>(
    alloc: Global,
    names: &Names<'_>,
    source: Source<'_>,
    fault: &RuleFault<'_>,
    out: &mut W,
) -> io::Result<()> {
    match fault.wrong {
        RuleWrong::NoRule => { write_names(alloc, source, fault, "no rule begins so", &WORDS, out) }
        RuleWrong::NoRoutine => write_no_routine(alloc, names, source, fault, out),
        RuleWrong::NoThing => {
            let what = "there is no TASK or ISR of that name";
            write_names(alloc, source, fault, what, &names.all(alloc)?, out)
        }
        RuleWrong::Short(form) => {
            write_allowed(source, fault, "the line ends too soon", &[Text(form)], out)
        }
        RuleWrong::Long(form) => {
            write_allowed(source, fault, "a word too many", &[Text(form)], out)
        }
        RuleWrong::Number(least, most) => {
            let range = [Number(least as usize), Text(" to "), Number(most as usize)];
            write_allowed(source, fault, "this is no number in range", &range, out)
        }
        RuleWrong::OtherFigure(figure) => {
            let what = "no limit is on such a figure of it";
            write_allowed(source, fault, what, &[Text(figure)], out)
        }
        RuleWrong::TwoThings => {
            let what = "a TASK and an ISR have that name";
            write_allowed(
                source,
                fault,
                what,
                &[Text("a name that one of them has")],
                out,
            )
        }
        RuleWrong::Twice(first) => write_twice(source, fault, first, out),
    }
}

/// Writes what is wrong at each place, as far as memory allows.
fn write_faults<W: Write>(
    alloc: Global,
    file: &OilFile,
    source: Source<'_>,
    faults: &[RuleFault<'_>],
    out: &mut W,
) -> io::Result<()> {
    let names = Names::of(alloc, file)?;
    for fault in faults {
        write_fault(alloc, &names, source, fault, out)?;
    }
    Ok(())
}

/// Writes how many things are wrong with a file of rules, and, where it is explained, each with its
/// place and what would be allowed, as far as memory allows. An error is a failed write, or want of
/// memory for the explanation.
pub fn write_refused<W: Write>(
    alloc: Global,
    file: &OilFile,
    source: Source<'_>,
    faults: &[RuleFault<'_>],
    is_explained: bool,
    out: &mut W,
) -> io::Result<()> {
    write_count(source, faults, out)?;
    if is_explained {
        write_faults(alloc, file, source, faults, out)?;
    }
    Ok(())
}
