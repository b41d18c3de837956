//! Mistakes of programs, each at its place.

use crate::parsed::Parsed;
use crate::uses::task_lists;
use crate::warnings::Warnings;
use explain_texts::Piece::{Named, Text};
use explain_texts::{CodeWord, Part};
use oil_reader::Kind;
use std::io::{self, Write};
use task_asm::ProgramKind;

/// An operand of a program, with what stands before it.
#[derive(Clone, Copy)]
struct Operand<'a> {
    /// The kind of the program.
    kind: ProgramKind,
    /// Whose program it is.
    owner: &'a str,
    mnemonic: &'a str,
    /// The instruction's first operand.
    first: &'a str,
    name: &'a str,
    place: usize,
    /// How many operands stand before it.
    number: usize,
}

/// Warns of a service that a routine may not call.
fn warn_of_routine<'p, W: Write>(
    parsed: Parsed<'_, '_>,
    operand: Operand<'p>,
    status: &'p str,
    warnings: &mut Warnings<'_, W>,
) -> io::Result<()> {
    let what = [
        Text("warning: "),
        Text(operand.mnemonic),
        Text(" of "),
        Named(Kind::Isr, operand.owner),
        Text(" is answered "),
        Text(status),
    ];
    warnings.warn(parsed.asm, operand.place, &what)
}

/// Warns of an object that a task uses and doesn't list.
fn warn_of_use<'p, W: Write>(
    parsed: Parsed<'_, '_>,
    operand: Operand<'p>,
    task: &'p str,
    kind: Kind,
    warnings: &mut Warnings<'_, W>,
) -> io::Result<()> {
    let word = if kind == Kind::Event {
        "EVENT"
    } else {
        "RESOURCE"
    };
    if task_lists(parsed.tree, task, word, operand.name) {
        return Ok(());
    }
    warnings.warn_unlisted(parsed.asm, operand.place, task, kind, operand.name)
}

/// Warns of an operand of a resource that is to be got.
fn warn_of_get<W: Write>(
    parsed: Parsed<'_, '_>,
    operand: Operand<'_>,
    warnings: &mut Warnings<'_, W>,
) -> io::Result<()> {
    if operand.kind == ProgramKind::Routine {
        return warn_of_routine(parsed, operand, "E_OS_ACCESS", warnings);
    }
    if operand.name == "RES_SCHEDULER" {
        return Ok(());
    }
    warn_of_use(parsed, operand, operand.owner, Kind::Resource, warnings)
}

/// Warns of an operand of an event that is waited for or cleared.
fn warn_of_wait<W: Write>(
    parsed: Parsed<'_, '_>,
    operand: Operand<'_>,
    warnings: &mut Warnings<'_, W>,
) -> io::Result<()> {
    if operand.kind == ProgramKind::Task {
        return warn_of_use(parsed, operand, operand.owner, Kind::Event, warnings);
    }
    if operand.number > 0 {
        return Ok(());
    }
    warn_of_routine(parsed, operand, "E_OS_CALLEVEL", warnings)
}

fn warn_of_operand<W: Write>(
    parsed: Parsed<'_, '_>,
    operand: Operand<'_>,
    warnings: &mut Warnings<'_, W>,
) -> io::Result<()> {
    if operand.first == "INVALID" {
        return Ok(());
    }
    match operand.mnemonic {
        "GETR" => warn_of_get(parsed, operand, warnings),
        "WAIT" | "CLRE" => warn_of_wait(parsed, operand, warnings),
        "SETE" if operand.number > 0 => {
            warn_of_use(parsed, operand, operand.first, Kind::Event, warnings)
        }
        _ => Ok(()),
    }
}

/// What stands before a word: the kind and the owner of its program, and its instruction's first
/// operand.
#[derive(Clone, Copy)]
struct BeforeWord<'a> {
    kind: ProgramKind,
    owner: &'a str,
    first: &'a str,
}

/// What stands before the words behind a word.
fn behind<'a>(before: BeforeWord<'a>, word: CodeWord<'a>) -> BeforeWord<'a> {
    match word.part {
        Part::Owner(kind) => BeforeWord {
            kind,
            owner: word.text,
            first: "",
        },
        Part::Operand { number: 0, .. } => BeforeWord {
            first: word.text,
            ..before
        },
        _ => before,
    }
}

/// Writes what is surely a mistake in programs, by place. An error is a failed write.
pub(crate) fn warn_of_calls<W: Write>(
    parsed: Parsed<'_, '_>,
    warnings: &mut Warnings<'_, W>,
) -> io::Result<()> {
    let mut before = BeforeWord {
        kind: ProgramKind::Task,
        owner: "",
        first: "",
    };
    for word in parsed.words {
        before = behind(before, *word);
        if let Part::Operand { mnemonic, number } = word.part {
            let operand = Operand {
                kind: before.kind,
                owner: before.owner,
                mnemonic,
                first: before.first,
                name: word.text,
                place: word.place,
                number,
            };
            warn_of_operand(parsed, operand, warnings)?;
        }
    }
    Ok(())
}
