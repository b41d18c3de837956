//! The rules of a description, for all runs: how interrupts come, and what may take how long.

use make_descriptions::description::{Arriving, Described};
use make_descriptions::routines::{Routine, routines};
use std::alloc::Global;
use std::io::{self, Write};

/// Writes what a description says of when a routine's interrupts come.
fn write_source<W: Write>(arriving: Arriving, out: &mut W) -> io::Result<()> {
    match arriving {
        Arriving::Never => out.write_all(b"nothing tells when it arrives"),
        Arriving::Listed { least: None, .. } => {
            out.write_all(b"its ticks are listed, without least")
        }
        Arriving::Periodic {
            period,
            jitter: 0,
            ..
        } => write!(out, "period = {period}"),
        Arriving::Periodic { period, jitter, .. } => {
            write!(out, "period = {period}, jitter = {jitter}")
        }
        Arriving::Listed {
            least: Some(least),
            ..
        }
        | Arriving::Random { least, .. } => write!(out, "least = {least}"),
    }
}

/// Writes how the interrupts of a routine come, where that is said.
fn write_arriving<W: Write>(routine: Routine<'_>, out: &mut W) -> io::Result<()> {
    write!(out, "# {}{}: ", routine.front, routine.name)?;
    write_source(routine.arriving, out)?;
    match routine.arriving.distance() {
        Some(distance) => writeln!(out, "\napart {}{} {distance}", routine.front, routine.name)?,
        None => out.write_all(b": it may come in every tick\n")?,
    }
    match routine.arriving.jitter() {
        Some(jitter) => writeln!(out, "jitter {}{} {jitter}", routine.front, routine.name),
        None => Ok(()),
    }
}

/// Writes a limit, where one is said.
fn write_limit<W: Write>(
    name: &str,
    figure: &str,
    deadline: Option<u32>,
    out: &mut W,
) -> io::Result<()> {
    match deadline {
        Some(ticks) => {
            writeln!(out, "# {name}: deadline = {ticks}")?;
            writeln!(out, "limit {name} {figure} {ticks}")
        }
        None => Ok(()),
    }
}

/// Writes the rules: a line `apart` for each routine of which a distance is said, with a line
/// `jitter` where it has one, then a line `limit` for each deadline, each below a comment that says whence it comes. An error is a failed
/// write or want of memory.
pub fn write_rules<W: Write>(
    alloc: Global,
    described: &Described<'_>,
    out: &mut W,
) -> io::Result<()> {
    writeln!(
        out,
        "# Rules of {}, made of its description.",
        described.name
    )?;
    for routine in routines(alloc, described)? {
        write_arriving(routine, out)?;
    }
    for interrupt in &described.interrupts {
        write_limit(interrupt.name, "latency", interrupt.deadline, out)?;
    }
    for task in &described.tasks {
        write_limit(task.name, "greatest", task.deadline, out)?;
    }
    Ok(())
}
