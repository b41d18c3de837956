//! How interrupts come, as bounds tell it: what they hold of.

use crate::arriving::said_of;
use cli_requests::SaidArriving;
use osek_base::System;
use std::io::{self, Write};

/// Writes what is said of a routine. An error is a failed write.
fn write_said<W: Write>(name: &str, said: SaidArriving<'_>, out: &mut W) -> io::Result<()> {
    if said_of(said.never, name).is_some() {
        return write!(out, "{name} never");
    }
    let least = said_of(said.least, name);
    match (said_of(said.apart, name), least) {
        (Some(ticks), _) => write!(out, "{name} {ticks}")?,
        (None, Some(_)) => write!(out, "{name}")?,
        (None, None) => write!(out, "{name} 1 (not said)")?,
    }
    if let Some(ticks) = said_of(said.jitter, name) {
        write!(out, " jitter {ticks}")?;
    }
    if let Some(ticks) = least {
        write!(out, " least {ticks}")?;
    }
    Ok(())
}

/// Writes a line with the period of each routine's interrupts, in declaration order, with jitter
/// and least distance where they are said, and of which nothing is said; nothing, where there is
/// no routine. An error is a failed write.
pub fn write_coming<W: Write>(
    system: &System,
    said: SaidArriving<'_>,
    out: &mut W,
) -> io::Result<()> {
    let names = system.names();
    if names.routines.is_empty() {
        return Ok(());
    }
    for (number, name) in names.routines.iter().enumerate() {
        let lead = if number == 0 { "apart: " } else { ", " };
        out.write_all(lead.as_bytes())?;
        write_said(name.as_str(), said, out)?;
    }
    out.write_all(b"\n")
}

/// Whether something is said of a routine.
fn is_said(name: &str, said: SaidArriving<'_>) -> bool {
    said_of(said.apart, name).is_some()
        || said_of(said.least, name).is_some()
        || said_of(said.never, name).is_some()
}

/// Writes a line with the routines of which nothing is said; nothing, where there are none. An
/// error is a failed write.
pub(crate) fn write_unsaid<W: Write>(
    system: &System,
    said: SaidArriving<'_>,
    out: &mut W,
) -> io::Result<()> {
    let mut is_first = true;
    for name in &system.names().routines {
        if !is_said(name.as_str(), said) {
            let lead = if is_first {
                "not said: the distance of "
            } else {
                ", "
            };
            write!(out, "{lead}{}", name.as_str())?;
            is_first = false;
        }
    }
    if !is_first {
        out.write_all(b": an interrupt may come in each tick\n")?;
    }
    Ok(())
}
