//! What came to a task or a routine, as SVG.

use crate::layout::Layout;
use crate::mark::{Mark, Sign};
use crate::pieces::{Piece, write_pieces};
use osek_base::System;
use std::alloc::{AllocError, Global};
use std::io::{self, Write};

/// The class of a mark, and its shape below the middle of its tick, from where it stands in its row.
fn shape(sign: Sign) -> [&'static str; 2] {
    match sign {
        Sign::Activated(_) | Sign::Arrived(_) => ["activation", " 18l-4-8h8z"],
        Sign::EventsSet(_) => ["event", " 40l5 5-5 5-5-5z"],
        Sign::Expired(_) => ["expiry", " 1a4 4 0 1 1 0 8a4 4 0 1 1 0-8z"],
        Sign::ExpiryRefused(_) => [
            "refused",
            " 1a4 4 0 1 1 0 8a4 4 0 1 1 0-8zm-3 1l6 6m0-6l-6 6",
        ],
        Sign::Lost(_) => ["error", " 3l3-3 2 2-3 3 3 3-2 2-3-3-3 3-2-2 3-3-3-3 2-2z"],
        Sign::Refused(_) => ["error", " 28l3-3 2 2-3 3 3 3-2 2-3-3-3 3-2-2 3-3-3-3 2-2z"],
    }
}

fn alarm_name(system: &System, alarm: usize) -> &str {
    match system.names().alarms.get(alarm) {
        None => "",
        Some(name) => name.as_str(),
    }
}

/// What a mark tells, before its end.
fn what(sign: Sign) -> &'static str {
    match sign {
        Sign::Activated(_) => ": activations: ",
        Sign::EventsSet(_) => ": events set:",
        Sign::Expired(_) => ": alarm expires: ",
        Sign::ExpiryRefused(_) => ": alarm expires, its action is refused: ",
        Sign::Arrived(_) => ": interrupts arrive: ",
        Sign::Lost(_) => ": interrupts are lost: ",
        Sign::Refused(_) => ": a service answers status ",
    }
}

/// Writes the names of the events of a mask. An error is a failed write.
fn write_events<W: Write>(system: &System, mask: u32, out: &mut W) -> io::Result<()> {
    let masks = system.parts().events.as_slice();
    let names = system.names().events.as_slice();
    for (event, name) in masks.iter().zip(names) {
        if mask & *event != 0 {
            write_pieces(&[Piece::Text(" "), Piece::Name(name.as_str())], out)?;
        }
    }
    Ok(())
}

/// Writes what a mark tells at its end. An error is a failed write.
fn write_detail<W: Write>(system: &System, sign: Sign, out: &mut W) -> io::Result<()> {
    let detail = match sign {
        Sign::Activated(jobs) => Piece::Number(u32::from(jobs)),
        Sign::EventsSet(mask) => return write_events(system, mask, out),
        Sign::Expired(alarm) | Sign::ExpiryRefused(alarm) => Piece::Name(alarm_name(system, alarm)),
        Sign::Arrived(interrupts) | Sign::Lost(interrupts) => Piece::Number(interrupts),
        Sign::Refused(status) => Piece::Number(u32::from(status.number())),
    };
    write_pieces(&[detail], out)
}

/// What a mark tells, as text. An error is want of memory.
pub(crate) fn sign_text(alloc: Global, system: &System, sign: Sign) -> Result<String, AllocError> {
    match sign {
        Sign::Activated(jobs) => format!(in alloc; "activations: {jobs}"),
        Sign::EventsSet(mask) => events_text(alloc, system, mask),
        Sign::Expired(alarm) => {
            format!(in alloc; "alarm expires: {}", alarm_name(system, alarm))
        }
        Sign::ExpiryRefused(alarm) => {
            format!(in alloc;
                "alarm expires, its action is refused: {}",
                alarm_name(system, alarm)
            )
        }
        Sign::Arrived(interrupts) => format!(in alloc; "interrupts arrive: {interrupts}"),
        Sign::Lost(interrupts) => format!(in alloc; "interrupts are lost: {interrupts}"),
        Sign::Refused(status) => {
            format!(in alloc; "a service answers status {}", status.number())
        }
    }
}

/// The names of the events of a mask that are set, as text.
fn events_text(alloc: Global, system: &System, mask: u32) -> Result<String, AllocError> {
    let mut text = String::from_str(alloc, "events set:")?;
    let masks = system.parts().events.as_slice();
    for (event, name) in masks.iter().zip(system.names().events.as_slice()) {
        if mask & *event != 0 {
            text.push_str(" ")?;
            text.push_str(name.as_str())?;
        }
    }
    Ok(text)
}

/// Writes a mark. An error is a failed write.
fn write_mark<W: Write>(
    system: &System,
    mark: &Mark,
    layout: Layout,
    out: &mut W,
) -> io::Result<()> {
    let [class, form] = shape(mark.sign);
    write_pieces(
        &[
            Piece::Text("<path class=\""),
            Piece::Text(class),
            Piece::Text("\" d=\"M"),
            Piece::Number(layout.middle(mark.tick)),
            Piece::Text(form),
            Piece::Text("\"><title>tick "),
            Piece::Number(mark.tick),
            Piece::Text(what(mark.sign)),
        ],
        out,
    )?;
    write_detail(system, mark.sign, out)?;
    out.write_all(b"</title></path>\n")
}

/// Writes the marks of a row, and the row's end. An error is a failed write.
pub(crate) fn write_marks<W: Write>(
    system: &System,
    marks: &[Mark],
    layout: Layout,
    out: &mut W,
) -> io::Result<()> {
    for mark in marks {
        write_mark(system, mark, layout, out)?;
    }
    out.write_all(b"</g>\n")
}
