//! A stretch of a row as SVG.

use crate::activity::Activity;
use crate::drawn_row::DrawnRow;
use crate::held::Held;
use crate::kind::class;
use crate::layout::Layout;
use crate::pieces::{Piece, write_pieces};
use crate::stretch::Stretch;
use osek_base::System;
use seen_ticks::MAX_HELD;
use std::io::{self, Write};

/// A line along a stretch: its class, where it stands below the row's upper end, and its height.
#[derive(Clone, Copy)]
struct Edge {
    class: &'static str,
    y: u32,
    height: u32,
}

/// The priority is above the static one.
const RAISED: Edge = Edge {
    class: "raised",
    y: 19,
    height: 4,
};

/// There is more than one job.
const QUEUED: Edge = Edge {
    class: "queued",
    y: 38,
    height: 3,
};

/// A resource is held.
const HELD: Edge = Edge {
    class: "held",
    y: 43,
    height: 3,
};

/// What stands along the ticks of a stretch.
const FILL_Y: u32 = 22;

const FILL_HEIGHT: u32 = 16;

/// The name of the resource of that number; behind the declared ones stands RES_SCHEDULER.
fn resource_name(system: &System, number: usize) -> &str {
    match system.names().resources.get(number) {
        Some(name) => name.as_str(),
        None => "RES_SCHEDULER",
    }
}

/// Writes the names of the resources that are held. An error is a failed write.
fn write_held<W: Write>(system: &System, held: Held, out: &mut W) -> io::Result<()> {
    if held.is_none() {
        return Ok(());
    }
    write_pieces(&[Piece::Text(", holds")], out)?;
    for number in 0..MAX_HELD {
        if held.contains(number) {
            let name = resource_name(system, number);
            write_pieces(&[Piece::Text(" "), Piece::Name(name)], out)?;
        }
    }
    Ok(())
}

/// Writes what a stretch tells. An error is a failed write.
fn write_title<W: Write>(
    system: &System,
    row: DrawnRow<'_>,
    stretch: &Stretch,
    out: &mut W,
) -> io::Result<()> {
    let moment = stretch.moment;
    write_pieces(
        &[
            Piece::Text("<title>"),
            Piece::Name(row.name),
            Piece::Text(": "),
            Piece::Text(row.kind.does(moment.activity)),
            Piece::Text(", ticks "),
            Piece::Number(stretch.first),
            Piece::Text(" to "),
            Piece::Number(stretch.last),
            Piece::Text(", priority "),
            Piece::Number(u32::from(moment.priority)),
        ],
        out,
    )?;
    if row.priority < moment.priority {
        write_pieces(&[Piece::Text(", raised")], out)?;
    }
    if moment.jobs > 1 {
        let jobs = Piece::Number(u32::from(moment.jobs));
        write_pieces(&[Piece::Text(", jobs "), jobs], out)?;
    }
    write_held(system, moment.held, out)?;
    out.write_all(b"</title>")
}

/// Writes a line along the ticks of a stretch. An error is a failed write.
fn write_edge<W: Write>(
    edge: Edge,
    stretch: &Stretch,
    layout: Layout,
    out: &mut W,
) -> io::Result<()> {
    write_pieces(
        &[
            Piece::Text("<rect class=\""),
            Piece::Text(edge.class),
            Piece::Text("\" x=\""),
            Piece::Number(layout.x(stretch.first)),
            Piece::Text("\" y=\""),
            Piece::Number(edge.y),
            Piece::Text("\" width=\""),
            Piece::Number(layout.span(stretch.first, stretch.last)),
            Piece::Text("\" height=\""),
            Piece::Number(edge.height),
            Piece::Text("\"/>"),
        ],
        out,
    )
}

/// Writes a stretch of a row, if something is done in it. An error is a failed write.
pub(crate) fn write_stretch<W: Write>(
    system: &System,
    row: DrawnRow<'_>,
    stretch: &Stretch,
    layout: Layout,
    out: &mut W,
) -> io::Result<()> {
    let moment = stretch.moment;
    if moment.activity == Activity::Nothing {
        return Ok(());
    }
    let fill = Edge {
        class: class(moment.activity),
        y: FILL_Y,
        height: FILL_HEIGHT,
    };
    out.write_all(b"<g>")?;
    write_title(system, row, stretch, out)?;
    write_edge(fill, stretch, layout, out)?;
    if row.priority < moment.priority {
        write_edge(RAISED, stretch, layout, out)?;
    }
    if moment.jobs > 1 {
        write_edge(QUEUED, stretch, layout, out)?;
    }
    if !moment.held.is_none() {
        write_edge(HELD, stretch, layout, out)?;
    }
    out.write_all(b"</g>\n")
}
