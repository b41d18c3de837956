//! How interrupts come: what is said of each routine, and of which nothing is said.

use crate::pieces::{Piece, write_pieces};
use crate::report::Report;
use cli_requests::SaidArriving;
use cli_tables::said_of;
use std::io::{self, Write};

const UNSAID: &str = "<td class=\"above\">1 (not said): an interrupt may come in each tick</td>";

const NEVER: &str = "<td>never</td><td></td><td></td></tr>\n";

/// Writes a cell of ticks; an empty one where none are said. An error is a failed write.
fn write_ticks<O: Write>(said: Option<u32>, out: &mut O) -> io::Result<()> {
    match said {
        Some(ticks) => write_pieces(
            &[
                Piece::Own("<td>"),
                Piece::Number(ticks),
                Piece::Own("</td>"),
            ],
            out,
        ),
        None => out.write_all(b"<td></td>"),
    }
}

/// Writes the row of a routine. An error is a failed write.
fn write_row<O: Write>(name: &str, said: SaidArriving<'_>, out: &mut O) -> io::Result<()> {
    write_pieces(
        &[
            Piece::Own("<tr><th scope=\"row\">"),
            Piece::Text(name),
            Piece::Own("</th>"),
        ],
        out,
    )?;
    if said_of(said.never, name).is_some() {
        return out.write_all(NEVER.as_bytes());
    }
    let period = said_of(said.apart, name);
    let least = said_of(said.least, name);
    if period.is_none() && least.is_none() {
        out.write_all(UNSAID.as_bytes())?;
    } else {
        write_ticks(period, out)?;
    }
    write_ticks(said_of(said.jitter, name), out)?;
    write_ticks(least, out)?;
    out.write_all(b"</tr>\n")
}

/// Writes how the interrupts of each routine come. An error is a failed write.
pub(crate) fn write_coming<O: Write>(report: &Report<'_>, out: &mut O) -> io::Result<()> {
    let routines = report.system.names().routines.as_slice();
    out.write_all(b"<section id=\"interrupts\">\n<h2>Interrupts</h2>\n")?;
    if routines.is_empty() {
        return out.write_all(b"<p>There is no routine.</p>\n</section>\n");
    }
    out.write_all(b"<table>\n<thead><tr><th scope=\"col\">routine</th>")?;
    out.write_all(b"<th scope=\"col\">ticks apart, at least</th>")?;
    out.write_all(b"<th scope=\"col\">jitter</th>")?;
    out.write_all(b"<th scope=\"col\">least, in any case</th></tr></thead>\n<tbody>\n")?;
    for name in routines {
        write_row(name.as_str(), report.asked.said, out)?;
    }
    out.write_all(b"</tbody>\n</table>\n</section>\n")
}
