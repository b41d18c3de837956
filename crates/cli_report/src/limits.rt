//! The limits that are said, and whether the bounds keep them.

use crate::pieces::{Piece, write_list, write_pieces};
use crate::report::{Report, promised};
use cli_tables::broken_bounds;
use std::alloc::Global;
use std::io::{self, Write};
use tracer::RunFault;
use view_figure_texts::{Limit, Limits};

/// Writes the row of a limit up to its verdict. An error is a failed write.
fn write_limit<O: Write>(limits: &Limits<'_>, out: &mut O) -> io::Result<()> {
    out.write_all(b"<tr><th scope=\"row\">")?;
    for limit in limits.times {
        let ticks = Piece::Number(limit.ticks);
        write_pieces(&[Piece::Text(limit.name), Piece::Own(" "), ticks], out)?;
    }
    if limits.no_loss {
        out.write_all(b"no loss")?;
    }
    if limits.no_refusal {
        out.write_all(b"no refusal")?;
    }
    out.write_all(b"</th>")
}

/// Writes the row of one limit.
fn write_row<O: Write>(
    alloc: Global,
    report: &Report<'_>,
    limits: &Limits<'_>,
    out: &mut O,
) -> Result<(), RunFault> {
    write_limit(limits, out)?;
    let Some(found) = promised(report) else {
        return Ok(out.write_all(b"<td>undecided</td></tr>\n")?);
    };
    let broken = broken_bounds(alloc, report.system, found, limits)?;
    if broken.is_empty() {
        return Ok(out.write_all(b"<td class=\"kept\">kept</td></tr>\n")?);
    }
    out.write_all(b"<td class=\"broken\">")?;
    write_list(broken.as_bytes(), out)?;
    Ok(out.write_all(b"</td></tr>\n")?)
}

/// Writes the rows of the limits on times.
fn write_times<O: Write>(
    alloc: Global,
    report: &Report<'_>,
    times: &[Limit<'_>],
    out: &mut O,
) -> Result<(), RunFault> {
    for limit in times {
        let times = [*limit];
        let limits = Limits {
            times: &times,
            no_loss: false,
            no_refusal: false,
        };
        write_row(alloc, report, &limits, out)?;
    }
    Ok(())
}

/// Writes a row for each limit: those on times first.
fn write_rows<O: Write>(
    alloc: Global,
    report: &Report<'_>,
    said: &Limits<'_>,
    out: &mut O,
) -> Result<(), RunFault> {
    write_times(alloc, report, said.times, out)?;
    if said.no_loss {
        let limits = Limits {
            times: &[],
            no_loss: true,
            no_refusal: false,
        };
        write_row(alloc, report, &limits, out)?;
    }
    if said.no_refusal {
        let limits = Limits {
            times: &[],
            no_loss: false,
            no_refusal: true,
        };
        write_row(alloc, report, &limits, out)?;
    }
    Ok(())
}

/// Writes the limits, each with whether it is kept.
pub(crate) fn write_limits<O: Write>(
    alloc: Global,
    report: &Report<'_>,
    out: &mut O,
) -> Result<(), RunFault> {
    let said = report.asked.limits;
    out.write_all(b"<section id=\"limits\">\n<h2>Limits</h2>\n")?;
    if said.times.is_empty() && !said.no_loss && !said.no_refusal {
        out.write_all(b"<p>No limit is said.</p>\n")?;
    } else {
        out.write_all(b"<table>\n<thead><tr><th scope=\"col\">limit</th>")?;
        out.write_all(b"<th scope=\"col\">verdict</th></tr></thead>\n<tbody>\n")?;
        write_rows(alloc, report, &said, out)?;
        out.write_all(b"</tbody>\n</table>\n")?;
    }
    Ok(out.write_all(b"</section>\n")?)
}
