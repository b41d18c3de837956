//! The bounds of all figures, found or counted, with what they promise.

use crate::pieces::{Escaped, Piece, write_list, write_pieces, write_text};
use crate::report::Report;
use cli_tables::{Cell, Counted, cell, write_remarks, write_services};
use osek_base::System;
use search::Outcome;
use search_witnesses::Findings;
use std::alloc::Global;
use std::io::{self, Write};
use tracer::RunFault;
use view_figure_texts::measure_word;
use view_measures::{Figure, KINDS, Kind};

const DECIDED: &str = "<p>Ticks, or numbers of things, of all runs in which interrupts come as
<a href=\"#interrupts\">is said</a>, for programs that take exactly these ticks.
<b class=\"reached\">7</b>: a run shows it, and none shows more.
<b class=\"bound\">&lt;=7</b>: none shows more, and none is known that shows as much.
<b class=\"above\">above</b>: nothing is promised.
<b class=\"unbounded\">unbounded</b>: some run shows as much as one likes.</p>
";

const COUNTED: &str = "<p>Ticks, or numbers of things, of all runs in which interrupts come as
<a href=\"#interrupts\">is said</a>, for programs that take exactly these ticks. They are counted
and not searched, so often above what any run shows.
<b class=\"bound\">&lt;=7</b>: none shows more.
<b class=\"above\">above</b>: nothing is promised.</p>
";

const UNCOUNTED: &str = "<p>So many places of programs aren't counted: <b>nothing is promised of
every run</b>.</p>
";

/// Writes what a figure stands for. An error is a failed write.
fn write_meaning<O: Write>(outcome: Outcome, out: &mut O) -> io::Result<()> {
    match outcome {
        Outcome::Decided(_) => out.write_all(DECIDED.as_bytes()),
        Outcome::Undecided(_, progress) => writeln!(
            out,
            "<p>The search stopped before its end, so <b>it promises nothing of every run</b>. What
follows holds of runs of at most {} ticks.</p>",
            progress.levels
        ),
    }
}

/// Writes what bounds of an upper part hold of; nothing where they are of the whole system. An
/// error is a failed write.
fn write_part<O: Write>(upper: Option<u8>, out: &mut O) -> io::Result<()> {
    match upper {
        Some(priority) => writeln!(
            out,
            "<p>Of the part from priority {priority} upward by itself. What is told of it holds in
this system, and in each other one that is the same from {priority} upward and whose
<a href=\"#cuts\">cut</a> there is accepted, whatever its lower tasks do.</p>"
        ),
        None => Ok(()),
    }
}

fn write_columns<O: Write>(kind: Kind, out: &mut O) -> io::Result<()> {
    write_pieces(
        &[
            Piece::Own("<table>\n<thead><tr><th scope=\"col\">"),
            Piece::Own(kind.word()),
            Piece::Own("</th>"),
        ],
        out,
    )?;
    for measure in kind.measures() {
        write_pieces(
            &[
                Piece::Own("<th scope=\"col\">"),
                Piece::Own(measure_word(*measure)),
                Piece::Own("</th>"),
            ],
            out,
        )?;
    }
    out.write_all(b"</tr></thead>\n<tbody>\n")
}

/// Writes what is told of a figure.
fn write_cell<O: Write>(alloc: Global, cell: Cell, out: &mut O) -> Result<(), RunFault> {
    let mut shown = String::new(alloc);
    cell.push_shown(&mut shown)?;
    out.write_all(b"<td class=\"")?;
    out.write_all(cell.standing().as_bytes())?;
    out.write_all(b"\">")?;
    write_text(shown.as_bytes(), out)?;
    Ok(out.write_all(b"</td>")?)
}

fn write_row<O: Write>(
    alloc: Global,
    system: &System,
    found: &Findings,
    kind: Kind,
    number: usize,
    out: &mut O,
) -> Result<(), RunFault> {
    let name = kind.name(system, number);
    write_pieces(
        &[
            Piece::Own("<tr><th scope=\"row\">"),
            Piece::Text(name),
            Piece::Own("</th>"),
        ],
        out,
    )?;
    for measure in kind.measures() {
        let figure = Figure {
            measure: *measure,
            number,
        };
        write_cell(alloc, cell(found, figure), out)?;
    }
    Ok(out.write_all(b"</tr>\n")?)
}

/// Writes the table of a kind.
fn write_kind<O: Write>(
    alloc: Global,
    system: &System,
    found: &Findings,
    kind: Kind,
    out: &mut O,
) -> Result<(), RunFault> {
    write_columns(kind, out)?;
    for number in 0..kind.count(system) {
        write_row(alloc, system, found, kind, number, out)?;
    }
    Ok(out.write_all(b"</tbody>\n</table>\n")?)
}

/// Writes the tables of all kinds of which there are objects.
fn write_kinds<O: Write>(
    alloc: Global,
    system: &System,
    found: &Findings,
    out: &mut O,
) -> Result<(), RunFault> {
    for kind in &KINDS {
        if kind.count(system) > 0 {
            write_kind(alloc, system, found, *kind, out)?;
        }
    }
    Ok(())
}

/// Writes the services that may be answered other than E_OK, if there are any. An error is a failed
/// write.
fn write_failing<O: Write>(system: &System, found: &Findings, out: &mut O) -> io::Result<()> {
    if found.bounds.peaks.failures().is_empty() {
        return Ok(());
    }
    out.write_all(b"<pre>")?;
    write_services(system, found, &mut Escaped::new(&mut *out))?;
    out.write_all(b"</pre>\n")
}

/// Whether figures are told: of all runs, or of those of some ticks.
fn has_figures(outcome: Outcome) -> bool {
    match outcome {
        Outcome::Decided(_) => true,
        Outcome::Undecided(_, progress) => progress.levels > 0,
    }
}

/// Writes the bounds that a search has found, and what they mean.
fn write_found<O: Write>(
    alloc: Global,
    system: &System,
    found: &Findings,
    out: &mut O,
) -> Result<(), RunFault> {
    let outcome = found.bounds.outcome;
    write_meaning(outcome, out)?;
    if has_figures(outcome) {
        write_kinds(alloc, system, found, out)?;
        write_failing(system, found, out)?;
    }
    let mut remarks = Vec::new(alloc);
    // The only write that can fail there is for want of memory.
    if write_remarks(system, found, &mut remarks).is_err() {
        return Err(RunFault::Memory);
    }
    Ok(write_list(&remarks, out)?)
}

/// Writes the bounds that are counted, and of each level how; where it needs too many nodes, that
/// nothing is promised.
fn write_counted<O: Write>(
    alloc: Global,
    system: &System,
    counted: Option<&Counted>,
    out: &mut O,
) -> Result<(), RunFault> {
    let Some(counted) = counted else {
        return Ok(out.write_all(UNCOUNTED.as_bytes())?);
    };
    out.write_all(COUNTED.as_bytes())?;
    write_kinds(alloc, system, &counted.found, out)?;
    write_failing(system, &counted.found, out)?;
    Ok(write_list(&counted.levels, out)?)
}

/// Writes the bounds that are counted behind those of a search that stopped before its end.
fn write_behind<O: Write>(
    alloc: Global,
    system: &System,
    counted: &Counted,
    out: &mut O,
) -> Result<(), RunFault> {
    out.write_all(b"<section id=\"counted\">\n<h2>Counted, for ever</h2>\n")?;
    write_counted(alloc, system, Some(counted), out)?;
    Ok(out.write_all(b"</section>\n")?)
}

/// Writes the bounds of all figures, and what they mean: those that a search has found, or that are
/// counted in its place. Behind a search that stopped before its end stand those that are counted.
pub(crate) fn write_bounds<O: Write>(
    alloc: Global,
    report: &Report<'_>,
    out: &mut O,
) -> Result<(), RunFault> {
    out.write_all(b"<section id=\"bounds\">\n<h2>Bounds</h2>\n")?;
    write_part(report.asked.line.upper, out)?;
    let Some(found) = report.found else {
        write_counted(alloc, report.system, report.counted.as_ref(), out)?;
        return Ok(out.write_all(b"</section>\n")?);
    };
    write_found(alloc, report.system, found, out)?;
    out.write_all(b"</section>\n")?;
    match report.counted {
        Some(counted) => write_behind(alloc, report.system, counted, out),
        None => Ok(()),
    }
}
