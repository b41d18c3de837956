//! The runs that show the longest responses of tasks and latencies of routines.

use crate::picture::write_run;
use crate::pieces::{Piece, write_pieces};
use crate::report::Report;
use cli_tables::{NamedFigure, run_of};
use search::Outcome;
use search_nodes::Bounds;
use std::alloc::Global;
use std::io::{self, Write};
use tracer::RunFault;
use view_figure_texts::measure_word;
use view_measures::{Figure, Measure};

const MEANING: &str = "<p>For each task a run with its longest response, for each routine one with
its longest latency. A picture is asked by the pointer, or by the arrow keys once it has the focus;
<kbd>+</kbd> and <kbd>-</kbd> zoom, <kbd>0</kbd> is as it was.</p>
";

const UNDECIDED: &str = "<p>The search is undecided: no worst case is known.</p>\n";

const COUNTED: &str = "<p>The bounds are counted: counting has no run that shows one, so no worst
case is known.</p>
";

/// Writes that of a figure no run is known. An error is a failed write.
fn write_unknown<O: Write>(named: NamedFigure, name: &str, out: &mut O) -> io::Result<()> {
    write_pieces(
        &[
            Piece::Own("<p>"),
            Piece::Own(named.kind),
            Piece::Own(" "),
            Piece::Text(name),
            Piece::Own(": no run is known that shows what is told of "),
            Piece::Own(named.column),
            Piece::Own(".</p>\n"),
        ],
        out,
    )
}

/// Writes a run of a figure, if one is known, or else that none is. Answers whether it has a
/// picture.
fn write_case<O: Write>(
    alloc: Global,
    report: &Report<'_>,
    found: &Bounds,
    named: NamedFigure,
    name: &str,
    is_first: bool,
    out: &mut O,
) -> Result<bool, RunFault> {
    let (system, mode) = (report.system, report.mode);
    let run = run_of(alloc, system, mode, report.rules, found, named, name)?;
    match &run {
        Some(run) => write_run(alloc, report, named, name, run, is_first, out)?,
        None => write_unknown(named, name, out)?,
    }
    Ok(run.is_some())
}

/// Writes runs of a measure of all its things, unless what is told is 0. The first picture of all
/// has what the others share. Answers whether there is one.
fn write_cases<O: Write>(
    alloc: Global,
    report: &Report<'_>,
    found: &Bounds,
    measure: Measure,
    has_picture: bool,
    out: &mut O,
) -> Result<bool, RunFault> {
    let kind = measure.kind();
    let mut has_picture = has_picture;
    for number in 0..kind.count(report.system) {
        let figure = Figure { measure, number };
        if found.peaks.told(figure) == 0 {
            continue;
        }
        let named = NamedFigure {
            figure,
            kind: kind.word(),
            column: measure_word(measure),
        };
        let name = kind.name(report.system, number);
        let is_first = !has_picture;
        let is_drawn = write_case(alloc, report, found, named, name, is_first, out)?;
        has_picture = has_picture || is_drawn;
    }
    Ok(has_picture)
}

/// Writes a run of each task and each routine.
fn write_all_cases<O: Write>(
    alloc: Global,
    report: &Report<'_>,
    found: &Bounds,
    out: &mut O,
) -> Result<(), RunFault> {
    out.write_all(MEANING.as_bytes())?;
    let has_picture = write_cases(alloc, report, found, Measure::Response, false, out)?;
    write_cases(alloc, report, found, Measure::Latency, has_picture, out)?;
    Ok(())
}

/// Writes a run of each task and each routine, or why none is known.
pub(crate) fn write_worst_cases<O: Write>(
    alloc: Global,
    report: &Report<'_>,
    out: &mut O,
) -> Result<(), RunFault> {
    out.write_all(b"<section id=\"worst\">\n<h2>Worst cases</h2>\n")?;
    match report.found {
        Some(found) => match found.bounds.outcome {
            Outcome::Decided(_) => write_all_cases(alloc, report, &found.bounds, out)?,
            Outcome::Undecided(..) => out.write_all(UNDECIDED.as_bytes())?,
        },
        None => out.write_all(COUNTED.as_bytes())?,
    }
    Ok(out.write_all(b"</section>\n")?)
}
