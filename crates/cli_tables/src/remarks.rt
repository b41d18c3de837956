//! What figures mean that aren't times that a run shows, and what would change them.

use crate::cells::Cell;
use crate::told::cell;
use osek_base::System;
use search::{Obstacle, Outcome};
use search_witnesses::Findings;
use std::io::{self, Write};
use view_figure_texts::measure_word;
use view_measures::{Figure, KINDS, Measure};

/// What it means where something may come, and what would change it.
fn meaning(measure: Measure) -> &'static str {
    match measure {
        Measure::Refusal =>
            "an activation finds as many jobs as ACTIVATION allows; a greater ACTIVATION or greater distances may change it",
        Measure::Loss => "an interrupt finds one pending; a greater distance may change it",
        Measure::RefusedAction =>
            "its task has as many jobs as ACTIVATION allows, or none that its event could be set for",
        Measure::Errors | Measure::RoutineErrors =>
            "a service is answered other than E_OK; --witness shows a run in which one is",
        Measure::Shutdown => "some run ends by a ShutdownOS",
        Measure::Response
        | Measure::Blocked
        | Measure::Blockers
        | Measure::Jobs
        | Measure::Latency
        | Measure::Hold => "it lasts",
    }
}

/// What a number of a measure bounds.
fn limited(measure: Measure) -> &'static str {
    match measure {
        Measure::Blockers => "no job has more",
        _ => "no run has more at once",
    }
}

/// Writes what is told of a figure, and what it means.
fn write_meaning<W: Write>(cell: Cell, measure: Measure, cap: u32, out: &mut W) -> io::Result<()> {
    match cell {
        Cell::Above => writeln!(
            out,
            "above: some run may take {cap} ticks or more; what can be put off for ever has no bound"
        ),
        Cell::Unbounded => writeln!(
            out,
            "unbounded: a job can be kept from ending for ever; --witness shows the ticks that come again"
        ),
        Cell::Time { ticks, .. } => writeln!(
            out,
            "<={ticks}: no run takes longer, and none is known that takes as long"
        ),
        Cell::Count { value, .. } => writeln!(
            out,
            "<={value}: {}, and none is known that has as many",
            limited(measure)
        ),
        Cell::Coming {
            is_reached: true,
            ..
        } => writeln!(out, "1: {}", meaning(measure)),
        Cell::Coming { .. } => writeln!(
            out,
            "<=1: it may be, though no run is known: {}",
            meaning(measure)
        ),
    }
}

/// Writes what a figure means, unless it is a time that a run shows, or 0.
fn write_remark<W: Write>(
    system: &System,
    found: &Findings,
    figure: Figure,
    out: &mut W,
) -> io::Result<()> {
    let cell = cell(found, figure);
    if cell.is_plain() {
        return Ok(());
    }
    let Figure { measure, number } = figure;
    let kind = measure.kind();
    let name = kind.name(system, number);
    write!(out, "{} {name}: {} ", kind.word(), measure_word(measure))?;
    write_meaning(cell, measure, found.bounds.cap, out)
}

/// What a search stopped at.
fn why(obstacle: Obstacle) -> &'static str {
    match obstacle {
        Obstacle::Nodes => "as many states are kept as --states allows",
        Obstacle::Visits => "100 times as many visits were made as --states allows to be kept",
        Obstacle::NoPlace => "a state that comes can't be kept, or lies 1000000 ticks behind boot",
    }
}

/// What may let a search end that stopped at it.
fn help(obstacle: Obstacle) -> &'static str {
    match obstacle {
        Obstacle::Nodes | Obstacle::Visits =>
            "more --states, greater distances or a shorter --longest",
        Obstacle::NoPlace => "a coarser tick, or counters and cycles that come round sooner,",
    }
}

/// Writes a line for each figure that isn't a time that a run shows, or 0; or, where a search
/// stopped before its end, at what it did. An error is a failed write.
pub fn write_remarks<W: Write>(system: &System, found: &Findings, out: &mut W) -> io::Result<()> {
    if let Outcome::Undecided(obstacle, _) = found.bounds.outcome {
        writeln!(out, "undecided: {}", why(obstacle))?;
        return writeln!(out, " {} may let it end", help(obstacle));
    }
    for kind in &KINDS {
        for number in 0..kind.count(system) {
            for measure in kind.measures() {
                let figure = Figure {
                    measure: *measure,
                    number,
                };
                write_remark(system, found, figure, out)?;
            }
        }
    }
    Ok(())
}
