//! A run that shows a figure: its arrivals, and how many ticks show it.

use crate::asked::BoundsAsked;
use crate::failed_service::service_text;
use crate::naming::{NamedFigure, figure_named, service_named};
use arrival_reader::print_arrivals;
use arrival_rules::ArrivalRule;
use cli_answers::{StoredRun, Verdict};
use cli_requests::Wanted;
use osek_base::{ModeId, System};
use search_nodes::Bounds;
use search_witnesses::{Endless, Witness, find_endless, find_failing, find_witness};
use std::alloc::{AllocError, Global};
use std::io::Write;
use tracer::RunFault;
use view_measures::{Figure, Measure};

/// A run that shows a figure, or in whose last tick a service is answered as it is told.
#[derive(Drop)]
pub struct ShownRun {
    /// The text of its arrivals.
    pub arrivals: String,
    /// The line of its ticks and of what it shows; where that has no bound, another one with the
    /// ticks that can come again and again.
    pub lines: String,
    /// The tick in which what it shows begins.
    pub first: u32,
    /// The tick behind the last of it, at most 1,000,000.
    pub end: u32,
}

impl ShownRun {
    /// Adds the run as it is stored in a folder, with the line of its mode.
    pub(crate) fn store(
        self,
        system: &System,
        mode: ModeId,
        folder: String,
        runs: &mut Vec<StoredRun>,
    ) -> Result<(), AllocError> {
        let mut told = self.lines;
        if let Some(name) = system.names().modes.get(mode.number() as usize) {
            told.push_str("mode: ")?;
            told.push_str(name.as_str())?;
            told.push_str("\n")?;
        }
        runs.push(StoredRun {
            folder,
            arrivals: self.arrivals,
            told,
        })?;
        Ok(())
    }
}

/// The line of the ticks of a run and of the figure that it shows.
fn line_of(
    alloc: Global,
    found: &Bounds,
    named: NamedFigure,
    name: &str,
    witness: &Witness,
) -> Result<String, AllocError> {
    let NamedFigure {
        figure,
        kind,
        column,
    } = named;
    let value = found.peaks.told(figure);
    format!(in alloc; "{} ticks: {kind} {name} {column} {value}\n", witness.ticks)
}

/// A run in which the ticks that show a figure can go on without end, where it is a time of a task
/// and one is found.
fn endless_of(
    alloc: Global,
    system: &System,
    mode: ModeId,
    rules: &[ArrivalRule],
    found: &Bounds,
    figure: Figure,
) -> Result<Option<Endless>, AllocError> {
    match figure.measure {
        Measure::Response => find_endless(alloc, system, mode, rules, found, figure.number),
        _ => Ok(None),
    }
}

/// Adds a line with the ticks that can come again and again, so that the figure has no bound.
fn add_endless(alloc: Global, endless: &Endless, lines: &mut String) -> Result<(), AllocError> {
    let last = endless.until.saturating_sub(1);
    let line = format!(in alloc;
        "ticks {} to {last} can come again and again\n",
        endless.from
    )?;
    lines.push_str(&line)
}

/// A run that shows what is told of a figure of that name, if one is known.
pub fn run_of(
    alloc: Global,
    system: &System,
    mode: ModeId,
    rules: &[ArrivalRule],
    found: &Bounds,
    named: NamedFigure,
    name: &str,
) -> Result<Option<ShownRun>, RunFault> {
    let Some(witness) = find_witness(alloc, system, mode, rules, found, named.figure)? else {
        return Ok(None);
    };
    let mut lines = line_of(alloc, found, named, name, &witness)?;
    let endless = endless_of(alloc, system, mode, rules, found, named.figure)?;
    let mut arrivals = &witness.arrivals;
    let mut first = witness.ticks.saturating_sub(found.peaks.told(named.figure));
    let mut end = witness.ticks;
    if let Some(endless) = &endless {
        add_endless(alloc, endless, &mut lines)?;
        first = endless.from;
        end = endless.until;
        if endless.until > witness.ticks {
            arrivals = &endless.arrivals;
        }
    }
    let arrivals = print_arrivals(alloc, system, arrivals)?;
    Ok(Some(ShownRun {
        arrivals,
        lines,
        first,
        end,
    }))
}

/// A run in whose last tick the service of a number is answered as it is told, if one is known.
pub(crate) fn failing_run(
    alloc: Global,
    system: &System,
    mode: ModeId,
    rules: &[ArrivalRule],
    found: &Bounds,
    number: usize,
) -> Result<Option<ShownRun>, RunFault> {
    let Some(failure) = found.peaks.failures().get(number) else {
        return Ok(None);
    };
    let Some(witness) = find_failing(alloc, system, mode, rules, found, number)? else {
        return Ok(None);
    };
    let service = service_text(alloc, system, failure)?;
    let lines = format!(in alloc; "{} ticks: service {service}\n", witness.ticks)?;
    let arrivals = print_arrivals(alloc, system, &witness.arrivals)?;
    Ok(Some(ShownRun {
        arrivals,
        lines,
        first: witness.ticks.saturating_sub(1),
        end: witness.ticks,
    }))
}

/// Writes the arrivals of a run that shows what is told of a figure, or of a service, or has it
/// stored.
pub(crate) fn write_witness<'v, O: Write>(
    alloc: Global,
    system: &System,
    mode: ModeId,
    rules: &[ArrivalRule],
    found: &Bounds,
    wanted: Wanted<'v>,
    asked: BoundsAsked<'v>,
    runs: &mut Vec<StoredRun>,
    out: &mut O,
) -> Result<Verdict<'v>, RunFault> {
    let Wanted { name, column } = wanted;
    let shown = match figure_named(system, name, column) {
        Some(named) => run_of(alloc, system, mode, rules, found, named, name)?,
        None => match service_named(system, found, name, column) {
            Some(number) => failing_run(alloc, system, mode, rules, found, number)?,
            None => return Ok(Verdict::NoFigure(wanted)),
        },
    };
    let Some(shown) = shown else {
        return Ok(Verdict::NoWitness(wanted));
    };
    let lines = format!(in alloc; "{}", shown.lines)?;
    match asked.line.into {
        Some(folder) => {
            let folder = format!(in alloc; "{folder}")?;
            shown.store(system, mode, folder, runs)?;
        }
        None => out.write_all(shown.arrivals.as_bytes())?,
    }
    Ok(Verdict::Witnessed(lines))
}
