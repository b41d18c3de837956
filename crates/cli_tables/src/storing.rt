//! The runs that show the figures of bounds, each to be stored in a folder of its own.

use crate::cells::Cell;
use crate::failed_service::name_of;
use crate::naming::NamedFigure;
use crate::told::cell;
use crate::witnessing::{failing_run, run_of};
use arrival_rules::ArrivalRule;
use cli_answers::StoredRun;
use osek_base::{ModeId, System};
use search_witnesses::Findings;
use std::alloc::Global;
use tracer::RunFault;
use view_figure_texts::measure_word;
use view_measures::{Figure, KINDS};

/// What bounds are stored of: a system in a mode, the rules of interrupts, and the folder of all.
#[derive(Clone, Copy)]
pub(crate) struct Storing<'s> {
    pub system: &'s System,
    pub mode: ModeId,
    pub rules: &'s [ArrivalRule],
    pub folder: &'s str,
}

/// Whether a run of a figure is worth a look: it isn't 0, and it may be that one is known.
fn is_shown(cell: Cell) -> bool {
    match cell {
        Cell::Time { ticks, is_reached } => is_reached && ticks > 0,
        Cell::Count { value, is_reached } => is_reached && value > 0,
        Cell::Coming { comes, is_reached } => is_reached && comes,
        Cell::Above | Cell::Unbounded => true,
    }
}

/// Adds a run of a figure, if one is known.
fn store_figure(
    alloc: Global,
    storing: &Storing<'_>,
    found: &Findings,
    figure: Figure,
    runs: &mut Vec<StoredRun>,
) -> Result<(), RunFault> {
    let Storing {
        system,
        mode,
        rules,
        folder,
    } = *storing;
    if !is_shown(cell(found, figure)) {
        return Ok(());
    }
    let kind = figure.measure.kind();
    let name = kind.name(system, figure.number);
    let word = measure_word(figure.measure);
    let named = NamedFigure {
        figure,
        kind: kind.word(),
        column: word,
    };
    if let Some(run) = run_of(alloc, system, mode, rules, &found.bounds, named, name)? {
        let path = format!(in alloc; "{folder}/{}-{name}-{word}", kind.word())?;
        run.store(system, mode, path, runs)?;
    }
    Ok(())
}

/// Adds a run of the service of a number, if one is known.
fn store_service(
    alloc: Global,
    storing: &Storing<'_>,
    found: &Findings,
    number: usize,
    runs: &mut Vec<StoredRun>,
) -> Result<(), RunFault> {
    let Storing {
        system,
        mode,
        rules,
        folder,
    } = *storing;
    let Some(failure) = found.bounds.peaks.failures().get(number) else {
        return Ok(());
    };
    if let Some(run) = failing_run(alloc, system, mode, rules, &found.bounds, number)? {
        let path = format!(in alloc;
            "{folder}/service-{}-{}-{}",
            name_of(system, failure.owner),
            failure.place.number(),
            failure.status.number()
        )?;
        run.store(system, mode, path, runs)?;
    }
    Ok(())
}

/// Adds a run of each figure and of each service of which one is known: in the order of the tables.
pub(crate) fn store_all(
    alloc: Global,
    storing: &Storing<'_>,
    found: &Findings,
    runs: &mut Vec<StoredRun>,
) -> Result<(), RunFault> {
    for kind in &KINDS {
        for number in 0..kind.count(storing.system) {
            for measure in kind.measures() {
                let figure = Figure {
                    measure: *measure,
                    number,
                };
                store_figure(alloc, storing, found, figure, runs)?;
            }
        }
    }
    for number in 0..found.bounds.peaks.failures().len() {
        store_service(alloc, storing, found, number, runs)?;
    }
    Ok(())
}
