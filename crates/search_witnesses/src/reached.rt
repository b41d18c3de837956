//! The figures that are told as some run shows them.

ghost use Rattle.std.specs.Prelude.{◌≡◌, IfOk, IsTrue};
ghost use Rattle.std.specs.List.{All};
ghost use Rattle.search_peaks.specs.Peaks.{is_below};
ghost use Rattle.search_witnesses.specs.Shown.{IsReached};

use crate::witness::find_witness;
use arrival_rules::ArrivalRule;
use osek_base::{ModeId, System};
use search_nodes::Bounds;
use std::alloc::{AllocError, Global};
use view_measures::{Figure, Measure, Sort, figures_of};

/// Whether a figure is told below the cap; so is all that isn't a time, and blockers where the cap
/// isn't 0.
pub(crate) fn is_below(found: &Bounds, figure: Figure) -> bool
    ensures { result ≡ is_below found.now.cap found.now.peaks figure }
{
    match figure.measure {
        Measure::Blockers => found.cap > 0,
        measure => match measure.sort() {
            Sort::Time => found.peaks.told(figure) < found.cap,
            Sort::Count | Sort::Coming => true,
        },
    }
}

/// Whether a figure is told below the cap and a run shows it so; at true one does.
fn is_reached(
    alloc: Global,
    system: &System,
    mode: ModeId,
    rules: &[ArrivalRule],
    found: &Bounds,
    figure: Figure,
) -> Result<bool, AllocError>
    ensures { IfOk result (λ reached. IsTrue reached →
        IsReached system.now mode rules.now found.now figure) }
{
    if !is_below(found, figure) {
        return Ok(false);
    }
    match find_witness(alloc, system, mode, rules, found, figure)? {
        Some(_run) => Ok(true),
        None => Ok(false),
    }
}

/// The figures of a system that are told below the cap and that a run shows as they are told, where
/// one is found by which a search has come to them. The interrupts of that run keep the rules. An
/// error is want of memory.
pub fn reached_figures(
    alloc: Global,
    system: &System,
    mode: ModeId,
    rules: &[ArrivalRule],
    found: &Bounds,
) -> Result<Vec<Figure>, AllocError>
    ensures { IfOk result (λ figures.
        All (IsReached system.now mode rules.now found.now) figures.items) }
{
    let all = figures_of(alloc, system)?;
    let mut reached = Vec::new(alloc);
    for place in 0..all.len() {
        let figure = all[place];
        if is_reached(alloc, system, mode, rules, found, figure)? {
            reached.push(figure)?;
        }
    }
    Ok(reached)
}
