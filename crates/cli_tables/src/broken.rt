//! The limits that bounds break, a line each.

ghost use Rattle.std.specs.Prelude.{◌≡◌, ◌++◌, ◌↔◌, [], IfOk, OnOk};
ghost use Rattle.std.specs.List.{flat_map};
ghost use Rattle.std.specs.String.{string_bytes};
ghost use Rattle.cli_tables.specs.Broken.{
  broken_line,
  broken_text,
  coming_line,
  coming_lines,
  coming_of,
  is_shown,
  is_within,
  line_of_measure,
  line_unless_within,
  loss_lines,
  may_come,
  refusal_lines,
  time_lines,
  unless_known,
};
ghost use Rattle.cli_tables.specs.Kept.{AreKept};

use crate::cells::Cell;
use crate::naming::number_of;
use crate::numbers::push_number;
use crate::told::cell;
use osek_base::System;
use search_witnesses::Findings;
use std::alloc::{AllocError, Global};
use view_figure_texts::{Limit, Limits};
use view_measures::{Figure, Measure};

/// Whether a figure is told as a time of so many ticks at most.
fn is_within(cell: Cell, most: u32) -> bool
    ensures { result ≡ is_within cell most }
{
    match cell {
        Cell::Time { ticks, .. } => ticks <= most,
        _ => false,
    }
}

/// Appends the line of a limit that is broken: the name, what is told, and the limit.
#[tactic(auto, unfolding(crate::specs::Broken::broken_line))]
fn push_broken(text: &mut String, name: &str, cell: Cell, most: u32) -> Result<(), AllocError>
    ensures { OnOk result
        (string_bytes text.new ≡ string_bytes text.old ++ broken_line name.now cell most) }
{
    text.push_str("broken: ")?;
    text.push_str(name)?;
    text.push_str(" ")?;
    cell.push_shown(text)?;
    text.push_str(" of ")?;
    push_number(text, most)?;
    text.push_str("\n")
}

/// Appends that line, unless what is told is within the limit.
#[tactic(auto, unfolding(crate::specs::Broken::line_unless_within))]
fn push_unless_within(
    text: &mut String,
    name: &str,
    cell: Cell,
    most: u32,
) -> Result<(), AllocError>
    ensures { OnOk result
        (string_bytes text.new ≡ string_bytes text.old ++ line_unless_within name.now cell most) }
{
    if is_within(cell, most) {
        return Ok(());
    }
    push_broken(text, name, cell, most)
}

/// Appends the line of a limit, where a thing of a measure has its name, and what is told of that
/// isn't within it.
#[tactic(auto, unfolding(crate::specs::Broken::line_of_measure))]
fn push_time(
    text: &mut String,
    system: &System,
    found: &Findings,
    measure: Measure,
    limit: &Limit<'_>,
) -> Result<(), AllocError>
    ensures { OnOk result (string_bytes text.new
        ≡ string_bytes text.old ++ line_of_measure system.now found.now measure limit.now) }
{
    match number_of(system, measure.kind(), limit.name) {
        Some(number) => {
            let cell = cell(found, Figure { measure, number });
            push_unless_within(text, limit.name, cell, limit.ticks)
        }
        None => Ok(()),
    }
}

/// Appends the lines of a limit on times: of a task, and of a routine of its name.
#[tactic(auto, unfolding(crate::specs::Broken::time_lines))]
fn push_limit(
    text: &mut String,
    system: &System,
    found: &Findings,
    limit: &Limit<'_>,
) -> Result<(), AllocError>
    ensures { OnOk result (string_bytes text.new
        ≡ string_bytes text.old ++ time_lines system.now found.now limit.now) }
{
    push_time(text, system, found, Measure::Response, limit)?;
    push_time(text, system, found, Measure::Latency, limit)
}

/// Appends the lines of all limits on times.
fn push_times(
    text: &mut String,
    system: &System,
    found: &Findings,
    limits: &[Limit<'_>],
) -> Result<(), AllocError>
    ensures { OnOk result (string_bytes text.new
        ≡ string_bytes text.old ++ flat_map (time_lines system.now found.now) limits.now) }
{
    for limit in limits {
        push_limit(text, system, found, limit)?;
    }
    Ok(())
}

/// Whether what is told says that something may come.
fn may_come(cell: Cell) -> bool
    ensures { result ≡ may_come cell }
{
    match cell {
        Cell::Coming { comes, .. } => comes,
        _ => false,
    }
}

/// Whether a run is known in which it does.
fn is_shown(cell: Cell) -> bool
    ensures { result ≡ is_shown cell }
{
    match cell {
        Cell::Coming { is_reached, .. } => is_reached,
        _ => false,
    }
}

/// What stands behind it where no run is known.
fn unless_known(is_reached: bool) -> &'static str
    ensures { result.now ≡ unless_known is_reached }
{
    if is_reached { "" } else { " <=1" }
}

/// Appends a line, where what is told says that something may come.
#[tactic(auto, unfolding(crate::specs::Broken::coming_line))]
fn push_coming(text: &mut String, name: &str, what: &str, cell: Cell) -> Result<(), AllocError>
    ensures { OnOk result
        (string_bytes text.new ≡ string_bytes text.old ++ coming_line name.now what.now cell) }
{
    if !may_come(cell) {
        return Ok(());
    }
    text.push_str("broken: ")?;
    text.push_str(name)?;
    text.push_str(" ")?;
    text.push_str(what)?;
    text.push_str(unless_known(is_shown(cell)))?;
    text.push_str("\n")
}

/// Appends a line for each thing of which a measure tells that it may come.
#[tactic(auto, unfolding(crate::specs::Broken::coming_lines, crate::specs::Broken::coming_of), using(crate::proofs::TextLemmas::each_more))]
fn push_all_coming(
    text: &mut String,
    system: &System,
    found: &Findings,
    measure: Measure,
    what: &str,
) -> Result<(), AllocError>
    ensures { OnOk result (string_bytes text.new
        ≡ string_bytes text.old ++ coming_lines system.now found.now measure what.now) }
{
    let kind = measure.kind();
    for number in 0..kind.count(system) {
        let cell = cell(found, Figure { measure, number });
        push_coming(text, kind.name(system, number), what, cell)?;
    }
    Ok(())
}

/// Appends the lines of losses, by routine.
#[tactic(auto, unfolding(crate::specs::Broken::loss_lines))]
fn push_losses(text: &mut String, system: &System, found: &Findings) -> Result<(), AllocError>
    ensures { OnOk result
        (string_bytes text.new ≡ string_bytes text.old ++ loss_lines system.now found.now) }
{
    push_all_coming(text, system, found, Measure::Loss, "loss")
}

/// Appends the lines of refusals, by task and by alarm.
#[tactic(auto, unfolding(crate::specs::Broken::refusal_lines))]
fn push_refusals(text: &mut String, system: &System, found: &Findings) -> Result<(), AllocError>
    ensures { OnOk result
        (string_bytes text.new ≡ string_bytes text.old ++ refusal_lines system.now found.now) }
{
    push_all_coming(text, system, found, Measure::Refusal, "refusal")?;
    push_all_coming(text, system, found, Measure::RefusedAction, "refusal")
}

/// Appends the lines of all limits that aren't kept: those on times first, in the order of the
/// limits.
#[tactic(auto, unfolding(crate::specs::Broken::broken_text))]
fn push_all(
    text: &mut String,
    system: &System,
    found: &Findings,
    limits: &Limits<'_>,
) -> Result<(), AllocError>
    ensures { OnOk result (string_bytes text.new
        ≡ string_bytes text.old ++ broken_text system.now found.now limits.now) }
{
    push_times(text, system, found, limits.times)?;
    if limits.no_loss {
        push_losses(text, system, found)?;
    }
    if limits.no_refusal {
        push_refusals(text, system, found)?;
    }
    Ok(())
}

/// The text of the lines.
fn text_of(
    alloc: Global,
    system: &System,
    found: &Findings,
    limits: &Limits<'_>,
) -> Result<String, AllocError>
    ensures { IfOk result
        (λ text. string_bytes text ≡ broken_text system.now found.now limits.now) }
{
    let mut text = String::new(alloc);
    push_all(&mut text, system, found, limits)?;
    Ok(text)
}

/// A line for each limit that isn't kept, of the bounds of a search that has come to its end: those
/// on times first, in the order of the limits, of a task before a routine of its name. Where no run
/// is known in which something comes that may not, the line says so. The only error is want of
/// memory.
pub fn broken_bounds(
    alloc: Global,
    system: &System,
    found: &Findings,
    limits: &Limits<'_>,
) -> Result<String, AllocError>
    ensures text { IfOk result
        (λ text. string_bytes text ≡ broken_text system.now found.now limits.now) }
    ensures kept { IfOk result (λ text.
        (string_bytes text ≡ []) ↔ AreKept system.now found.now limits.now) }
{
    text_of(alloc, system, found, limits)
}
