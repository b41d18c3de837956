//! The limits that a run breaks, a line each.

ghost use Rattle.std.specs.Prelude.{◌≡◌, ◌++◌, IfOk, OnOk};
ghost use Rattle.std.specs.List.{flat_map};
ghost use Rattle.std.specs.String.{string_bytes};
ghost use Rattle.osek_base.specs.Lists.{is_empty};
ghost use Rattle.osek_base.specs.Names.{number_of as place_among};
ghost use Rattle.view_figures.specs.declared.alarm_figures.AlarmFigures.{AlarmFigures};
ghost use Rattle.view_figures.specs.declared.routine_figures.RoutineFigures.{RoutineFigures};
ghost use Rattle.view_figures.specs.declared.task_figures.TaskFigures.{TaskFigures};
ghost use Rattle.view_figure_texts.specs.Limits.{
  alarm_refusal_lines,
  are_kept,
  broken_text,
  first_at,
  first_text,
  limit_lines,
  lines_where,
  loss_lines,
  refusal_lines,
  routine_time as time_of_routine,
  task_refusal_lines,
  task_time as time_of_task,
  time_text,
};

use crate::limits::{Limit, Limits};
use osek_base::{Name, System};
use std::alloc::{AllocError, Global};
use view_figures::{Figures, Reached};
use view_measures::Kind;

/// The number of a name, if it has one.
fn number_of(names: &[Name], name: &str) -> Option<usize>
    ensures { result ≡ place_among name.now names.now }
{
    for (number, known) in names.iter().enumerate() {
        if known.as_str() == name {
            return Some(number);
        }
    }
    None
}

/// The longest time of the task of a name, ended or not.
fn task_time(system: &System, figures: &Figures, name: &str) -> Option<Reached>
    ensures { result ≡ time_of_task system.now figures.now name.now }
{
    let number = number_of(system.names().tasks.as_slice(), name)?;
    figures.tasks().get(number)?.worst(figures.last())
}

/// The longest time of the routine of a name, ended or not.
fn routine_time(system: &System, figures: &Figures, name: &str) -> Option<Reached>
    ensures { result ≡ time_of_routine system.now figures.now name.now }
{
    let number = number_of(system.names().routines.as_slice(), name)?;
    figures.routines().get(number)?.worst(figures.last())
}

/// Adds the line of a limit, where a time is beyond it.
#[tactic(auto, unfolding(crate::specs::Limits::time_text))]
fn push_time(limit: Limit<'_>, time: Option<Reached>, lines: &mut String) -> Result<(), AllocError>
    ensures { OnOk result
        (string_bytes lines.new
        ≡ string_bytes lines.old ++ time_text limit.entry.name.now limit.entry.ticks time) }
{
    if let Some(Reached { ticks, at }) = time {
        if limit.ticks < ticks {
            let (name, most) = (limit.name, limit.ticks);
            writeln!(lines, "broken: {name} {ticks} of {most} at {at}")?;
        }
    }
    Ok(())
}

/// Adds a line, where something was seen first at a tick.
#[tactic(auto, unfolding(crate::specs::Limits::first_text))]
fn push_first(
    name: &str,
    what: &str,
    first: Option<u32>,
    lines: &mut String,
) -> Result<(), AllocError>
    ensures { OnOk result
        (string_bytes lines.new ≡ string_bytes lines.old ++ first_text name.now what.now first) }
{
    if let Some(tick) = first {
        writeln!(lines, "broken: {name} {what} at {tick}")?;
    }
    Ok(())
}

/// When an interrupt of the routine of a number was first lost.
fn first_loss(figures: &Figures, number: usize) -> Option<u32>
    ensures { result ≡ first_at (λ (r : RoutineFigures). r.first_loss) figures.now.routines number }
{
    figures.routines().get(number)?.first_loss
}

/// Adds a line for each routine of which an interrupt was lost.
#[tactic(auto, unfolding(crate::specs::Limits::loss_lines))]
fn push_losses(system: &System, figures: &Figures, lines: &mut String) -> Result<(), AllocError>
    ensures { OnOk result
        (string_bytes lines.new ≡ string_bytes lines.old ++ loss_lines system.now figures.now) }
{
    for number in 0..figures.routines().len() {
        let name = Kind::Routine.name(system, number);
        let first = first_loss(figures, number);
        push_first(name, "loss", first, lines)?;
    }
    Ok(())
}

/// When an activation of the task of a number was first refused.
fn first_task_refusal(figures: &Figures, number: usize) -> Option<u32>
    ensures { result
        ≡ first_at (λ (t : TaskFigures). t.counts.first_refusal) figures.now.tasks number }
{
    figures.tasks().get(number)?.counts.first_refusal
}

/// Adds a line for each task of which an activation was refused.
#[tactic(auto, unfolding(crate::specs::Limits::task_refusal_lines))]
fn push_task_refusals(
    system: &System,
    figures: &Figures,
    lines: &mut String,
) -> Result<(), AllocError>
    ensures { OnOk result
        (string_bytes lines.new
        ≡ string_bytes lines.old ++ task_refusal_lines system.now figures.now) }
{
    for number in 0..figures.tasks().len() {
        let name = Kind::Task.name(system, number);
        let first = first_task_refusal(figures, number);
        push_first(name, "refusal", first, lines)?;
    }
    Ok(())
}

/// When an action of the alarm of a number was first refused.
fn first_alarm_refusal(figures: &Figures, number: usize) -> Option<u32>
    ensures { result ≡ first_at (λ (a : AlarmFigures). a.first_refusal) figures.now.alarms number }
{
    figures.alarms().get(number)?.first_refusal
}

/// Adds a line for each alarm of which an action was refused.
#[tactic(auto, unfolding(crate::specs::Limits::alarm_refusal_lines))]
fn push_alarm_refusals(
    system: &System,
    figures: &Figures,
    lines: &mut String,
) -> Result<(), AllocError>
    ensures { OnOk result
        (string_bytes lines.new
        ≡ string_bytes lines.old ++ alarm_refusal_lines system.now figures.now) }
{
    for number in 0..figures.alarms().len() {
        let name = Kind::Alarm.name(system, number);
        let first = first_alarm_refusal(figures, number);
        push_first(name, "refusal", first, lines)?;
    }
    Ok(())
}

/// Adds the lines of a limit, on the task and the routine of its name.
#[tactic(auto, unfolding(crate::specs::Limits::limit_lines))]
fn push_limit(
    system: &System,
    figures: &Figures,
    limit: Limit<'_>,
    lines: &mut String,
) -> Result<(), AllocError>
    ensures { OnOk result
        (string_bytes lines.new
        ≡ string_bytes lines.old ++ limit_lines system.now figures.now limit.entry) }
{
    push_time(limit, task_time(system, figures, limit.name), lines)?;
    push_time(limit, routine_time(system, figures, limit.name), lines)
}

/// Adds the lines of some limits, in their order.
fn push_limits(
    system: &System,
    figures: &Figures,
    limits: &[Limit<'_>],
    lines: &mut String,
) -> Result<(), AllocError>
    ensures { OnOk result
        (string_bytes lines.new
        ≡ string_bytes lines.old ++ flat_map (limit_lines system.now figures.now) limits.now) }
{
    for limit in limits {
        push_limit(system, figures, *limit, lines)?;
    }
    Ok(())
}

/// Adds the lines of losses, where none is allowed.
fn push_losses_where(
    is_set: bool,
    system: &System,
    figures: &Figures,
    lines: &mut String,
) -> Result<(), AllocError>
    ensures { OnOk result
        (string_bytes lines.new
        ≡ string_bytes lines.old ++ lines_where is_set (loss_lines system.now figures.now)) }
{
    if is_set {
        push_losses(system, figures, lines)?;
    }
    Ok(())
}

/// Adds the lines of refusals, where none is allowed.
fn push_refusals_where(
    is_set: bool,
    system: &System,
    figures: &Figures,
    lines: &mut String,
) -> Result<(), AllocError>
    ensures { OnOk result
        (string_bytes lines.new
        ≡ string_bytes lines.old ++ lines_where is_set (refusal_lines system.now figures.now)) }
{
    if is_set {
        push_task_refusals(system, figures, lines)?;
        push_alarm_refusals(system, figures, lines)?;
    }
    Ok(())
}

/// A line for each limit that is broken, with the tick at which it was. A job that neither ended
/// nor waits, and an interrupt that is pending, count as if they ended and started in the last tick
/// and behind it. The system is that of the figures.
#[tactic(auto, unfolding(crate::specs::Limits::broken_text))]
pub fn broken_limits(
    alloc: Global,
    system: &System,
    figures: &Figures,
    limits: &Limits<'_>,
) -> Result<String, AllocError>
    ensures text { IfOk result
        (λ lines. string_bytes lines ≡ broken_text system.now figures.now limits.now) }
    ensures verdict { IfOk result
        (λ lines. is_empty (string_bytes lines) ≡ are_kept system.now figures.now limits.now) }
{
    let mut lines = String::new(alloc);
    push_limits(system, figures, limits.times, &mut lines)?;
    push_losses_where(limits.no_loss, system, figures, &mut lines)?;
    push_refusals_where(limits.no_refusal, system, figures, &mut lines)?;
    Ok(lines)
}

/// The first limit that is on neither a task nor a routine of a system.
pub fn unknown_limit<'a>(system: &System, limits: &[Limit<'a>]) -> Option<&'a str> {
    let names = system.names();
    for limit in limits {
        let is_known = number_of(names.tasks.as_slice(), limit.name).is_some()
            || number_of(names.routines.as_slice(), limit.name).is_some();
        if !is_known {
            return Some(limit.name);
        }
    }
    None
}
