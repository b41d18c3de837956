//! Runs that can be gone on without end while a job of a task stands.

ghost use Rattle.std.specs.Prelude.{◌≤◌, IfOk, IfSome, IsTrue};
ghost use Rattle.std.specs.List.{All};
ghost use Rattle.search_nodes.specs.Ground.{IsGround};
ghost use Rattle.law_bounds.specs.Unending.{NeedNotEnd};
ghost use Rattle.law_bounds.specs.Lassos.{again};
ghost use Rattle.kernel.specs.Progress.{AreKnown};
ghost use Rattle.arrival_rules.specs.Rules.{KeepRules};
ghost use Rattle.search_witnesses.specs.Endless.{IsEndless};

use crate::again::{again, come_before};
use crate::candidate::arrivals_of;
use crate::going_on::{GoingOn, go_on};
use crate::keeping::{are_of_routines, keep_rules};
use crate::lasso::comes_twice;
use crate::paying::are_paid;
use crate::suspect::suspected;
use arrival_rules::ArrivalRule;
use law_bounds::lassos_are_endless;
use osek_base::{Arrival, Arrivals, MAX_ARRIVALS, MAX_TICKS, ModeId, System};
use search_needs::{Needs, needed_data};
use search_nodes::Bounds;
use std::alloc::{AllocError, Global};
use view_measures::{Figure, Measure};

/// As how many times the ticks of a path a run that goes on behind it is walked.
const LENGTHS: u32 = 5;

/// A run that comes twice to one state while a job of a task stands, so that it can be gone on
/// without end: what arrives from the one tick on comes once more behind the other, and so on.
#[derive(Drop)]
pub struct Endless {
    /// Those before `until`.
    pub arrivals: Arrivals,
    /// The tick before which the run comes to the state first.
    pub from: u32,
    /// The tick before which it comes to it again, 1 to 1,000,000.
    pub until: u32,
}

/// The arrivals before a tick. An error is want of memory.
fn before(alloc: Global, tick: u32, list: &[Arrival]) -> Result<Vec<Arrival>, AllocError> {
    let mut early = Vec::new(alloc);
    for arrival in list {
        if arrival.tick < tick {
            early.push(*arrival)?;
        }
    }
    Ok(early)
}

/// Whether arrivals keep rules with those from a tick on once more; at true they do. An error
/// is want of memory.
fn keep_again(
    alloc: Global,
    system: &System,
    rules: &[ArrivalRule],
    arrivals: &Arrivals,
    from: u32,
    until: u32,
) -> Result<bool, AllocError>
    requires { from ≤ until }
    ensures { IfOk result (λ keep. IsTrue keep
        → KeepRules system.now rules.now (again from until arrivals.now)) }
{
    let Some(more) = again(alloc, from, until, arrivals.list())? else {
        return Ok(false);
    };
    let Some(more) = Arrivals::new(more) else {
        return Ok(false);
    };
    Ok(keep_rules(system, rules, &more))
}

/// Arrivals and two ticks, where their run can be gone on without end by what comes between.
fn tried(
    alloc: Global,
    system: &System,
    mode: ModeId,
    rules: &[ArrivalRule],
    needs: &Needs,
    arrivals: Arrivals,
    from: u32,
    until: u32,
    task: usize,
) -> Result<Option<Endless>, AllocError>
    requires { IsGround (record { system = system.now; needs = needs.now }) }
    ensures { IfOk result (λ found.
        IfSome found (IsEndless system.now mode rules.now task)) }
{
    if until <= from || !come_before(until, arrivals.list()) {
        return Ok(None);
    }
    if !keep_rules(system, rules, &arrivals) {
        return Ok(None);
    }
    if !are_paid(rules, arrivals.list(), from, until) {
        return Ok(None);
    }
    if !keep_again(alloc, system, rules, &arrivals, from, until)? {
        return Ok(None);
    }
    if !comes_twice(alloc, system, mode, needs, &arrivals, from, until, task)? {
        return Ok(None);
    }
    lassos_are_endless();
    Ok(Some(Endless {
        arrivals,
        from,
        until,
    }))
}

/// As [`find_endless`], by a run with arrivals, walked for so many ticks.
fn find_in(
    alloc: Global,
    system: &System,
    mode: ModeId,
    rules: &[ArrivalRule],
    arrivals: &Arrivals,
    ticks: usize,
    task: usize,
) -> Result<Option<Endless>, AllocError>
    requires { AreKnown system.now arrivals.now }
    ensures { IfOk result (λ found.
        IfSome found (IsEndless system.now mode rules.now task)) }
{
    system.shows_proper();
    let needs = needed_data(alloc, system)?;
    let Some((from, until)) = suspected(alloc, system, mode, rules, &needs, arrivals, ticks, task)?
    else {
        return Ok(None);
    };
    let Some(early) = Arrivals::new(before(alloc, until, arrivals.list())?) else {
        return Ok(None);
    };
    tried(alloc, system, mode, rules, &needs, early, from, until, task)
}

/// As [`find_endless`], by the run by which a search has come to the task's greatest response,
/// where interrupts go on behind it as is said.
fn find_by(
    alloc: Global,
    system: &System,
    mode: ModeId,
    rules: &[ArrivalRule],
    path: &[u64],
    how: GoingOn,
    task: usize,
) -> Result<Option<Endless>, AllocError>
    ensures { IfOk result (λ endless.
        IfSome endless (IsEndless system.now mode rules.now task)) }
{
    let count = system.routine_count();
    let mut arrivals = arrivals_of(alloc, path, count)?;
    let ticks = path.len().min(MAX_TICKS as usize) as u32;
    let until = MAX_TICKS.min(ticks.saturating_mul(LENGTHS));
    go_on(alloc, &mut arrivals, how, rules, count, ticks, until)?;
    arrivals.truncate(MAX_ARRIVALS);
    let Some(arrivals) = Arrivals::new(arrivals) else {
        return Ok(None);
    };
    if !are_of_routines(system, arrivals.list()) {
        return Ok(None);
    }
    find_in(alloc, system, mode, rules, &arrivals, until as usize, task)
}

/// The greatest response of a task.
fn response_of(task: usize) -> Figure {
    Figure {
        measure: Measure::Response,
        number: task,
    }
}

/// Whether a task can be kept from ending for ever: a run, where one is found, that comes twice to
/// one state while a job of the task stands ready or runs, and neither ends nor begins to wait. So
/// no number of ticks bounds the task's greatest response. Tasks are numbered from 0. Interrupts
/// keep the rules, however often those between the two states come again.
///
/// The run that is tried is that by which a search has come to the task's greatest response, and
/// behind it no interrupt comes, or else each as soon as it may; so it may be that none is found.
/// An error is want of memory.
pub fn find_endless(
    alloc: Global,
    system: &System,
    mode: ModeId,
    rules: &[ArrivalRule],
    found: &Bounds,
    task: usize,
) -> Result<Option<Endless>, AllocError>
    ensures { IfOk result (λ endless.
        IfSome endless (IsEndless system.now mode rules.now task)) }
{
    let path = found.trails.path(alloc, response_of(task))?;
    let endless = find_by(alloc, system, mode, rules, &path, GoingOn::Never, task)?;
    if endless.is_some() {
        return Ok(endless);
    }
    let how = GoingOn::AsSoonAsTheyMay;
    find_by(alloc, system, mode, rules, &path, how, task)
}

/// Whether the greatest response of a task is told to reach the cap, and the task can be kept from
/// ending for as many ticks as one likes; at true it can.
fn is_endless(
    alloc: Global,
    system: &System,
    mode: ModeId,
    rules: &[ArrivalRule],
    found: &Bounds,
    task: usize,
) -> Result<bool, AllocError>
    ensures { IfOk result (λ endless. IsTrue endless → NeedNotEnd system.now mode rules.now task) }
{
    if found.peaks.told(response_of(task)) < found.cap {
        return Ok(false);
    }
    match find_endless(alloc, system, mode, rules, found, task)? {
        Some(_run) => Ok(true),
        None => Ok(false),
    }
}

/// The tasks, by number, that can be kept from ending for as many ticks as one likes, where a run
/// is found as by [`find_endless`], of those whose greatest response is told to reach the cap. An
/// error is want of memory.
pub fn endless_tasks(
    alloc: Global,
    system: &System,
    mode: ModeId,
    rules: &[ArrivalRule],
    found: &Bounds,
) -> Result<Vec<usize>, AllocError>
    ensures { IfOk result (λ tasks. All (NeedNotEnd system.now mode rules.now) tasks.items) }
{
    let mut tasks = Vec::new(alloc);
    for task in 0..system.task_count() {
        if is_endless(alloc, system, mode, rules, found, task)? {
            tasks.push(task)?;
        }
    }
    Ok(tasks)
}
