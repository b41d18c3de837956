//! What is seen of things in a tick, one by one, and as ticks of figures.

ghost use Rattle.std.specs.Prelude.{◌≡◌, false, IsTrue, length, nat_lt, slice_index_or};
ghost use Rattle.view_figures.specs.FigureSums.{levels_of, lower_executes};
ghost use Rattle.law_figures.specs.Blocking.{stands_ready};
ghost use Rattle.seen_ticks.specs.Seen.{seen_of};
ghost use Rattle.search_labels.specs.Ticks.{
  blocked_tick,
  executing_level,
  is_above,
  ready_tick,
  task_tick,
  routine_tick,
  holder_tick,
};

use osek_base::{Owner, System, TaskId, TaskState};
use seen_ticks::{Observation, TaskSeen};
use view_figures::{HolderTick, RoutineTick, TaskTick};

/// A task in a tick, by its number.
#[inline(always)]
pub fn task_tick(seen: &Observation, number: usize) -> TaskTick
    ensures { result ≡ task_tick (seen_of seen.now) number }
{
    TaskTick {
        tick: 0,
        seen: seen.task(number),
        lower_executes: false,
        has_failed: false,
        blockers: None,
    }
}

/// Whether a system has a task of a number.
#[tactic(auto, using(crate::proofs::LevelLemmas::has_level))]
#[inline(always)]
fn has_task(system: &System, number: usize) -> bool
    ensures { result ≡ nat_lt number (length (levels_of system.now)) }
{
    number < system.task_count()
}

/// The static priority of a task; 0 beyond the last task.
#[tactic(auto, using(crate::proofs::LevelLemmas::level_is, crate::proofs::LevelLemmas::no_level))]
#[inline(always)]
fn level_of(system: &System, number: usize) -> u8
    ensures { result ≡ slice_index_or (levels_of system.now) number 0 }
{
    if number >= system.task_count() {
        return 0;
    }
    system.priority_of(TaskId::new(number as u8))
}

/// Whether a task executes whose static priority is lower than that of another.
#[inline(always)]
fn lower_executes(system: &System, executor: &Option<Owner>, number: usize) -> bool
    ensures { result ≡ lower_executes (levels_of system.now) executor.now number }
{
    match executor {
        Some(Owner::Task(task)) => {
            let task = task.number() as usize;
            has_task(system, task) && level_of(system, task) < level_of(system, number)
        }
        _ => false,
    }
}

/// A task in a tick, by its number, and whether one of lower static priority executes.
#[inline(always)]
pub fn blocked_tick(system: &System, seen: &Observation, number: usize) -> TaskTick
    ensures { result ≡ blocked_tick
        (lower_executes (levels_of system.now) seen.now.executor) (seen_of seen.now) number }
{
    TaskTick {
        lower_executes: lower_executes(system, &seen.executor, number),
        ..task_tick(seen, number)
    }
}

/// Whether a task is READY in a tick.
#[inline(always)]
pub(crate) fn is_ready(seen: &TaskSeen) -> bool
    ensures { result ≡ stands_ready seen.now.state }
{
    matches!(seen.state, TaskState::Ready)
}

/// Whether a task has no job in a tick; at true it has none, and isn't READY.
#[inline(always)]
pub(crate) fn is_jobless(seen: &TaskSeen) -> bool
    ensures jobs { IsTrue result → seen.now.jobs ≡ 0 }
    ensures ready { IsTrue result → stands_ready seen.now.state ≡ false }
{
    seen.jobs == 0 && matches!(seen.state, TaskState::Suspended)
}

/// The static priority of the task that executes in a tick, if one does.
#[inline(always)]
pub(crate) fn executing_level(system: &System, executor: &Option<Owner>) -> Option<u8>
    ensures { result ≡ executing_level (levels_of system.now) executor.now }
{
    match executor {
        Some(Owner::Task(task)) => {
            let task = task.number() as usize;
            if !has_task(system, task) {
                return None;
            }
            Some(level_of(system, task))
        }
        _ => None,
    }
}

/// Whether the static priority of a task is higher than that of the task that executes.
#[inline(always)]
pub(crate) fn is_above(system: &System, executing: Option<u8>, number: usize) -> bool
    ensures { result ≡ is_above executing (slice_index_or (levels_of system.now) number 0) }
{
    match executing {
        Some(level) => level < level_of(system, number),
        None => false,
    }
}

/// A task in a tick, by its number, and where it is READY, whether one of lower static priority
/// executes. Of other tasks, which aren't blocked, that is not asked.
#[inline(always)]
pub fn ready_tick(system: &System, seen: &Observation, number: usize) -> TaskTick
    ensures { result ≡ ready_tick
        (lower_executes (levels_of system.now) seen.now.executor) (seen_of seen.now) number }
{
    let tick = task_tick(seen, number);
    TaskTick {
        lower_executes: is_ready(&tick.seen) && lower_executes(system, &seen.executor, number),
        ..tick
    }
}

/// A routine in a tick, by its number.
#[inline(always)]
pub fn routine_tick(seen: &Observation, number: usize) -> RoutineTick
    ensures { result ≡ routine_tick (seen_of seen.now) number }
{
    RoutineTick {
        tick: 0,
        seen: seen.routine(number),
        has_failed: false,
    }
}

/// A resource in a tick, by its number.
#[inline(always)]
pub fn holder_tick(seen: &Observation, number: usize) -> HolderTick
    ensures { result ≡ holder_tick (seen_of seen.now) number }
{
    HolderTick {
        tick: 0,
        holder: seen.holder(number),
    }
}
