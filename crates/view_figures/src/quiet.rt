//! Ticks in which nothing comes to a thing, and it does nothing: most ticks, of most things.

ghost use Rattle.std.specs.Prelude.{◌≡◌};
ghost use Rattle.view_figures.specs.Quiet.{
  is_suspended,
  has_nothing,
  gets_nothing,
  rests,
  is_unasked,
  is_quiet_routine,
  is_free,
  is_unexpired,
  is_quiet_alarm,
};

use crate::scene::Scene;
use crate::seen::is_routine;
use osek_base::TaskState;
use seen_ticks::{AlarmSeen, RoutineSeen, TaskSeen};

#[inline(always)]
fn is_suspended(state: TaskState) -> bool
    ensures { result ≡ is_suspended state }
{
    matches!(state, TaskState::Suspended)
}

// Whether a task has no job.
#[inline(always)]
fn has_nothing(seen: TaskSeen) -> bool
    ensures { result ≡ has_nothing seen }
{
    is_suspended(seen.state) && seen.jobs == 0
}

/// Whether no job of a task is made, refused or left.
#[inline(always)]
pub fn gets_nothing(seen: TaskSeen) -> bool
    ensures { result ≡ gets_nothing seen }
{
    seen.made == 0 && seen.refused == 0 && !seen.ended && !seen.waits
}

/// Whether a task has no job, and nothing comes to it.
#[inline(always)]
pub fn rests(seen: TaskSeen) -> bool
    ensures { result ≡ rests seen }
{
    has_nothing(seen) && gets_nothing(seen)
}

// Whether no interrupt of a routine arrives or is pending, and it isn't started.
#[inline(always)]
fn is_unasked(seen: RoutineSeen) -> bool
    ensures { result ≡ is_unasked seen }
{
    !seen.is_pending && !seen.is_started && seen.arrived == 0 && seen.lost == 0
}

/// Whether no interrupt of a routine arrives in a tick or is pending, and it doesn't execute.
#[inline(always)]
pub fn is_quiet_routine(scene: &Scene, number: usize) -> bool
    ensures { result ≡ is_quiet_routine scene.now.observation.now number }
{
    let executor = &scene.observation.executor;
    match scene.routines.get(number) {
        Some(seen) => is_unasked(*seen) && !is_routine(executor, number),
        None => !is_routine(executor, number),
    }
}

/// Whether nobody holds a resource in a tick.
#[inline(always)]
pub fn is_free(scene: &Scene, number: usize) -> bool
    ensures { result ≡ is_free scene.now.observation.now number }
{
    match scene.holders.get(number) {
        Some(holder) => holder.task().is_none(),
        None => true,
    }
}

#[inline(always)]
fn is_unexpired(seen: AlarmSeen) -> bool
    ensures { result ≡ is_unexpired seen }
{
    !seen.has_expired && !seen.is_refused
}

/// Whether an alarm doesn't expire in a tick.
#[inline(always)]
pub fn is_quiet_alarm(scene: &Scene, number: usize) -> bool
    ensures { result ≡ is_quiet_alarm scene.now.observation.now number }
{
    match scene.alarms.get(number) {
        Some(seen) => is_unexpired(*seen),
        None => true,
    }
}
