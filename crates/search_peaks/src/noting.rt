//! What a tick shows is noted, thing by thing.

ghost use Rattle.std.specs.Prelude.{◌≡◌, ◌<◌, ◌∷◌, [], IsTrue, Some, false, length, min};
ghost use Rattle.std.specs.Int.{bit_at};
ghost use Rattle.osek_base.specs.declared.limits.TheConstants.{MAX_ROUTINES};
ghost use Rattle.view_figures.specs.FigureSums.{levels_of};
ghost use Rattle.view_measures.specs.declared.figure.Figure.{Figure as Shown};
ghost use Rattle.view_measures.specs.declared.kind.Kind.{Kind};
ghost use Rattle.view_measures.specs.declared.measure.Measure.{Measure as Told};
ghost use Rattle.law_figures.specs.Counts.{one_if};
ghost use Rattle.seen_ticks.specs.Seen.{seen_of};
ghost use Rattle.search_labels.specs.Parts.{IsIdle};
ghost use Rattle.search_labels.specs.Ticks.{alarm_in};
ghost use Rattle.search_peaks.specs.declared.numbers.TheConstants.{MAX_THINGS, PLACES};
ghost use Rattle.search_peaks.specs.Noting.{reading, shown_by};
ghost use Rattle.search_peaks.specs.Raising.{
  AreErrorsNoted,
  IsAllNoted,
  IsNotedBelow,
  IsNotedOf,
  Raises,
  noted_of,
};

use crate::numbers::raise;
use osek_base::{MAX_ROUTINES, Owner, System};
use search_labels::{Labels, holder_tick, ready_tick, routine_tick, task_tick};
use seen_ticks::{Failure, Observation};
use view_figures::TaskTick;
use view_measures::Measure;

/// 0 of 0, else 1.
#[inline(always)]
fn one_at_most(number: u32) -> u32
    ensures { result ≡ min 1 number }
{
    number.min(1)
}

/// 1 where something comes, else 0.
#[inline(always)]
fn one_if(comes: bool) -> u32
    ensures { result ≡ one_if comes }
{
    u32::from(comes)
}

/// Whether a tick shows nothing of a task; at true it is idle, and no activation of it is refused.
#[inline(always)]
fn shows_nothing(tick: &TaskTick, labels: &Labels, task: usize) -> bool
    ensures idle { IsTrue result → IsIdle tick.now.seen labels.now task }
    ensures refusals { IsTrue result → tick.now.seen.refused ≡ 0 }
{
    tick.seen.refused == 0 && labels.is_idle(&tick.seen, task)
}

/// Notes what a tick shows of a task, and answers whether that is more than before. Most tasks show
/// nothing, which leaves all as it is.
#[inline(always)]
fn note_task(
    numbers: &mut [u32],
    system: &System,
    cap: u32,
    seen: &Observation,
    labels: &Labels,
    task: usize,
) -> bool
    requires things { task < MAX_THINGS }
    requires places { length numbers.old ≡ PLACES }
    ensures { Raises (IsNotedOf (reading (levels_of system.now) cap (shown_by seen.now false)
        labels.now) (noted_of Kind.Task) task) numbers.old numbers.new result }
{
    let seen_alone = task_tick(seen, task);
    if shows_nothing(&seen_alone, labels, task) {
        return false;
    }
    let tick = ready_tick(system, seen, task);
    let age = labels.oldest_age(cap, &tick, task);
    let ticks = labels.blocked_ticks(cap, &tick, task);
    let least = one_at_most(ticks);
    let jobs = u32::from(tick.seen.jobs);
    let refused = one_at_most(u32::from(tick.seen.refused));
    let is_refused = raise(numbers, Measure::Refusal, task, Some(refused));
    let has_jobs = raise(numbers, Measure::Jobs, task, Some(jobs));
    let has_blocker = raise(numbers, Measure::Blockers, task, Some(least));
    let is_blocked = raise(numbers, Measure::Blocked, task, Some(ticks));
    let is_older = raise(numbers, Measure::Response, task, age);
    is_refused | has_jobs | has_blocker | is_blocked | is_older
}

/// Notes what a tick shows of the tasks.
fn note_tasks(
    numbers: &mut [u32],
    system: &System,
    cap: u32,
    seen: &Observation,
    labels: &Labels,
) -> bool
    requires { length numbers.old ≡ PLACES }
    ensures { Raises (IsNotedBelow (reading (levels_of system.now) cap (shown_by seen.now false)
        labels.now) (noted_of Kind.Task) (length seen.now.tasks.items))
        numbers.old numbers.new result }
{
    let mut rises = false;
    for task in 0..seen.tasks.len() {
        rises |= note_task(numbers, system, cap, seen, labels, task);
    }
    rises
}

/// Notes what a tick shows of a routine.
#[inline(always)]
fn note_routine(
    numbers: &mut [u32],
    cap: u32,
    seen: &Observation,
    labels: &Labels,
    routine: usize,
) -> bool
    requires things { routine < MAX_THINGS }
    requires places { length numbers.old ≡ PLACES }
    ensures { Raises (IsNotedOf (reading [] cap (shown_by seen.now false) labels.now)
        (noted_of Kind.Routine) routine) numbers.old numbers.new result }
{
    let tick = routine_tick(seen, routine);
    let wait = labels.waited(cap, &tick, routine);
    let lost = one_at_most(tick.seen.lost);
    let is_lost = raise(numbers, Measure::Loss, routine, Some(lost));
    let is_longer = raise(numbers, Measure::Latency, routine, wait);
    is_lost | is_longer
}

/// Notes what a tick shows of the routines.
fn note_routines(numbers: &mut [u32], cap: u32, seen: &Observation, labels: &Labels) -> bool
    requires { length numbers.old ≡ PLACES }
    ensures { Raises (IsNotedBelow (reading [] cap (shown_by seen.now false) labels.now)
        (noted_of Kind.Routine) (length seen.now.routines.items)) numbers.old numbers.new result }
{
    let mut rises = false;
    for routine in 0..seen.routines.len() {
        rises |= note_routine(numbers, cap, seen, labels, routine);
    }
    rises
}

/// Notes for how long resources are held in a tick.
fn note_holds(numbers: &mut [u32], cap: u32, seen: &Observation, labels: &Labels) -> bool
    requires { length numbers.old ≡ PLACES }
    ensures { Raises (IsNotedBelow (reading [] cap (shown_by seen.now false) labels.now)
        (noted_of Kind.Resource) (length seen.now.holders.items)) numbers.old numbers.new result }
{
    let mut rises = false;
    for resource in 0..seen.holders.len() {
        let held = labels.held_ticks(cap, &holder_tick(seen, resource), resource);
        rises |= raise(numbers, Measure::Hold, resource, held);
    }
    rises
}

/// Notes of which alarms a tick refuses the actions.
fn note_actions(numbers: &mut [u32], seen: &Observation) -> bool
    requires { length numbers.old ≡ PLACES }
    ensures { Raises (IsNotedBelow (λ (f : Shown). Some (one_if (alarm_in (seen_of seen.now)
        f.number).is_refused)) (noted_of Kind.Alarm) (length seen.now.alarms.items))
        numbers.old numbers.new result }
{
    let mut rises = false;
    for alarm in 0..seen.alarms.len() {
        let refused = one_if(seen.alarms[alarm].is_refused);
        rises |= raise(numbers, Measure::RefusedAction, alarm, Some(refused));
    }
    rises
}

/// Notes whose service fails, if one does.
fn note_owner(numbers: &mut [u32], failure: &Option<Failure>) -> bool
    requires { length numbers.old ≡ PLACES }
    ensures { Raises (AreErrorsNoted failure.now) numbers.old numbers.new result }
{
    match failure {
        Some(failure) => match &failure.owner {
            Owner::Task(task) => {
                raise(numbers, Measure::Errors, task.number() as usize, Some(1))
            }
            Owner::Routine(routine) => {
                raise(
                    numbers,
                    Measure::RoutineErrors,
                    routine.number() as usize,
                    Some(1),
                )
            }
        },
        None => false,
    }
}

/// Notes what a tick of a run of the system shows with the labels before it, up to a cap in ticks,
/// and whether the run is over behind it; answers whether that is more than before.
pub(crate) fn note_figures(
    numbers: &mut [u32],
    system: &System,
    cap: u32,
    seen: &Observation,
    is_over: bool,
    labels: &Labels,
) -> bool
    requires { length numbers.old ≡ PLACES }
    ensures { Raises (IsAllNoted (reading (levels_of system.now) cap (shown_by seen.now is_over)
        labels.now) (seen_of seen.now)) numbers.old numbers.new result }
{
    let tasks = note_tasks(numbers, system, cap, seen, labels);
    let routines = note_routines(numbers, cap, seen, labels);
    let holds = note_holds(numbers, cap, seen, labels);
    let actions = note_actions(numbers, seen);
    let errors = note_owner(numbers, &seen.failure);
    let over = one_if(is_over);
    let ends = raise(numbers, Measure::Shutdown, 0, Some(over));
    tasks | routines | holds | actions | errors | ends
}

/// Notes that interrupts of the routines of a set are lost, and answers whether that is new.
pub(crate) fn note_lost(numbers: &mut [u32], set: u64) -> bool
    requires { length numbers.old ≡ PLACES }
    ensures { Raises (IsNotedBelow (λ (f : Shown). Some (bit_at set f.number)) (Told.Loss ∷ [])
        MAX_ROUTINES) numbers.old numbers.new result }
{
    let mut rises = false;
    for routine in 0..MAX_ROUTINES {
        let lost = ((set >> routine) % 2) as u32;
        rises |= raise(numbers, Measure::Loss, routine, Some(lost));
    }
    rises
}
