//! OSEK/VDX OS: task management, ActivateTask and E_OS_LIMIT. Of which tasks no activation is
//! refused, and whether all is so that is told of refusals.

ghost use Rattle.std.specs.Prelude.{◌≡◌, ◌+◌, ◌<◌, ◌≤◌, IfSome, IsTrue, length};
ghost use Rattle.osek_base.specs.System.{is_extended, starts_in};
ghost use Rattle.law_alarms.specs.Expiries.{base_of};
ghost use Rattle.law_analysis.specs.Refusing.{AreSoFarApart, IsOfAlarm};
ghost use Rattle.law_analysis.specs.RefusingByRoutine.{IsOfRoutine};
ghost use Rattle.analysis_bounds.specs.declared.levels.TheConstants.{CAP};
ghost use Rattle.analysis_bounds.specs.Refusing.{
  AlarmIsSlow,
  AreAccepted,
  AreActionsAccepted,
  AreJobsShort,
  IsAccepted,
  IsActionAccepted,
  IsKnown,
  IsLeftAlone,
  IsLeftToAlarm,
  IsLeftToRoutine,
  RefusalsAreTold,
  RoutineIsSlow,
};
ghost use Rattle.analysis_bounds.specs.Windows.{AreMosts};

use crate::activating::{
    activates_alone, alarm_activates, is_activated_at, is_activated_by_none, no_alarm_activates,
    place_in,
};
use crate::levels::CAP;
use crate::pacing::{is_never_set, ticks_of};
use crate::starts::{are_kept_apart, least_most};
use crate::told::{response_of, told};
use arrival_rules::ArrivalRule;
use law_analysis::{accepted_actions, alarms_refuse_none, nobody_refuses, routines_refuse_none};
use osek_base::{Action, AlarmId, ModeId, System};
use search_peaks::Peaks;
use view_measures::Measure;

/// Whether a task lists an event.
fn is_extended(system: &System, task: usize) -> bool
    requires { task < length system.now.tasks }
    ensures { result ≡ is_extended system.now task }
{
    let own = &system.parts().tasks[task];
    !own.events.is_empty()
}

/// Whether a task starts with a mode.
fn starts_in(system: &System, mode: ModeId, task: usize) -> bool
    requires { task < length system.now.tasks }
    ensures { result ≡ starts_in system.now mode task }
{
    let own = &system.parts().tasks[task];
    own.starts_in(mode)
}

/// Whether nobody but boot activates a task; at true it is so.
fn is_left_alone(system: &System, task: usize) -> bool
    ensures { IsTrue result → IsLeftAlone system.now task }
{
    is_activated_by_none(system, task) && no_alarm_activates(system, task)
}

/// The alarm of a number.
fn alarm_of(system: &System, number: usize) -> AlarmId
    requires { number < length system.now.alarms }
    ensures { result ≡ number }
{
    system.shows_proper();
    AlarmId::new(number as u8)
}

/// The time and the cycle, in counts, of an alarm that alone activates a task but for boot, and
/// that boot alone sets.
fn start_alone(system: &System, mode: ModeId, task: usize, alarm: usize) -> Option<(u32, u32)>
    requires { alarm < length system.now.alarms }
    ensures { IfSome result (λ start. IsOfAlarm system.now mode task alarm start.0 start.1) }
{
    if !activates_alone(system, alarm, task) {
        return None;
    }
    if !is_activated_by_none(system, task) || !is_never_set(system, alarm) {
        return None;
    }
    system.alarm_start(mode, alarm_of(system, alarm))
}

/// The ticks of a count of an alarm's counter.
fn base_of(system: &System, alarm: usize) -> u32
    requires { alarm < length system.now.alarms }
    ensures { result ≡ base_of system.now alarm }
{
    let counter = system.counter_of(alarm_of(system, alarm));
    counter.ticks_per_base
}

/// Whether an alarm with such a time and cycle, in counts, activates a task no sooner than so many
/// ticks behind boot's activation and behind its own; at true it is so.
fn are_so_far_apart(
    system: &System,
    mode: ModeId,
    task: usize,
    alarm: usize,
    start: (u32, u32),
    most: u32,
) -> bool
    requires task { task < length system.now.tasks }
    requires alarm { alarm < length system.now.alarms }
    ensures { IsTrue result → AreSoFarApart system.now mode task alarm start.0 start.1 most }
{
    let (time, cycle) = start;
    let base = base_of(system, alarm);
    if cycle != 0 && ticks_of(cycle, base) < u64::from(most) {
        return false;
    }
    !starts_in(system, mode, task) || u64::from(most) <= ticks_of(time, base)
}

/// Whether a task is left to an alarm, which activates it no sooner than so many ticks behind its
/// activation before; at true it is so.
fn is_left_to_alarm(system: &System, mode: ModeId, task: usize, alarm: usize, most: u32) -> bool
    requires task { task < length system.now.tasks }
    requires alarm { alarm < length system.now.alarms }
    ensures { IsTrue result → IsLeftToAlarm system.now mode task alarm most }
{
    match start_alone(system, mode, task, alarm) {
        None => false,
        Some(start) => are_so_far_apart(system, mode, task, alarm, start, most),
    }
}

/// Whether a task is left to one of the alarms.
fn alarm_is_slow(system: &System, mode: ModeId, task: usize, most: u32) -> bool
    requires { task < length system.now.tasks }
    ensures { IsTrue result → AlarmIsSlow system.now mode task most }
{
    for alarm in 0..system.alarm_count() {
        if is_left_to_alarm(system, mode, task, alarm, most) {
            return true;
        }
    }
    false
}

/// Whether neither boot nor an alarm activates a task, and no instruction but that of a routine at
/// a place; at true it is so.
fn is_of_routine(system: &System, mode: ModeId, task: usize, routine: usize, place: usize) -> bool
    requires task { task < length system.now.tasks }
    requires routine { routine < length system.now.routines }
    ensures { IsTrue result → IsOfRoutine system.now mode task routine place }
{
    if starts_in(system, mode, task) || !no_alarm_activates(system, task) {
        return false;
    }
    is_activated_at(system, routine, place, task)
}

/// The ticks of a latency, up to an instruction, and of a response.
fn ticks_between(latency: u32, place: usize, most: u32) -> Option<u32>
    requires latency { latency < CAP }
    requires most { most < CAP }
    ensures { IfSome result (λ ticks. ticks ≡ latency + place + most) }
{
    if place >= CAP as usize {
        return None;
    }
    Some(latency + place as u32 + most)
}

/// Whether a task is left to a routine at a place, whose interrupts a rule keeps so many ticks
/// apart; at true it is so.
fn is_left_to_routine(
    system: &System,
    mode: ModeId,
    rules: &[ArrivalRule],
    task: usize,
    routine: usize,
    place: usize,
    ticks: u32,
) -> bool
    requires task { task < length system.now.tasks }
    requires routine { routine < length system.now.routines }
    ensures { IsTrue result → IsLeftToRoutine system.now mode rules.now task routine place ticks }
{
    are_kept_apart(rules, routine, ticks) && is_of_routine(system, mode, task, routine, place)
}

/// Whether a task is left to a routine, which starts within some ticks, and whose interrupts come
/// so many ticks more apart.
fn is_slow(
    system: &System,
    mode: ModeId,
    rules: &[ArrivalRule],
    mosts: &[u32],
    task: usize,
    routine: usize,
    most: u32,
) -> bool
    requires task { task < length system.now.tasks }
    requires routine { routine < length system.now.routines }
    requires most { most < CAP }
    ensures { IsTrue result → RoutineIsSlow system.now mode rules.now mosts.now task most }
{
    let latency = least_most(system, mosts, routine);
    if latency < 1 || latency >= CAP {
        return false;
    }
    match place_in(system, routine, task) {
        None => false,
        Some(place) => match ticks_between(latency, place, most) {
            None => false,
            Some(ticks) => { is_left_to_routine(system, mode, rules, task, routine, place, ticks) }
        },
    }
}

/// Whether a task is left to one of the routines.
fn routine_is_slow(
    system: &System,
    mode: ModeId,
    rules: &[ArrivalRule],
    mosts: &[u32],
    task: usize,
    most: u32,
) -> bool
    requires task { task < length system.now.tasks }
    requires most { most < CAP }
    ensures { IsTrue result → RoutineIsSlow system.now mode rules.now mosts.now task most }
{
    for routine in 0..system.routine_count() {
        if is_slow(system, mode, rules, mosts, task, routine, most) {
            return true;
        }
    }
    false
}

/// Whether jobs of a task never wait, and each has ended before the next one is made.
fn are_jobs_short(
    system: &System,
    mode: ModeId,
    rules: &[ArrivalRule],
    mosts: &[u32],
    task: usize,
) -> bool
    requires { task < length system.now.tasks }
    ensures { IsTrue result → AreJobsShort system.now mode rules.now mosts.now task }
{
    let most = response_of(system, mosts, task);
    if most >= CAP || is_extended(system, task) {
        return false;
    }
    if alarm_is_slow(system, mode, task, most) {
        return true;
    }
    routine_is_slow(system, mode, rules, mosts, task, most)
}

/// Whether it is known of a task that no activation is refused, by the ticks of windows of levels.
pub(crate) fn is_accepted(
    system: &System,
    mode: ModeId,
    rules: &[ArrivalRule],
    mosts: &[u32],
    task: usize,
) -> bool
    requires { task < length system.now.tasks }
    ensures { IsTrue result → IsAccepted system.now mode rules.now mosts.now task }
{
    if is_left_alone(system, task) {
        return true;
    }
    are_jobs_short(system, mode, rules, mosts, task)
}

/// Whether it is known of a task that no activation is refused, or is told that one may be.
fn is_known(
    system: &System,
    mode: ModeId,
    rules: &[ArrivalRule],
    mosts: &[u32],
    peaks: &Peaks,
    task: usize,
) -> bool
    requires { task < length system.now.tasks }
    ensures { IsTrue result
        → IsKnown system.now mode rules.now mosts.now peaks.now task }
{
    if told(peaks, Measure::Refusal, task) >= 1 {
        return true;
    }
    is_accepted(system, mode, rules, mosts, task)
}

/// .. of each task.
fn are_accepted(
    system: &System,
    mode: ModeId,
    rules: &[ArrivalRule],
    mosts: &[u32],
    peaks: &Peaks,
) -> bool
    ensures { IsTrue result → AreAccepted system.now mode rules.now mosts.now peaks.now
        (length system.now.tasks) }
{
    for task in 0..system.task_count() {
        if !is_known(system, mode, rules, mosts, peaks, task) {
            return false;
        }
    }
    true
}

/// Whether an alarm activates a task of which no refusal is told.
pub(crate) fn is_action_accepted(system: &System, peaks: &Peaks, alarm: usize) -> bool
    requires { alarm < length system.now.alarms }
    ensures { IsTrue result → IsActionAccepted system.now peaks.now alarm }
{
    let own = &system.parts().alarms[alarm];
    match &own.action {
        Action::SetEvent(_, _) => false,
        Action::ActivateTask(task) => {
            let number = task.number() as usize;
            number < system.task_count()
                && alarm_activates(system, number, alarm)
                && told(peaks, Measure::Refusal, number) < 1
        }
    }
}

/// Whether each alarm does, or is told to have an action that is refused.
fn are_actions_accepted(system: &System, peaks: &Peaks) -> bool
    ensures { IsTrue result
        → AreActionsAccepted system.now peaks.now (length system.now.alarms) }
{
    for alarm in 0..system.alarm_count() {
        if told(peaks, Measure::RefusedAction, alarm) < 1
            && !is_action_accepted(system, peaks, alarm)
        {
            return false;
        }
    }
    true
}

/// Whether all is so that is told of refusals of activations, by tasks and by the alarms whose
/// actions they are.
pub(crate) fn refusals_are_told(
    system: &System,
    mode: ModeId,
    rules: &[ArrivalRule],
    mosts: &[u32],
    peaks: &Peaks,
) -> bool
    requires mosts { AreMosts system.now mode rules.now CAP mosts.now }
    ensures { IsTrue result → RefusalsAreTold system.now mode rules.now peaks.now }
{
    system.shows_proper();
    nobody_refuses();
    alarms_refuse_none();
    routines_refuse_none();
    accepted_actions();
    if !are_accepted(system, mode, rules, mosts, peaks) {
        return false;
    }
    are_actions_accepted(system, peaks)
}
