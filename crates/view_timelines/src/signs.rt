//! What comes to tasks and routines in a tick.

ghost use Rattle.std.specs.Prelude.{◌≡◌, ◌<◌, ◌∷◌, [], Some, length, OnOk};
ghost use Rattle.osek_base.specs.declared.ids.Owner.{Owner};
ghost use Rattle.osek_base.specs.Upper.{action_task};
ghost use Rattle.view_timelines.specs.Marks.{
  alarm_signs,
  alarms_signs,
  answering,
  expiry,
  on_row,
  placed_on,
  records_signs,
  setting,
  telling,
};
ghost use Rattle.view_timelines.specs.RowSteps.{AreSigned};

use crate::mark::{Placed, Sign};
use crate::track::{Track, mark_at};
use osek_base::{Action, Entry, Instr, Outcome, Owner, Service, Status, System, TraceEvent};
use seen_ticks::{AlarmSeen, Observation};
use std::alloc::AllocError;

/// Marks the alarms that expire. An error is want of memory.
pub(crate) fn mark_alarms(
    system: &System,
    tick: u32,
    observation: &Observation,
    tasks: &mut [Track],
) -> Result<(), AllocError>
    ensures { OnOk result
        (AreSigned tick (alarms_signs system.now observation.now) tasks.old tasks.new) }
{
    for number in 0..system.alarm_count() {
        mark_alarm(system, tick, number, observation.alarm(number), tasks)?;
    }
    Ok(())
}

/// Marks an alarm, if it expires. An error is want of memory.
fn mark_alarm(
    system: &System,
    tick: u32,
    number: usize,
    seen: AlarmSeen,
    tasks: &mut [Track],
) -> Result<(), AllocError>
    requires { number < length system.now.alarms }
    ensures { OnOk result
        (AreSigned tick (alarm_signs system.now number seen) tasks.old tasks.new) }
{
    if !seen.has_expired {
        return Ok(());
    }
    let alarm = &system.parts().alarms[number];
    mark_expiry(tick, number, &alarm.action, seen.is_refused, tasks)
}

/// Marks an alarm that expires. An error is want of memory.
fn mark_expiry(
    tick: u32,
    alarm: usize,
    action: &Action,
    is_refused: bool,
    tasks: &mut [Track],
) -> Result<(), AllocError>
    ensures { OnOk result (AreSigned tick
        (on_row (action_task action.now) (expiry alarm action.now is_refused))
        tasks.old tasks.new) }
{
    let number = action_task(action);
    if is_refused {
        return mark_at(tasks, number, tick, Sign::ExpiryRefused(alarm));
    }
    mark_at(tasks, number, tick, Sign::Expired(alarm))?;
    match action {
        Action::ActivateTask(_) => Ok(()),
        Action::SetEvent(_, mask) => mark_at(tasks, number, tick, Sign::EventsSet(*mask)),
    }
}

/// The task on which an alarm acts.
fn action_task(action: &Action) -> usize
    ensures { result ≡ action_task action.now }
{
    match action {
        Action::ActivateTask(task) => task.number() as usize,
        Action::SetEvent(task, _) => task.number() as usize,
    }
}

/// Marks the events that services set, and the services that are refused. An error is want of
/// memory.
pub(crate) fn mark_records(
    tick: u32,
    records: &[Entry],
    tasks: &mut [Track],
    routines: &mut [Track],
) -> Result<(), AllocError>
    ensures tasks { OnOk result (AreSigned tick
        (λ k. records_signs records.now (Owner.Task k)) tasks.old tasks.new) }
    ensures routines { OnOk result (AreSigned tick
        (λ k. records_signs records.now (Owner.Routine k)) routines.old routines.new) }
{
    for entry in records {
        mark_record(tick, entry.event(), tasks, routines)?;
    }
    Ok(())
}

/// Marks what a record leaves. An error is want of memory.
fn mark_record(
    tick: u32,
    event: &TraceEvent,
    tasks: &mut [Track],
    routines: &mut [Track],
) -> Result<(), AllocError>
    ensures tasks { OnOk result (AreSigned tick
        (λ k. placed_on (Owner.Task k) (telling event.now)) tasks.old tasks.new) }
    ensures routines { OnOk result (AreSigned tick
        (λ k. placed_on (Owner.Routine k) (telling event.now)) routines.old routines.new) }
{
    match telling(event) {
        Some(placed) => mark_placed(tick, &placed, tasks, routines),
        None => Ok(()),
    }
}

/// Marks what came to somebody. An error is want of memory.
fn mark_placed(
    tick: u32,
    placed: &Placed,
    tasks: &mut [Track],
    routines: &mut [Track],
) -> Result<(), AllocError>
    ensures tasks { OnOk result (AreSigned tick
        (λ k. placed_on (Owner.Task k) (Some placed.now)) tasks.old tasks.new) }
    ensures routines { OnOk result (AreSigned tick
        (λ k. placed_on (Owner.Routine k) (Some placed.now)) routines.old routines.new) }
{
    match &placed.owner {
        Owner::Task(task) => mark_at(tasks, task.number() as usize, tick, placed.sign),
        Owner::Routine(routine) => mark_at(routines, routine.number() as usize, tick, placed.sign),
    }
}

/// What a record leaves, and to whom it comes.
fn telling(event: &TraceEvent) -> Option<Placed>
    ensures { result ≡ telling event.now }
{
    match event {
        TraceEvent::Executed(owner, _, instr, Outcome::Answer(status, _)) => {
            answering(owner, instr, *status)
        }
        _ => None,
    }
}

/// What a service leaves that is answered so.
fn answering(owner: &Owner, instr: &Instr, status: Status) -> Option<Placed>
    ensures { result ≡ answering owner.now instr.now status }
{
    match status {
        Status::Ok => setting(instr),
        refused => Some(Placed {
            owner: *owner,
            sign: Sign::Refused(refused),
        }),
    }
}

/// The events that an instruction sets where it is done.
fn setting(instr: &Instr) -> Option<Placed>
    ensures { result ≡ setting instr.now }
{
    match instr {
        Instr::Service(Service::SetEvent(Some(task), mask)) => Some(Placed {
            owner: Owner::Task(*task),
            sign: Sign::EventsSet(*mask),
        }),
        _ => None,
    }
}
