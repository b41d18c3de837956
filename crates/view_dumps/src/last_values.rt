//! Value change dumps: what all variables of a system were last written with.

ghost use Rattle.std.specs.List.{list_any};
ghost use Rattle.std.specs.Prelude.{◌≡◌, ◌+◌, ◌*◌, ◌<◌, ◌≤◌, [], ◌++◌, length, true, false};
ghost use Rattle.view_dumps.specs.Changes.{shown, written};
ghost use Rattle.view_dumps.specs.Lines.{time_line};
ghost use Rattle.view_dumps.specs.Ticks.{
  after_tick,
  changes_from,
  events_text,
  executor_text,
  holder_after,
  holder_text,
  loses,
  resource_at,
  nothing_written,
  routine_after,
  routine_text,
  same_option,
  same_owner,
  task_after,
  task_text,
  tick_text,
  values_after,
  values_text,
};

use crate::dump_text::{DumpText, TEXT_SIZE};
use crate::events::{push_all_losses, push_expiries};
use crate::last_executor::LastExecutor;
use crate::last_number::LastNumber;
use crate::names::{push_executor, push_free, push_held};
use crate::routine_values::RoutineValues;
use crate::task_values::TaskValues;
use arrayvec::ArrayVec;
use osek_base::{IsrId, MAX_ROUTINES, MAX_TASKS, Owner, ResId, ResourceNumber, System, TaskId};
use seen_ticks::{Holder, MAX_HELD, Observation, RoutineSeen, TaskSeen};

/// How many bytes the values of a tick have at most.
const VALUES_SIZE: usize = 3886;

/// What all variables of a system that aren't events were last written with, each by the number of
/// its task, routine or resource.
#[derive(Drop)]
pub struct LastValues {
    pub executor: LastExecutor,
    pub tasks: [TaskValues; MAX_TASKS],
    pub routines: [RoutineValues; MAX_ROUTINES],
    pub holders: [LastNumber; MAX_HELD],
}

/// The resource of that number; RES_SCHEDULER stands behind those that are declared.
fn resource_at(system: &System, number: usize) -> ResId
    ensures { result ≡ resource_at system.now number }
{
    if number < system.resource_count() {
        ResId::Declared(ResourceNumber::new(number as u8))
    } else {
        ResId::Scheduler
    }
}

#[inline(always)]
fn push_tasks(
    values: &mut [TaskValues; MAX_TASKS],
    seen: &ArrayVec<TaskSeen, MAX_TASKS>,
    text: &mut DumpText,
)
    requires { length text.old + 39 * MAX_TASKS ≤ TEXT_SIZE }
    ensures same { text.new ≡ text.old ++ changes_from task_text 0 values.old seen.now.items }
    ensures after { values.new ≡ values_after task_after values.old seen.now.items }
    ensures short { length text.new ≤ length text.old + 39 * MAX_TASKS }
{
    for number in 0..seen.len() {
        let task = TaskId::new(number as u8);
        values[number].push_changes(task, &seen[number], text);
    }
}

/// Appends what changes of each routine. Answers whether an interrupt of one is lost.
#[inline(always)]
fn push_routines(
    values: &mut [RoutineValues; MAX_ROUTINES],
    seen: &ArrayVec<RoutineSeen, MAX_ROUTINES>,
    text: &mut DumpText,
) -> bool
    requires { length text.old + 8 * MAX_ROUTINES ≤ TEXT_SIZE }
    ensures lost { result ≡ list_any loses seen.now.items }
    ensures same { text.new ≡ text.old ++ changes_from routine_text 0 values.old seen.now.items }
    ensures after { values.new ≡ values_after routine_after values.old seen.now.items }
    ensures short { length text.new ≤ length text.old + 8 * MAX_ROUTINES }
{
    let mut has_lost = false;
    for number in 0..seen.len() {
        let routine = IsrId::new(number as u8);
        values[number].push_changes(routine, &seen[number], text);
        has_lost |= seen[number].lost > 0;
    }
    has_lost
}

/// Appends who holds a resource, where that changes.
#[inline(always)]
fn push_holder_change(
    system: &System,
    number: usize,
    last: &mut LastNumber,
    holder: Holder,
    text: &mut DumpText,
)
    requires { length text.old + 41 ≤ TEXT_SIZE }
    ensures same { text.new ≡ text.old ++ holder_text system.now number last.old holder }
    ensures after { last.new ≡ holder_after last.old holder }
    ensures short { length text.new ≤ length text.old + 37 }
{
    match holder.task() {
        None => {
            if last.change_to(None).is_some() {
                push_free(resource_at(system, number), text);
            }
        }
        Some(task) => {
            if last.change_to(Some(task.number())).is_some() {
                push_held(
                    system.names(),
                    resource_at(system, number),
                    task.number(),
                    text,
                );
            }
        }
    }
}

#[inline(always)]
fn push_holders(
    system: &System,
    values: &mut [LastNumber; MAX_HELD],
    seen: &ArrayVec<Holder, MAX_HELD>,
    text: &mut DumpText,
)
    requires { length text.old + 37 * MAX_HELD + 4 ≤ TEXT_SIZE }
    ensures same { text.new
        ≡ text.old ++ changes_from (holder_text system.now) 0 values.old seen.now.items }
    ensures after { values.new ≡ values_after holder_after values.old seen.now.items }
    ensures short { length text.new ≤ length text.old + 37 * MAX_HELD }
{
    for number in 0..seen.len() {
        push_holder_change(system, number, &mut values[number], seen[number], text);
    }
}

/// Appends who executes, where that changes.
#[inline(always)]
fn push_executor_change(
    system: &System,
    last: &mut LastExecutor,
    executor: Option<Owner>,
    text: &mut DumpText,
)
    requires { length text.old + 41 ≤ TEXT_SIZE }
    ensures same { text.new ≡ text.old ++ executor_text system.now last.old executor }
    ensures after { last.new ≡ shown last.old (written (same_option same_owner) last.old executor) }
    ensures short { length text.new ≤ length text.old + 41 }
{
    if let Some(executor) = last.change_to(&executor) {
        push_executor(system.names(), &executor, text);
    }
}

/// Appends the events that fire. It is known whether an interrupt is lost.
#[inline(always)]
fn push_events(seen: &Observation, has_lost: bool, text: &mut DumpText)
    requires lost { has_lost ≡ list_any loses seen.now.routines.items }
    requires room { length text.old + 320 ≤ TEXT_SIZE }
    ensures same { text.new ≡ text.old ++ events_text seen.now }
    ensures short { length text.new ≤ length text.old + 320 }
{
    push_all_losses(&seen.routines, has_lost, text);
    push_expiries(&seen.alarms, text);
}

impl LastValues {
    /// Nothing was written yet.
    pub(crate) fn new() -> Self
        ensures { result ≡ nothing_written }
    {
        LastValues {
            executor: LastExecutor::default(),
            tasks: [TaskValues::default(); MAX_TASKS],
            routines: [RoutineValues::default(); MAX_ROUTINES],
            holders: [LastNumber::default(); MAX_HELD],
        }
    }

    /// Appends the values that change with what is seen. Answers whether an interrupt is lost.
    #[inline(always)]
    fn push_values(&mut self, system: &System, seen: &Observation, text: &mut DumpText) -> bool
        requires { length text.old + VALUES_SIZE + 4 ≤ TEXT_SIZE }
        ensures lost { result
            ≡ list_any loses seen.now.routines.items }
        ensures same { text.new ≡ text.old ++ values_text system.now self.old seen.now }
        ensures after { self.new ≡ after_tick self.old seen.now }
        ensures short { length text.new ≤ length text.old + VALUES_SIZE }
    {
        push_executor_change(system, &mut self.executor, seen.executor, text);
        push_tasks(&mut self.tasks, &seen.tasks, text);
        let has_lost = push_routines(&mut self.routines, &seen.routines, text);
        push_holders(system, &mut self.holders, &seen.holders, text);
        has_lost
    }

    /// Puts together what is written of a tick behind the first that is written, from the line of
    /// its time on: nothing where nothing changes.
    #[inline(always)]
    pub(crate) fn push_later(
        &mut self,
        system: &System,
        tick: u32,
        seen: &Observation,
        text: &mut DumpText,
    )
        requires time { text.old ≡ time_line tick }
        requires short { length text.old ≤ 18 }
        ensures same { text.new ≡ tick_text system.now true tick self.old seen.now }
        ensures after { self.new ≡ after_tick self.old seen.now }
    {
        let start = text.len();
        let has_lost = self.push_values(system, seen, text);
        push_events(seen, has_lost, text);
        if text.len() == start {
            text.clear();
        }
    }

    /// Puts together what is written of the first tick that is written, from the line of its time
    /// on.
    #[inline(never)]
    pub(crate) fn push_first(
        &mut self,
        system: &System,
        tick: u32,
        seen: &Observation,
        text: &mut DumpText,
    )
        requires time { text.old ≡ time_line tick }
        requires short { length text.old ≤ 18 }
        ensures same { text.new ≡ tick_text system.now false tick self.old seen.now }
        ensures after { self.new ≡ after_tick self.old seen.now }
    {
        text.push_bytes(b"$dumpvars\n");
        let has_lost = self.push_values(system, seen, text);
        text.push_bytes(b"$end\n");
        push_events(seen, has_lost, text);
    }
}
