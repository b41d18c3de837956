//! OSEK/VDX OS: error handling. A service that may be answered other than E_OK, as traces write it.

ghost use Rattle.std.specs.Prelude.{◌≡◌, ◌<◌, IsTrue, length};
ghost use Rattle.osek_base.specs.Names.{owner_name};
ghost use Rattle.osek_base.specs.Separable.{IsOwner};
ghost use Rattle.osek_base.specs.System.{program};

use osek_base::{Outcome, Owner, Results, System, TraceEvent};
use seen_ticks::Failure;
use std::alloc::{AllocError, Global};
use trace_lines::{LineText, line_text};

/// The beginning of a line of a trace at tick 0: the tick, and a space.
const TICK: usize = 2;

/// Whether a system has a task or routine.
fn has_owner(system: &System, owner: &Owner) -> bool
    ensures { IsTrue result → IsOwner system.now owner.now }
{
    match owner {
        Owner::Task(task) => (task.number() as usize) < system.task_count(),
        Owner::Routine(routine) => (routine.number() as usize) < system.routine_count(),
    }
}

/// Whether a system has the place of a service.
fn has_place(system: &System, failure: &Failure) -> bool
    ensures owner { IsTrue result → IsOwner system.now failure.now.owner }
    ensures place { IsTrue result →
        failure.now.place < length (program system.now failure.now.owner) }
{
    if !has_owner(system, &failure.owner) {
        return false;
    }
    let len = system.program_len(failure.owner);
    (failure.place.number() as usize) < len
}

/// The name of a task or routine; empty, where there is none.
pub(crate) fn name_of(system: &System, owner: Owner) -> &str
    ensures { result.now ≡ owner_name system.now.names owner }
{
    let names = system.names();
    let name = match owner {
        Owner::Task(task) => names.tasks.get(task.number() as usize),
        Owner::Routine(routine) => names.routines.get(routine.number() as usize),
    };
    match name {
        Some(name) => name.as_str(),
        None => "",
    }
}

/// The record of a service that may fail, where the system has such a place.
fn record_of(system: &System, failure: &Failure) -> Option<TraceEvent> {
    if !has_place(system, failure) {
        return None;
    }
    let instruction = system.instruction_at(failure.owner, failure.place);
    let outcome = Outcome::Answer(failure.status, Results::Nothing);
    Some(TraceEvent::Executed(failure.owner, failure.place, instruction, outcome))
}

/// Leaves a service that may fail as a trace writes it at tick 0: who, at which place, which, and
/// the number of the status. Nothing, where the system has no such place.
pub(crate) fn put_failure(system: &System, failure: &Failure, text: &mut LineText) {
    text.clear();
    if let Some(record) = record_of(system, failure) {
        line_text(system.names(), 0, &record, text);
    }
}

/// What stands behind the tick of a line.
pub(crate) fn behind_tick(text: &LineText) -> &str {
    text.as_str().get(TICK..).unwrap_or("")
}

/// A service that may fail as a trace writes it, without a tick.
pub fn service_text(
    alloc: Global,
    system: &System,
    failure: &Failure,
) -> Result<String, AllocError> {
    let mut text = LineText::new();
    put_failure(system, failure, &mut text);
    String::from_str(alloc, behind_tick(&text))
}
