//! What an observation has of each task and routine, by number.

ghost use Rattle.std.specs.Prelude.{◌≡◌, ◌≤◌, length};
ghost use Rattle.osek_base.specs.System.{priority_of, routine};
ghost use Rattle.view_timelines.specs.Rows.{processor, routine_shown, task_shown};

use crate::held::Held;
use crate::moment::Moment;
use crate::processor::Processor;
use osek_base::{Owner, System};
use seen_ticks::Observation;

/// The static priority of a task, 0 where there is none of that number.
fn task_priority(system: &System, number: usize) -> u8
    ensures { result ≡ priority_of system.now number }
{
    match system.parts().tasks.as_slice().get(number) {
        Some(task) => task.priority,
        None => 0,
    }
}

/// The PRIORITY of a routine, 0 where there is none of that number.
fn routine_priority(system: &System, number: usize) -> u8
    ensures { result ≡ (routine system.now number).priority }
{
    match system.parts().routines.as_slice().get(number) {
        Some(routine) => routine.priority,
        None => 0,
    }
}

/// Who has the processor where that one executes.
pub(crate) fn processor(system: &System, executor: &Option<Owner>) -> Processor
    ensures { result ≡ processor system.now executor.now }
{
    match executor {
        None => Processor::Idle,
        Some(Owner::Routine(_)) => Processor::Routine,
        Some(Owner::Task(task)) => {
            let number = task.number() as usize;
            if number < system.task_count() {
                Processor::Task(task_priority(system, number))
            } else {
                Processor::Idle
            }
        }
    }
}

/// What the row of a task shows, whose oldest job has or hasn't executed since it became ready.
pub(crate) fn task_shown(
    system: &System,
    observation: &Observation,
    number: usize,
    has_begun: bool,
) -> Moment
    ensures { result ≡ task_shown system.now observation.now number has_begun }
{
    Moment::of_task(
        observation.task(number),
        processor(system, &observation.executor),
        task_priority(system, number),
        has_begun,
        Held::of_task(observation.holders.as_slice(), number),
    )
}

/// What the row of a routine shows.
pub(crate) fn routine_shown(system: &System, observation: &Observation, number: usize) -> Moment
    ensures { result ≡ routine_shown system.now observation.now number }
{
    Moment::of_routine(
        observation.routine(number),
        routine_priority(system, number),
    )
}
