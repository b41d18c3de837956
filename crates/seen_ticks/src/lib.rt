//! What is seen of one tick of a run: who executes, what each task, routine, resource and alarm
//! is then, and what ends, is lost or is refused. Each word is exactly as defined, over the run's
//! states and over what is kept of them.
//!
//! Plain values (`Observation`) say what is seen of the task, the routine and the alarm of a
//! number and who holds a resource: exactly what is at its place, and nothing where there is
//! none.
//!
//! The definitions go over the states of a run (`Observed`) and over what is kept of them
//! (`Told`): of which task a job ends or an activation is refused, who executed and how that was
//! answered, how often a routine's interrupts arrive and how many are lost, how many activations
//! by alarms are refused. The code is what runs and machines that are observed share: what was
//! executed, what a task is then, and what is told of one task, routine or alarm.
//!
//! Laws that proofs above cite: what is kept of a state tells the state, the dynamic priority and
//! the number of jobs of each task, who holds each resource, and which due alarms are refused.
//! The records of a tick tell one instruction.
#![tactic(auto)]

mod alarm_seen;
mod alarms_told;
mod execution;
mod failures;
mod holder;
mod observation;
mod routine_seen;
mod routines_told;
mod task_at;
mod task_seen;
mod tasks_told;

pub use alarm_seen::AlarmSeen;
pub use alarms_told::{activations_by, is_among};
pub use execution::{Execution, answered, executor, failure, is_by};
pub use failures::Failure;
pub use holder::Holder;
pub use observation::{MAX_HELD, Observation};
pub use routine_seen::RoutineSeen;
pub use routines_told::{is_routine, lost_of, times};
pub use task_at::TaskAt;
pub use task_seen::TaskSeen;
pub use tasks_told::{is_task, is_waiting, made, state_seen};
