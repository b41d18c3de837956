//! OSEK/VDX OS: task management, task state model. What is told of a task in a tick.

ghost use Rattle.std.specs.Prelude.{◌≡◌, ◌≤◌, ◌+◌, ◌-◌};
ghost use Rattle.seen_ticks.specs.Observed.{is_number, is_waiting, one_if, state_seen};

use osek_base::{MAX_ACTIVATION, TaskId, TaskState};

/// Whether there is another task, and it is that one.
pub fn is_task(task: TaskId, other: Option<TaskId>) -> bool
    ensures { result ≡ is_number task other }
{
    match other {
        None => false,
        Some(other) => other.number() == task.number(),
    }
}

/// RUNNING for a task that executes, and READY for one that a routine interrupts.
pub fn state_seen(executes: bool, state: TaskState) -> TaskState
    ensures { result ≡ state_seen executes state }
{
    match state {
        _ if executes => TaskState::Running,
        TaskState::Running => TaskState::Ready,
        state => state,
    }
}

/// Whether a state is WAITING.
pub fn is_waiting(state: TaskState) -> bool
    ensures { result ≡ is_waiting state }
{
    matches!(state, TaskState::Waiting)
}

/// How many jobs of a task were made in a tick, where it has `jobs` behind the tick and had `before` before it, and one of them
/// `ended`.
pub fn made(jobs: u8, ended: bool, before: u8) -> u8
    requires { jobs ≤ MAX_ACTIVATION }
    ensures { result ≡ jobs + one_if ended - before }
{
    (jobs + u8::from(ended)).saturating_sub(before)
}
