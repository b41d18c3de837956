//! OSEK/VDX OS: task management, task state model. What a task is when a tick's instruction is
//! executed.

use osek_base::TaskState;

/// What a task is when a tick's instruction is executed.
#[derive(Clone, Copy)]
pub struct TaskAt {
    /// Its state, as GetTaskState answers it.
    pub state: TaskState,
    /// The dynamic priority of its oldest job, 0 the lowest; None where it has no job.
    pub priority: Option<u8>,
    /// How many jobs it has, at most [`MAX_ACTIVATION`](osek_base::MAX_ACTIVATION).
    pub jobs: u8,
}

/// A task without a job.
impl Default for TaskAt {
    fn default() -> Self {
        TaskAt {
            state: TaskState::Suspended,
            priority: None,
            jobs: 0,
        }
    }
}
