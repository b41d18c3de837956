//! OSEK/VDX OS: task management, task state model. What is seen of a task in a tick.

ghost use Rattle.std.specs.Prelude.{◌≡◌};
ghost use Rattle.seen_ticks.specs.Seen.{unseen_task};

use osek_base::TaskState;

/// What is seen of a task in a tick: what it is when the tick's instruction is executed, and what comes to it in the tick.
#[derive(Clone, Copy)]
pub struct TaskSeen {
    /// RUNNING where the task executes the tick's instruction; else the state that it has then, READY for RUNNING: a task
    /// that a routine interrupts doesn't execute.
    pub state: TaskState,
    /// The dynamic priority, 0 the lowest, that its oldest job has then; None where it has no job.
    pub priority: Option<u8>,
    /// How many jobs it has then.
    pub jobs: u8,
    /// How many jobs are made in the tick, by the instruction too; in tick 0 those of boot too.
    pub made: u8,
    /// How many activations are refused in the tick, those by alarms too.
    pub refused: u8,
    /// Whether the instruction ends a job of the task: at most one.
    pub ended: bool,
    /// Whether the instruction is the task's own WaitEvent, and it waits.
    pub waits: bool,
}

/// A task without a job, in a tick in which nothing comes to it.
impl Default for TaskSeen {
    fn default() -> Self
        ensures { result ≡ unseen_task }
    {
        TaskSeen {
            state: TaskState::Suspended,
            priority: None,
            jobs: 0,
            made: 0,
            refused: 0,
            ended: false,
            waits: false,
        }
    }
}
