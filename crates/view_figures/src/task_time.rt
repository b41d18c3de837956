//! OSEK/VDX OS: task management, task state model. What a tick is for a task.

ghost use Rattle.std.specs.Prelude.{◌≡◌};
ghost use Rattle.view_figures.specs.StateSums.{is_blocked};

/// What a tick is for a task: exactly one of these.
#[derive(Clone, Copy)]
pub enum TaskTime {
    /// The task executes the tick's instruction.
    Executed,
    /// It is READY, not blocked, and its oldest job hasn't executed since it became ready.
    StandsReady,
    /// It is READY, not blocked, and its oldest job has executed since it became ready.
    Preempted,
    /// It is READY, and a task of lower static priority executes.
    Blocked,
    /// It is WAITING.
    Waits,
    /// It is SUSPENDED.
    HasNoJob,
}

impl TaskTime {
    /// Whether it is blocked.
    pub fn is_blocked(self) -> bool
        ensures { result ≡ is_blocked self }
    {
        matches!(self, TaskTime::Blocked)
    }
}
