//! OSEK/VDX OS: task state model, interrupt processing. What a task or a routine does in a tick.

/// What a task or a routine does in a tick.
#[derive(Clone, Copy)]
pub enum Activity {
    /// The task is SUSPENDED; the routine neither executes nor is pending.
    Nothing,
    /// It executes the tick's instruction.
    Executing,
    /// The task is READY, and none of the next three; or the routine is pending.
    Ready,
    /// The task is READY, its oldest job has executed since it became ready, and no task of lower priority executes, nor does
    /// a routine.
    Preempted,
    /// The task is READY, its oldest job has executed since it became ready, and a routine executes.
    Interrupted,
    /// The task is READY, and a task of lower static priority executes.
    Blocked,
    /// The task is WAITING.
    Waiting,
}

impl Activity {
    /// Whether nothing is done.
    pub(crate) fn is_nothing(self) -> bool {
        matches!(self, Activity::Nothing)
    }
}
