//! Whose row it is.

use crate::activity::Activity;

/// Whose row it is.
#[derive(Clone, Copy)]
pub(crate) enum RowKind {
    Task,
    Routine,
}

impl RowKind {
    pub(crate) fn name(self) -> &'static str {
        match self {
            RowKind::Task => "task",
            RowKind::Routine => "routine",
        }
    }

    /// The word for what is done.
    pub(crate) fn does(self, activity: Activity) -> &'static str {
        match (self, activity) {
            (RowKind::Task, Activity::Executing) => "running",
            (RowKind::Routine, Activity::Ready) => "pending",
            _ => class(activity),
        }
    }
}

/// The class of what is done.
pub(crate) fn class(activity: Activity) -> &'static str {
    match activity {
        Activity::Nothing => "nothing",
        Activity::Executing => "executing",
        Activity::Ready => "ready",
        Activity::Preempted => "preempted",
        Activity::Interrupted => "interrupted",
        Activity::Blocked => "blocked",
        Activity::Waiting => "waiting",
    }
}
