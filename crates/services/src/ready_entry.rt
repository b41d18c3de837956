//! A ready task and its level.

use osek_base::TaskId;

/// A ready task, and the level at which it stands.
#[derive(Clone, Copy)]
pub struct ReadyEntry {
    pub level: u8,
    pub task: TaskId,
}
