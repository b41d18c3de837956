//! What may become of who executes its instruction at a node.

use crate::node::Node;
use osek_base::{AlarmId, Status, TaskId};

/// What a service starts that isn't refused.
#[derive(Clone, Copy)]
pub enum Start {
    Nothing,
    /// An activation of the task.
    Activates(TaskId),
    /// The events of the mask are set for the task.
    Sets(TaskId, u32),
    /// The alarm is set, and is to expire.
    SetsAlarm(AlarmId),
}

/// One thing that may become of it.
#[derive(Drop)]
pub struct Outcome {
    /// How a service is answered, if not E_OK.
    pub refusal: Option<Status>,
    pub start: Start,
    /// Where it may stand then: nowhere, where it ends or the run does.
    pub next: Vec<Node>,
}
