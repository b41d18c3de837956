//! What came to a task or a routine in one tick.

use osek_base::{Owner, Status};

/// What came to a task or a routine.
#[derive(Clone, Copy)]
pub enum Sign {
    /// So many jobs were made.
    Activated(u8),
    /// The events of a mask were set.
    EventsSet(u32),
    /// The alarm of that number expired and acted on the task.
    Expired(usize),
    /// The alarm of that number expired, and its action on the task was refused.
    ExpiryRefused(usize),
    /// So many interrupts arrived.
    Arrived(u32),
    /// So many interrupts were lost.
    Lost(u32),
    /// A service was refused.
    Refused(Status),
}

/// What came to a task or a routine, and in which tick.
#[derive(Clone, Copy)]
pub struct Mark {
    pub tick: u32,
    pub sign: Sign,
}

/// What came, and to whom.
#[derive(Clone, Copy)]
pub(crate) struct Placed {
    pub(crate) owner: Owner,
    pub(crate) sign: Sign,
}
