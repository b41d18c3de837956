//! OSEK/VDX OS: alarms. What is seen of an alarm in a tick.

/// What is seen of an alarm in a tick.
#[derive(Clone, Copy, Default)]
pub struct AlarmSeen {
    /// Whether the alarm expires in the tick.
    pub has_expired: bool,
    /// Whether it expires and its action is refused.
    pub is_refused: bool,
}
