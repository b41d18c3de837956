//! OSEK/VDX OS: interrupt processing. What is seen of an interrupt routine in a tick.

/// What is seen of an interrupt routine in a tick.
#[derive(Clone, Copy, Default)]
pub struct RoutineSeen {
    /// Whether the routine executes the tick's instruction. One that is active executes in each tick until it ends.
    pub executes: bool,
    /// Whether it is pending then: an interrupt has arrived and not started it yet.
    pub is_pending: bool,
    /// Whether it is started in the tick.
    pub is_started: bool,
    /// How many interrupts arrive in the tick.
    pub arrived: u32,
    /// How many of these are lost, as one is pending already.
    pub lost: u32,
}
