//! OSEK/VDX OS: task management, interrupt processing. Who has the processor.

/// Who executes a tick's instruction.
#[derive(Clone, Copy)]
pub enum Processor {
    /// Nobody: the tick is idle.
    Idle,
    /// An interrupt routine.
    Routine,
    /// A task of that static priority, 0 the lowest.
    Task(u8),
}
