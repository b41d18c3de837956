//! OSEK/VDX OS: interrupt handling. The switch of interrupts as who executes finds it.

/// The switch of interrupts, and how often each kind is suspended.
#[derive(Clone, Copy, PartialEq, Eq)]
pub struct Switch {
    pub disabled: bool,
    pub suspended_all: u32,
    pub suspended_os: u32,
}
