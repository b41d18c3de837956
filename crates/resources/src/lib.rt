//! The resources that one job holds (`Held`): the last one got is the first released. `dynamic`
//! is exactly the job's dynamic priority: the greatest of its static priority, the ceilings held,
//! and the internal ceiling while taken.
//!
//! `release` answers E_OS_NOFUNC, and changes nothing, exactly where the resource isn't the one
//! that was got last.
//!
//! OSEK/VDX OS: resource management, priority ceiling protocol.
#![tactic(auto)]

mod held;

pub use held::Held;
