//! A tick of a machine whose interrupts are given as it is done, beside what is seen of it. The
//! tick is exactly the definitions', and the observation exactly what is seen of it.
//!
//! `Watcher::tick` says so task by task, routine by routine, resource by resource and alarm by
//! alarm, and of who executes and what that is answered.
#![tactic(auto)]

mod alarms_seen;
mod before;
mod holders_seen;
mod places;
mod readers;
mod routines_seen;
mod tasks_seen;
mod told;
mod watcher;

pub use watcher::Watcher;
