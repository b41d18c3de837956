//! Counters and alarms: setting, cancelling and expiring them. Alarms expire exactly as by the
//! definitions' counts, which never wrap. Refusals are those of the service table.
//!
//! - `advance` gives all alarms that are due and no others, in declaration order.
//! - `pass` lets exactly the ticks pass, of so many, that come before the next in which an alarm
//!   is due.
//! - `is_quiet`: true only where none is due in the next tick.
//!
//! OSEK/VDX OS: counters and alarm management.
#![tactic(auto)]

mod alarms;
mod counted_alarms;
mod counter_alarms;
mod counters;
mod difference_list;
mod due_alarms;
mod due_list;
mod entry_places;
mod lone_alarm;
mod replacing;

pub use alarms::Alarms;
pub use due_alarms::DueAlarms;
pub use due_list::DueList;
