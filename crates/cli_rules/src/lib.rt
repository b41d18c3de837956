//! Reads files of rules: how interrupts come, what figures are held to, and how far a search goes.
//! Tells all that is wrong with one. No contract but safety: it is tested.
#![tactic(auto)]

mod fault;
mod kind;
mod names;
mod reading;
mod telling;
mod words;

pub use fault::{RuleFault, RuleWrong};
pub use reading::{RuleReading, read_rules};
pub use telling::write_refused;
