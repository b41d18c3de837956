//! How interrupts come: each routine by rules of a period and a slack, which say jitter, bursts and
//! least distances. What is kept of the past is a debt of ticks for each rule.
//!
//! - `ArrivalRule::debt_behind`: exactly the debt behind a tick.
//! - `debts_are_below`: where a rule is kept, an interrupt comes only where the debt is below the
//!   slack.
//!
//! OSEK/VDX OS: interrupt processing, category 2.
#![tactic(auto)]

mod laws;
mod rule;

pub use laws::debts_are_below;
pub use rule::ArrivalRule;
