//! Labels of a state that may come in many runs: what interrupts owe by the rules by which they
//! come, and for how long jobs are ready, the oldest was blocked, interrupts pend and resources are
//! held. They go on tick by tick exactly as defined, up to a cap.
//!
//! - `Labels::become_next`: at Ok exactly the labels behind a tick, each age up to a cap.
//! - `is_at_least`: true only where they are.
//! - `join`: exactly the least labels that are at least both, where two can be joined; else they
//!   stay as they are.
#![tactic(auto)]

mod age_lists;
mod ages;
mod blocked;
mod counting;
mod debts;
mod holds;
mod labels;
mod pending;
mod places;
mod ticks;

pub use holds::Hold;
pub use labels::Labels;
pub use ticks::{blocked_tick, holder_tick, ready_tick, routine_tick, task_tick};
