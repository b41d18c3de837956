//! No code: which states have one future. States between which only absolute time and data that
//! nothing depends on differ record the same in a tick but for that data's values, under the same
//! arrivals, and differ in nothing else behind it.
//!
//! - Two states are alike where they are equal but for the tick, each counter has one value and
//!   phase, and each alarm that is on has as many counts left. What code can compare says exactly
//!   that (`same_is_alike`), as between the ticks of a run no alarm has passed its count
//!   (`always_ahead`).
//! - States that are alike in what is needed may also differ in data that isn't, and in values of
//!   counters that no program asks for. Where a need suffices, they record the same in a tick but
//!   for values, and stay such (`alike_in_ticks`).
//! - A need names registers of each task and routine, words of their windows, windows of
//!   resources, and counters, whose values may matter. It suffices where each instruction of each
//!   program works out what is needed from what is needed: what a jump compares, the times of an
//!   alarm, whatever a needed register or word comes from; and where it names each counter of
//!   which a program sets an alarm to a value.
//! - Where a need suffices, states that differ only in data outside it record the same in a tick
//!   but for the values shown, and differ only there afterwards (`ticks_keep_same`). `same_means`
//!   tells what the equation of two states means, datum by datum.
//! - Which words a load or store may reach is said by indices: a need also says which each
//!   register may have at each place, and each state of a run keeps to that
//!   (`runs_keep_indices`).
#![tactic(auto)]

mod alike;
mod needed;

pub use alike::{alike_in_ticks, always_ahead, same_is_alike};
pub use needed::{runs_keep_indices, same_means, ticks_keep_same};
