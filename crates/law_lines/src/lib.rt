//! No code: how long the lines of traces are. In every run of at most 1,000,000 ticks each line
//! has at most 121 bytes, or 125 with a number of blockers, and each line of a view at most 121.
//! Registers, words and masks have 32 bits.
//!
//! A service's results fit the service, and a job has one blocker at most. The laws:
//! `lines_are_short`, `numbered_lines_are_short`, `view_lines_are_short`; `runs_hold_words` says
//! besides that an alarm that is on has fewer than 2^32 counts left.
#![tactic(auto)]

mod laws;

pub use laws::{lines_are_short, numbered_lines_are_short, runs_hold_words, view_lines_are_short};
