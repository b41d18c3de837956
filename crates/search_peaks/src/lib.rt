//! The greatest number that the ticks of a search have shown of each figure, and what has failed in
//! any. What a tick shows is in the peaks behind `Peaks::note`, and they only grow.
//!
//! Noted are ages, waits and holds, blocked ticks, blockers, jobs at once, what is lost or refused,
//! a service that is answered other than E_OK with its place and its status, and whether the run is
//! over behind the tick. Numbers that aren't of ticks may be put in besides (`Peaks::raise`,
//! `Peaks::add_failure`).
#![tactic(auto)]

mod failures;
mod noting;
mod numbers;
mod peaks;

pub use peaks::Peaks;
