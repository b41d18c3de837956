//! The partition check with all that it promises of what runs below. Where `check_isolation`
//! answers Ok, each tick shows the same of the upper part whatever runs below, and all its
//! figures but the numbers of blockers are the same.
//!
//! `check_isolation` says all that `check_partition` says. And where it answers Ok, each tick
//! shows the same of upper tasks, routines, upper resources and alarms, and of the services of
//! theirs that fail: in the system and in its upper part by itself, and in every system that is
//! separable and agrees. So all their figures are the same but for the number of blockers.
#![tactic(auto)]

mod check;

pub use check::check_isolation;
