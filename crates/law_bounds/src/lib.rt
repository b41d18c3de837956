//! No code: where a search over keys of states has visited all that can come, what it noted
//! bounds the figures of every run whose interrupts keep their rules, after every number of
//! ticks. And which runs can be gone on without end.
//!
//! - States of runs with one key have one future, and show the same (`keys_tell_futures`). So
//!   what comes of one state of a node comes of each (`one_state_tells`).
//! - An interrupt of a routine that is pending already is lost and changes nothing else
//!   (`lost_change_nothing`).
//! - Where a search has visited all that can come, its peaks bound the figures and each tick of
//!   every run whose interrupts keep their rules, after every number of ticks
//!   (`searches_bound`). Where lists of nodes stand for all that can come in so many ticks, after
//!   at most so many (`levels_bound`). Interrupts may come at any ticks, and without an end.
//! - Where a task's greatest response is bounded, each job ends or begins to wait within as many
//!   ticks of being ready, unless the run ends (`bounded_jobs_end`). Where a routine's greatest
//!   latency is, it starts within as many ticks of each interrupt that isn't lost
//!   (`bounded_interrupts_start`). Where a resource's longest hold is, each job that gets it
//!   releases it within as many ticks (`bounded_holds_end`).
//! - A run that comes twice to states of one key can be gone on so, if in each tick between a job
//!   of a task is ready or runs, the oldest neither ends nor begins to wait, the arrivals between
//!   keep their rules once more, and by no rule do these add more than their ticks take off.
//!   However often they come again, they keep the rules, and the job is there
//!   (`lassos_are_endless`).
#![tactic(auto)]

mod endless;
mod laws;

pub use endless::{
    bounded_holds_end, bounded_interrupts_start, bounded_jobs_end, lassos_are_endless,
};
pub use laws::{
    keys_tell_futures, labels_are_ordered, levels_bound, lost_change_nothing, nodes_are_kept,
    notes_stay, one_state_tells, searches_bound, subsets_may,
};
