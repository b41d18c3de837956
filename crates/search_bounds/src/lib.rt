//! Bounds over every run. Where `find_bounds` decides, no run whose interrupts keep the given
//! rules has longer responses, latencies or holds than it tells, and nothing goes wrong that
//! it doesn't tell. `find_upper_bounds` says this of an upper part inside every accepted system.
//!
//! - `find_bounds`: where the search is decided, for every list of arrivals that keeps the
//!   rules and after every number of ticks, the run shows of no figure more than the peaks
//!   tell, where that is below the cap. That holds of the figures of whole runs (as defined in
//!   `view_figures`; of blockers where the run's observations tell them, `AreTold`) and of what
//!   each single tick shows (`IsTickWithin`).
//! - So nothing is lost, refused or answered other than E_OK, and no run ends by a ShutdownOS, where
//!   no tick of the search has shown it. A service that is answered other than E_OK is one of those
//!   told.
//! - So where a task's greatest response is below the cap, each of its jobs ends or begins to wait
//!   within as many ticks of being ready, unless the run ends (`JobsEnd`). Where a routine's
//!   greatest latency is, the routine starts within as many ticks of each interrupt that isn't lost
//!   (`InterruptsStart`). Where a resource's longest hold is, each job that gets it releases it
//!   within as many (`HoldsEnd`).
//! - Where the search is undecided, all this holds after as many ticks at most as it tells.
//! - Where the search is decided, as many nodes as its outcome tells stand for all that can come;
//!   where it isn't, the outcome tells why it stopped (`IsOfSearch`).
//! - `find_upper_bounds`, which asks for a separable system, searches through the upper part by
//!   itself. The part is exactly the upper part. Where its search is decided, its peaks bound
//!   every run of the system and of every one that is separable at p and agrees from p upward;
//!   where it is undecided, after as many ticks at most as it tells. Jobs of upper tasks end, and
//!   routines start, in all of them within their bounds (`JobsEndAbove`, `InterruptsStartAbove`),
//!   and jobs release upper resources within theirs (`HoldsEndAbove`).
//! - A `Watch` is told of each visit how far the search has come. An error is want of memory.
//!
//! A bound is of programs that take exactly these ticks: a job that ends earlier can make another
//! one later.
#![tactic(auto)]

mod above;
mod bases;
mod current;
mod explorer;
mod finding;
mod noted;
mod origin;
mod room;
mod routines;
mod ruling;
mod states;
mod stops;
mod way;

pub use above::{UpperBounds, find_upper_bounds};
pub use finding::find_bounds;
