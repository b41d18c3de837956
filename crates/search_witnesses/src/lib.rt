//! Runs that show what bounds tell, found by how the search came to it and tried by running them.
//! Each figure that `reached_figures` answers is reached by some run, and each task that
//! `endless_tasks` answers can be kept from ending without limit. That a run is found isn't
//! promised.
//!
//! - `find_witness`: where it answers arrivals and a number of ticks, the arrivals keep the
//!   rules, and after so many ticks the run's figure (as defined in `view_figures`) is
//!   exactly what is told, which is the cap where nothing is promised. The figure is the longest
//!   time of a task or a routine, or the age of what hasn't ended or started, the longest hold,
//!   the most ticks for which a job was blocked, or the most blockers of one; of what is lost,
//!   refused or answered other than E_OK, whether any is.
//! - `reached_figures`: each figure that it answers is told below the cap, and there is such a
//!   run of it.
//! - `find_failing`: where it answers arrivals and a number of ticks, the arrivals keep the
//!   rules, and the last of these ticks of the run has the service of a number among those
//!   that are told, answered as it is told. `failing_services`: of each service that it answers
//!   there is such a run.
//! - `find_endless`: where it answers arrivals and two ticks, the task can be kept from ending
//!   for as many ticks as one likes, by a run that begins with these arrivals. They keep the
//!   rules, however often those between the two ticks come again, and a job of the task is there
//!   in each tick between. `endless_tasks`: each task that it answers can be kept so.
//! - `Findings`: bounds, and what of them these three answer. Each figure that is known as reached
//!   is reached by some run, or is 0; each task that is known as endless can be kept from ending,
//!   and some run answers each service that is known to fail as is told (`AreFindings`). Of bounds
//!   that are untried nothing but a 0 is known.
//! - `what_the_part_shows_holds`, a law: what they answer of the upper part of a system by itself
//!   holds in that system and in each that agrees with it from that priority upward.
//! - An error is want of memory.
#![tactic(auto)]

mod above_cuts;
mod again;
mod blocked;
mod came;
mod candidate;
mod debt;
mod endless;
mod failing;
mod findings;
mod going_on;
mod keeping;
mod lasso;
mod paying;
mod reached;
mod running;
mod standing;
mod suspect;
mod walk;
mod watched;
mod witness;

pub use above_cuts::what_the_part_shows_holds;
pub use endless::{Endless, endless_tasks, find_endless};
pub use failing::{failing_services, find_failing};
pub use findings::Findings;
pub use reached::reached_figures;
pub use witness::{Witness, find_witness};
