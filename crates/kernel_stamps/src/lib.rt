//! Since which tick each job is ready, if it hasn't executed since, and when each static priority
//! last executed. From these the kernel tells the number of a job's blockers.
//!
//! - `JobStamps`, `TaskStamps`: exactly a list of stamps a task, oldest job first.
//! - `LastTicks`: exactly whether a lower priority has executed since a tick.
#![tactic(auto)]

mod job_stamps;
mod last_ticks;
mod task_stamps;

pub use job_stamps::JobStamps;
pub use last_ticks::LastTicks;
pub use task_stamps::TaskStamps;
