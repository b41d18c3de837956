//! No code: what holds in every run of a proper system. Each state is good, mutual exclusion
//! holds, a resource's data is protected, a job is blocked by at most one other, and as many jobs
//! are made as are left and ended. A run depends on the past alone.
//!
//! Each function is empty. Its clause is the law, which speaks of the definitions alone.
//!
//! - `stays_good`: every state is good and has its shape.
//! - `starts_singly`: of one task no job but the oldest is begun.
//! - `excludes`: a GetResource by a job that may take the resource is answered E_OS_ACCESS only
//!   where that job holds it.
//! - `protects`: while a job holds a resource, its words change only by that job's own STR.
//! - `blocks_once`: each time that a job becomes ready, it has at most one blocker.
//! - `always_balanced`: in each tick as many jobs of a task are made as are left more behind it,
//!   and one more where one ends.
//! - `depends_on_the_past`: a run depends on the interrupts alone that arrive in its ticks.
//!   `goes_on_by_any`, `takes_any_arrivals`: whatever arrives in the next tick, it goes on by it.
#![tactic(auto)]

mod jobs;
mod runs;

pub use jobs::always_balanced;
pub use runs::{
    blocks_once, depends_on_the_past, excludes, goes_on_by_any, protects, starts_singly,
    stays_good, takes_any_arrivals,
};
