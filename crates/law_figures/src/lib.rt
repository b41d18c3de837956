//! No code: figures of a run go by labels that go on tick by tick, as for how many ticks each job
//! is ready, an interrupt pends, a resource is held. A figure is within a bound exactly where no
//! tick's label shows more.
//!
//! - A label goes on by what a tick shows of its thing, and by no number of a tick
//!   (`labels_go_by_seen`): the ages of a task's jobs, for how many ticks each is ready (`Ages`);
//!   for how many ticks an interrupt pends (`Pending`); who holds a resource, for how many ticks
//!   in a row (`Holding`); and by whether a lower task executes, for how many ticks a task's
//!   oldest job has been blocked (`Blocking`), in just those that figures count as blocked
//!   (`blocked_is_counted`).
//! - Where ticks are numbered one by one, the longest response, the greatest latency and the
//!   longest hold are the greatest that labels show (`responses_are_ages`, `latencies_are_ages`,
//!   `holds_are_labels`). So is what hasn't ended yet (`oldest_is_age`, `pending_is_age`), and
//!   the longest time of a task and of a routine, ended or not (`task_times_are_ages`,
//!   `routine_times_are_ages`).
//! - Greater labels stay greater, and show no less (`ages_keep_order`, `pending_keeps_order`,
//!   `holding_keeps_order`, `blocking_keeps_order`). Two merge into the least that is at least
//!   both (`labels_merge`).
//! - Refusals, losses and errors are 0 exactly where none is seen in any tick (`counts_tell`).
//! - Of whole runs: the longest response of a task, the greatest latency of a routine, the
//!   longest hold of a resource and the longest time of a task or routine, ended or not, are
//!   within a bound in the first ticks of a run where in none of these a label shows more
//!   (`runs_stay_within`). No interrupt is lost, no activation and no alarm's action is refused,
//!   and no service is answered other than E_OK, where in none of these ticks one is
//!   (`runs_have_none`).
#![tactic(auto)]

mod laws;
mod of_runs;

pub use laws::{
    ages_keep_order, blocked_is_counted, blocking_keeps_order, counts_tell, holding_keeps_order,
    holds_are_labels, labels_go_by_seen, labels_merge, latencies_are_ages, oldest_is_age,
    pending_is_age, pending_keeps_order, responses_are_ages, routine_times_are_ages,
    task_times_are_ages,
};
pub use of_runs::{runs_have_none, runs_stay_within};
