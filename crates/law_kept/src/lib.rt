//! No code: what a kernel over ready queues keeps of a state. Each service, boot and each tick of
//! every run is the same step over what is kept as over the definitions' one list of jobs. What
//! is kept always suffices for the next step.
//!
//! The definitions have one list of jobs, oldest first, and run the first of those with the
//! greatest dynamic priority. A kernel keeps less (`kept`): for each level a queue of the tasks
//! that are ready and don't run, for each task a slot with the number of its jobs and what is
//! known of the oldest, and the running task. What isn't about jobs stays as it is.
//!
//! That is enough in each state of a run, between the phases of a tick too, since each is a
//! standing one (`IsStanding`). Of a task only the oldest job is begun, so one slot a task is
//! enough. A job that becomes ready holds nothing, so it is the newest at its static priority.
//! The running job is older than each job from its static to its dynamic priority, so it stays
//! unless a higher level has a task, and is the first of its level where it is preempted.
//!
//! A tick of a quiet state in which no alarm is due and no interrupt arrives leaves all but the
//! tick as it was (`quiet_ticks`).
#![tactic(auto)]

mod laws;

pub use laws::{
    action_keeps_ready, activate_stands, advance_stands, before_alike, boots, control_stands,
    few_nested, fits_where_standing, flag_stands, job_move_stands, ready_between_ticks,
    reschedule_stands, routine_move_stands, serves_in_runs, service_stands, set_event_stands,
    start_stands, started_stands, still_stands, ticks,
};
