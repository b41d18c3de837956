//! No code: what is seen of the upper part of a system is what is seen of it by itself, and in
//! every separable system that agrees with it. Bounds that are found in the upper part by itself
//! hold in all of them, and what its runs show, theirs show.
//!
//! Of each two proper and separable systems that agree, and of one and its upper part by itself,
//! in every mode, under every arrival list and after every number of ticks:
//!
//! - the states of upper tasks, routines, resources and alarms are the same
//!   (`states_are_seen_the_same`);
//! - upper owners execute the same, and the same activations are refused
//!   (`executions_are_the_same`);
//! - the same upper alarms act and are answered alike (`alarms_act_the_same`);
//! - each tick shows the same of upper tasks, routines, resources and alarms, blocks upper tasks
//!   alike, and shows the same of the services of theirs that fail (`upper_parts_show_the_same`).
//!
//! Bounds of the upper part by itself bound the same figures of it, and the services that fail, in
//! every run of the whole and of each system that is separable and agrees
//! (`bounds_of_the_part_hold`), for every number of ticks or for at most so many. So jobs of upper
//! tasks that are bounded end (`bounded_upper_jobs_end`), routines that are bounded start
//! (`bounded_interrupts_start_above`), and jobs release upper resources whose holds are bounded
//! (`bounded_upper_holds_end`). And the other way round, what a run of the upper part by itself
//! shows, theirs show under the same arrivals (`runs_show_what_the_part_shows`): figures and
//! blockers, how long tasks are blocked, a service that fails, that the run is over, and that a
//! task need not end.
#![tactic(auto)]

mod figures_above;
mod runs_above;
mod seen_above;

pub use figures_above::{
    bounded_interrupts_start_above, bounded_upper_holds_end, bounded_upper_jobs_end,
    bounds_of_the_part_hold, upper_parts_show_the_same,
};
pub use runs_above::runs_show_what_the_part_shows;
pub use seen_above::{alarms_act_the_same, executions_are_the_same, states_are_seen_the_same};
