//! Partitions: whether the tasks below a priority can delay or disturb what is above.
//! `check_partition` accepts exactly the separable systems, and whatever runs below an accepted
//! upper part, its view of the run is the same; else it answers the first denial.
//!
//! - `check_partition`: Ok exactly where the upper part is separable by the seven rules, else the
//!   first denial. Where it answers Ok, the upper part is isolated: every proper and separable
//!   system that agrees from p upward has the same view at p, windows included, in every mode,
//!   under every arrival list and after every number of ticks. So has its upper part run by
//!   itself.
//! - `upper_only`: exactly the upper part as a system by itself, whose tasks are the upper tasks
//!   and no others. It is separable at p, agrees with the whole from p upward, and has the same
//!   view at p; at 0 it is the whole. Nothing is refused but memory.
//! - `every_denial`: each breach of each rule, in the order of the rules. Its list is tested; the
//!   verdict that the program tells is that of `check_partition`.
#![tactic(auto)]

mod by_itself;
mod check;
mod denial;
mod denials;
mod denied_instructions;
mod denied_lists;
mod instructions;
mod part_names;
mod part_programs;
mod part_ranks;
mod programs;
mod tasks;
mod upper;
mod upper_objects;
mod upper_part;

pub use by_itself::upper_only;
pub use check::check_partition;
pub use denial::{Denial, NamedDenial, Rule};
pub use denials::every_denial;
pub use upper::{is_upper_alarm, is_upper_resource, is_upper_task};
