//! Figures of a run, counted over what is seen of its ticks: responses, load, blocking,
//! latencies, holds. Each figure is exactly the count, the sum, the least or the greatest of its
//! definition, with the first tick at which a greatest was reached.
//!
//! `observe_alike`: exactly as many observations that differ in the number alone. `add_up`: the
//! ticks in which a task is READY or RUNNING are those that count as executed, ready, preempted
//! or blocked, each once.
#![tactic(auto)]

mod alarm_figures;
mod calm;
mod counted;
mod counts;
mod figures;
mod kinds;
mod laws;
mod of_system;
mod quiet;
mod reached;
mod resource_figures;
mod response_figures;
mod routine_figures;
mod scene;
mod seen;
mod spread;
mod task_counts;
mod task_figures;
mod task_tick;
mod task_time;
mod task_times;

pub use alarm_figures::{AlarmFigures, AlarmTick};
pub use figures::Figures;
pub use laws::add_up;
pub use reached::Reached;
pub use resource_figures::{HolderTick, ResourceFigures};
pub use response_figures::{MAX_UNFINISHED, ResponseFigures};
pub use routine_figures::{RoutineFigures, RoutineTick};
pub use seen::{is_error, is_routine, is_task};
pub use spread::Spread;
pub use task_counts::TaskCounts;
pub use task_figures::TaskFigures;
pub use task_tick::TaskTick;
pub use task_time::TaskTime;
pub use task_times::TaskTimes;
