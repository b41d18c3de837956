//! Runs a system and shows it: as a dump, as a picture, as figures. What is written, drawn or
//! counted is exactly that of the run's ticks from the one asked for on, or else the first
//! refusal is answered. The picture's and the figures' texts are tested.
//!
//! - `begin`: a run begins as a trace does, or is refused with the same fault. `next_tick` and
//!   `pass_alike` hand all three the ticks of a run, one at a time, or at once those in which the
//!   same is seen.
//! - `write_vcd`: at Ok the sink gained exactly the dump of the run (`IsDump`): the declarations,
//!   what is seen of each tick from the one asked for on, one after another, and the last line.
//!   At `Write` it gained a beginning of it and has failed. At any other fault nothing was
//!   written.
//! - `counted_figures`: at Ok exactly the figures of the run's ticks from the one asked for on
//!   (`AreFiguresOfRun`), else the first refusal. Of all ticks they are the figures of which
//!   `search_bounds` and `partition_isolation` speak (`counted_are_run_figures`).
//! - `drawn_timeline`: at Ok the rows and the marks of the picture are those of the run's ticks
//!   from the one asked for on, each with its records (`IsDrawn`), else the first refusal.
#![tactic(auto)]

mod beginning;
mod laws;
mod progress;
mod stats;
mod ticks;
mod timeline;
mod vcd;

pub use beginning::RunInput;
pub use laws::counted_are_run_figures;
pub use progress::{Progress, Showing};
pub use stats::{StatsInput, counted_figures, write_stats};
pub use timeline::{Picture, drawn_timeline, write_timeline};
pub use vcd::write_vcd;
pub use view_figure_texts::{Form, Limit, Limits, unknown_limit};
pub use view_timelines::{MAX_DRAWN, unknown_row};
