//! A picture of ticks as SVG: of each task and routine the stretches of ticks in which it shows
//! the same, and marks for what comes to it. Rows and marks are exactly those of the ticks drawn.
//! The SVG text is tested, and so is the same as trace events, which Perfetto opens.
//!
//! - What a row shows of a tick goes by what is seen of it, by who executes, and by whether the
//!   job has executed since it became ready.
//! - A row's stretches are exactly its longest runs of ticks that show the same. They tile the
//!   ticks, and neighbours differ.
//! - `Timeline`: handed ticks one after another, it has the rows of these (`AreRows`), also where
//!   ticks in which the same is seen are handed on at once.
//! - On each row are exactly the marks of the ticks that are drawn, one after another
//!   (`AreMarks`): activations, alarms, events set, arrivals, losses, refusals. They go by what
//!   is seen of each tick and by its records; ticks handed on at once leave none by their
//!   records.
#![tactic(auto)]

mod activity;
mod begun;
mod chosen_rows;
mod drawn_marks;
mod drawn_row;
mod drawn_stretch;
mod frame;
mod held;
mod kind;
mod laws;
mod layout;
mod mark;
mod moment;
mod pieces;
mod processor;
mod row;
mod rows;
mod seen;
mod signs;
mod stretch;
mod style;
mod svg;
mod timeline;
mod trace_event;
mod trace_events;
mod trace_holds;
mod track;

pub use activity::Activity;
pub use begun::begun_behind;
pub use chosen_rows::unknown_row;
pub use held::Held;
pub use laws::{differ_from_the_next, tile_the_ticks};
pub use mark::{Mark, Sign};
pub use moment::Moment;
pub use processor::Processor;
pub use row::Row;
pub use stretch::Stretch;
pub use timeline::{MAX_DRAWN, Timeline};
