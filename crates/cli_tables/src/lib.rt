//! Writes what a search through every run has found, or an analysis: as tables, comma-separated
//! values and JSON, what it means, which limits break, or a run that shows a figure.
//!
//! - A search's mode and rules are exactly those asked for (`mode_id`, `all_rules`).
//! - `cell`: exactly what is told of a figure, and what that promises is so of findings
//!   (`Promises`). A number is what the bounds tell, and a time is below the cap; where a run is
//!   said to show it, one does, or it is 0. A time that is said to have no bound has none.
//! - `csv_of`: exactly a line for each figure, and for each service that may be answered other than
//!   E_OK.
//! - `broken_bounds`: exactly a line for each limit that isn't kept; so nothing exactly where all
//!   are (`AreKept`).
//! - What an analysis tells is written in the same forms, behind `<=`.
//! - Tables, JSON and remarks go by the same cells. How they are laid out is tested.
#![tactic(auto)]

mod analysed;
mod arriving;
mod asked;
mod broken;
mod cells;
mod coming;
mod csv_text;
mod failed_service;
mod failed_services;
mod found;
mod json_text;
mod levels;
mod naming;
mod numbers;
mod remarks;
mod search_watch;
mod storing;
mod table;
mod told;
mod witnessing;
mod writing;

pub use analysed::{Counted, count, counted_of, verdict_of_count, write_analysed, write_count};
pub use arriving::{all_rules, arriving_fault, said_of};
pub use asked::{BoundsAsked, mode_id, unknown_figure};
pub use broken::broken_bounds;
pub use cells::Cell;
pub use coming::write_coming;
pub use csv_text::csv_of;
pub use failed_service::service_text;
pub use failed_services::write_services;
pub use found::{verdict_of, write_found};
pub use json_text::json_of;
pub use naming::{NamedFigure, figure_named, is_known, service_named};
pub use remarks::write_remarks;
pub use search_watch::SearchWatch;
pub use told::cell;
pub use witnessing::{ShownRun, run_of};
pub use writing::{write_decided, write_outcome, write_undecided, write_up_to};
