//! Writes figures as tables, comma-separated values and JSON, and tells which limits a run
//! breaks. It also has the words of the figures of bounds. Words, comma-separated values and the
//! lines of broken limits are exactly those of the definitions; tables and JSON are tested.
#![tactic(auto)]

mod broken;
mod cells;
mod csv_text;
mod entry;
mod form;
mod json_text;
mod limits;
mod measure_words;
mod rows;
mod section;
mod table;
mod text;
mod words;

pub use broken::{broken_limits, unknown_limit};
pub use form::Form;
pub use limits::{Limit, Limits};
pub use measure_words::{is_measure, measure_of, measure_word, place_of};
pub use text::figures_text;
pub use words::Word;
