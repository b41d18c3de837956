//! A page for a review: one HTML text, which needs nothing else, with a system, its cuts, its
//! bounds and what they promise, its limits, and pictures of its worst cases. No contract but
//! safety: it is tested.
//!
//! The bounds are what a search has found (`write_report`), or what is counted
//! (`write_counted_report`), of the system or of its upper part by itself.
//!
//! What is told is what the other subcommands tell, by the same functions. All that isn't the
//! page's own goes through `Escaped`, so that no name of a file or a text of a system can be taken
//! for HTML. Pictures are SVG, and escape their names themselves.
#![tactic(auto)]

mod bounds;
mod coming;
mod cuts;
mod heading;
mod limits;
mod output;
mod page;
mod picture;
mod pieces;
mod report;
mod script;
mod style;
mod system;
mod worst_cases;

pub use output::store_page;
pub use page::{write_counted_report, write_report};
