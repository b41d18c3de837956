//! Prints OIL. `print_oil` writes exactly the printed form of a file, and that text means the
//! file again. `reprint_oil` turns a draft into a text that means a file, so the reader takes it.
//!
//! This holds of every file that the reader gives. A line or block is written by `layout`, an
//! object's attributes by `attributes`, a list of objects by `printed_object`, a whole file by
//! `print`; `reprint` prints a draft anew.
#![tactic(auto)]

mod attributes;
mod layout;
mod print;
mod printed_object;
mod reprint;

pub use print::{print_oil, printed_means};
pub use reprint::reprint_oil;
