//! Of what figures are told: the kinds of things of a system, the measures of each, and a figure,
//! which is a measure and the number of its thing. A figure of one run and its bound over every
//! run are the same figure.
//!
//! - `Kind`: exactly the word, the names and the number of its things, and its measures.
//! - `Measure`: exactly the kind of things of which it is told, and whether it is a time, a count
//!   or whether something comes.
//! - `Figure`: `is_of` tells exactly whether a system has its thing. That `figures_of` leaves none
//!   out isn't promised.
#![tactic(auto)]

mod figure;
mod kind;
mod measure;

pub use figure::{Figure, figures_of};
pub use kind::{KINDS, Kind, held_count, width_of};
pub use measure::{Measure, Sort};
