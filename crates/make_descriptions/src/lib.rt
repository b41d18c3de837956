//! A system as engineers describe it: tasks, interrupts and their work, read from keys and
//! values, and all that can be wrong with it. The instructions of a piece of work take exactly
//! its ticks (`Work::of`); all else is tested.
//!
//! `node` has the keys and values of a description's text, `times` puts ticks in place of times in
//! it, `described` what it tells; `checks` and `bodies` look at what one part says of another;
//! `costs` and `rates` tell how long bodies execute and how often; `fault` has all that can be
//! wrong, also what a reader of the text finds, and beside an OIL file. `read_sections`,
//! `read_arrivals`, `read_steps` and `read_tables` read what stands in the text, for a whole
//! description or a part of one. Nothing that runs a system depends on this crate.
#![tactic(auto)]

pub mod bodies;
pub mod checks;
pub mod costs;
pub mod description;
pub mod fault;
pub mod lists;
pub mod names;
pub mod node;
pub mod rates;
pub mod read_arrivals;
mod read_lists;
pub mod read_sections;
pub mod read_steps;
pub mod read_tables;
pub mod routines;
pub mod times;
pub mod uses;
mod work;

pub use read_sections::described;
pub use work::Work;
