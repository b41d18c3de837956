//! Labels as bytes, in which they take little room. Labels share their bytes with no others, and
//! are taken from bytes only where these are theirs.
//!
//! - `pack`: at Ok exactly the bytes of the labels, without the zeros at their end, come behind
//!   what was there. No labels share their bytes with others (`packed_are_told`).
//! - What is read needs no proof: it is packed again and compared, and `ReadLabels::of` lends
//!   labels only where they are those that the bytes tell.
//! - `free_routines`: exactly the routines that need not debt by them.
#![tactic(auto)]

mod free;
mod laws;
mod packing;
mod read_labels;
mod reading;
mod zeros;

pub use free::free_routines;
pub use laws::{packed_are_told, worked_labels};
pub use packing::pack;
pub use read_labels::ReadLabels;
