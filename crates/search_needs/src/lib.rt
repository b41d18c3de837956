//! Works out which data of a system's programs is needed, by passes over them. The need that it
//! answers is closed: states that have the same needed data record the same in each tick but for
//! values (`law_future`). That it needs no more than it has to isn't proved.
//!
//! `needed_data` goes over the programs until its table is closed: what a jump compares and an
//! alarm is set to is needed, and whatever a needed register or word is worked out from. That the
//! table is closed is checked at the end, so nothing is proved of the passes but safety. Where
//! they don't come to a closed one, the answer is the table in which all is needed.
//!
//! Of registers, words and windows the need has only those of the system's tasks and routines and
//! of its declared resources. `needed_registers`, `needed_words`, `needs_shared`, `needs_value`:
//! exactly what the need has.
#![tactic(auto)]

mod closed;
mod counters;
mod data;
mod indices;
mod needed;
mod numbers;
mod passes;
mod table;

pub use needed::needed_data;
pub use numbers::Numbers;
pub use table::{Needs, OwnerNeeds};
