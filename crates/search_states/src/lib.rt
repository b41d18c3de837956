//! Writes the key of a machine's state. `write_key` appends exactly the key that `search_keys`
//! defines. Machines of one system whose keys are equal are alike in what is needed, so states
//! can be looked up by their keys.
//!
//! There is a function for each part of the key. `write_key`: at Ok exactly the key of the
//! machine's system, of what is needed, and of its picture comes behind what was there.
//! `machine_keys_tell` asks that runs have come to both machines and that no more is needed than
//! the system has.
#![tactic(auto)]

mod executing;
mod interrupts;
mod laws;
mod ready;
mod sets;
mod tasks;
mod times;
mod words;
mod write;

pub use laws::machine_keys_tell;
pub use write::write_key;
