//! Explains a fault of generation or a denied partition, and lists what generation made of a
//! system, with warnings of what is surely a mistake. No contract but safety: it is tested.
//!
//! Each explanation tells where it is, what is wrong there, and what would be allowed, behind the
//! fixed line of the refusal. The two texts of a system are taken apart for that: what an OIL
//! file declares, and what programs name, each with its place. Nothing that runs a system depends
//! on this crate.
#![tactic(auto)]

mod calls;
mod class;
mod declared;
mod denied;
mod events;
mod generation;
mod idle;
mod instructions;
mod listing;
mod lists;
mod objects;
mod parsed;
mod references;
mod shown;
mod table;
mod tasks;
mod times;
mod uses;
mod warnings;

pub use declared::{
    attribute, has_scheduler, inner, is_internal, is_set, level, number_in, number_of, object,
    word_of,
};
pub use denied::{explain_denial, explain_denials};
pub use generation::explain_generation;
pub use instructions::{first_of, last_mnemonic, mnemonic_at, named_kind, operand_of, owner_word};
pub use parsed::{Parsed, Parts};
pub use shown::{Shown, show};
