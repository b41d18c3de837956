//! Reads the TOML of a description and makes its OIL, programs, arrival list and rules, or tells
//! all that is wrong with it. No contract but safety: it is tested.
//!
//! `nodes` reads the text, with the place of each key and value. What is described and what is
//! wrong with it is in `make_descriptions`. Nothing that runs a system depends on this crate.
#![tactic(auto)]

mod answer;
mod arrival_text;
mod load;
mod nodes;
mod oil_text;
mod program_text;
mod rule_text;

pub use answer::{Answer, Made, Remark, TomlText, make, read_toml, told};
pub use arrival_text::{Arrivals, arrivals, write_arrivals};
pub use load::load_lines;
pub use oil_text::write_oil;
pub use program_text::write_programs;
pub use rule_text::write_rules;
