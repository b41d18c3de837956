//! Gives times to a system that has an OIL file: reads a work file, which has the bodies of tasks
//! and routines and when interrupts arrive, and makes the programs, the arrival list and the rules.
//! Also writes a work file to begin with. No contract but safety: it is tested.
//!
//! `work_file` reads what stands in the text, `of_oil` what the OIL file tells of its tasks and
//! routines, `work_checks` holds it to what the OIL file declares, `work_answer` makes the texts or
//! tells all that is wrong; `skeleton` writes the file to begin with. Nothing that runs a system
//! depends on this crate.
#![tactic(auto)]

mod of_oil;
mod skeleton;
mod work_answer;
mod work_checks;
mod work_file;

pub use skeleton::write_skeleton;
pub use work_answer::{WorkAnswer, WorkTexts, make_work};
