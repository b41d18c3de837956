//! Answers to command lines of `osek` on one run, on partitions, on the texts of a system, and on
//! what makes or imports these. The mode of a run has the name that its line says, or that of the
//! only one (`mode_of`); all else is tested.
//!
//! It reads the texts that a request names, has them run, checked, listed, made or stored, and
//! writes what becomes of it.
#![tactic(auto)]

mod arrival_lines;
mod explaining;
mod imports;
mod inputs;
mod line_watch;
mod lines_from;
mod making;
mod partitions;
mod runs;
mod showing;
mod storing;
mod verdict;
mod works;

pub use explaining::{explain_fault, explain_verdict};
pub use imports::answer_import;
pub use inputs::{Texts, as_written, mode_of, read_texts, system_of};
pub use lines_from::LinesFrom;
pub use making::make_files;
pub use partitions::{Stretch, stretches, write_cut, write_cuts, write_denial};
pub use runs::{write_lines, write_view};
pub use showing::write_shown;
pub use storing::{StoredRun, is_free, store_runs};
pub use verdict::{ArrivingFault, ArrivingWord, Verdict, status_of};
