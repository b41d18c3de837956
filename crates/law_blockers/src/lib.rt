//! No code: stamps of jobs tell the number of blockers. Before and behind the instruction of each
//! tick of every run, the stamps that a kernel keeps are those of the definitions, and the number
//! of blockers told by them is the definitions'.
//!
//! A *stamp* of a job is the first tick whose instruction comes behind the moment at which the
//! job became ready, while it hasn't executed since (`Stamps`). `Restamping` says what a kernel
//! does to the stamps in a tick: it looks at the task on which an alarm or an instruction acts,
//! and at the running one, before and after it. The number of blockers is 1 where a job of lower
//! static priority executed since the stamp, else 0.
//!
//! The laws: `lists_before`, `lists_behind` of the stamps, `blockers_are` of the number.
#![tactic(auto)]

mod laws;

pub use laws::{lists_before, lists_behind};
