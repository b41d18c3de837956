//! Whole runs. `run` writes exactly the text of the trace that the definitions give the system
//! that the texts mean, or answers the first fault. `run_blocking` writes the numbers of blockers
//! besides, and `run_upper` the view of an upper part.
//!
//! - `read_system`: the system of the two texts, or the first fault in the order OIL, programs,
//!   generation, or want of memory.
//! - `run`: at Ok the sink gained exactly the text of the trace. At `Write` it gained a beginning
//!   of that text and has failed. At any other fault nothing was written, and the fault is the
//!   first in the order of `read_system`, arrivals, boot, or want of memory.
//! - `run_blocking`: as `run`, with the text that has the numbers of blockers.
//! - `run_upper`: as `run`, with the text of the view at p, and only of a system that is
//!   separable at p; a denial comes after generation and before arrivals. With `alone` it runs
//!   the upper part by itself, under the same contract; that it is the part that is run no clause
//!   can tell.
#![tactic(auto)]

mod parts;
mod run_fault;
mod shown;
mod system_texts;
mod trace_input;
mod upper_run;
mod whole_run;
mod written_ticks;

pub use run_fault::RunFault;
pub use sinks::{Sink, SinkFault, StdSink};
pub use system_texts::read_system;
pub use trace_input::TraceInput;
pub use trace_lines::{LineText, line_text, upper_view};
pub use upper_run::run_upper;
pub use whole_run::{run, run_blocking};
