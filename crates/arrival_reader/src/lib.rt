//! Reads arrival lists, in which ticks interrupts arrive, and prints them. `read_arrivals` answers
//! exactly the list that the text means, or its first faulty line. What `print_arrivals` answers
//! is read as the same list again.
//!
//! A faulty line is told with the lowest fault that applies to it. No text means two lists or has
//! two faults, and none has both (`one_meaning`).
#![tactic(auto)]

mod arrival_line;
mod arrivals;
mod irq_fault;
mod printing;

pub use arrivals::{one_meaning, read_arrivals};
pub use irq_fault::IrqFault;
pub use printing::print_arrivals;
