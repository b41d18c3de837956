//! Makes the `System` of an OIL file and its programs: names become numbers, events get masks,
//! and the whole is checked. `generate` answers exactly the system of the two files, or the fault
//! that applies. `class_of` answers the conformance class.
//!
//! - `generate`: a system only where no fault applies. An error is the fault of the lowest number
//!   that applies, with its first subject, or want of memory.
//! - `class_of`: exactly the first class that allows the system.
//! - A table of names has exactly the names that it was made of, and `number` answers exactly the
//!   place of a name. Names are found by hashing under a key of the table's own.
#![tactic(auto)]

mod class;
mod declared_names;
mod fault;
mod generation;
mod keyed_by_names;
mod limits;
mod masks;
mod object_checks;
mod object_names;
mod program_checks;
mod references;
mod resolved_objects;
mod resolver;
mod table;

pub use class::class_of;
pub use fault::{GenFault, ObjectKind};
pub use generation::generate;
pub use table::NameTable;
