//! Reads OIL: a subset of OIL 2.5, and a PRIORITY for interrupt routines. `read_oil` answers
//! exactly the file that the text means, or the text's first fault at its place.
//!
//! No text means two files, none has two first faults, and none has both a file and a fault
//! (`one_meaning`). What had a meaning when priorities of tasks ended at 31 has the same meaning.
//! An `OilFile` keeps by its type what the reader checks.
//!
//! Bytes become tokens (`tokens`), these a tree (`syntax`, made by `parser`), whose faults are
//! sought (`object_faults`, by the attributes of `table`). A tree without a fault becomes the
//! file that it means (`object_values`).
#![tactic(auto)]

mod fault;
mod file;
mod ident;
mod object_faults;
mod object_values;
mod parser;
mod reading;
mod syntax;
mod table;
mod tokens;

pub use fault::OilFault;
pub use file::{
    ActionObject, AlarmObject, AlarmStartObject, CounterObject, EventObject, IsrObject, Mask,
    OilFile, OilParts, Os, ResourceObject, TaskObject,
};
pub use ident::Ident;
pub use parser::parse;
pub use reading::{one_meaning, read_oil};
pub use syntax::{Attribute, Block, Kind, Object, Setting, SyntaxTree, Value};
pub use table::{AttributeName, Presence, attributes_of};
pub use tokens::{Placed, Sign, Token, tokenize};
