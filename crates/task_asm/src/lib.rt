//! Reads program texts and writes the texts of instructions. `assemble` answers exactly the
//! programs that the text means, with labels resolved to places, or the text's first fault.
//! `instr_text` is exactly an instruction's text.
//!
//! The fault is the one at the least place of all that there are; of several there, the one with
//! the lowest number. A text has one list of programs, and with programs no fault
//! (`one_meaning`).
#![tactic(auto)]

mod assembler;
mod fault;
mod instructions;
mod labels;
mod mnemonic;
mod operands;
mod program;
mod statements;
mod text;
mod text_faults;
mod tokens;

pub use assembler::{assemble, one_meaning};
pub use fault::AsmFault;
pub use program::{EventNames, NamedInstr, NamedLine, NamedProgram, NamedService, ProgramKind};
pub use text::instr_text;
pub use tokens::{Placed, Sign, Token, tokenize};
