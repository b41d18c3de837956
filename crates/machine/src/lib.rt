//! The modelled processor: registers, the place in the program, windows of words, and the plain
//! instructions. `exec_plain` is exactly the instruction table. Saved registers come back as they
//! were.
//!
//! - A store touches one word of its own owner and no other.
//! - `answer`: the status to r0, results to r1 to r3, and the next place. `load` gives exactly
//!   the registers and the place that `save` took.
//! - `pack` gives each instruction a word. `unpack` answers the instruction for just that word,
//!   and none for all other words.
//! - `Code`: what `fetch` tells is exactly the instruction of the program that was packed. A
//!   `PackedInstr` says of which kind it is; each kind is unpacked where it is executed.
#![tactic(auto)]

mod code;
mod cpu;
mod execution;
mod fields;
mod packed_instr;
mod packed_program;
mod packing;
mod unpacking;
mod windows;

pub use code::Code;
pub use cpu::Cpu;
pub use execution::{exec_packed, exec_plain};
pub use packed_instr::PackedInstr;
pub use packing::pack;
pub use unpacking::unpack;
pub use windows::Windows;
