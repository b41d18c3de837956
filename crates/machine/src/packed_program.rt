//! A program as words.

ghost use Rattle.std.specs.Prelude.{◌≡◌, ◌<◌, IfOk, Some, length, slice_index_or};
ghost use Rattle.osek_base.specs.System.{instruction_in};
ghost use Rattle.machine.specs.Code.{meant};
ghost use Rattle.machine.specs.Packed.{instr_of};

use crate::packed_instr::PackedInstr;
use crate::packing::pack;
use osek_base::{Place, Program};
use std::alloc::{AllocError, Global};
use std::marker::Model;

/// A program of which each instruction is kept as its word. Contracts see the list of its instructions.
#[derive(Drop)]
pub struct PackedProgram {
    words: Vec<u64>,
}

impl Model for PackedProgram {
    ghost use Rattle.std.specs.Prelude.{◌≡◌, List, Some, map};
    ghost use Rattle.osek_base.specs.declared.instr.Instr.{Instr};
    ghost use Rattle.machine.specs.Code.{instrs_of, meant};

    ghost Value = { List Instr };

    ghost view = { λ p. instrs_of p.words.items };

    ghost invariant = { λ p. meant p.words.items ≡ map Some (instrs_of p.words.items) };
}

impl PackedProgram {
    /// The program, packed.
    pub fn of(alloc: Global, program: &Program) -> Result<Self, AllocError>
        ensures { IfOk result (λ p. p ≡ program.now) }
    {
        let mut words = Vec::with_capacity(alloc, program.len())?;
        for place in 0..program.len() {
            words.push(pack(&program.at(place)))?;
        }
        Ok(PackedProgram { words })
    }

    /// The instruction at a place, as its word.
    #[inline(always)]
    pub fn at(&self, place: Place) -> PackedInstr
        requires { place < length self.now }
        ensures { instr_of result ≡ instruction_in self.now place }
    {
        PackedInstr::new(self.words[place.number() as usize])
    }
}
