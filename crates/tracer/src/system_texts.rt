//! The system of two texts.

ghost use Rattle.std.specs.Prelude.{IfOk, IfErr};
ghost use Rattle.tracer.specs.WholeRuns.{IsSystemOf, RefusesSystem};

use crate::run_fault::RunFault;
use oil_reader::read_oil;
use osek_base::System;
use std::alloc::Global;
use system_gen::generate;
use task_asm::assemble;

/// Reads an OIL text and a program text, and makes the system of both. The answer is the system, or
/// the first fault in the order OIL, programs, generation, or want of memory.
pub fn read_system(alloc: Global, oil: &[u8], asm: &[u8]) -> Result<System, RunFault>
    ensures made { IfOk result (IsSystemOf oil.now asm.now) }
    ensures refusal { IfErr result (RefusesSystem oil.now asm.now) }
{
    let file = read_oil(alloc, oil)?;
    let programs = assemble(alloc, asm)?;
    Ok(generate(alloc, file, programs)?)
}
