//! A system of two texts.

use oil_reader::read_oil;
use osek_base::System;
use std::alloc::Global;
use std::test::Fail;
use system_gen::generate;
use task_asm::assemble;

/// The system of an OIL file and its programs.
pub fn system_of(alloc: Global, oil: &str, programs: &str) -> Result<System, Fail> {
    let file = read_oil(alloc, oil.as_bytes())?;
    let programs = assemble(alloc, programs.as_bytes())?;
    Ok(generate(alloc, file, programs)?)
}
