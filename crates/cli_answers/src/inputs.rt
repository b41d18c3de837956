//! What a command line's files have: their texts, and the system of these.

ghost use Rattle.std.specs.Prelude.{IfOk};
ghost use Rattle.std.specs.String.{string_bytes};
ghost use Rattle.cli_answers.specs.ModeNames.{IsModeName};

use crate::arrival_lines::{plain_arrivals, written_fault};
use cli_requests::{Files, Request, RulesFile, Unread, read_file, read_if_there};
use oil_reader::read_oil;
use osek_base::System;
use std::alloc::Global;
use tracer::{RunFault, read_system};

/// The bytes of a request's files. Where no run is asked for, the arrival list is empty. There are
/// rules where a file has them.
#[derive(Drop)]
pub struct Texts {
    pub oil: Vec<u8>,
    pub asm: Vec<u8>,
    pub irq: Vec<u8>,
    /// The arrival list as it is read.
    pub plain_irq: Vec<u8>,
    pub rules: Option<Vec<u8>>,
}

/// Reads the files of a request.
pub fn read_texts<'a, F: Files>(
    alloc: Global,
    request: &Request<'a>,
    files: &mut F,
) -> Result<Texts, Unread<'a>> {
    let oil = read_file(alloc, files, request.oil)?;
    let asm = read_file(alloc, files, request.asm)?;
    let irq = match request.question.run_line() {
        Some(line) => read_file(alloc, files, line.irq)?,
        None => Vec::new(alloc),
    };
    let Ok(plain_irq) = plain_arrivals(alloc, &irq) else {
        return Err(Unread::Memory);
    };
    let rules = match request.rules_file {
        RulesFile::Nowhere => None,
        RulesFile::Named(name) => Some(read_file(alloc, files, name)?),
        RulesFile::Beside(name) => read_if_there(alloc, files, name)?,
    };
    Ok(Texts {
        oil,
        asm,
        irq,
        plain_irq,
        rules,
    })
}

/// A fault at its place in the texts as they are written.
pub fn as_written(fault: RunFault, texts: &Texts) -> RunFault {
    match fault {
        RunFault::Irq(fault) => RunFault::Irq(written_fault(&texts.irq, fault)),
        fault => fault,
    }
}

/// The name of a run's mode: the one that its line has, or else the only one of the OIL file. It is
/// empty where the file has several.
pub fn mode_of(alloc: Global, texts: &Texts, mode: Option<&str>) -> Result<String, RunFault>
    ensures { IfOk result (λ name. IsModeName texts.now.oil.items mode.entry (string_bytes name)) }
{
    if let Some(mode) = mode {
        return Ok(format!(in alloc; "{mode}")?);
    }
    let file = read_oil(alloc, &texts.oil)?;
    match file.app_modes() {
        [only] => Ok(format!(in alloc; "{}", only.as_str())?),
        _ => Ok(String::new(alloc)),
    }
}

/// The system of the two texts that it is made of.
pub fn system_of(alloc: Global, texts: &Texts) -> Result<System, RunFault> {
    read_system(alloc, &texts.oil, &texts.asm)
}
