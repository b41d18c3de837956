//! Program texts to programs.

ghost use Rattle.std.specs.Prelude.{ℕ, List, ◌≡◌, ◌≢◌, ◌≤◌, ◌<◌, length, IfOk, IfErr, unwrap_or};
ghost use Rattle.task_asm.specs.declared.fault.AsmFault.{AsmFault};
ghost use Rattle.task_asm.specs.declared.fault.AsmFault.TheVariants.{Memory};
ghost use Rattle.task_asm.specs.Programs.{Program};
ghost use Rattle.task_asm.specs.Lines.{written_value};
ghost use Rattle.task_asm.specs.Meaning.{within_program, target_of, finished, IsProgramText, HasFault};
ghost use Rattle.task_asm.specs.Walk.{found_target, targets_of, programs_with, first_fault};

use crate::fault::AsmFault;
use crate::instructions::Written;
use crate::labels::Labels;
use crate::program::{NamedInstr, NamedLine, NamedProgram};
use crate::statements::{Item, Statement, read_statements};
use crate::text_faults::first_fault;
use crate::tokens::tokenize;
use osek_base::{MAX_INSTRUCTIONS, Place, Plain};
use std::alloc::{AllocError, Global};

/// The place of that number, or the last that a program has.
fn place_of(number: usize) -> Place
    ensures { result ≡ within_program number }
{
    if number < MAX_INSTRUCTIONS {
        Place::new(number as u16)
    } else {
        Place::new(MAX_INSTRUCTIONS as u16 - 1)
    }
}

/// The place that an instruction names by a label of these. 0 where it names none.
fn target_of(labels: &Labels<'_>, written: &Written<'_>) -> Place
    ensures { result ≡ found_target labels.now (written_value written.now) }
{
    let label = match written {
        Written::Ready(_) => return Place::new(0),
        Written::Jump(label) => *label,
        Written::JumpIf(_, _, _, label) => *label,
    };
    match labels.find(label.word) {
        Some(definition) => place_of(definition.place),
        None => Place::new(0),
    }
}

/// The places that the instructions name, each at the number of its statement.
fn targets(alloc: Global, statements: &[Statement<'_>]) -> Result<Vec<Place>, AllocError>
    ensures { IfOk result (λ targets. targets.items ≡ targets_of statements.now) }
{
    let mut targets = Vec::new(alloc);
    let mut labels = Labels::of(alloc, statements)?;
    let mut at = 0;
    'statements: while at < statements.len() {
        let statement = &statements[at];
        let mut target = Place::new(0);
        match &statement.item {
            Item::Program(_, _) => labels = Labels::of(alloc, &statements[at + 1..])?,
            Item::Instruction(Some(written)) => target = target_of(&labels, written),
            Item::Instruction(None) => {}
            Item::Label(_) => {}
            Item::Unknown => {}
        }
        targets.push(target)?;
        at += 1;
    }
    Ok(targets)
}

fn finished(written: Written<'_>, target: Place) -> NamedInstr
    ensures { result ≡ finished target (written_value written.entry) }
{
    match written {
        Written::Ready(instr) => instr,
        Written::Jump(_) => NamedInstr::Plain(Plain::Jmp(target)),
        Written::JumpIf(test, left, right, _) => {
            NamedInstr::Plain(Plain::JumpIf(test, left, right, target))
        }
    }
}

/// The programs of the statements, which are taken from the last to the first.
fn programs(
    alloc: Global,
    mut statements: Vec<Statement<'_>>,
    targets: &[Place],
) -> Result<Vec<NamedProgram>, AllocError>
    requires { length statements.items ≡ length targets.now }
    ensures { IfOk result
        (λ programs. programs.items ≡ programs_with statements.entry.items targets.now) }
{
    let mut programs = Vec::new(alloc);
    let mut lines = Vec::new(alloc);
    'statements: while let Some(statement) = statements.pop() {
        match statement.item {
            Item::Program(kind, title) => {
                if let Some(title) = title {
                    lines.reverse();
                    programs.push(NamedProgram {
                        kind,
                        name: title.name,
                        lines,
                    })?;
                }
                lines = Vec::new(alloc);
            }
            Item::Instruction(Some(written)) => {
                let target = targets[statements.len()];
                lines.push(NamedLine::new(finished(written, target)))?;
            }
            Item::Instruction(None) => {}
            Item::Label(_) => {}
            Item::Unknown => {}
        }
    }
    programs.reverse();
    Ok(programs)
}

/// The programs of a program text, in order. A fault is the text's first: a fault of its tokens,
/// else of the others the one at the least place, and at one place the one that `AsmFault` has
/// first.
pub fn assemble(alloc: Global, text: &[u8]) -> Result<Vec<NamedProgram>, AsmFault>
    ensures programs { IfOk result (λ programs. IsProgramText text.now programs.items) }
    ensures fault { IfErr result (λ e. HasFault text.now e) }
{
    let tokens = tokenize(alloc, text)?;
    let statements = read_statements(alloc, tokens.as_slice())?;
    if let Some(fault) = first_fault(alloc, statements.as_slice())? {
        return Err(fault);
    }
    let targets = targets(alloc, statements.as_slice())?;
    Ok(programs(alloc, statements, targets.as_slice())?)
}

/// A program text has one list of programs, and then no fault; it has one fault at most. Of want of
/// memory nothing is said. (Laws about the definitions; the function does nothing.)
pub fn one_meaning()
    ensures programs { (text : List ℕ) (ps qs : List Program) → IsProgramText text ps
        → IsProgramText text qs → ps ≡ qs }
    ensures faultless { (text : List ℕ) (ps : List Program) (e : AsmFault) → IsProgramText text ps
        → HasFault text e → e ≡ Memory }
    ensures fault { (text : List ℕ) (e f : AsmFault) → HasFault text e → HasFault text f
        → e ≢ Memory → f ≢ Memory → e ≡ f }
{}
