//! The modelled processor. What generation refuses in programs.

ghost use Rattle.std.specs.Prelude.{◌≡◌, None, is_some, length, option_copied};
ghost use Rattle.std.specs.List.{find, list_all, list_any};
ghost use Rattle.system_gen.specs.Checks.{Answers};
ghost use Rattle.system_gen.specs.Programs.{
  is_closed,
  is_end,
  jumps_below,
  ends_well,
  is_return,
  returns_well,
  is_program_of,
  end_fault,
  return_fault,
  task_program_fault,
  routine_program_fault,
};
ghost use Rattle.task_asm.specs.Labels.{is_kind};

use crate::fault::GenFault;
use oil_reader::{IsrObject, TaskObject};
use osek_base::{Control, MAX_INSTRUCTIONS, Name, Plain};
use task_asm::{NamedInstr, NamedLine, NamedProgram, ProgramKind};

/// The program of the task or routine of that name.
pub(crate) fn program_of<'a>(
    kind: ProgramKind,
    name: &Name,
    programs: &'a [NamedProgram],
) -> Option<&'a NamedProgram>
    ensures found { is_some result ≡ list_any (is_program_of kind name.now) programs.now }
    ensures value { option_copied result ≡ find (is_program_of kind name.now) programs.now }
{
    for program in programs {
        if is_program_of(kind, name, program) {
            return Some(program);
        }
    }
    None
}

fn is_program_of(kind: ProgramKind, name: &Name, program: &NamedProgram) -> bool
    ensures { result ≡ is_program_of kind name.now program.now }
{
    is_kind(program.kind, kind) && program.name.as_str() == name.as_str()
}

fn is_kind(one: ProgramKind, other: ProgramKind) -> bool
    ensures { result ≡ is_kind one other }
{
    match (one, other) {
        (ProgramKind::Task, ProgramKind::Task) => true,
        (ProgramKind::Routine, ProgramKind::Routine) => true,
        _ => false,
    }
}

/// Each task has a program.
pub(crate) fn check_task_programs(
    tasks: &[TaskObject],
    programs: &[NamedProgram],
) -> Result<(), GenFault>
    ensures { Answers (task_program_fault programs.now tasks.now) result }
{
    for task in tasks {
        if !has_program(ProgramKind::Task, &task.name, programs) {
            return Err(GenFault::NoProgram(task.name.clone()?));
        }
    }
    Ok(())
}

/// Each routine has a program.
pub(crate) fn check_routine_programs(
    routines: &[IsrObject],
    programs: &[NamedProgram],
) -> Result<(), GenFault>
    ensures { Answers (routine_program_fault programs.now routines.now) result }
{
    for routine in routines {
        if !has_program(ProgramKind::Routine, &routine.name, programs) {
            return Err(GenFault::NoProgram(routine.name.clone()?));
        }
    }
    Ok(())
}

fn has_program(kind: ProgramKind, name: &Name, programs: &[NamedProgram]) -> bool
    ensures { result ≡ list_any (is_program_of kind name.now) programs.now }
{
    program_of(kind, name, programs).is_some()
}

/// No program can be left.
pub(crate) fn check_ends(programs: &[NamedProgram]) -> Result<(), GenFault>
    ensures { Answers (end_fault programs.now) result }
{
    for program in programs {
        if !is_closed(program) {
            return Err(GenFault::LastNotJump(program.name.clone()?));
        }
    }
    Ok(())
}

/// Whether a program can't be left, neither at its end nor by a jump.
#[tactic(auto, unfolding(crate::specs::Programs::is_closed))]
fn is_closed(program: &NamedProgram) -> bool
    ensures { result ≡ is_closed program.now }
{
    let end = ends_well(program);
    let jumps = jumps_within(program.lines.as_slice());
    end && jumps && program.lines.len() <= MAX_INSTRUCTIONS
}

fn jumps_within(lines: &[NamedLine]) -> bool
    ensures { result ≡ list_all (jumps_below (length lines.now)) lines.now }
{
    for line in lines {
        if !jumps_below(lines.len(), line.instr()) {
            return false;
        }
    }
    true
}

/// Whether an instruction jumps to a place below a number, if it jumps.
fn jumps_below(size: usize, instr: &NamedInstr) -> bool
    ensures { result ≡ jumps_below size instr.now }
{
    match instr {
        NamedInstr::Plain(Plain::Jmp(to)) => usize::from(to.number()) < size,
        NamedInstr::Plain(Plain::JumpIf(_, _, _, to)) => usize::from(to.number()) < size,
        _ => true,
    }
}

fn ends_well(program: &NamedProgram) -> bool
    ensures { result ≡ ends_well program.now }
{
    match program.lines.last() {
        None => false,
        Some(line) => is_end(line.instr()),
    }
}

/// Whether no instruction follows on this one.
fn is_end(instr: &NamedInstr) -> bool
    ensures { result ≡ is_end instr.now }
{
    match instr {
        NamedInstr::Plain(Plain::Jmp(_)) => true,
        NamedInstr::Control(Control::ReturnFromInterrupt) => true,
        _ => false,
    }
}

/// Only a routine returns from an interrupt.
pub(crate) fn check_returns(programs: &[NamedProgram]) -> Result<(), GenFault>
    ensures { Answers (return_fault programs.now) result }
{
    for program in programs {
        if !returns_well(program) {
            return Err(GenFault::RetiInTask(program.name.clone()?));
        }
    }
    Ok(())
}

fn returns_well(program: &NamedProgram) -> bool
    ensures { result ≡ returns_well program.now }
{
    match program.kind {
        ProgramKind::Task => !has_return(program.lines.as_slice()),
        ProgramKind::Routine => true,
    }
}

fn has_return(lines: &[NamedLine]) -> bool
    ensures { result ≡ list_any is_return lines.now }
{
    for line in lines {
        if is_return(line.instr()) {
            return true;
        }
    }
    false
}

fn is_return(instr: &NamedInstr) -> bool
    ensures { result ≡ is_return instr.now }
{
    match instr {
        NamedInstr::Control(Control::ReturnFromInterrupt) => true,
        _ => false,
    }
}
