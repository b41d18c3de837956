//! The programs of a system as words.

ghost use Rattle.std.specs.Prelude.{◌≡◌, ◌<◌, IfOk, length, map};
ghost use Rattle.osek_base.specs.System.{instruction_in, Task as Configured, Routine as ConfiguredRoutine};
ghost use Rattle.machine.specs.Code.{program_in, programs_of};
ghost use Rattle.machine.specs.Packed.{instr_of};

use crate::packed_instr::PackedInstr;
use crate::packed_program::PackedProgram;
use osek_base::{Owner, Place, Routine, System, Task};
use std::alloc::{AllocError, Global};
use std::marker::Model;

/// The programs of all tasks and routines of a system, each instruction kept as its word. Contracts
/// see the programs.
#[derive(Drop)]
pub struct Code {
    tasks: Vec<PackedProgram>,
    routines: Vec<PackedProgram>,
}

impl Model for Code {
    ghost use Rattle.machine.specs.Code.{Programs};

    ghost Value = { Programs };

    ghost view = { λ c. record { tasks = c.tasks.items; routines = c.routines.items } };
}

impl Code {
    /// The programs of a system, packed.
    pub fn of(alloc: Global, system: &System) -> Result<Self, AllocError>
        ensures { IfOk result (λ c. c ≡ programs_of system.now) }
    {
        let parts = system.parts();
        Ok(Code {
            tasks: packed_tasks(alloc, parts.tasks.as_slice())?,
            routines: packed_routines(alloc, parts.routines.as_slice())?,
        })
    }

    /// The instruction at a place of a task's or routine's program: one word is read.
    #[inline(always)]
    pub fn fetch(&self, owner: Owner, place: Place) -> PackedInstr
        requires { place < length (program_in self.now owner) }
        ensures { instr_of result ≡ instruction_in (program_in self.now owner) place }
    {
        self.program(owner).at(place)
    }

    /// The program of a task or routine.
    #[inline(always)]
    fn program(&self, owner: Owner) -> &PackedProgram
        requires { 0 < length (program_in self.now owner) }
        ensures { result.now ≡ program_in self.now owner }
    {
        match owner {
            Owner::Task(task) => &self.tasks[task.number() as usize],
            Owner::Routine(routine) => &self.routines[routine.number() as usize],
        }
    }
}

/// The programs of tasks.
fn packed_tasks(alloc: Global, tasks: &[Task]) -> Result<Vec<PackedProgram>, AllocError>
    ensures { IfOk result (λ v. v.items ≡ map (λ (t : Configured). t.program) tasks.now) }
{
    let mut programs = Vec::with_capacity(alloc, tasks.len())?;
    for number in 0..tasks.len() {
        let task = &tasks[number];
        programs.push(PackedProgram::of(alloc, &task.program)?)?;
    }
    Ok(programs)
}

/// The programs of routines.
fn packed_routines(alloc: Global, routines: &[Routine]) -> Result<Vec<PackedProgram>, AllocError>
    ensures { IfOk result (λ v. v.items ≡ map (λ (r : ConfiguredRoutine). r.program) routines.now) }
{
    let mut programs = Vec::with_capacity(alloc, routines.len())?;
    for number in 0..routines.len() {
        let routine = &routines[number];
        programs.push(PackedProgram::of(alloc, &routine.program)?)?;
    }
    Ok(programs)
}
