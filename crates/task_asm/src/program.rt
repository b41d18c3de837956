//! The modelled processor and OSEK/VDX OS: system services. Programs whose operands are names.

ghost use Rattle.std.specs.Prelude.{◌≡◌, ◌∷◌, ◌++◌, [], IfOk, IsTrue, not};
ghost use Rattle.osek_base.specs.Lists.{is_empty};

use osek_base::{Control, Name, Plain, Register, Service};
use std::alloc::{AllocError, Global};
use std::marker::Model;

/// One or more events as an operand, of which the union is meant. Contracts see the list of their
/// names.
#[derive(Drop)]
pub struct EventNames {
    names: Vec<Name>,
}

impl Model for EventNames {
    ghost use Rattle.std.specs.Prelude.{List, ℕ, IsTrue, not};
    ghost use Rattle.osek_base.specs.Lists.{is_empty};

    ghost Value = { List (List ℕ) };

    ghost view = { λ e. e.names.items };

    ghost invariant = { λ e. IsTrue (not (is_empty e.names.items)) };
}

impl EventNames {
    /// The names in the order in which they stand.
    pub fn names(&self) -> &[Name]
        ensures value { result.now ≡ self.now }
        ensures some { IsTrue (not (is_empty result.now)) }
    {
        self.names.as_slice()
    }

    /// One event.
    pub(crate) fn one(alloc: Global, name: Name) -> Result<Self, AllocError>
        ensures { IfOk result (λ e. e ≡ name ∷ []) }
    {
        let mut names = Vec::new(alloc);
        names.push(name)?;
        Ok(EventNames { names })
    }

    /// Joins another event.
    pub(crate) fn join(&mut self, name: Name) -> Result<(), AllocError>
        ensures { IfOk result (λ _. self.new ≡ self.old ++ name ∷ []) }
    {
        self.names.push(name)?;
        Ok(())
    }
}

/// A service with a status, its operands by their names, of which that of a resource may be
/// RES_SCHEDULER. None is the operand INVALID.
pub type NamedService = Service<Register, Option<Name>, Option<Name>, Option<Name>, EventNames>;

/// An instruction as it stands in a program text, with places for labels.
#[derive(Drop)]
pub enum NamedInstr {
    Plain(Plain),
    Service(NamedService),
    Control(Control),
}

/// An instruction as an element of a program. Contracts see the instruction.
#[derive(Drop)]
pub struct NamedLine {
    instr: NamedInstr,
}

impl Model for NamedLine {
    ghost use Rattle.task_asm.specs.declared.program.NamedInstr.{NamedInstr};

    ghost Value = { NamedInstr };

    ghost view = { λ l. l.instr };

    ghost inverse = { λ i. record { instr = i } };
}

impl NamedLine {
    pub fn new(instr: NamedInstr) -> Self
        ensures { result ≡ instr }
    {
        NamedLine { instr }
    }

    pub fn instr(&self) -> &NamedInstr
        ensures { result.now ≡ self.now }
    {
        &self.instr
    }
}

/// Whose a program is.
#[derive(Clone, Copy, PartialEq, Eq)]
pub enum ProgramKind {
    Task,
    Routine,
}

/// The program of a task or of an interrupt routine: its name and its instructions in order.
#[derive(Drop)]
pub struct NamedProgram {
    pub kind: ProgramKind,
    pub name: Name,
    pub lines: Vec<NamedLine>,
}

impl Model for NamedProgram {
    ghost use Rattle.task_asm.specs.Programs.{Program};

    ghost Value = { Program };

    ghost view = { λ p. record { kind = p.kind; name = p.name; instructions = p.lines.items } };
}
