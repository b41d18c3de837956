//! Program texts: the first fault of what stands in a text.

ghost use Rattle.std.specs.Prelude.{◌≡◌, ◌<◌, ◌≤◌, ◌+◌, ◌==◌, length, drop, take, IfSome, IfOk, OnOk, option_map, option_copied, bytes_eq, if◌then◌else◌, nat_lt, List, ℕ, true, false, ◌&&◌};
ghost use Rattle.task_asm.specs.declared.program.ProgramKind.{ProgramKind};
ghost use Rattle.task_asm.specs.Labels.{is_program, is_instruction, is_kind};
ghost use Rattle.task_asm.specs.Walk.{
  Knows,
  has_name,
  has_title,
  KnowsNames,
  open_label_fault,
  open_operand_fault,
  open_instruction_fault,
  title_fault,
  IsOpen,
  front_fault,
  first_fault,
  own_of,
};
ghost use Rattle.task_asm.specs.Lines.{written_value};

use crate::fault::AsmFault;
use crate::instructions::Written;
use crate::labels::Labels;
use crate::operands::Title;
use crate::program::ProgramKind;
use crate::statements::{Item, Statement};
use osek_base::MAX_INSTRUCTIONS;
use std::alloc::{AllocError, Global};
use std::collections::BTreeSet;

/// The names of the programs that were passed, by kind.
#[derive(Drop)]
pub struct ProgramNames<'t> {
    pub tasks: BTreeSet<&'t str>,
    pub routines: BTreeSet<&'t str>,
}

impl<'t> ProgramNames<'t> {
    fn new(alloc: Global) -> Self
        ensures { (kind : ProgramKind) (w : List ℕ) → has_name result kind w ≡ false }
    {
        ProgramNames {
            tasks: BTreeSet::new(alloc),
            routines: BTreeSet::new(alloc),
        }
    }

    fn has(&self, kind: ProgramKind, name: &str) -> bool
        ensures { result ≡ has_name self.now kind name.now }
    {
        match kind {
            ProgramKind::Task => self.tasks.contains(name),
            ProgramKind::Routine => self.routines.contains(name),
        }
    }

    fn add(&mut self, kind: ProgramKind, name: &'t str) -> Result<(), AllocError>
        ensures { OnOk result
            ((k : ProgramKind) (w : List ℕ)
            → has_name self.new k w
            ≡ (if is_kind kind k && bytes_eq name.now w then true else has_name self.old k w)) }
    {
        match kind {
            ProgramKind::Task => self.tasks.insert(name)?,
            ProgramKind::Routine => self.routines.insert(name)?,
        };
        Ok(())
    }
}

/// The program that is open.
#[derive(Drop)]
pub struct Open<'a> {
    /// The number of its first statement.
    pub start: usize,
    pub labels: Labels<'a>,
}

impl<'a> Open<'a> {
    /// The program whose statements begin at a number.
    fn of(alloc: Global, statements: &[Statement<'a>], start: usize) -> Result<Self, AllocError>
        requires { start ≤ length statements.now }
        ensures { IfOk result
            (λ o. (o.start ≡ start) × Knows o.labels (drop start statements.now)) }
    {
        Ok(Open {
            start,
            labels: Labels::of(alloc, &statements[start..])?,
        })
    }

    /// The fault of a label behind so many instructions: none follows, or it was defined before.
    fn label_fault(&self, at: usize, passed: usize, place: usize, word: &str) -> Option<AsmFault>
        requires { self.now.start ≤ at }
        ensures { result ≡ open_label_fault self.now at passed place word.now }
    {
        if passed >= self.labels.instructions {
            return Some(AsmFault::UnknownLabel(place));
        }
        match self.labels.find(word) {
            Some(first) if first.statement < at - self.start => Some(AsmFault::Twice(place)),
            _ => None,
        }
    }

    /// The fault of a jump's operand: the program doesn't define the label.
    fn operand_fault(&self, written: &Written<'_>) -> Option<AsmFault>
        ensures { result ≡ open_operand_fault self.now (written_value written.now) }
    {
        let label = match written {
            Written::Ready(_) => return None,
            Written::Jump(label) => *label,
            Written::JumpIf(_, _, _, label) => *label,
        };
        match self.labels.find(label.word) {
            Some(_) => None,
            None => Some(AsmFault::UnknownLabel(label.place)),
        }
    }

    /// The fault of an instruction behind so many: its operands are faulty, it is one too many, or
    /// its label is unknown.
    fn instruction_fault(
        &self,
        passed: usize,
        place: usize,
        written: &Option<Written<'_>>,
    ) -> Option<AsmFault>
        ensures { result
            ≡ open_instruction_fault self.now passed place (option_map written_value written.now) }
    {
        let Some(written) = written else {
            return Some(AsmFault::Operand(place));
        };
        if passed == MAX_INSTRUCTIONS {
            return Some(AsmFault::TooLong(place));
        }
        self.operand_fault(written)
    }
}

/// The fault of a directive: no name alone follows, or there is a program of that kind and name.
fn title_fault(
    names: &ProgramNames<'_>,
    place: usize,
    kind: ProgramKind,
    title: &Option<Title>,
) -> Option<AsmFault>
    ensures { result ≡ title_fault names.now place kind title.now }
{
    match title {
        None => Some(AsmFault::Operand(place)),
        Some(title) => {
            if names.has(kind, title.name.as_str()) {
                return Some(AsmFault::Twice(title.place));
            }
            None
        }
    }
}

/// Adds the name of a program, if it has one.
fn note_program<'t>(
    names: &mut ProgramNames<'t>,
    kind: ProgramKind,
    title: &'t Option<Title>,
) -> Result<(), AllocError>
    ensures { OnOk result
        ((k : ProgramKind) (w : List ℕ)
        → has_name names.new k w
        ≡ (if has_title kind title.now k w then true else has_name names.old k w)) }
{
    if let Some(title) = title {
        names.add(kind, title.name.as_str())?;
    }
    Ok(())
}

/// The fault of the statement of that number, behind so many instructions of the open program.
fn statement_fault(
    statements: &[Statement<'_>],
    at: usize,
    passed: usize,
    program: &Option<Open<'_>>,
    names: &ProgramNames<'_>,
) -> Option<AsmFault>
    requires within { at < length statements.now }
    requires program { IfSome program.now (IsOpen statements.now at passed) }
    requires names { KnowsNames names.now (take at statements.now) }
    ensures { result
        ≡ front_fault (take at statements.now)
        (own_of statements.now at (option_map (λ o. o.start) program.now))
        (drop at statements.now) }
{
    let statement = &statements[at];
    let place = statement.place;
    match &statement.item {
        Item::Label(word) => match program {
            None => Some(AsmFault::UnknownMnemonic(place)),
            Some(program) => program.label_fault(at, passed, place, word),
        },
        Item::Instruction(written) => match program {
            None => Some(AsmFault::UnknownMnemonic(place)),
            Some(program) => program.instruction_fault(passed, place, written),
        },
        Item::Program(kind, title) => title_fault(names, place, *kind, title),
        Item::Unknown => Some(AsmFault::UnknownMnemonic(place)),
    }
}

/// The first fault of the statements, if they have one.
pub fn first_fault(
    alloc: Global,
    statements: &[Statement<'_>],
) -> Result<Option<AsmFault>, AllocError>
    ensures { IfOk result (λ fault. fault ≡ first_fault statements.now) }
{
    let mut names = ProgramNames::new(alloc);
    let mut program = None;
    let mut passed = 0;
    let mut at = 0;
    'statements: while at < statements.len() {
        let fault = statement_fault(statements, at, passed, &program, &names);
        if let Some(fault) = fault {
            return Ok(Some(fault));
        }
        let statement = &statements[at];
        match &statement.item {
            Item::Program(kind, title) => {
                note_program(&mut names, *kind, title)?;
                program = Some(Open::of(alloc, statements, at + 1)?);
                passed = 0;
            }
            Item::Instruction(_) => passed += 1,
            Item::Label(_) => {}
            Item::Unknown => {}
        }
        at += 1;
    }
    Ok(None)
}
