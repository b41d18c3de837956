//! The texts of a system's instructions, made before the first tick.

ghost use Rattle.std.specs.Prelude.{◌≡◌, ◌+◌, ◌≤◌, ◌∷◌, ◌++◌, [], IfOk, IfSome, OnOk, length};
ghost use Rattle.osek_base.specs.Executed.{StandsIn, executed_record};
ghost use Rattle.osek_base.specs.Text.{line};
ghost use Rattle.osek_base.specs.declared.ids.Owner.{Owner};
ghost use Rattle.trace_lines.specs.Programs.{AreAllTexts, IsOfProgram, IsTextAt};

use crate::block::{BLOCK_SIZE, Block, RECORD_SIZE};
use crate::block_outcome::{push_answer, push_effect, push_outcome};
use crate::kept_text::KeptText;
use crate::line::push_event;
use crate::program_texts::ProgramTexts;
use crate::tick_text::TickText;
use osek_base::{Executed, IsrId, Outcome, Owner, Place, System, TaskId, TraceEvent};
use std::alloc::{AllocError, Global};
use std::marker::Model;

fn push_program(programs: &mut Vec<ProgramTexts>, program: ProgramTexts) -> Result<(), AllocError>
    ensures { OnOk result (programs.new.items ≡ programs.old.items ++ program ∷ []) }
{
    programs.push(program)?;
    Ok(())
}

/// The texts of the tasks' programs, by number.
fn task_texts(alloc: Global, system: &System) -> Result<Vec<ProgramTexts>, AllocError>
    ensures { IfOk result
        (λ r. AreAllTexts system.now Owner.Task (length system.now.tasks) r.items) }
{
    let mut programs = Vec::new(alloc);
    system.shows_proper();
    'tasks: for number in 0..system.task_count() {
        let who = Owner::Task(TaskId::new(number as u8));
        push_program(&mut programs, ProgramTexts::of(alloc, system, &who)?)?;
    }
    Ok(programs)
}

/// The texts of the routines' programs, by number.
fn routine_texts(alloc: Global, system: &System) -> Result<Vec<ProgramTexts>, AllocError>
    ensures { IfOk result
        (λ r. AreAllTexts system.now Owner.Routine (length system.now.routines) r.items) }
{
    let mut programs = Vec::new(alloc);
    system.shows_proper();
    'routines: for number in 0..system.routine_count() {
        let who = Owner::Routine(IsrId::new(number as u8));
        push_program(&mut programs, ProgramTexts::of(alloc, system, &who)?)?;
    }
    Ok(programs)
}

/// The texts of all instructions of a system. Seen as the system.
#[derive(Drop)]
pub struct InstructionTexts<'s> {
    system: &'s System,
    tasks: Vec<ProgramTexts>,
    routines: Vec<ProgramTexts>,
}

impl<'s> Model for InstructionTexts<'s> {
    ghost use Rattle.osek_base.specs.System.{System};
    ghost use Rattle.osek_base.specs.declared.ids.Owner.{Owner};
    ghost use Rattle.std.specs.Prelude.{length};
    ghost use Rattle.trace_lines.specs.Programs.{AreAllTexts};

    ghost Value = { System };

    ghost view = { λ s. s.system.now };

    ghost invariant = { λ s.
        AreAllTexts s.system.now Owner.Task (length s.system.now.tasks) s.tasks.items
        × AreAllTexts s.system.now Owner.Routine (length s.system.now.routines) s.routines.items };
}

impl<'s> InstructionTexts<'s> {
    /// The texts of all instructions of that system.
    pub fn new(alloc: Global, system: &'s System) -> Result<Self, AllocError>
        ensures { IfOk result (λ t. t ≡ system.now) }
    {
        let tasks = task_texts(alloc, system)?;
        let routines = routine_texts(alloc, system)?;
        Ok(InstructionTexts {
            system,
            tasks,
            routines,
        })
    }

    /// The system that they are of.
    #[inline(always)]
    pub fn system(&self) -> &'s System
        ensures { result.now ≡ self.now }
    {
        self.system
    }

    /// The text of an instruction that was executed.
    #[inline(always)]
    fn executed_text(&self, executed: &Executed) -> &KeptText
        requires { StandsIn self.now executed.now }
        ensures { IsTextAt self.now executed.now.owner executed.now.place result.now }
    {
        match &executed.owner {
            Owner::Task(task) => {
                let program = &self.tasks[task.number() as usize];
                program.text(&executed.place)
            }
            Owner::Routine(routine) => {
                let program = &self.routines[routine.number() as usize];
                program.text(&executed.place)
            }
        }
    }

    /// The text of the instruction at a place of a task's or routine's program, if there is one.
    fn text_at(&self, who: &Owner, place: &Place) -> Option<&KeptText>
        ensures { IfSome result (λ text. IsTextAt self.now who.now place.now text.now) }
    {
        let program = match who {
            Owner::Task(task) => self.tasks.get(task.number() as usize)?,
            Owner::Routine(routine) => self.routines.get(routine.number() as usize)?,
        };
        program.at(place)
    }

    /// Appends the line of what a tick executed, without the line's end; the instruction isn't
    /// spelled again.
    #[inline(always)]
    pub(crate) fn push_executed_line(&self, tick: &TickText, executed: &Executed, text: &mut Block)
        requires placed { StandsIn self.now executed.now }
        requires room { length text.old + RECORD_SIZE ≤ BLOCK_SIZE }
        ensures same { text.new
            ≡ text.old ++ line self.now.names tick.now (executed_record self.now executed.now) }
        ensures short { length text.new ≤ length text.old + 238 }
    {
        // The line of a plain instruction and that of a service don't meet before their end, so
        // that what was executed is asked once for its kind.
        if let Outcome::Plain(effect) = &executed.outcome {
            tick.push_to(text);
            self.executed_text(executed).push_to(text);
            push_effect(text, *effect);
        } else {
            tick.push_to(text);
            self.executed_text(executed).push_to(text);
            if let Outcome::Answer(status, results) = &executed.outcome {
                push_answer(text, *status, results);
            }
        }
    }

    /// Appends the line of a record of that tick, without the line's end; an instruction isn't
    /// spelled again.
    #[inline(always)]
    pub(crate) fn push_line(&self, tick: &TickText, event: &TraceEvent, text: &mut Block)
        requires listed { IsOfProgram self.now event.now }
        requires room { length text.old + RECORD_SIZE ≤ BLOCK_SIZE }
        ensures same { text.new ≡ text.old ++ line self.now.names tick.now event.now }
        ensures short { length text.new ≤ length text.old + 238 }
    {
        tick.push_to(text);
        if let TraceEvent::Executed(who, place, _, outcome) = event
            && let Some(executed) = self.text_at(who, place)
        {
            executed.push_to(text);
            push_outcome(text, outcome);
        } else {
            push_event(text, self.system.names(), event);
        }
    }
}
