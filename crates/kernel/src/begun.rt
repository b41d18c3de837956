//! OSEK/VDX OS: alarms; interrupt processing; task management, scheduling policy. How a tick
//! begins.

ghost use Rattle.std.specs.Prelude.{◌≡◌, ◌<◌, ◌≤◌, [], true, length};
ghost use Rattle.std.specs.List.{All};
ghost use Rattle.kernel.specs.Begun.{HasBegunAs, NoneComes};
ghost use Rattle.kernel.specs.Does.{PutsFirst};
ghost use Rattle.kernel.specs.Processor.{system_of};
ghost use Rattle.kernel.specs.Watches.{MayStart};

use crate::acted::Acted;
use crate::blockers::Blockers;
use crate::watched::Watched;
use osek_base::{IsrId, TaskId, TickRecord};
use ready_queues::ReadyQueues;
use std::mem;

/// How a tick began, of which the instruction comes next.
#[derive(Clone, Copy)]
pub enum Begun {
    /// That task executes, and nothing is recorded.
    First(TaskId),
    /// Whatever else.
    Any,
    /// It didn't: a ShutdownOS ended the run before.
    Over,
}

impl<'s, Q: ReadyQueues, B: Blockers> Watched<'s, Q, B> {
    /// The first four phases of a tick, if the run isn't over. Where it is known that no interrupt
    /// arrives, and the tick isn't the first, a task that is known to be the one that executes goes
    /// on if no alarm is due. `acted` becomes the alarms that were due. Where the tick doesn't
    /// begin by a task's instruction alone, `before` becomes what is recorded, behind what
    /// `opening` had.
    #[inline(always)]
    pub fn begin_tick(
        &mut self,
        none_comes: bool,
        tick: u32,
        arrived: &[IsrId],
        acted: &mut Acted,
        opening: &mut TickRecord,
        before: &mut TickRecord,
    ) -> Begun
        requires may { MayStart B.are_counted tick self.old opening.old }
        requires known { All (λ i. i < length (system_of self.old.processor).routines) arrived.now }
        requires none { none_comes ≡ true → NoneComes tick arrived.now }
        ensures { HasBegunAs B.are_counted arrived.now tick self.old self.new opening.old
            opening.new before.new acted.old acted.new result }
    {
        if none_comes {
            if let Some(task) = self.begin_steady() {
                acted.clear();
                return Begun::First(task);
            }
        }
        if self.processor.is_over() {
            return Begun::Over;
        }
        put_first(opening, tick, before);
        match self.early_phases(tick, arrived, acted, before) {
            None => Begun::Any,
            Some(task) => Begun::First(task),
        }
    }
}

/// Puts in the records that stand before a tick's own: those of boot in tick 0, else none.
#[inline(always)]
pub fn put_first(opening: &mut TickRecord, tick: u32, records: &mut TickRecord)
    requires { 1 ≤ tick → opening.old ≡ [] }
    ensures { PutsFirst opening.old opening.new records.new }
{
    records.clear();
    if tick == 0 {
        mem::swap(records, opening);
    }
}
