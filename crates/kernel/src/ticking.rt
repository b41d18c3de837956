//! OSEK/VDX OS: system start-up; application modes. A booted system that does tick by tick, each
//! with the interrupts that arrive in it.

ghost use Rattle.std.specs.Prelude.{◌≡◌, ◌<◌, ◌≤◌, ◌+◌, [], IfOk, MatchOption, Some, true, map, slice_index, length};
ghost use Rattle.osek_base.specs.Lists.{below};
ghost use Rattle.osek_base.specs.State.{shared_window};
ghost use Rattle.law_kept.specs.KeptTick.{before_execution_in};
ghost use Rattle.ready_queues.specs.LevelLists.{level_lists, by_level};
ghost use Rattle.kernel.specs.Begun.{GoesOnBy, MayGoOn, NoneComes};
ghost use Rattle.kernel.specs.Idle.{StaysIdle};
ghost use Rattle.kernel.specs.Stamping.{IsNumber, number_told};
ghost use Rattle.kernel.specs.Machine.{HasTicked, IsBooted, IsCore, IsNextTick, IsSharedWord, MayTick, ShowsObjects, next_tick, picture, system_of};
ghost use Rattle.kernel.specs.Working.{HasTickedSteady};
ghost use Rattle.seen_ticks.specs.Told.{task_at_in};

use crate::acted::Acted;
use crate::at_instruction::AtInstruction;
use crate::begun::{Begun, put_first};
use crate::blockers::{Blockers, Counted};
use crate::blocking::Blocking;
use crate::kernel::push_all;
use crate::looker::{Looker, Unseen};
use crate::processor::Processor;
use crate::ticked::Ticked;
use crate::watched::Watched;
use alarms::DueList;
use osek_base::{
    Executed, IsrId, MAX_TICKS, ModeId, Owner, ResourceNumber, System, TickRecord, WINDOW_WORDS,
};
use ready_queues::ReadyQueues;
use services::{CopyQueues, Core, Objects};
use std::alloc::{AllocError, Global};
use std::marker::Model;

/// A booted system after some ticks, over ready queues of any kind: which interrupts arrive in a
/// tick is told when it is done. Contracts see what is kept of its state, which is that of a state
/// of a run, with the number of the next tick. It counts the blockers of jobs, if it isn't told not
/// to.
#[derive(Drop)]
pub struct Machine<'s, Q: ReadyQueues, B: Blockers = Counted> {
    pub(crate) watched: Watched<'s, Q, B>,
    pub(crate) ticks: u32,
    /// The records of boot, until the first tick.
    opening: TickRecord,
    /// The alarms that were due in the last tick.
    acted: Acted,
}

impl<'s, Q: ReadyQueues, B: Blockers> Model for Machine<'s, Q, B> {
    ghost use Rattle.kernel.specs.Machine.{IsMachine, Machine as Seen, between};

    ghost Value = { Seen };

    ghost view = { λ m. between m.watched m.ticks m.opening m.acted };

    ghost invariant = { λ m. IsMachine B.are_counted m.watched.processor.objects.tick
        (between m.watched m.ticks m.opening m.acted) };
}

impl<'s, Q: ReadyQueues, B: Blockers> Machine<'s, Q, B> {
    /// Boots a system in a mode. Its programs are packed here, once. Err is a growth that was
    /// refused.
    pub fn boot(alloc: Global, system: &'s System, mode: ModeId) -> Result<Self, AllocError>
        ensures { IfOk result (IsBooted B.are_counted system.now mode) }
    {
        let mut opening = TickRecord::new();
        let processor = Processor::boot(alloc, system, mode, &mut opening)?;
        let blocking = Blocking::boot(&processor);
        Ok(Machine {
            watched: Watched {
                processor,
                blocking,
            },
            ticks: 0,
            opening,
            acted: Acted {
                due: DueList::new(),
                refused: DueList::new(),
            },
        })
    }

    /// The number of the next tick: how many ticks are done.
    #[inline(always)]
    pub fn next_tick(&self) -> u32
        ensures { IsNextTick self.now result }
    {
        self.ticks
    }

    /// Whether a ShutdownOS ended the run.
    #[inline(always)]
    pub fn is_shut_down(&self) -> bool
        ensures { result ≡ (picture self.now).over }
    {
        self.watched.processor.is_over()
    }

    /// The word of a task's or routine's window.
    pub fn word(&self, owner: Owner, index: u32) -> u32
        requires { index < WINDOW_WORDS }
        ensures { result ≡ (picture self.now).words owner index }
    {
        self.watched.processor.windows.word(owner, index as u8)
    }

    /// The word of a standard resource's window.
    pub fn shared_word(&self, resource: ResourceNumber, index: u32) -> u32
        requires { IsSharedWord (system_of self.now) resource index }
        ensures { result ≡ slice_index (shared_window (picture self.now).shared resource) index }
    {
        self.core().shared_word(resource, index)
    }

    /// The ready queues: for each level the tasks that are ready and don't run, oldest first.
    pub fn queues(&self) -> &Q
        ensures { by_level (level_lists (Q.queues result.now)) ≡ (picture self.now).queues }
    {
        self.core().objects().queues()
    }

    /// The number of blockers of the job that executed in the last tick, where that was its first
    /// instruction since it became ready. None where blockers aren't counted.
    #[inline(always)]
    pub fn blockers(&self) -> Option<u32>
        ensures { IsNumber B.are_counted (number_told self.now.blocking.told) result }
    {
        self.watched.blocking.number()
    }

    /// The alarms that were due in the last tick, in declaration order; none before the first.
    pub fn last_due(&self) -> &DueList
        ensures { result.now ≡ self.now.acted.due }
    {
        &self.acted.due
    }

    /// Those of them whose action was refused.
    pub fn last_refused(&self) -> &DueList
        ensures { result.now ≡ self.now.acted.refused }
    {
        &self.acted.refused
    }

    /// All that is kept of the state but the words of tasks and routines. Its clock shows the tick
    /// that was done last, from which the counts left of alarms are told.
    pub fn objects(&self) -> &Objects<'s, Q>
        ensures { ShowsObjects self.now result.now }
    {
        self.core().objects()
    }

    /// The core of the services, whose clock shows the tick that was done last. It tells the
    /// running task and who executes.
    #[inline(always)]
    pub fn core(&self) -> &Core<'s, Q>
        ensures { IsCore self.now result.now }
    {
        &self.watched.processor.core
    }

    /// The ticks that follow, at most some, are done at once as long as nothing happens in them: no
    /// interrupt arrives, no alarm is due, and nobody executes. Answers how many were done. The
    /// first tick is none of these.
    pub fn pass_idle(&mut self, most: u32) -> u32
        requires { next_tick self.old + most ≤ MAX_TICKS }
        ensures { StaysIdle B.are_counted most result self.old self.new }
    {
        let is_quiet = self.core().is_quiet();
        if self.ticks == 0 || !is_quiet {
            return 0;
        }
        let idle = self.watched.pass(most);
        if 0 < idle {
            self.ticks += idle;
            self.acted.clear();
        }
        idle
    }

    /// Does one tick in which the interrupts of some routines arrive, and answers what it executed.
    /// The records before and behind that of the instruction are left in two lists, in place of
    /// those of earlier ticks; those of boot stand in front of the first tick's. It takes no memory
    /// and never fails.
    #[inline(always)]
    pub fn tick(
        &mut self,
        arrived: &[IsrId],
        before: &mut TickRecord,
        behind: &mut TickRecord,
    ) -> Option<Executed>
        requires { MayTick arrived.now self.old }
        ensures { HasTicked B.are_counted arrived.now self.old self.new before.new result
            behind.new }
    {
        self.tick_with(arrived, &mut Unseen, before, behind)
    }

    /// As [`tick`](Machine::tick), and leaves what the tasks are when the instruction is executed:
    /// that is behind phases 1 to 4 of the tick, in which alarms act, interrupts arrive, a task is
    /// dispatched and a routine starts.
    pub fn tick_seen(
        &mut self,
        arrived: &[IsrId],
        before: &mut TickRecord,
        behind: &mut TickRecord,
        at: &mut AtInstruction,
    ) -> Option<Executed>
        requires { MayTick arrived.now self.old }
        ensures done { HasTicked B.are_counted arrived.now self.old self.new before.new result
            behind.new }
        ensures seen { at.new.tasks.items
            ≡ map
            (task_at_in (system_of self.old)
            (before_execution_in (system_of self.old) arrived.now (picture self.old)).state)
            (below (length (system_of self.old).tasks)) }
    {
        self.tick_with(arrived, at, before, behind)
    }

    /// Does one tick in which no interrupt arrives, where it is known that nothing comes before the
    /// instruction of the running task: no alarm is due, no routine is pending, and a reschedule
    /// would change nothing. Answers what it executed; `behind` becomes the records behind that of
    /// the instruction, and none stand before it. None is where that isn't known, as in the first
    /// tick: then the machine and `behind` stay as they were, and a caller does the usual tick,
    /// [`tick`](Machine::tick).
    #[inline(always)]
    pub fn tick_steady(&mut self, behind: &mut TickRecord) -> Option<Executed>
        requires { MayTick [] self.old }
        ensures { MatchOption result ((self.new ≡ self.old) × (behind.new ≡ behind.old))
            (λ e. HasTickedSteady B.are_counted self.old self.new e behind.new) }
    {
        if self.ticks == 0 {
            return None;
        }
        let task = self.watched.begin_steady()?;
        self.acted.clear();
        behind.clear();
        let tick = self.ticks;
        self.watched.begin(Some(task), tick);
        self.ticks = tick + 1;
        Some(self.watched.finish(Owner::Task(task), tick + 1, behind))
    }

    /// Does one tick in which the interrupts of some routines arrive, if the run isn't over.
    /// `none_comes` may be set where none arrives and the tick isn't the first. What it executed is
    /// the answer where it comes first, and else it is left in `executed`, with what stands before
    /// it in `before`. `behind` has to be empty, and becomes what stands behind it.
    #[inline(always)]
    pub(crate) fn go_on(
        &mut self,
        none_comes: bool,
        arrived: &[IsrId],
        before: &mut TickRecord,
        behind: &mut TickRecord,
        executed: &mut Option<Executed>,
    ) -> Ticked
        requires may { MayGoOn arrived.now self.old behind.old }
        requires none { none_comes ≡ true → NoneComes (next_tick self.old) arrived.now }
        ensures { GoesOnBy B.are_counted arrived.now self.old self.new before.new behind.new
            executed.new result }
    {
        let tick = self.ticks;
        let begun = self.watched.begin_tick(
            none_comes,
            tick,
            arrived,
            &mut self.acted,
            &mut self.opening,
            before,
        );
        match begun {
            Begun::Over => Ticked::Over,
            Begun::Any => {
                let watched = &self.watched;
                let task = watched.processor.executing_task();
                self.watched.begin(task, tick);
                self.ticks = tick + 1;
                self.watched.late_apart(tick + 1, behind, executed);
                Ticked::Any
            }
            Begun::First(task) => {
                self.watched.begin(Some(task), tick);
                self.ticks = tick + 1;
                Ticked::First(self.watched.finish(Owner::Task(task), tick + 1, behind))
            }
        }
    }

    /// As `tick`, with a look at the system when the instruction is executed.
    #[inline(always)]
    pub(crate) fn tick_with<L: Looker>(
        &mut self,
        arrived: &[IsrId],
        looker: &mut L,
        before: &mut TickRecord,
        behind: &mut TickRecord,
    ) -> Option<Executed>
        requires { MayTick arrived.now self.old }
        ensures done { HasTicked B.are_counted arrived.now self.old self.new before.new result
            behind.new }
        ensures seen { L.HasSeen looker.new (system_of self.old)
            (before_execution_in (system_of self.old) arrived.now (picture self.old)).state }
    {
        put_first(&mut self.opening, self.ticks, before);
        behind.clear();
        let first = self
            .watched
            .early_phases(self.ticks, arrived, &mut self.acted, before);
        let watched = &self.watched;
        looker.look(&watched.processor);
        let task = watched.executing_task(&first);
        self.watched.begin(task, self.ticks);
        self.ticks += 1;
        self.watched.late_phases_of(first, self.ticks, behind)
    }
}

impl<'s, Q: CopyQueues, B: Blockers> Machine<'s, Q, B> {
    /// All of it becomes that of another machine of the same system, so that both go on alike. It
    /// takes no memory and never fails.
    pub fn copy_from(&mut self, other: &Machine<'s, Q, B>)
        requires { system_of self.old ≡ system_of other.now }
        ensures { self.new ≡ other.now }
    {
        self.watched.copy_from(&other.watched);
        self.ticks = other.ticks;
        self.opening.clear();
        push_all(&mut self.opening, &other.opening);
        self.acted.copy_from(&other.acted);
    }
}
