//! A run beside what its kernel tells of the last tick.

ghost use Rattle.std.specs.Prelude.{◌≡◌, ◌+◌, ◌-◌, ◌≤◌, true, false, length, map, IfOk, IfSome, IsFalse, IsTrue, Some, None};
ghost use Rattle.osek_base.specs.Executed.{StandsIn, idle_or_executed};
ghost use Rattle.osek_base.specs.Lists.{below};
ghost use Rattle.osek_base.specs.Names.{number_of};
ghost use Rattle.osek_base.specs.Proper.{IsProper};
ghost use Rattle.kernel.specs.declared.boot.BootFault.{BootFault};
ghost use Rattle.kernel.specs.Progress.{AreKnown, HasIdled, is_over, run_of};
ghost use Rattle.law_blockers.specs.Steps.{record_at};
ghost use Rattle.seen_runs.specs.Keeping.{HasGoneSteadily, IsBefore, coming, last_tick};
ghost use Rattle.seen_runs.specs.Passing.{StaysOn};
ghost use Rattle.seen_ticks.specs.Observed.{executed_in, holders_seen};
ghost use Rattle.seen_ticks.specs.Told.{task_at};

use crate::before::Before;
use arrayvec::ArrayVec;
use kernel::{AtInstruction, Blockers, BootFault, Kernel, push_all};
use osek_base::{Arrivals, Executed, MAX_TICKS, System, TickRecord, TraceEvent};
use ready_queues::LevelQueues;
use seen_ticks::{Execution, Holder, MAX_HELD};
use std::alloc::Global;
use std::marker::Model;

/// A run of a system, tick by tick, beside what has to be known of the tick that was done last.
#[derive(Drop)]
pub(crate) struct ToldRun<'s, B: Blockers> {
    pub(crate) system: &'s System,
    pub(crate) kernel: Kernel<'s, LevelQueues, B>,
    pub(crate) execution: Execution,
    /// The records before and behind that of the last tick's instruction.
    ahead: TickRecord,
    behind: TickRecord,
    /// Room to work in.
    room: TickRecord,
}

impl<'s, B: Blockers> Model for ToldRun<'s, B> {
    ghost use Rattle.kernel.specs.Progress.{Progress};
    ghost use Rattle.seen_runs.specs.Keeping.{IsTelling};

    ghost Value = { Progress };

    ghost view = { λ r. r.kernel };

    ghost invariant = { λ r. IsTelling r.kernel r.system.now r.execution r.ahead r.behind };
}

impl<'s, B: Blockers> ToldRun<'s, B> {
    /// Boots a system in the application mode of that name, with those arrivals. Memory is taken
    /// here alone.
    pub(crate) fn boot(
        alloc: Global,
        system: &'s System,
        mode: &str,
        arrivals: Arrivals,
    ) -> Result<Self, BootFault>
        requires { AreKnown system.now arrivals }
        ensures booted { IfOk result
            (λ r. (r.system ≡ system.now) × (r.arrivals ≡ arrivals) × (r.ticks ≡ 0)
            × (number_of mode.now system.now.names.modes ≡ Some r.mode)) }
        ensures unknown { result ≡ Err BootFault.UnknownMode
            → number_of mode.now system.now.names.modes ≡ None }
    {
        // Who asks for the list learns that it keeps its limits.
        let _few = arrivals.list();
        let kernel = Kernel::boot(alloc, system, mode, arrivals)?;
        Ok(ToldRun {
            system,
            kernel,
            execution: Execution::nothing(),
            ahead: TickRecord::new(),
            behind: TickRecord::new(),
            room: TickRecord::new(),
        })
    }

    /// What is known before its next tick.
    pub(crate) fn known(&self) -> Before
        ensures { IsBefore self.now.system (coming self.now) result }
    {
        Before::of(&self.kernel, self.system)
    }

    /// Its system.
    pub(crate) fn system(&self) -> &'s System
        ensures { result.now ≡ self.now.system }
    {
        self.system
    }

    /// How many ticks are done.
    pub(crate) fn ticks(&self) -> u32
        ensures { result ≡ self.now.ticks }
    {
        self.kernel.ticks()
    }

    /// Whether the run is over.
    pub(crate) fn is_over(&self) -> bool
        ensures { result ≡ is_over self.now }
    {
        self.kernel.is_over()
    }

    /// Does one tick, and leaves what the tasks are at its instruction.
    #[inline(never)]
    pub(crate) fn advance(&mut self, at: &mut AtInstruction)
        requires { is_over self.old ≡ false }
        ensures next { self.new ≡ record self.old { ticks = self.old.ticks + 1 } }
        ensures seen { at.new.tasks.items
            ≡ map (task_at self.new.system (last_tick self.new).at)
            (below (length self.new.system.tasks)) }
    {
        let executed = self.kernel.tick_seen(&mut self.ahead, &mut self.behind, at);
        replace(&mut self.execution, Execution::of(self.system, executed));
    }

    /// Does one tick, where it is known that nothing comes before the instruction of the running
    /// task. Answers false, and does nothing, where that isn't known, as in the first tick.
    #[inline(always)]
    pub(crate) fn advance_steady(&mut self) -> bool
        requires { is_over self.old ≡ false }
        ensures gone { IsTrue result → HasGoneSteadily self.old self.new }
        ensures same { IsFalse result → self.new ≡ self.old }
    {
        let Some(executed) = self.kernel.tick_steady(&mut self.behind) else {
            return false;
        };
        replace(
            &mut self.execution,
            Execution::of(self.system, Some(executed)),
        );
        self.ahead.clear();
        true
    }

    /// Does the ticks that follow at once, at most some, as long as nothing happens in them but
    /// that nobody executes. Answers how many were done. The first tick is none of these.
    pub(crate) fn pass_idle(&mut self, most: u32) -> u32
        requires { self.old.ticks + most ≤ MAX_TICKS }
        ensures { HasIdled most self.old self.new result }
    {
        let passed = self.kernel.pass_idle(most);
        if passed == 0 {
            return 0;
        }
        self.system.shows_proper();
        self.execution = Execution::of(self.system, None);
        self.ahead.clear();
        self.behind.clear();
        passed
    }

    /// Does the ticks that follow, at most some, as long as it is known that in each the running
    /// task executes a plain instruction and nothing else happens. Answers how many were done. The
    /// first tick is none of these.
    fn pass_plain(&mut self, most: u32) -> u32
        requires { self.old.ticks + most ≤ MAX_TICKS }
        ensures { StaysOn B.are_counted most self.old self.new result }
    {
        let executed = &mut self.execution.executed;
        let worked = self.kernel.pass_plain(most, &mut self.room, executed);
        if worked == 0 {
            return 0;
        }
        self.system.shows_proper();
        self.execution.ending = None;
        self.execution.refusing = None;
        self.execution.moved = false;
        self.ahead.clear();
        self.behind.clear();
        worked
    }

    /// Whether ticks may follow that [`pass_alike`](ToldRun::pass_alike) does. Where none may, none
    /// is done.
    #[inline(always)]
    pub(crate) fn may_pass(&self, is_idle: bool) -> bool {
        if is_idle {
            self.kernel.machine().core().is_quiet()
        } else {
            self.kernel.works_on()
        }
    }

    /// Does the ticks that follow, at most some, as long as the same is seen of each: while nobody
    /// executes, where nobody did last, and else while the running task executes plain
    /// instructions. Answers how many were done.
    pub(crate) fn pass_alike(&mut self, is_idle: bool, most: u32) -> u32
        requires { self.old.ticks + most ≤ MAX_TICKS }
        ensures { StaysOn B.are_counted most self.old self.new result }
    {
        if is_idle {
            self.pass_idle(most)
        } else {
            self.pass_plain(most)
        }
    }

    /// Leaves who holds each resource.
    #[inline(always)]
    pub(crate) fn see_holders(&self, holders: &mut ArrayVec<Holder, MAX_HELD>)
        ensures holders { holders.new.items ≡ holders_seen self.now.system (run_of self.now).state }
        ensures proper { IsProper self.now.system }
    {
        self.system.shows_proper();
        self.kernel.see_holders(holders);
    }

    /// Leaves who holds each resource, where it isn't known that they stand there.
    #[inline(always)]
    pub(crate) fn see_holders_once(&self, is_seen: bool, holders: &mut ArrayVec<Holder, MAX_HELD>)
        requires { is_seen ≡ true
            → holders.old.items ≡ holders_seen self.now.system (run_of self.now).state }
        ensures holders { holders.new.items ≡ holders_seen self.now.system (run_of self.now).state }
        ensures proper { IsProper self.now.system }
    {
        if is_seen {
            self.system.shows_proper();
        } else {
            self.see_holders(holders);
        }
    }

    /// Leaves the records of the tick that was done last.
    pub(crate) fn records_into(&self, records: &mut TickRecord)
        requires { 1 ≤ self.now.ticks }
        ensures { records.new
            ≡ record_at self.now.system self.now.mode self.now.arrivals (self.now.ticks - 1) }
    {
        records.clear();
        push_all(records, &self.ahead);
        records.push(event_of(self.system, &self.execution.executed));
        push_all(records, &self.behind);
    }
}

/// It becomes another, field by field: fewer bytes to copy than all at once, with the padding.
#[inline(always)]
fn replace(execution: &mut Execution, other: Execution)
    ensures { execution.new ≡ other }
{
    execution.executed = other.executed;
    execution.ending = other.ending;
    execution.refusing = other.refusing;
    execution.moved = other.moved;
}

/// The record of what a tick executed.
fn event_of(system: &System, executed: &Option<Executed>) -> TraceEvent
    requires { IfSome executed.now (StandsIn system.now) }
    ensures { result ≡ idle_or_executed system.now executed.now }
{
    match executed {
        None => TraceEvent::Idle,
        Some(executed) => executed.record_in(system),
    }
}
