//! A run that is observed.

ghost use Rattle.std.specs.Prelude.{◌≡◌, ◌+◌, ◌-◌, ◌≤◌, [], not, map, length, IsTrue, IsFalse, Some, IfOk};
ghost use Rattle.std.specs.Option.{option_map};
ghost use Rattle.osek_base.specs.Names.{number_of};
ghost use Rattle.kernel.specs.declared.boot.BootFault.{BootFault};
ghost use Rattle.kernel.specs.Progress.{AreKnown, is_over};
ghost use Rattle.law_blockers.specs.Steps.{record_at, step_at};
ghost use Rattle.seen_runs.specs.Passing.{PassesAlike};
ghost use Rattle.seen_ticks.specs.Observed.{IsObserved};

use crate::before::Before;
use crate::told_run::ToldRun;
use kernel::{AtInstruction, Blockers, BootFault};
use osek_base::{Arrivals, MAX_TICKS, System, TickRecord};
use seen_ticks::Observation;
use std::alloc::Global;
use std::cmp;
use std::marker::Model;

/// A run of a system, tick by tick, beside what is seen of the tick that was done last. `B` says
/// whether the blockers of jobs are counted.
#[derive(Drop)]
pub struct ObservedRun<'s, B: Blockers> {
    told: ToldRun<'s, B>,
    /// What is known before the tick that comes next.
    before: Before,
    /// What the tasks are behind the last tick, and room for what they are at the next one's
    /// instruction.
    at: AtInstruction,
    seen: Observation,
    /// Whether the holders that are seen are those before the tick that comes next, too.
    is_held: bool,
    /// Whether what is seen of routines and alarms is what is seen in each tick in which nothing
    /// comes to any of them.
    rests: bool,
}

impl<'s, B: Blockers> Model for ObservedRun<'s, B> {
    ghost use Rattle.kernel.specs.Progress.{Progress};
    ghost use Rattle.seen_runs.specs.Keeping.{IsObservedRun};

    ghost Value = { Progress };

    ghost view = { λ r. r.told };

    ghost invariant = { λ r. IsObservedRun B.are_counted r.told r.before r.at r.seen r.is_held
        r.rests };
}

impl<'s, B: Blockers> ObservedRun<'s, B> {
    /// Boots a system in the application mode of that name, with those arrivals. Memory is taken
    /// here alone.
    pub fn boot(
        alloc: Global,
        system: &'s System,
        mode: &str,
        arrivals: Arrivals,
    ) -> Result<Self, BootFault>
        requires { AreKnown system.now arrivals }
        ensures booted { IfOk result
            (λ r. (r.system ≡ system.now) × (r.arrivals ≡ arrivals) × (r.ticks ≡ 0)
            × (number_of mode.now system.now.names.modes ≡ Some r.mode)) }
        ensures unknown { result ≡ Err BootFault.UnknownMode
            → number_of mode.now system.now.names.modes ≡ None }
    {
        let told = ToldRun::boot(alloc, system, mode, arrivals)?;
        let before = told.known();
        Ok(ObservedRun {
            told,
            before,
            at: AtInstruction::new(),
            seen: Observation::new(),
            is_held: false,
            rests: false,
        })
    }

    /// Does a tick, and sees what comes in it. Answers false, and does nothing, where the run is
    /// over: after a ShutdownOS, or when [`MAX_TICKS`](osek_base::MAX_TICKS) are done. It takes no
    /// memory.
    pub fn advance(&mut self) -> bool
        ensures over { result ≡ not (is_over self.old) }
        ensures next { IsTrue result → self.new ≡ record self.old { ticks = self.old.ticks + 1 } }
        ensures stays { IsFalse result → self.new ≡ self.old }
    {
        if self.told.is_over() {
            return false;
        }
        self.told
            .see_holders_once(self.is_held, &mut self.seen.holders);
        if self.told.advance_steady() {
            self.told
                .see_steady(self.rests, &mut self.at, &mut self.before, &mut self.seen);
            self.is_held = !self.told.is_any_moved();
            self.rests = true;
            return true;
        }
        self.told.advance(&mut self.at);
        self.told
            .see(&mut self.at, &mut self.before, &mut self.seen);
        self.is_held = !self.told.is_any_moved();
        self.rests = false;
        true
    }

    /// Does the ticks that follow, at most some, as long as the same is seen of each, and sees the
    /// last of them: of the others the same is seen, but for the number. Such are ticks in which
    /// nobody executes, and those in which the running task executes plain instructions, where
    /// nothing else happens. Answers how many were done. The first tick is none of these.
    #[inline(always)]
    pub fn pass_alike(&mut self, most: u32) -> u32
        ensures { PassesAlike B.are_counted most self.old self.new result }
    {
        if self.told.may_pass(self.seen.executor.is_none()) {
            self.pass_some(most)
        } else {
            0
        }
    }

    /// As [`pass_alike`](ObservedRun::pass_alike).
    #[inline(never)]
    fn pass_some(&mut self, most: u32) -> u32
        ensures { PassesAlike B.are_counted most self.old self.new result }
    {
        if self.told.is_over() {
            return 0;
        }
        let left = MAX_TICKS - self.told.ticks();
        let is_idle = self.seen.executor.is_none();
        let passed = self.told.pass_alike(is_idle, cmp::min(most, left));
        if passed == 0 {
            return 0;
        }
        self.told
            .see_holders_once(self.is_held, &mut self.seen.holders);
        self.told.see_alike(self.rests, &self.at, &mut self.seen);
        self.rests = true;
        self.is_held = true;
        passed
    }

    /// What is seen of the tick that was done last; nothing before the first.
    pub fn observation(&self) -> &Observation
        ensures { 1 ≤ self.now.ticks
            → IsObserved B.are_counted self.now.system self.now.mode self.now.arrivals
            (self.now.ticks - 1) result.now }
    {
        &self.seen
    }

    /// Leaves the records of the tick that was done last; none before the first.
    pub fn records_into(&self, records: &mut TickRecord)
        ensures none { self.now.ticks ≡ 0 → records.new ≡ [] }
        ensures done { 1 ≤ self.now.ticks
            → records.new
            ≡ record_at self.now.system self.now.mode self.now.arrivals (self.now.ticks - 1) }
    {
        if self.told.ticks() == 0 {
            records.clear();
        } else {
            self.told.records_into(records);
        }
    }

    /// How many ticks are done.
    pub fn ticks_done(&self) -> u32
        ensures { result ≡ self.now.ticks }
    {
        self.told.ticks()
    }
}
