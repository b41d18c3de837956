//! What is seen of the tick that a run did last, put together.

ghost use Rattle.std.specs.Prelude.{◌≡◌, ◌-◌, ◌≤◌, true, map, length};
ghost use Rattle.std.specs.Option.{option_map};
ghost use Rattle.osek_base.specs.BlockingText.{blockers_at};
ghost use Rattle.osek_base.specs.Lists.{below};
ghost use Rattle.kernel.specs.Stamping.{IsNumber};
ghost use Rattle.seen_runs.specs.Keeping.{AreStanding, IsBefore, coming, last_tick};
ghost use Rattle.seen_runs.specs.Passing.{IsUnanswered, LeavesAll};
ghost use Rattle.seen_runs.specs.Resting.{AreAtRest, IsRest};
ghost use Rattle.seen_runs.specs.Tasks.{MakesNone};
ghost use Rattle.seen_ticks.specs.Told.{task_at};
ghost use Rattle.seen_ticks.specs.Observed.{
  IsObserved,
  alarm_seen,
  answered,
  failure_of,
  holders_seen,
  owner_of,
  routine_seen,
};

use crate::before::Before;
use crate::told_run::ToldRun;
use arrayvec::ArrayVec;
use kernel::{AtInstruction, Blockers};
use osek_base::{MAX_ALARMS, MAX_ROUTINES};
use seen_ticks::{AlarmSeen, Observation, RoutineSeen, answered, executor, failure};

impl<'s, B: Blockers> ToldRun<'s, B> {
    /// Leaves who executed in the tick that was done last, and how that went.
    #[inline(always)]
    fn see_executed(&self, seen: &mut Observation)
        requires { 1 ≤ self.now.ticks }
        ensures routines { seen.new.routines ≡ seen.old.routines }
        ensures holders { seen.new.holders ≡ seen.old.holders }
        ensures alarms { seen.new.alarms ≡ seen.old.alarms }
        ensures number { seen.new.tick ≡ self.now.ticks - 1 }
        ensures executor { seen.new.executor ≡ option_map owner_of (last_tick self.now).executed }
        ensures answered { seen.new.answered ≡ answered (last_tick self.now).executed }
        ensures failure { seen.new.failure ≡ failure_of (last_tick self.now).executed }
        ensures blockers { IsNumber B.are_counted
            (blockers_at self.now.system self.now.mode self.now.arrivals (self.now.ticks - 1))
            seen.new.blockers }
    {
        seen.tick = self.ticks() - 1;
        let executed = self.executed();
        seen.executor = executor(&executed);
        seen.answered = answered(&executed);
        seen.failure = failure(&executed);
        seen.blockers = self.kernel.blockers();
    }

    /// As [`see_executed`](ToldRun::see_executed) of a tick that is answered nothing.
    #[inline(always)]
    fn see_unanswered(&self, seen: &mut Observation)
        requires ticked { 1 ≤ self.now.ticks }
        requires none { IsUnanswered self.now }
        ensures routines { seen.new.routines ≡ seen.old.routines }
        ensures holders { seen.new.holders ≡ seen.old.holders }
        ensures alarms { seen.new.alarms ≡ seen.old.alarms }
        ensures number { seen.new.tick ≡ self.now.ticks - 1 }
        ensures executor { seen.new.executor ≡ option_map owner_of (last_tick self.now).executed }
        ensures answered { seen.new.answered ≡ answered (last_tick self.now).executed }
        ensures failure { seen.new.failure ≡ failure_of (last_tick self.now).executed }
        ensures blockers { IsNumber B.are_counted
            (blockers_at self.now.system self.now.mode self.now.arrivals (self.now.ticks - 1))
            seen.new.blockers }
    {
        seen.tick = self.ticks() - 1;
        seen.executor = executor(&self.executed());
        seen.answered = None;
        seen.failure = None;
        seen.blockers = self.kernel.blockers();
    }

    /// Leaves what is seen of the tick that was done last, by what the tasks were at its
    /// instruction, and by what was known before it. Its holders stand already. What the tasks are
    /// behind it and what is known before the next tick is left, too.
    #[inline(never)]
    pub(crate) fn see(&self, at: &mut AtInstruction, before: &mut Before, seen: &mut Observation)
        requires ticked { 1 ≤ self.now.ticks }
        requires each { at.old.tasks.items
            ≡ map (task_at self.now.system (last_tick self.now).at)
            (below (length self.now.system.tasks)) }
        requires known { IsBefore self.now.system (last_tick self.now) before.old }
        requires holders { seen.old.holders.items
            ≡ holders_seen self.now.system (last_tick self.now).at }
        ensures seen { IsObserved B.are_counted self.now.system self.now.mode self.now.arrivals
            (self.now.ticks - 1) seen.new }
        ensures next { IsBefore self.now.system (coming self.now) before.new }
        ensures each { AreStanding self.now at.new }
    {
        self.see_executed(seen);
        let stand = self.leaves_tasks();
        self.see_tasks(at, &mut before.jobs, stand, &mut seen.tasks);
        self.see_routines(&before.active, &mut before.pending, &mut seen.routines);
        self.see_alarms(&mut seen.alarms);
        before.active = self.kernel.active_routine();
    }

    /// As [`see`](ToldRun::see) of a tick in which nothing comes to a routine or an alarm, and
    /// before whose instruction no job is made, where it is known whether what is seen of routines
    /// and alarms stands already. Where blockers are counted it may be one of a plain instruction,
    /// in which nothing comes to any task; where they aren't, such ticks pass at once.
    #[inline(always)]
    pub(crate) fn see_steady(
        &self,
        rests: bool,
        at: &mut AtInstruction,
        before: &mut Before,
        seen: &mut Observation,
    )
        requires ticked { 1 ≤ self.now.ticks }
        requires rest { IsRest (last_tick self.now) }
        requires each { at.old.tasks.items
            ≡ map (task_at self.now.system (last_tick self.now).at)
            (below (length self.now.system.tasks)) }
        requires known { IsBefore self.now.system (last_tick self.now) before.old }
        requires none_made { MakesNone self.now.system (last_tick self.now) }
        requires holders { seen.old.holders.items
            ≡ holders_seen self.now.system (last_tick self.now).at }
        requires resting { rests ≡ true
            → AreAtRest self.now.system (last_tick self.now).at.pending seen.old }
        ensures seen { IsObserved B.are_counted self.now.system self.now.mode self.now.arrivals
            (self.now.ticks - 1) seen.new }
        ensures next { IsBefore self.now.system (coming self.now) before.new }
        ensures each { AreStanding self.now at.new }
    {
        before.active = self.kernel.active_routine();
        if B::are_counted() && self.leaves_tasks() {
            self.see_alike(rests, at, seen);
            return;
        }
        self.see_executed(seen);
        self.see_tasks(at, &mut before.jobs, false, &mut seen.tasks);
        self.see_rest(rests, &mut seen.routines, &mut seen.alarms);
    }

    /// Leaves what is seen of the tick that was done last, in which nothing comes to anything, and
    /// that is answered nothing, by what the tasks are behind it, where it is known whether what is
    /// seen of routines and alarms stands already. Its holders do.
    #[inline(always)]
    pub(crate) fn see_alike(&self, rests: bool, at: &AtInstruction, seen: &mut Observation)
        requires ticked { 1 ≤ self.now.ticks }
        requires each { at.now.tasks.items
            ≡ map (task_at self.now.system (last_tick self.now).after)
            (below (length self.now.system.tasks)) }
        requires leaves { LeavesAll self.now.system (last_tick self.now) }
        requires none { IsUnanswered self.now }
        requires holders { seen.old.holders.items
            ≡ holders_seen self.now.system (last_tick self.now).at }
        requires resting { rests ≡ true
            → AreAtRest self.now.system (last_tick self.now).at.pending seen.old }
        ensures { IsObserved B.are_counted self.now.system self.now.mode self.now.arrivals
            (self.now.ticks - 1) seen.new }
    {
        self.see_unanswered(seen);
        self.see_tasks_left(at, &mut seen.tasks);
        self.see_rest(rests, &mut seen.routines, &mut seen.alarms);
    }

    /// Leaves what is seen of routines and alarms in the tick that was done last, in which nothing
    /// comes to any, where it isn't known that it stands there.
    #[inline(always)]
    fn see_rest(
        &self,
        rests: bool,
        routines: &mut ArrayVec<RoutineSeen, MAX_ROUTINES>,
        alarms: &mut ArrayVec<AlarmSeen, MAX_ALARMS>,
    )
        requires ticked { 1 ≤ self.now.ticks }
        requires rest { IsRest (last_tick self.now) }
        requires routines { rests ≡ true → routines.old.items
            ≡ map (routine_seen (last_tick self.now)) (below (length self.now.system.routines)) }
        requires alarms { rests ≡ true → alarms.old.items
            ≡ map (alarm_seen (last_tick self.now)) (below (length self.now.system.alarms)) }
        ensures routines { routines.new.items
            ≡ map (routine_seen (last_tick self.now)) (below (length self.now.system.routines)) }
        ensures alarms { alarms.new.items
            ≡ map (alarm_seen (last_tick self.now)) (below (length self.now.system.alarms)) }
    {
        if !rests {
            self.see_rest_anew(routines, alarms);
        }
    }

    /// As [`see_rest`](ToldRun::see_rest), where nothing is known.
    #[inline(never)]
    fn see_rest_anew(
        &self,
        routines: &mut ArrayVec<RoutineSeen, MAX_ROUTINES>,
        alarms: &mut ArrayVec<AlarmSeen, MAX_ALARMS>,
    )
        requires ticked { 1 ≤ self.now.ticks }
        requires rest { IsRest (last_tick self.now) }
        ensures routines { routines.new.items
            ≡ map (routine_seen (last_tick self.now)) (below (length self.now.system.routines)) }
        ensures alarms { alarms.new.items
            ≡ map (alarm_seen (last_tick self.now)) (below (length self.now.system.alarms)) }
    {
        self.see_routines_at_rest(routines);
        self.see_alarms_at_rest(alarms);
    }
}
