//! What is seen of a machine's ticks, one at a time.

ghost use Rattle.std.specs.Prelude.{◌≡◌, ◌<◌, ◌≤◌, ◌+◌, false, map, length};
ghost use Rattle.std.specs.List.{All, AllByRecursion};
ghost use Rattle.std.specs.Option.{option_map};
ghost use Rattle.osek_base.specs.Lists.{below};
ghost use Rattle.law_kept.specs.KeptTick.{tick_in};
ghost use Rattle.kernel.specs.Machine.{IsOfRun, next_tick, picture, system_of};
ghost use Rattle.seen_ticks.specs.Seen.{seen_of};
ghost use Rattle.seen_ticks.specs.Observed.{answered, failure_of, owner_of};
ghost use Rattle.law_seen.specs.Seen.{answered_in, executor_in, failure_in, seen_in};
ghost use Rattle.seen_machines.specs.Told.{IsOfAll, alarm_seen_by, routine_seen_by, task_seen_by};

use crate::alarms_seen::see_alarms;
use crate::holders_seen::see_holders;
use crate::told::Told;
use kernel::{Blockers, Machine};
use osek_base::{IsrId, MAX_ARRIVALS, MAX_ROUTINES, MAX_TICKS};
use ready_queues::ReadyQueues;
use seen_ticks::{Observation, answered, executor, failure};
use std::marker::Model;

/// What is seen of the ticks of machines, one at a time. Contracts see what is seen of the tick
/// that was done last.
#[derive(Drop)]
pub struct Watcher {
    told: Told,
    seen: Observation,
}

impl Model for Watcher {
    ghost use Rattle.seen_ticks.specs.declared.observation.Observation.{Observation as Seen};

    ghost Value = { Seen };

    ghost view = { λ w. w.seen };
}

impl Told {
    /// Leaves what is seen of the tick that a machine did last, in which some routines' interrupts
    /// arrived. The number of the tick and the holders stand already; blockers aren't told.
    fn see<Q: ReadyQueues, B: Blockers>(
        &self,
        machine: &Machine<'_, Q, B>,
        arrived: &[IsrId],
        seen: &mut Observation,
    )
        requires all { IsOfAll (system_of machine.now) self.now }
        requires refused { AllByRecursion (λ a. a < length (system_of machine.now).alarms)
            machine.now.acted.refused }
        requires few { length arrived.now ≤ MAX_ARRIVALS }
        ensures executor { seen.new.executor ≡ option_map owner_of self.now.execution.executed }
        ensures answered { seen.new.answered ≡ answered self.now.execution.executed }
        ensures failure { seen.new.failure ≡ failure_of self.now.execution.executed }
        ensures tasks { seen.new.tasks.items
            ≡ map (task_seen_by (system_of machine.now) self.now (picture machine.now)
            machine.now.acted) (below (length (system_of machine.now).tasks)) }
        ensures routines { seen.new.routines.items
            ≡ map (routine_seen_by self.now (picture machine.now) arrived.now)
            (below (length (system_of machine.now).routines)) }
        ensures holders { seen.new.holders.items ≡ seen.old.holders.items }
        ensures alarms { seen.new.alarms.items
            ≡ map (alarm_seen_by machine.now.acted)
            (below (length (system_of machine.now).alarms)) }
    {
        seen.executor = executor(&self.execution.executed);
        seen.answered = answered(&self.execution.executed);
        seen.failure = failure(&self.execution.executed);
        self.see_tasks(machine, &mut seen.tasks);
        self.see_routines(machine, arrived, &mut seen.routines);
        see_alarms(machine, &mut seen.alarms);
    }
}

impl Watcher {
    /// No tick is seen yet.
    pub fn new() -> Self {
        Watcher {
            told: Told::new(),
            seen: Observation::new(),
        }
    }

    /// Does one tick of a machine in which the interrupts of some routines arrive, and leaves what
    /// is seen of it. Jobs that the machine's boot made count as made before its first tick. It
    /// takes no memory and never fails.
    pub fn tick<Q: ReadyQueues, B: Blockers>(
        &mut self,
        machine: &mut Machine<'_, Q, B>,
        arrived: &[IsrId],
    )
        requires on { (picture machine.old).over ≡ false }
        requires limit { next_tick machine.old < MAX_TICKS }
        requires known { All (λ i. i < length (system_of machine.old).routines) arrived.now }
        requires few { length arrived.now ≤ MAX_ROUTINES }
        ensures system { system_of machine.new ≡ system_of machine.old }
        ensures after { picture machine.new
            ≡ (tick_in (system_of machine.old) arrived.now (picture machine.old)).after }
        ensures next { next_tick machine.new ≡ next_tick machine.old + 1 }
        ensures of_run { IsOfRun B.are_counted machine.new }
        ensures seen { seen_of self.new
            ≡ seen_in (system_of machine.old) arrived.now (picture machine.old) }
        ensures executor { self.new.executor
            ≡ executor_in (system_of machine.old) arrived.now (picture machine.old) }
        ensures answered { self.new.answered
            ≡ answered_in (system_of machine.old) arrived.now (picture machine.old) }
        ensures failure { self.new.failure
            ≡ failure_in (system_of machine.old) arrived.now (picture machine.old) }
    {
        self.seen.tick = machine.next_tick();
        see_holders(machine, &mut self.seen.holders);
        self.told.tick(machine, arrived);
        self.told.see(machine, arrived, &mut self.seen);
    }

    /// What is seen of the tick that was done last. The number of blockers isn't told.
    pub fn seen(&self) -> &Observation
        ensures { result.now ≡ self.now }
    {
        &self.seen
    }
}
