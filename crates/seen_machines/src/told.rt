//! What is known of the tick that a machine did last, beside what the machine tells.

ghost use Rattle.std.specs.Prelude.{◌≡◌, ◌<◌, ◌+◌, false, length};
ghost use Rattle.std.specs.List.{All};
ghost use Rattle.law_kept.specs.KeptTick.{tick_in};
ghost use Rattle.kernel.specs.Machine.{IsOfRun, next_tick, picture, system_of};
ghost use Rattle.kernel.specs.Told.{acted_in};
ghost use Rattle.law_seen.specs.Shown.{ticked_in};
ghost use Rattle.seen_machines.specs.Told.{IsTold, jobs_told, pending_told, task_at_told};

use crate::before::Before;
use crate::readers::system;
use kernel::{AtInstruction, Blockers, Machine};
use osek_base::{IsrId, MAX_TICKS, TaskId, TickRecord};
use ready_queues::ReadyQueues;
use seen_ticks::{Execution, TaskAt};

/// What is known of the tick that a machine did last.
#[derive(Drop)]
pub(crate) struct Told {
    pub(crate) before: Before,
    /// What the tasks were when the instruction was executed.
    pub(crate) at: AtInstruction,
    pub(crate) execution: Execution,
    /// Room for the records before that of the instruction, and for those behind it.
    records: TickRecord,
    behind: TickRecord,
}

impl Told {
    /// Nothing yet.
    pub(crate) fn new() -> Self {
        Told {
            before: Before::new(),
            at: AtInstruction::new(),
            execution: Execution::nothing(),
            records: TickRecord::new(),
            behind: TickRecord::new(),
        }
    }

    /// Does one tick of a machine in which the interrupts of some routines arrive.
    pub(crate) fn tick<Q: ReadyQueues, B: Blockers>(
        &mut self,
        machine: &mut Machine<'_, Q, B>,
        arrived: &[IsrId],
    )
        requires on { (picture machine.old).over ≡ false }
        requires limit { next_tick machine.old < MAX_TICKS }
        requires known { All (λ i. i < length (system_of machine.old).routines) arrived.now }
        ensures system { system_of machine.new ≡ system_of machine.old }
        ensures after { picture machine.new
            ≡ (tick_in (system_of machine.old) arrived.now (picture machine.old)).after }
        ensures next { next_tick machine.new ≡ next_tick machine.old + 1 }
        ensures was_of_run { IsOfRun B.are_counted machine.old }
        ensures of_run { IsOfRun B.are_counted machine.new }
        ensures acted { machine.new.acted
            ≡ acted_in (system_of machine.old) (picture machine.old) }
        ensures told { IsTold (system_of machine.old)
            (ticked_in (system_of machine.old) false arrived.now (picture machine.old)) self.new }
    {
        self.before.note(machine);
        let executed = machine.tick_seen(
            arrived,
            &mut self.records,
            &mut self.behind,
            &mut self.at,
        );
        self.execution = Execution::of(system(machine), executed);
    }

    /// What a task was when the instruction was executed.
    pub(crate) fn task_at(&self, task: TaskId) -> TaskAt
        requires { task < length self.now.at.tasks.items }
        ensures { result ≡ task_at_told self.now task }
    {
        self.at.tasks[task.number() as usize]
    }

    /// How many jobs a task had before the tick.
    pub(crate) fn jobs_before(&self, task: TaskId) -> u8
        requires { task < length self.now.before.jobs.items }
        ensures { result ≡ jobs_told self.now task }
    {
        self.before.jobs[task.number() as usize]
    }

    /// Whether a routine was pending before the tick.
    pub(crate) fn was_pending(&self, routine: IsrId) -> bool
        requires { routine < length self.now.before.pending.items }
        ensures { result ≡ pending_told self.now routine }
    {
        self.before.pending[routine.number() as usize]
    }
}
