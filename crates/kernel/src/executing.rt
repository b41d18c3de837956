//! OSEK/VDX OS: system services; the modelled processor. The last two phases of a tick: one
//! instruction of who executes, and a reschedule.

ghost use Rattle.std.specs.Prelude.{◌≡◌, ◌<◌, ◌∷◌, [], IfSome, Some, false, length, true};
ghost use Rattle.osek_base.specs.declared.ids.Owner.{Owner};
ghost use Rattle.osek_base.specs.declared.trace_event.TraceEvent.{TraceEvent};
ghost use Rattle.law_kept.specs.KeptService.{caller_in};
ghost use Rattle.services.specs.Calls.{calling_task};
ghost use Rattle.machine.specs.Packed.{instr_of, is_plain, needs_look, service_of};
ghost use Rattle.kernel.specs.Controls.{changes_job};
ghost use Rattle.kernel.specs.Processor.{MayFetch, picture, system_of};
ghost use Rattle.kernel.specs.Stamping.{IsTask};
ghost use Rattle.kernel.specs.Steady.{ExecutesNext};
ghost use Rattle.kernel.specs.Watches.{Begins, Finishes, IsLater, IsReady, MayBegin, MayCall, MayFinish, MayRun, WatchesWithin, executing};

use crate::blockers::Blockers;
use crate::execute_phase::{acting_task, changes_job};
use crate::next::Next;
use crate::watched::Watched;
use osek_base::{Executed, Outcome, Owner, Results, TaskId, TickRecord};
use ready_queues::ReadyQueues;

impl<'s, Q: ReadyQueues, B: Blockers> Watched<'s, Q, B> {
    /// Where a task is to execute, the stamp of its job is taken and its level noted.
    #[inline(always)]
    pub fn begin(&mut self, task: Option<TaskId>, tick: u32)
        requires may { MayBegin self.old.processor task tick }
        requires later { B.are_counted ≡ true → IsLater tick self.old.blocking.told }
        ensures { Begins B.are_counted tick self.old self.new }
    {
        self.blocking.begin(&self.processor, task, tick);
    }

    /// The task that executes next, if one does, where it may be known.
    #[inline(always)]
    pub fn executing_task(&self, first: &Option<TaskId>) -> Option<TaskId>
        requires { IfSome first.now (ExecutesNext self.now) }
        ensures { IsTask (length (system_of self.now.processor).tasks)
            (calling_task (caller_in (picture self.now.processor))) result }
    {
        match first {
            None => self.processor.executing_task(),
            Some(task) => Some(*task),
        }
    }

    /// The last two phases: who executes, the active routine or else the running task, executes one
    /// instruction, and the task that is to run becomes the running one. Where there is neither,
    /// nobody executes. `behind` gets the records behind that of the instruction.
    #[inline(always)]
    pub fn late_phases(&mut self, tick: u32, behind: &mut TickRecord) -> Option<Executed>
        requires { IsReady B.are_counted self.old behind.old }
        ensures { Finishes B.are_counted tick self.old self.new result behind.new }
    {
        match self.processor.executor() {
            None => {
                self.last_phase(tick, behind);
                None
            }
            Some(who) => Some(match who {
                Owner::Task(_) => self.finish(who, tick, behind),
                Owner::Routine(_) => self.finish_apart(who, tick, behind),
            }),
        }
    }

    /// As `late_phases`, where it may be known which task executes. Only where it isn't, a call is
    /// made.
    #[inline(always)]
    pub fn late_phases_of(
        &mut self,
        first: Option<TaskId>,
        tick: u32,
        behind: &mut TickRecord,
    ) -> Option<Executed>
        requires ready { IsReady B.are_counted self.old behind.old }
        requires first { IfSome first (λ t. MayFetch self.old.processor (Owner.Task t)) }
        ensures { Finishes B.are_counted tick self.old self.new result behind.new }
    {
        if let Some(task) = first {
            return Some(self.finish(Owner::Task(task), tick, behind));
        }
        let mut executed = None;
        self.late_apart(tick, behind, &mut executed);
        executed
    }

    /// As `late_phases`, kept out of line: a smaller tick (docs/SPEED.md). It leaves what is
    /// executed, since a local for it would be filled with zeros in each tick.
    #[inline(never)]
    pub fn late_apart(
        &mut self,
        tick: u32,
        behind: &mut TickRecord,
        executed: &mut Option<Executed>,
    )
        requires { IsReady B.are_counted self.old behind.old }
        ensures { Finishes B.are_counted tick self.old self.new executed.new behind.new }
    {
        *executed = self.late_phases(tick, behind);
    }

    /// As `finish`, kept out of line: a smaller tick (docs/SPEED.md).
    #[inline(never)]
    fn finish_apart(&mut self, who: Owner, tick: u32, behind: &mut TickRecord) -> Executed
        requires { MayFinish B.are_counted self.old who behind.old }
        ensures { Finishes B.are_counted tick self.old self.new (Some result) behind.new }
    {
        self.finish(who, tick, behind)
    }

    /// The last two phases, where somebody executes. A plain instruction and a service have each a
    /// way to the end of their own, so that most ticks wait for nothing that only services have.
    #[inline(always)]
    pub fn finish(&mut self, who: Owner, tick: u32, behind: &mut TickRecord) -> Executed
        requires { MayFinish B.are_counted self.old who behind.old }
        ensures { Finishes B.are_counted tick self.old self.new (Some result) behind.new }
    {
        let next = self.processor.next_of(&who);
        let owner = next.owner;
        let place = next.place;
        if next.packed.is_plain() {
            let outcome = self.execute_plain(next, tick, behind);
            self.last_phase(tick, behind);
            Executed {
                owner,
                place,
                outcome,
            }
        } else {
            let outcome = self.execute(next, tick, behind);
            self.last_phase(tick, behind);
            Executed {
                owner,
                place,
                outcome,
            }
        }
    }

    /// A plain instruction. It makes, releases or ends no job.
    #[inline(always)]
    fn execute_plain(&mut self, next: Next, tick: u32, behind: &TickRecord) -> Outcome
        requires may { MayRun B.are_counted self.old next behind.now }
        requires plain { is_plain (instr_of next.packed) ≡ true }
        ensures { WatchesWithin B.are_counted 2 executing tick self.old self.new []
            (TraceEvent.Executed next.owner next.place (instr_of next.packed) result ∷ behind.now) }
    {
        self.processor.execute_plain(next)
    }

    /// Who executes does a service. Some of those with a status make, release or end jobs, and no
    /// others do.
    #[inline(always)]
    fn execute(&mut self, next: Next, tick: u32, behind: &mut TickRecord) -> Outcome
        requires may { MayRun B.are_counted self.old next behind.old }
        requires service { is_plain (instr_of next.packed) ≡ false }
        ensures { WatchesWithin B.are_counted 2 executing tick self.old self.new []
            (TraceEvent.Executed next.owner next.place (instr_of next.packed) result ∷ behind.new) }
    {
        let is_told = B::are_counted() && changes_job(next.packed);
        if !is_told && next.packed.is_control() {
            self.processor.execute_control(&next, behind);
            Outcome::Control
        } else if !is_told && B::are_counted() && next.packed.needs_look() {
            self.serve(&next, tick, behind)
        } else {
            self.serve_unlooked(&next, is_told, tick, behind)
        }
    }

    /// A service of which its status tells what it does to jobs. `is_told` says whether it makes or
    /// ends one where it is answered E_OK, if blockers are counted.
    #[inline(always)]
    fn serve_unlooked(
        &mut self,
        next: &Next,
        is_told: bool,
        tick: u32,
        behind: &mut TickRecord,
    ) -> Outcome
        requires may { MayCall B.are_counted self.old next.now behind.old }
        requires unlooked { B.are_counted ≡ true
            → needs_look (service_of (instr_of next.now.packed)) ≡ false }
        requires told { B.are_counted ≡ true
            → is_told ≡ changes_job (service_of (instr_of next.now.packed)) }
        ensures { WatchesWithin B.are_counted 2 executing tick self.old self.new []
            (TraceEvent.Executed next.now.owner next.now.place (instr_of next.now.packed) result
            ∷ behind.new) }
    {
        let mut results = Results::Nothing;
        let status = self.processor.execute_service(next, &mut results, behind);
        self.blocking
            .answered(is_told, status, next.owner, next.packed, tick);
        Outcome::Answer(status, results)
    }

    /// A service that may end one job and make another, or release one, where blockers are counted:
    /// the task on which it acts is looked at before and after.
    #[inline(never)]
    fn serve(&mut self, next: &Next, tick: u32, behind: &mut TickRecord) -> Outcome
        requires { MayCall B.are_counted self.old next.now behind.old }
        ensures { WatchesWithin B.are_counted 2 executing tick self.old self.new []
            (TraceEvent.Executed next.now.owner next.now.place (instr_of next.now.packed) result
            ∷ behind.new) }
    {
        let service = next.packed.service();
        let named = acting_task(&service);
        let before = self.processor.stand(&named);
        let mut results = Results::Nothing;
        let status = self.processor.execute_service(next, &mut results, behind);
        let after = self.processor.stand(&named);
        self.blocking.executed_since(&before, &after, tick);
        Outcome::Answer(status, results)
    }
}
