//! OSEK/VDX OS: alarms; interrupt processing; task management, scheduling policy. The phases of a
//! tick round its instruction, in which the stamps follow that tell since when jobs are ready.

ghost use Rattle.std.specs.Prelude.{◌≡◌, ◌<◌, ◌≤◌, ◌+◌, IfSome, MatchOption, true, length};
ghost use Rattle.std.specs.List.{All};
ghost use Rattle.kernel.specs.Begun.{IsFirst};
ghost use Rattle.kernel.specs.Does.{Adds};
ghost use Rattle.kernel.specs.Idle.{Passes};
ghost use Rattle.kernel.specs.Processor.{picture, system_of};
ghost use Rattle.kernel.specs.Answered.{Activates};
ghost use Rattle.kernel.specs.Steady.{BeginsSteady};
ghost use Rattle.seen_ticks.specs.Told.{if_refused};
ghost use Rattle.kernel.specs.Watches.{AlarmActs, AllAct, MayActAll, MayActNow, MayStart, Starts, WatchesWithin, early, last, phase_of_alarms, rescheduling};

use crate::acted::Acted;
use crate::blockers::Blockers;
use crate::blocking::Blocking;
use crate::processor::Processor;
use alarms::DueList;
use osek_base::{AlarmId, IsrId, MAX_ALARMS, MAX_RECORDS, MAX_TICKS, Status, TaskId, TickRecord};
use ready_queues::ReadyQueues;
use std::marker::Model;

/// A processor whose jobs' stamps are followed, where blockers are counted. Contracts see both.
#[derive(Drop)]
pub struct Watched<'s, Q: ReadyQueues, B: Blockers> {
    pub processor: Processor<'s, Q>,
    pub blocking: Blocking<B>,
}

impl<'s, Q: ReadyQueues, B: Blockers> Model for Watched<'s, Q, B> {
    ghost use Rattle.kernel.specs.Watches.{IsFollowed, Watched as Seen};

    ghost Value = { Seen };

    ghost view = { λ w. record { processor = w.processor; blocking = w.blocking } };

    ghost invariant = { λ w. IsFollowed B.are_counted w.processor w.blocking };
}

impl<'s, Q: ReadyQueues, B: Blockers> Watched<'s, Q, B> {
    /// The first four phases of a tick: alarms act, interrupts arrive, the task that is to run
    /// becomes the running one, and a routine starts. `acted` becomes the alarms that were due.
    /// Answers the task that executes next, where nothing is recorded and it is known that nothing
    /// else comes before its instruction.
    #[inline(never)]
    pub fn early_phases(
        &mut self,
        tick: u32,
        arrived: &[IsrId],
        acted: &mut Acted,
        before: &mut TickRecord,
    ) -> Option<TaskId>
        requires may { MayStart B.are_counted tick self.old before.old }
        requires known { All (λ i. i < length (system_of self.old.processor).routines) arrived.now }
        ensures starts { Starts B.are_counted (MAX_ALARMS + 2) (early arrived.now) tick self.old
            self.new before.old before.new acted.new }
        ensures first { IfSome result (IsFirst self.new before.new) }
    {
        self.alarm_phase(tick, acted, before);
        self.processor.arrival_phase(arrived);
        self.reschedule(tick, before);
        self.processor.start_phase();
        if before.len() == 0 {
            self.steady_task()
        } else {
            None
        }
    }

    /// The first four phases of a tick in which no interrupt arrives, where it is known that they
    /// do nothing but begin it, and that a task executes then. Answers that task; else nothing
    /// changes.
    #[inline(always)]
    pub fn begin_steady(&mut self) -> Option<TaskId>
        ensures { MatchOption result (self.new ≡ self.old) (BeginsSteady self.old self.new) }
    {
        let task = self.steady_task()?;
        if !self.processor.core.begin_quiet() {
            return None;
        }
        Some(task)
    }

    /// The ticks that follow pass, at most some, up to the one before the first in which an alarm
    /// is due; nobody executes in them. Answers how many passed.
    pub fn pass(&mut self, most: u32) -> u32
        requires { self.old.processor.objects.tick + most < MAX_TICKS }
        ensures { Passes most result self.old self.new }
    {
        let passed = self.processor.core.pass(most);
        if 0 < passed {
            self.blocking.rest();
        }
        passed
    }

    /// Counters advance, and the due alarms act in declaration order. In the first tick the
    /// counters stand, and none is due.
    #[inline(always)]
    fn alarm_phase(&mut self, tick: u32, acted: &mut Acted, records: &mut TickRecord)
        requires { MayStart B.are_counted tick self.old records.old }
        ensures { Starts B.are_counted MAX_ALARMS phase_of_alarms tick self.old self.new records.old
            records.new acted.new }
    {
        if 0 < tick {
            self.processor.advance(&mut acted.due);
            acted.refused.clear();
            self.alarms_act(&acted.due, tick, &mut acted.refused, records);
        } else {
            acted.due.clear();
            acted.refused.clear();
        }
    }

    /// Some alarms act in turn. Those whose action is refused are added to `refused`.
    #[inline(always)]
    pub fn alarms_act(
        &mut self,
        due: &DueList,
        tick: u32,
        refused: &mut DueList,
        records: &mut TickRecord,
    )
        requires { MayActAll B.are_counted due.now self.old refused.old records.old }
        ensures { AllAct B.are_counted due.now tick self.old self.new refused.new records.new }
    {
        for number in 0..due.len() {
            let alarm = due.at(number);
            let status = self.alarm_acts(alarm, tick, records);
            note_refusal(refused, alarm, status);
        }
    }

    /// An alarm acts, and the stamps follow. Answers the status of its action.
    #[inline(always)]
    pub fn alarm_acts(&mut self, alarm: AlarmId, tick: u32, records: &mut TickRecord) -> Status
        requires { MayActNow B.are_counted alarm self.old records.old }
        ensures { AlarmActs B.are_counted alarm tick self.old self.new records.old records.new
            result }
    {
        match self.processor.activated_by(alarm) {
            None => self.alarm_looked(alarm, tick, records),
            Some(task) => self.alarm_activates(alarm, task, tick, records),
        }
    }

    /// An alarm activates a task. Its status tells whether the task has a job more.
    #[inline(always)]
    fn alarm_activates(
        &mut self,
        alarm: AlarmId,
        task: TaskId,
        tick: u32,
        records: &mut TickRecord,
    ) -> Status
        requires may { MayActNow B.are_counted alarm self.old records.old }
        requires task { Activates (system_of self.old.processor) alarm task }
        ensures { AlarmActs B.are_counted alarm tick self.old self.new records.old records.new
            result }
    {
        let status = self.processor.alarm_acts(alarm, records);
        self.blocking.activated(status, task, tick);
        status
    }

    /// An alarm acts, and the task on which it acts is looked at before and after.
    #[inline(always)]
    fn alarm_looked(&mut self, alarm: AlarmId, tick: u32, records: &mut TickRecord) -> Status
        requires { MayActNow B.are_counted alarm self.old records.old }
        ensures { AlarmActs B.are_counted alarm tick self.old self.new records.old records.new
            result }
    {
        let task = self.processor.acted_on(alarm);
        let before = self.processor.look(task);
        let status = self.processor.alarm_acts(alarm, records);
        self.blocking
            .restamp(&before, &self.processor.look(task), tick);
        status
    }

    /// The task that is to run becomes the running one; the one that ran is ready again.
    #[inline(always)]
    pub fn reschedule(&mut self, tick: u32, records: &mut TickRecord)
        requires { length records.old + 2 ≤ MAX_RECORDS }
        ensures { WatchesWithin B.are_counted (length records.old + 2) rescheduling tick self.old
            self.new records.old records.new }
    {
        if !self.processor.is_dispatched() {
            self.reschedule_now(tick, records);
        }
    }

    /// As `reschedule`, also where it is known to change nothing.
    #[inline(always)]
    fn reschedule_now(&mut self, tick: u32, records: &mut TickRecord)
        requires { length records.old + 2 ≤ MAX_RECORDS }
        ensures { WatchesWithin B.are_counted (length records.old + 2) rescheduling tick self.old
            self.new records.old records.new }
    {
        let runner = self.processor.reschedule(records);
        self.blocking
            .preempted(runner, &self.processor.running(), tick);
    }

    /// As `reschedule_now`, kept out of line: a smaller tick (docs/SPEED.md).
    #[inline(never)]
    fn reschedule_apart(&mut self, tick: u32, records: &mut TickRecord)
        requires { length records.old + 2 ≤ MAX_RECORDS }
        ensures { WatchesWithin B.are_counted (length records.old + 2) rescheduling tick self.old
            self.new records.old records.new }
    {
        self.reschedule_now(tick, records);
    }

    /// The task that is to run becomes the running one, which is left out after ShutdownOS.
    #[inline(always)]
    pub fn last_phase(&mut self, tick: u32, records: &mut TickRecord)
        requires { length records.old + 2 ≤ MAX_RECORDS }
        ensures { WatchesWithin B.are_counted (length records.old + 2) last tick self.old self.new
            records.old records.new }
    {
        if !self.processor.is_dispatched() && !self.processor.is_over() {
            self.reschedule_apart(tick, records);
        }
    }
}

/// Adds an alarm whose action was refused.
#[inline(always)]
fn note_refusal(refused: &mut DueList, alarm: AlarmId, status: Status)
    requires { length refused.old < MAX_ALARMS }
    ensures { Adds (if_refused alarm status) refused.old refused.new }
{
    if status != Status::Ok {
        refused.push(alarm);
    }
}
