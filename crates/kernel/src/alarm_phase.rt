//! OSEK/VDX OS: alarms; error handling, ErrorHook. Counters advance, and an alarm that is due acts.

ghost use Rattle.std.specs.Prelude.{◌<◌, ◌+◌, length};
ghost use Rattle.osek_base.specs.Tick.{error_record};
ghost use Rattle.kernel.specs.Processor.{AlarmMayAct};
ghost use Rattle.kernel.specs.Does.{Adds, Advances};
ghost use Rattle.kernel.specs.Told.{Acts};

use crate::processor::Processor;
use alarms::DueList;
use osek_base::{
    Action, AlarmId, Instr, MAX_RECORDS, MAX_TICKS, Service, Source, Status, System, TickRecord,
    TraceEvent,
};
use ready_queues::ReadyQueues;

impl<'s, Q: ReadyQueues> Processor<'s, Q> {
    /// The next tick begins, and the alarms that are due in it expire. The content of `due` becomes
    /// these alarms, in declaration order.
    #[inline(always)]
    pub fn advance(&mut self, due: &mut DueList)
        requires { self.old.objects.tick + 1 < MAX_TICKS }
        ensures { Advances self.old self.new due.new }
    {
        self.core.advance(due);
    }

    /// An alarm acts: it activates a task, or sets events. A refusal is an error record of the
    /// alarm, and changes nothing. Answers the status of its action.
    #[inline(always)]
    pub fn alarm_acts(&mut self, alarm: AlarmId, records: &mut TickRecord) -> Status
        requires { AlarmMayAct alarm self.old records.old }
        ensures { Acts alarm self.old self.new records.old records.new result }
    {
        let source = Source::Alarm(alarm);
        match self.system.action_of(alarm) {
            Action::ActivateTask(task) => {
                let status = self.core.activate(task);
                let instr = Instr::Service(Service::ActivateTask(Some(task)));
                record_error(self.system, source, instr, status, records);
                status
            }
            Action::SetEvent(task, mask) => {
                let status = self.core.set_event(task, mask);
                let instr = Instr::Service(Service::SetEvent(Some(task), mask));
                record_error(self.system, source, instr, status, records);
                status
            }
        }
    }
}

/// Records a status other than E_OK, where ErrorHook is on.
pub fn record_error(
    system: &System,
    source: Source,
    instr: Instr,
    status: Status,
    records: &mut TickRecord,
)
    requires { length records.old < MAX_RECORDS }
    ensures { Adds (error_record system.now source instr status) records.old records.new }
{
    if status != Status::Ok && system.hooks().error {
        records.push(TraceEvent::Error(source, instr, status));
    }
}
