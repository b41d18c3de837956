//! OSEK/VDX OS: alarms. SetRelAlarm, SetAbsAlarm, CancelAlarm, GetAlarm and GetAlarmBase.

ghost use Rattle.std.specs.Prelude.{◌≡◌, ◌<◌, ◌+◌, Some, length};
ghost use Rattle.osek_base.specs.declared.instr.Service.{Service};
ghost use Rattle.osek_base.specs.declared.status.Status.{Status};
ghost use Rattle.osek_base.specs.declared.trace_event.Results.{Results};
ghost use Rattle.osek_base.specs.System.{counter_of};
ghost use Rattle.services.specs.Steps.{Advances, Serves, Tells};

use crate::calls::Answer;
use crate::objects::Objects;
use alarms::DueList;
use osek_base::{AlarmId, MAX_TICKS, Results, Status};
use ready_queues::ReadyQueues;

impl<'s, Q: ReadyQueues> Objects<'s, Q> {
    /// An alarm expires `increment` counts from now, and each `cycle` counts after that, 0 for once. E_OS_STATE where it is
    /// on, E_OS_VALUE where a number is out of the counter's range.
    #[tactic(auto, unfolding(law_kept::specs::KeptService::unasked_in))]
    pub fn set_rel_alarm(&mut self, alarm: AlarmId, increment: u32, cycle: u32) -> Status
        requires alarm { alarm < length self.old.system.alarms }
        ensures { Serves (Service.SetRelAlarm (Some alarm) increment cycle) self.old self.new
            result }
    {
        self.alarms.set_rel(self.system, alarm, increment, cycle)
    }

    /// An alarm expires when its counter next has the value `start`, and each `cycle` counts after that, 0 for once.
    /// E_OS_STATE where it is on, E_OS_VALUE where a number is out of the counter's range.
    #[tactic(auto, unfolding(law_kept::specs::KeptService::unasked_in))]
    pub fn set_abs_alarm(&mut self, alarm: AlarmId, start: u32, cycle: u32) -> Status
        requires alarm { alarm < length self.old.system.alarms }
        ensures { Serves (Service.SetAbsAlarm (Some alarm) start cycle) self.old self.new result }
    {
        self.alarms.set_abs(self.system, alarm, start, cycle)
    }

    /// An alarm goes off. E_OS_NOFUNC where it is off.
    #[tactic(auto, unfolding(law_kept::specs::KeptService::unasked_in))]
    pub fn cancel_alarm(&mut self, alarm: AlarmId) -> Status
        requires alarm { alarm < length self.old.system.alarms }
        ensures { Serves (Service.CancelAlarm (Some alarm)) self.old self.new result }
    {
        self.alarms.cancel(alarm)
    }

    /// How many counts an alarm has before it expires. E_OS_NOFUNC where it is off.
    #[tactic(auto, unfolding(law_kept::specs::KeptService::unasked_in))]
    #[inline(always)]
    pub fn get_alarm(&self, alarm: AlarmId) -> Answer
        requires alarm { alarm < length self.now.system.alarms }
        ensures { Tells (Service.GetAlarm (Some alarm)) self.now result }
    {
        match self.alarms.remaining(self.system, alarm) {
            None => Answer::plain(Status::NoFunc),
            Some(counts) => Answer::one(counts),
        }
    }

    /// The MAXALLOWEDVALUE, TICKSPERBASE and MINCYCLE of an alarm's counter.
    #[inline(always)]
    pub fn get_alarm_base(&self, alarm: AlarmId) -> Answer
        requires { alarm < length self.now.system.alarms }
        ensures status { result.status ≡ Status.Ok }
        ensures results { result.results
            ≡ Results.Three (counter_of self.now.system alarm).max_allowed_value
            (counter_of self.now.system alarm).ticks_per_base
            (counter_of self.now.system alarm).min_cycle }
    {
        let base = self.system.counter_of(alarm);
        Answer::of(Results::Three(base.max_allowed_value, base.ticks_per_base, base.min_cycle))
    }

    /// The next tick begins, and the alarms that are due in it expire. The content of `due` becomes these alarms, in
    /// declaration order.
    #[inline(always)]
    pub fn advance(&mut self, due: &mut DueList)
        requires { self.old.tick + 1 < MAX_TICKS }
        ensures { Advances self.old self.new due.new }
    {
        self.alarms.advance(self.system, due);
    }
}
