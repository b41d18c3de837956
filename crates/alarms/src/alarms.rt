//! The alarms of a system.

ghost use Rattle.std.specs.Prelude.{◌≡◌, ◌<◌, ◌≤◌, ◌+◌, ◌^◌, ℕ, [], length, map, replicate, Option, None, Some, is_some, slice_index_or, slice_set, true, false};
ghost use Rattle.osek_base.specs.System.{System as Configured, alarm_start_in, counter, counter_of};
ghost use Rattle.osek_base.specs.Alarm.{is_bad_cycle, next_count};
ghost use Rattle.osek_base.specs.declared.instr.Service.{Service};
ghost use Rattle.osek_base.specs.Trace.{first_expiry, starting_alarms};
ghost use Rattle.alarms.specs.Alarms.{AreQuietFor, IsTableOf, status_of, after_call, counter_in, count_in, remaining_at, remaining_of, cycle_of, next_tick, due_of, expired, HavePassed, later};

use crate::counted_alarms::CountedAlarms;
use crate::due_list::DueList;
use osek_base::{AlarmId, Counter, MAX_ALARMS, MAX_TICKS, ModeId, Status, System};
use std::marker::Model;

/// The alarms of a system, and the tick. Contracts see the expiry of each alarm that is on, by a count that never wraps,
/// and the counter of each alarm. A call is handed the system that the alarms were made of.
///
/// The counters count where it matters: `ahead` ticks passed since they last did, and no alarm is
/// due in the `quiet` ticks after that.
#[derive(Drop)]
pub struct Alarms {
    counted: CountedAlarms,
    ahead: u32,
    quiet: u32,
}

impl Model for Alarms {
    ghost use Rattle.alarms.specs.Alarms.{AlarmTable, IsAheadOf, later};

    ghost Value = { AlarmTable };

    ghost view = { λ a. later a.ahead a.counted };

    ghost invariant = { λ a. IsAheadOf a.ahead a.quiet a.counted };
}

impl Alarms {
    /// All alarms of the system are off, and the tick is 0.
    pub fn new(system: &System) -> Self
        ensures value { result ≡ record {
          expiries = replicate (length system.now.alarms) None;
          counters = map (λ a. counter system.now a.counter) system.now.alarms;
          tick = 0;
        } }
        ensures table { IsTableOf system.now result }
    {
        Alarms {
            counted: CountedAlarms::new(system),
            ahead: 0,
            quiet: 0,
        }
    }

    /// All alarms, and the tick, become those of others.
    pub fn copy_from(&mut self, other: &Alarms)
        ensures { self.new ≡ other.now }
    {
        self.counted.copy_from(&other.counted);
        self.ahead = other.ahead;
        self.quiet = other.quiet;
    }

    /// How often `advance` was called: the present tick, below [`MAX_TICKS`].
    pub fn tick(&self) -> u32
        ensures value { result ≡ self.now.tick }
        ensures low { result < MAX_TICKS }
    {
        self.counted.tick() + self.ahead
    }

    /// Sets the alarms that start by themselves in a mode, to their ALARMTIME and CYCLETIME from count 0 on. All others
    /// go off; the tick is 0 and stays.
    pub fn start(&mut self, system: &System, mode: ModeId)
        requires table { IsTableOf system.now self.old }
        requires first { self.old.tick ≡ 0 }
        ensures value { self.new ≡ record self.old { expiries = starting_alarms system.now mode } }
        ensures table { IsTableOf system.now self.new }
    {
        *self = Alarms::new(system);
        for number in 0..self.len() {
            self.start_in(system, mode, AlarmId::new(number));
        }
    }

    /// SetRelAlarm: the alarm expires `increment` counts from now, and each `cycle` counts after that, 0 for once.
    /// E_OS_STATE where the alarm is on; E_OS_VALUE where the increment isn't in 1 to MAXALLOWEDVALUE, or the cycle neither
    /// 0 nor in MINCYCLE to MAXALLOWEDVALUE. A refusal changes nothing.
    pub fn set_rel(&mut self, system: &System, alarm: AlarmId, increment: u32, cycle: u32) -> Status
        requires table { IsTableOf system.now self.old }
        requires alarm { alarm < length system.now.alarms }
        ensures status { result
            ≡ status_of system.now self.old (Service.SetRelAlarm (Some alarm) increment cycle) }
        ensures alarms { self.new
            ≡ after_call system.now self.old (Service.SetRelAlarm (Some alarm) increment cycle) }
        ensures table { IsTableOf system.now self.new }
    {
        let counter = counter_of(system, alarm);
        if self.is_on(alarm) {
            Status::State
        } else if increment == 0
            || increment > counter.max_allowed_value
            || is_bad_cycle(&counter, cycle)
        {
            Status::Value
        } else {
            self.start_alarm(alarm, increment, cycle);
            Status::Ok
        }
    }

    /// SetAbsAlarm: the alarm expires when its counter next has the value `start`, a whole round later where it has it
    /// now, and each `cycle` counts after that, 0 for once. E_OS_STATE where the alarm is on; E_OS_VALUE where the start is
    /// above MAXALLOWEDVALUE, or the cycle neither 0 nor in MINCYCLE to MAXALLOWEDVALUE. A refusal changes nothing.
    pub fn set_abs(&mut self, system: &System, alarm: AlarmId, start: u32, cycle: u32) -> Status
        requires table { IsTableOf system.now self.old }
        requires alarm { alarm < length system.now.alarms }
        ensures status { result
            ≡ status_of system.now self.old (Service.SetAbsAlarm (Some alarm) start cycle) }
        ensures alarms { self.new
            ≡ after_call system.now self.old (Service.SetAbsAlarm (Some alarm) start cycle) }
        ensures table { IsTableOf system.now self.new }
    {
        let counter = counter_of(system, alarm);
        if self.is_on(alarm) {
            Status::State
        } else if start > counter.max_allowed_value || is_bad_cycle(&counter, cycle) {
            Status::Value
        } else {
            let wait = self.wait_until(alarm, start);
            self.start_alarm(alarm, wait, cycle);
            Status::Ok
        }
    }

    /// CancelAlarm: the alarm goes off. E_OS_NOFUNC where it is off; a refusal changes nothing.
    pub fn cancel(&mut self, alarm: AlarmId) -> Status
        requires { alarm < length self.old.expiries }
        ensures status { (S : Configured)
            → result ≡ status_of S self.old (Service.CancelAlarm (Some alarm)) }
        ensures alarms { (S : Configured)
            → self.new ≡ after_call S self.old (Service.CancelAlarm (Some alarm)) }
        ensures table { (S : Configured) → IsTableOf S self.old → IsTableOf S self.new }
    {
        if self.is_on(alarm) {
            self.cancel_alarm(alarm);
            Status::Ok
        } else {
            Status::NoFunc
        }
    }

    /// GetAlarm: how many counts an alarm has before it expires; None where it is off.
    pub fn remaining(&self, system: &System, alarm: AlarmId) -> Option<u32>
        requires table { IsTableOf system.now self.now }
        requires alarm { alarm < length system.now.alarms }
        ensures { result ≡ remaining_of system.now self.now alarm }
    {
        self.counts_left(alarm)
    }

    /// How many counts after an expiry an alarm expires again, 0 where it goes off then; None where it is off.
    pub fn cycle(&self, alarm: AlarmId) -> Option<u32>
        requires { alarm < length self.now.expiries }
        ensures { result ≡ cycle_of (slice_index_or self.now.expiries alarm None) }
    {
        self.counted.cycle(alarm)
    }

    /// The next tick begins, and the alarms that are due in it expire: each expires again a cycle later, or goes off. The
    /// content of `due` becomes these alarms, in declaration order.
    #[inline(always)]
    pub fn advance(&mut self, system: &System, due: &mut DueList)
        requires table { IsTableOf system.now self.old }
        requires last { self.old.tick + 1 < MAX_TICKS }
        ensures due { due.new ≡ due_of system.now (next_tick self.old) }
        ensures alarms { self.new ≡ expired system.now (next_tick self.old) }
        ensures table { IsTableOf system.now self.new }
    {
        due.clear();
        if !self.pass_quiet() {
            self.advance_counted(system, due);
        }
    }

    /// The ticks that follow pass, at most some, up to the one before the first in which an alarm is due. Answers how many
    /// passed.
    pub fn pass(&mut self, most: u32) -> u32
        requires { self.old.tick + most < MAX_TICKS }
        ensures few { result ≤ most }
        ensures passed { HavePassed result self.old self.new }
        ensures last { result < most → (S : Configured) → IsTableOf S self.old
            → due_of S (later (result + 1) self.old) ≡ [] → ⊥ }
    {
        self.counted.pass(self.ahead);
        let left = MAX_TICKS - 1 - self.counted.tick();
        self.quiet = self.counted.quiet_ticks(left);
        self.ahead = self.quiet.min(most);
        self.ahead
    }

    /// Whether it is known already that no alarm is due in the next tick.
    #[inline(always)]
    pub fn is_quiet(&self) -> bool
        ensures { result ≡ true → AreQuietFor 1 self.now }
    {
        self.ahead < self.quiet
    }

    /// The next tick begins, where it is known already that no alarm is due in it. Answers whether it is; else nothing changes.
    #[inline(always)]
    pub fn pass_quiet(&mut self) -> bool
        ensures quiet { result ≡ true → AreQuietFor 1 self.old }
        ensures passed { result ≡ true → HavePassed 1 self.old self.new }
        ensures same { result ≡ false → self.new ≡ self.old }
    {
        if self.ahead < self.quiet {
            self.ahead += 1;
            true
        } else {
            false
        }
    }

    /// The next tick begins, up to which the counters count. The alarms that are due in it expire, and
    /// `due`, which is empty, gets them.
    #[inline(always)]
    fn advance_counted(&mut self, system: &System, due: &mut DueList)
        requires table { IsTableOf system.now self.old }
        requires last { self.old.tick + 1 < MAX_TICKS }
        requires none { due.old ≡ [] }
        ensures due { due.new ≡ due_of system.now (next_tick self.old) }
        ensures alarms { self.new ≡ expired system.now (next_tick self.old) }
    {
        let (expired, quiet) = self.counted.advance_by(self.ahead + 1);
        self.ahead = 0;
        self.quiet = quiet;
        if !expired.is_none() {
            expired.list(system.alarm_count(), due);
        }
    }

    /// Whether an alarm is on.
    fn is_on(&self, alarm: AlarmId) -> bool
        requires { alarm < length self.now.expiries }
        ensures { result ≡ is_some (slice_index_or self.now.expiries alarm None) }
    {
        self.cycle(alarm).is_some()
    }

    /// How many counts an alarm has before it expires; None where it is off.
    fn counts_left(&self, alarm: AlarmId) -> Option<u32>
        requires { alarm < length self.now.expiries }
        ensures { result
            ≡ remaining_at (count_in self.now alarm) (slice_index_or self.now.expiries alarm None) }
    {
        self.counted.counts_left(self.ahead, alarm)
    }

    /// How many counts there are to the next one at which an alarm's counter has the value `start`.
    fn wait_until(&self, alarm: AlarmId, start: u32) -> u32
        requires alarm { alarm < length self.now.expiries }
        requires start { start ≤ (counter_in self.now alarm).max_allowed_value }
        ensures value { count_in self.now alarm + result
            ≡ next_count (counter_in self.now alarm) (count_in self.now alarm) start }
        ensures some { 0 < result }
    {
        self.counted.wait_until(self.ahead, alarm, start)
    }

    /// An alarm that is off starts: it expires in `wait` counts, and each `cycle` counts after that, 0 for once.
    fn start_alarm(&mut self, alarm: AlarmId, wait: u32, cycle: u32)
        requires alarm { alarm < length self.old.expiries }
        requires off { slice_index_or self.old.expiries alarm None ≡ None }
        requires wait { 0 < wait }
        ensures { self.new ≡ record self.old {
          expiries = slice_set self.old.expiries alarm
              (Some (record { count = count_in self.old alarm + wait; cycle = cycle }));
        } }
    {
        self.counted.pass(self.ahead);
        self.ahead = 0;
        self.quiet = 0;
        self.counted.start_alarm(alarm, wait, cycle);
    }

    /// An alarm goes off.
    fn cancel_alarm(&mut self, alarm: AlarmId)
        requires { alarm < length self.old.expiries }
        ensures { self.new ≡ record self.old { expiries = slice_set self.old.expiries alarm None } }
    {
        self.counted.pass(self.ahead);
        self.ahead = 0;
        self.quiet = 0;
        self.counted.cancel_alarm(alarm);
    }

    /// An alarm that is off starts at tick 0, if it starts by itself in a mode.
    fn start_in(&mut self, system: &System, mode: ModeId, alarm: AlarmId)
        requires table { IsTableOf system.now self.old }
        requires alarm { alarm < length system.now.alarms }
        requires off { slice_index_or self.old.expiries alarm None ≡ None }
        requires first { self.old.tick ≡ 0 }
        ensures { self.new
            ≡ record self.old {
              expiries = slice_set self.old.expiries alarm
                  (first_expiry (alarm_start_in system.now mode alarm));
            } }
    {
        // So its values are within their limits.
        system.shows_proper();
        if let Some((time, cycle)) = system.alarm_start(mode, alarm) {
            self.start_alarm(alarm, time, cycle);
        }
    }

    /// How many alarms there are.
    fn len(&self) -> u8
        ensures value { result ≡ length self.now.expiries }
        ensures low { result ≤ MAX_ALARMS }
    {
        self.counted.len()
    }
}

/// The counter of an alarm. Its limits are those of a proper system.
fn counter_of(system: &System, alarm: AlarmId) -> Counter
    requires { alarm < length system.now.alarms }
    ensures value { result ≡ counter_of system.now alarm }
    ensures base { 1 ≤ result.ticks_per_base }
    ensures round { result.max_allowed_value < 2 ^ 31 }
{
    // So its values are within their limits.
    system.shows_proper();
    system.counter_of(alarm)
}

/// Whether a cycle is refused.
fn is_bad_cycle(counter: &Counter, cycle: u32) -> bool
    ensures { result ≡ is_bad_cycle counter.now cycle }
{
    cycle != 0 && (cycle < counter.min_cycle || cycle > counter.max_allowed_value)
}
