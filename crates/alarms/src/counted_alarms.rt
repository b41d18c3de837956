//! The alarms of a system, as their counters have counted up to a tick.

ghost use Rattle.std.specs.Prelude.{◌≡◌, ◌<◌, ◌≤◌, ◌+◌, ◌-◌, ℕ, length, map, replicate, None, Some, slice_index_or, slice_set};
ghost use Rattle.osek_base.specs.System.{counter};
ghost use Rattle.osek_base.specs.Alarm.{next_count};
ghost use Rattle.alarms.specs.Waits.{is_raised};
ghost use Rattle.alarms.specs.Alarms.{AreQuietFor, IsTableOf, counter_in, count_in, cycle_of, is_due_in, later, once_expired, remaining_at};

use crate::counter_alarms::CounterAlarms;
use crate::counters::{
    advance_each, cancel_on, counter_numbers, idle_counters, quiet_ticks, replace_counters,
    start_on,
};
use crate::due_alarms::DueAlarms;
use crate::replacing::replace;
use arrayvec::ArrayVec;
use osek_base::{AlarmId, MAX_ALARMS, MAX_COUNTERS, MAX_TICKS, System};
use std::marker::Model;

/// The alarms of a system, as their counters have counted up to a tick. Contracts see the expiry of
/// each alarm that is on, by a count that never wraps, and the counter of each alarm.
#[derive(Drop)]
pub struct CountedAlarms {
    counters: ArrayVec<CounterAlarms, MAX_COUNTERS>,
    numbers: ArrayVec<u8, MAX_ALARMS>,
    tick: u32,
}

impl Model for CountedAlarms {
    ghost use Rattle.alarms.specs.Alarms.{AlarmTable};
    ghost use Rattle.alarms.specs.Counters.{table_of, AreWhole};

    ghost Value = { AlarmTable };

    ghost view = { λ a. table_of a.tick a.counters.items a.numbers.items };

    ghost invariant = { λ a. AreWhole a.tick a.counters.items a.numbers.items };
}

impl CountedAlarms {
    /// All alarms of the system are off, and the tick is 0.
    pub fn new(system: &System) -> Self
        ensures value { result ≡ record {
          expiries = replicate (length system.now.alarms) None;
          counters = map (λ a. counter system.now a.counter) system.now.alarms;
          tick = 0;
        } }
        ensures table { IsTableOf system.now result }
    {
        let parts = system.parts();
        CountedAlarms {
            counters: idle_counters(&parts.counters),
            numbers: counter_numbers(&parts.alarms),
            tick: 0,
        }
    }

    /// All alarms, and the tick, become those of others.
    pub fn copy_from(&mut self, other: &CountedAlarms)
        ensures { self.new ≡ other.now }
    {
        replace_counters(&mut self.counters, other.counters.as_slice());
        replace(&mut self.numbers, other.numbers.as_slice());
        self.tick = other.tick;
    }

    /// The tick up to which the counters have counted, below [`MAX_TICKS`].
    #[inline(always)]
    pub fn tick(&self) -> u32
        ensures value { result ≡ self.now.tick }
        ensures low { result < MAX_TICKS }
    {
        self.tick
    }

    /// How many alarms there are.
    pub fn len(&self) -> u8
        ensures value { result ≡ length self.now.expiries }
        ensures low { result ≤ MAX_ALARMS }
    {
        self.numbers.len() as u8
    }

    /// How many counts an alarm has, some ticks later, before it expires; None where it is off.
    pub fn counts_left(&self, ticks: u32, alarm: AlarmId) -> Option<u32>
        requires tick { self.now.tick + ticks < MAX_TICKS }
        requires alarm { alarm < length self.now.expiries }
        ensures { result
            ≡ remaining_at (count_in (later ticks self.now) alarm)
            (slice_index_or self.now.expiries alarm None) }
    {
        let number = self.numbers[alarm.number() as usize];
        let counter = &self.counters[number as usize];
        counter.counts_left(self.tick, ticks, alarm)
    }

    /// How many counts after an expiry an alarm expires again, 0 where it goes off then; None where
    /// it is off.
    pub fn cycle(&self, alarm: AlarmId) -> Option<u32>
        requires { alarm < length self.now.expiries }
        ensures { result ≡ cycle_of (slice_index_or self.now.expiries alarm None) }
    {
        let number = self.numbers[alarm.number() as usize];
        let counter = &self.counters[number as usize];
        counter.running.cycle(alarm)
    }

    /// How many counts there are, some ticks later, to the next one at which an alarm's counter has
    /// the value `start`.
    pub fn wait_until(&self, ticks: u32, alarm: AlarmId, start: u32) -> u32
        requires tick { self.now.tick + ticks < MAX_TICKS }
        requires alarm { alarm < length self.now.expiries }
        requires start { start ≤ (counter_in self.now alarm).max_allowed_value }
        ensures value { count_in (later ticks self.now) alarm + result
            ≡ next_count (counter_in self.now alarm) (count_in (later ticks self.now) alarm) start }
        ensures some { 0 < result }
    {
        let number = self.numbers[alarm.number() as usize];
        let counter = &self.counters[number as usize];
        counter.wait_until(self.tick + ticks, start)
    }

    /// An alarm that is off starts: it expires in `wait` counts, and each `cycle` counts after that,
    /// 0 for once.
    pub fn start_alarm(&mut self, alarm: AlarmId, wait: u32, cycle: u32)
        requires alarm { alarm < length self.old.expiries }
        requires off { slice_index_or self.old.expiries alarm None ≡ None }
        requires wait { 0 < wait }
        ensures { self.new ≡ record self.old {
          expiries = slice_set self.old.expiries alarm
              (Some (record { count = count_in self.old alarm + wait; cycle = cycle }));
        } }
    {
        let number = self.numbers[alarm.number() as usize];
        start_on(&mut self.counters, number as usize, alarm, wait, cycle);
    }

    /// An alarm goes off.
    pub fn cancel_alarm(&mut self, alarm: AlarmId)
        requires { alarm < length self.old.expiries }
        ensures { self.new ≡ record self.old { expiries = slice_set self.old.expiries alarm None } }
    {
        let number = self.numbers[alarm.number() as usize];
        cancel_on(&mut self.counters, number as usize, alarm);
    }

    /// Some ticks pass, before the last of which no alarm is due. The alarms that are due in the last
    /// one expire: each expires again a cycle later, or goes off. Answers these alarms, and how many
    /// ticks more pass before one in which an alarm is due, or up to the last tick of all.
    #[inline(always)]
    pub fn advance_by(&mut self, ticks: u32) -> (DueAlarms, u32)
        requires some { 0 < ticks }
        requires last { self.old.tick + ticks < MAX_TICKS }
        requires quiet { AreQuietFor (ticks - 1) self.old }
        ensures due { (a : ℕ) → a < length self.old.expiries
            → is_raised a result.0 ≡ is_due_in (later ticks self.old) a }
        ensures alarms { self.new ≡ once_expired (later ticks self.old) }
        ensures early { self.old.tick + ticks + result.1 < MAX_TICKS }
        ensures quiet { AreQuietFor result.1 self.new }
        ensures last { self.old.tick + ticks + result.1 + 1 < MAX_TICKS
            → AreQuietFor (result.1 + 1) self.new → ⊥ }
    {
        let mut due = DueAlarms::none();
        let tick = self.tick;
        let reached = tick + ticks;
        let most = MAX_TICKS - 1 - reached;
        let quiet = advance_each(&mut self.counters, tick, ticks, most, &mut due);
        self.tick = reached;
        (due, quiet)
    }

    /// Some ticks pass, in which no alarm is due.
    pub fn pass(&mut self, ticks: u32)
        requires last { self.old.tick + ticks < MAX_TICKS }
        requires quiet { AreQuietFor ticks self.old }
        ensures { self.new ≡ later ticks self.old }
    {
        if ticks > 0 {
            let _none = self.advance_by(ticks);
        }
    }

    /// How many of the ticks that follow pass, at most `most`, before one in which an alarm is due.
    #[inline(always)]
    pub fn quiet_ticks(&self, most: u32) -> u32
        requires { self.now.tick + most < MAX_TICKS }
        ensures few { result ≤ most }
        ensures quiet { AreQuietFor result self.now }
        ensures last { result < most → AreQuietFor (result + 1) self.now → ⊥ }
    {
        quiet_ticks(&self.counters, self.tick, most)
    }
}
