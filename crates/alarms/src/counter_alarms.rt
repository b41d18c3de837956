//! A counter and its alarms.

ghost use Rattle.std.specs.Prelude.{◌≡◌, ◌<◌, ◌≤◌, ◌+◌, ◌-◌, ◌||◌, ◌^◌, ℕ, true, false};
ghost use Rattle.osek_base.specs.Alarm.{is_due_at, next_count};
ghost use Rattle.alarms.specs.Alarms.{expired_at, remaining_at};
ghost use Rattle.alarms.specs.Waits.{is_raised};
ghost use Rattle.alarms.specs.Counters.{IsReady, count_of, expiry_in, idle, is_quiet_for};

use crate::difference_list::DifferenceList;
use crate::due_alarms::DueAlarms;
use osek_base::{AlarmId, Counter, MAX_TICKS};

/// A counter, the tick in which it grows next, and its running alarms.
#[derive(Drop)]
pub struct CounterAlarms {
    pub counter: Counter,
    pub next: u32,
    pub running: DifferenceList,
}

impl Default for CounterAlarms {
    fn default() -> Self {
        CounterAlarms::new(Counter {
            max_allowed_value: 1,
            ticks_per_base: 1,
            min_cycle: 1,
        })
    }
}

impl CounterAlarms {
    /// The counter is at 0, and its alarms are off.
    pub fn new(counter: Counter) -> Self
        ensures { result ≡ idle counter }
    {
        CounterAlarms {
            counter,
            next: counter.ticks_per_base,
            running: DifferenceList::new(),
        }
    }

    /// The same counter with the same alarms once more.
    pub fn copied(&self) -> Self
        ensures { result ≡ self.now }
    {
        CounterAlarms {
            counter: self.counter,
            next: self.next,
            running: self.running.copied(),
        }
    }

    /// All of it becomes that of another.
    pub fn copy_from(&mut self, other: &CounterAlarms)
        ensures { self.new ≡ other.now }
    {
        self.counter = other.counter;
        self.next = other.next;
        self.running.copy_from(&other.running);
    }

    /// Some ticks after `tick` pass, before the last of which no alarm is due: the alarms that are
    /// due in the last one expire, and are added to `due`.
    #[inline(always)]
    pub fn advance(&mut self, tick: u32, ticks: u32, due: &mut DueAlarms)
        requires tick { tick + ticks < MAX_TICKS }
        requires some { 0 < ticks }
        requires ready { IsReady tick self.old }
        requires quiet { is_quiet_for tick (ticks - 1) self.old ≡ true }
        ensures ready { IsReady (tick + ticks) self.new }
        ensures counter { self.new.counter ≡ self.old.counter }
        ensures expiries { (a : ℕ)
            → expiry_in (tick + ticks) self.new a
            ≡ expired_at (count_of (tick + ticks) self.old) (expiry_in tick self.old a) }
        ensures due { (a : ℕ)
            → is_raised a due.new
            ≡ (is_raised a due.old
            || is_due_at (count_of (tick + ticks) self.old) (expiry_in tick self.old a)) }
    {
        let reached = tick + ticks;
        if reached >= self.next {
            let base = self.counter.ticks_per_base;
            let more = (reached - self.next) / base;
            self.next += more * base + base;
            self.running.advance(more + 1, due);
        }
    }

    /// How many of the ticks after `tick` pass, at most `most`, before one in which an alarm is due.
    #[inline(always)]
    pub fn quiet_ticks(&self, tick: u32, most: u32) -> u32
        requires tick { tick + most < MAX_TICKS }
        requires ready { IsReady tick self.now }
        ensures few { result ≤ most }
        ensures quiet { is_quiet_for tick result self.now ≡ true }
        ensures last { result < most → is_quiet_for tick (result + 1) self.now ≡ false }
    {
        match self.running.soonest() {
            None => most,
            Some(left) => {
                let base = self.counter.ticks_per_base as u64;
                let due = self.next as u64 + (left as u64 - 1) * base;
                let passed = due - 1 - tick as u64;
                if passed < most as u64 {
                    passed as u32
                } else {
                    most
                }
            }
        }
    }

    /// How many counts an alarm has, some ticks after `tick`, before it expires; None where it isn't
    /// running.
    pub fn counts_left(&self, tick: u32, ticks: u32, alarm: AlarmId) -> Option<u32>
        requires tick { tick + ticks < MAX_TICKS }
        requires base { 1 ≤ self.now.counter.ticks_per_base }
        ensures { result
            ≡ remaining_at (count_of (tick + ticks) self.now) (expiry_in tick self.now alarm) }
    {
        let left = self.running.remaining(alarm)?;
        let base = self.counter.ticks_per_base;
        Some(left.saturating_sub((tick + ticks) / base - tick / base))
    }

    /// At a tick, how many counts there are to the next one at which the counter has the value `start`: 1 to
    /// MAXALLOWEDVALUE + 1.
    pub fn wait_until(&self, tick: u32, start: u32) -> u32
        requires base { 1 ≤ self.now.counter.ticks_per_base }
        requires round { self.now.counter.max_allowed_value < 2 ^ 31 }
        requires start { start ≤ self.now.counter.max_allowed_value }
        ensures value { count_of tick self.now + result
            ≡ next_count self.now.counter (count_of tick self.now) start }
        ensures some { 0 < result }
    {
        let round = self.counter.max_allowed_value + 1;
        let value = tick / self.counter.ticks_per_base % round;
        let passed = (value + 1) % round;
        1 + (start + (round - passed)) % round
    }
}
