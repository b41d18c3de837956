//! The counters of a system, with their alarms.

ghost use Rattle.std.specs.Prelude.{◌≡◌, ◌<◌, ◌≤◌, ◌+◌, ◌-◌, ◌||◌, ℕ, length, map, slice_set, true, false};
ghost use Rattle.std.specs.List.{list_all, list_any};
ghost use Rattle.osek_base.specs.Alarm.{is_due_at};
ghost use Rattle.alarms.specs.Waits.{is_raised, inserted, without};
ghost use Rattle.alarms.specs.Counters.{AreAdvanced, IsReady, count_of, counter_at, expiry_in, idle, is_quiet_for};

use crate::counter_alarms::CounterAlarms;
use crate::due_alarms::DueAlarms;
use arrayvec::ArrayVec;
use osek_base::{Alarm, AlarmId, Counter, MAX_ALARMS, MAX_COUNTERS, MAX_TICKS};

/// The counters at 0, with no running alarm.
pub fn idle_counters(declared: &[Counter]) -> ArrayVec<CounterAlarms, MAX_COUNTERS>
    requires { length declared.now ≤ MAX_COUNTERS }
    ensures { result.items ≡ map idle declared.now }
{
    let mut counters = ArrayVec::new();
    for number in 0..declared.len() {
        counters.push(CounterAlarms::new(declared[number]));
    }
    counters
}

/// The content becomes some counters with their alarms.
pub fn replace_counters(
    counters: &mut ArrayVec<CounterAlarms, MAX_COUNTERS>,
    others: &[CounterAlarms],
)
    requires { length others.now ≤ MAX_COUNTERS }
    ensures { counters.new.items ≡ others.now }
{
    if counters.len() == others.len() {
        copy_each(counters.as_mut_slice(), others);
        return;
    }
    counters.clear();
    for number in 0..others.len() {
        let other = &others[number];
        counters.push(other.copied());
    }
}

/// Each of some counters becomes another one, with its alarms.
fn copy_each(counters: &mut [CounterAlarms], others: &[CounterAlarms])
    requires { length counters.old ≡ length others.now }
    ensures { counters.new ≡ others.now }
{
    for number in 0..others.len() {
        let counter = &mut counters[number];
        counter.copy_from(&others[number]);
    }
}

/// The number of the counter of each alarm.
pub fn counter_numbers(alarms: &[Alarm]) -> ArrayVec<u8, MAX_ALARMS>
    requires { length alarms.now ≤ MAX_ALARMS }
    ensures { result.items ≡ map (λ a. a.counter) alarms.now }
{
    let mut numbers = ArrayVec::new();
    for place in 0..alarms.len() {
        let alarm = &alarms[place];
        numbers.push(alarm.counter.number());
    }
    numbers
}

/// Some ticks after `tick` pass, before the last of which no alarm is due: the alarms of all counters
/// that are due in the last one expire, and are added to `due`. Answers how many of the ticks after
/// that pass, at most `most`, before one in which an alarm is due.
#[inline(always)]
pub fn advance_each(
    counters: &mut ArrayVec<CounterAlarms, MAX_COUNTERS>,
    tick: u32,
    ticks: u32,
    most: u32,
    due: &mut DueAlarms,
) -> u32
    requires tick { tick + ticks + most < MAX_TICKS }
    requires some { 0 < ticks }
    requires ready { (k : ℕ) → k < length counters.old.items
        → IsReady tick (counter_at counters.old.items k) }
    requires quiet { (k : ℕ) → k < length counters.old.items
        → is_quiet_for tick (ticks - 1) (counter_at counters.old.items k) ≡ true }
    ensures counters { AreAdvanced tick ticks counters.old.items counters.new.items }
    ensures due { (a : ℕ)
        → is_raised a due.new
        ≡ (is_raised a due.old
        || list_any (λ k. is_due_at (count_of (tick + ticks) k) (expiry_in tick k a))
        counters.old.items) }
    ensures few { result ≤ most }
    ensures quiet { (k : ℕ) → k < length counters.new.items
        → is_quiet_for (tick + ticks) result (counter_at counters.new.items k) ≡ true }
    ensures last { result < most
        → list_all (is_quiet_for (tick + ticks) (result + 1)) counters.new.items ≡ false }
{
    let reached = tick + ticks;
    let mut least = most;
    for number in 0..counters.len() {
        let counter = &mut counters[number];
        counter.advance(tick, ticks, due);
        least = counter.quiet_ticks(reached, least);
    }
    least
}

/// How many of the ticks after `tick` pass, at most `most`, before one in which an alarm of any counter is due.
#[inline(always)]
pub fn quiet_ticks(counters: &ArrayVec<CounterAlarms, MAX_COUNTERS>, tick: u32, most: u32) -> u32
    requires tick { tick + most < MAX_TICKS }
    requires ready { (k : ℕ) → k < length counters.now.items
        → IsReady tick (counter_at counters.now.items k) }
    ensures few { result ≤ most }
    ensures quiet { (k : ℕ) → k < length counters.now.items
        → is_quiet_for tick result (counter_at counters.now.items k) ≡ true }
    ensures last { result < most
        → list_all (is_quiet_for tick (result + 1)) counters.now.items ≡ false }
{
    let mut least = most;
    for number in 0..counters.len() {
        let counter = &counters[number];
        least = counter.quiet_ticks(tick, least);
    }
    least
}

/// An alarm of a counter starts, to expire in `wait` counts.
pub fn start_on(
    counters: &mut ArrayVec<CounterAlarms, MAX_COUNTERS>,
    number: usize,
    alarm: AlarmId,
    wait: u32,
    cycle: u32,
)
    requires number { number < length counters.old.items }
    requires room { length (counter_at counters.old.items number).running < MAX_ALARMS }
    ensures { counters.new.items ≡ slice_set counters.old.items number
        (record (counter_at counters.old.items number) {
          running = inserted (record { alarm = alarm; left = wait; cycle = cycle })
              (counter_at counters.old.items number).running;
        }) }
{
    let counter = &mut counters[number];
    counter.running.insert(alarm, wait, cycle);
}

/// An alarm of a counter goes off.
pub fn cancel_on(
    counters: &mut ArrayVec<CounterAlarms, MAX_COUNTERS>,
    number: usize,
    alarm: AlarmId,
)
    requires { number < length counters.old.items }
    ensures { counters.new.items ≡ slice_set counters.old.items number
        (record (counter_at counters.old.items number) {
          running = without alarm (counter_at counters.old.items number).running;
        }) }
{
    let counter = &mut counters[number];
    counter.running.cancel(alarm);
}
