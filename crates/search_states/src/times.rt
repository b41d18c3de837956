//! What alarms have left, and the counters.

ghost use Rattle.std.specs.Prelude.{◌≡◌, ◌<◌, ◌≤◌, ◌-◌, ◌/◌, ◌^◌, ◌++◌, OnOk, length};
ghost use Rattle.std.specs.Option.{option_map};
ghost use Rattle.osek_base.specs.System.{counter, counter_of};
ghost use Rattle.alarms.specs.Alarms.{cycle_of};
ghost use Rattle.law_future.specs.Alike.{phase_at, value_at};
ghost use Rattle.law_future.specs.Relative.{left_of};
ghost use Rattle.services.specs.Objects.{kept_in};
ghost use Rattle.search_needs.specs.Table.{need_of};
ghost use Rattle.search_keys.specs.Bytes.{each, needed, number};
ghost use Rattle.search_keys.specs.Key.{alarm_key};
ghost use Rattle.search_states.specs.Parts.{at_tick, count_of, left_key, less_by, times_key};

use osek_base::{AlarmId, Counter, CounterId, System};
use search_keys::{push_byte, push_number};
use search_needs::Needs;
use services::{CompactQueues, Objects};
use std::alloc::AllocError;

/// How many ticks the counter of an alarm has a value.
#[inline(always)]
fn ticks_per_base(system: &System, alarm: AlarmId) -> u32
    requires { alarm < length system.now.alarms }
    ensures value { result ≡ (counter_of system.now alarm).ticks_per_base }
    ensures some { 1 ≤ result }
{
    system.shows_proper();
    system.counter_of(alarm).ticks_per_base
}

/// How many counts pass when a tick comes: 1 where the counter grows, else 0. Most counters grow
/// in each tick.
#[inline(always)]
fn counts_passed(base: u32, tick: u32) -> u32
    requires { 1 ≤ base }
    ensures { result ≡ tick / base - (tick - 1) / base }
{
    if base == 1 {
        return if tick == 0 { 0 } else { 1 };
    }
    (tick / base).saturating_sub(tick.saturating_sub(1) / base)
}

/// What is left once some counts have passed.
#[inline(always)]
fn less_by(passed: u32, left: Option<u32>) -> Option<u32>
    ensures { result ≡ less_by passed left }
{
    match left {
        None => None,
        Some(left) => Some(left.saturating_sub(passed)),
    }
}

/// How many counts an alarm has left at a tick, where the clock shows the one before; None while it
/// is off.
#[inline(always)]
fn counts_left(
    system: &System,
    objects: &Objects<'_, CompactQueues>,
    tick: u32,
    alarm: AlarmId,
) -> Option<u32>
    requires system { objects.now.system ≡ system.now }
    requires clock { objects.now.tick ≡ tick - 1 }
    requires alarm { alarm < length system.now.alarms }
    ensures { result ≡ option_map count_of
        (left_of system.now (at_tick tick (kept_in objects.now)) alarm) }
{
    let base = ticks_per_base(system, alarm);
    less_by(counts_passed(base, tick), objects.counts_left(alarm))
}

/// Adds what an alarm has left, and its cycle.
#[inline(always)]
#[tactic(auto, using(crate::proofs::Steps::joined))]
fn push_left(out: &mut Vec<u8>, left: Option<u32>, cycle: Option<u32>) -> Result<(), AllocError>
    ensures { OnOk result (out.new.items ≡ out.old.items ++ left_key left cycle) }
{
    match left {
        None => push_byte(out, 0),
        Some(left) => match cycle {
            None => push_byte(out, 0),
            Some(cycle) => {
                push_byte(out, 1)?;
                push_number(out, left)?;
                push_number(out, cycle)
            }
        },
    }
}

/// Adds an alarm at a tick, where the clock shows the one before.
#[inline(always)]
fn push_alarm(
    out: &mut Vec<u8>,
    system: &System,
    objects: &Objects<'_, CompactQueues>,
    tick: u32,
    alarm: AlarmId,
) -> Result<(), AllocError>
    requires system { objects.now.system ≡ system.now }
    requires clock { objects.now.tick ≡ tick - 1 }
    requires alarm { alarm < length system.now.alarms }
    ensures { OnOk result (out.new.items ≡ out.old.items
        ++ alarm_key system.now (at_tick tick (kept_in objects.now)) alarm) }
{
    let left = counts_left(system, objects, tick, alarm);
    push_left(out, left, objects.cycle(alarm))
}

/// Adds each alarm.
#[tactic(auto, using(crate::proofs::Steps::none_yet))]
fn push_alarms(
    out: &mut Vec<u8>,
    system: &System,
    objects: &Objects<'_, CompactQueues>,
    tick: u32,
) -> Result<(), AllocError>
    requires system { objects.now.system ≡ system.now }
    requires clock { objects.now.tick ≡ tick - 1 }
    ensures { OnOk result (out.new.items ≡ out.old.items
        ++ each (length system.now.alarms) (alarm_key system.now
        (at_tick tick (kept_in objects.now)))) }
{
    for number in 0..system.alarm_count() {
        push_alarm(out, system, objects, tick, AlarmId::new(number as u8))?;
    }
    Ok(())
}

/// A counter, whose limits are those of a proper system.
fn counter_at(system: &System, number: usize) -> Counter
    requires { number < length system.now.counters }
    ensures value { result ≡ counter system.now number }
    ensures base { 1 ≤ result.ticks_per_base }
    ensures round { result.max_allowed_value < 2 ^ 31 }
{
    let parts = system.parts();
    parts.counters[number]
}

/// Adds the value that a counter has at a tick, if it is needed.
fn push_value(
    out: &mut Vec<u8>,
    counter: &Counter,
    is_needed: bool,
    tick: u32,
) -> Result<(), AllocError>
    requires base { 1 ≤ counter.now.ticks_per_base }
    requires round { counter.now.max_allowed_value < 2 ^ 31 }
    ensures { OnOk result (out.new.items ≡ out.old.items
        ++ needed is_needed (value_at counter.now tick)) }
{
    if is_needed {
        let count = tick / counter.ticks_per_base;
        push_number(out, count % (counter.max_allowed_value + 1))?;
    }
    Ok(())
}

/// For how many ticks a counter has had its value at a tick; most counters grow in each tick.
#[inline(always)]
fn phase_at(counter: &Counter, tick: u32) -> u32
    requires { 1 ≤ counter.now.ticks_per_base }
    ensures { result ≡ phase_at counter.now tick }
{
    if counter.ticks_per_base == 1 {
        return 0;
    }
    tick % counter.ticks_per_base
}

/// Adds the value that a counter has at a tick, if it is needed, and for how many ticks it has had
/// it.
#[tactic(auto, using(crate::proofs::Steps::joined))]
fn push_counter(
    out: &mut Vec<u8>,
    counter: &Counter,
    is_needed: bool,
    tick: u32,
) -> Result<(), AllocError>
    requires base { 1 ≤ counter.now.ticks_per_base }
    requires round { counter.now.max_allowed_value < 2 ^ 31 }
    ensures { OnOk result (out.new.items ≡ out.old.items
        ++ (needed is_needed (value_at counter.now tick) ++ number (phase_at counter.now tick))) }
{
    push_value(out, counter, is_needed, tick)?;
    push_number(out, phase_at(counter, tick))
}

/// Adds each counter.
#[tactic(auto, using(crate::proofs::Steps::none_yet))]
fn push_counters(
    out: &mut Vec<u8>,
    system: &System,
    needs: &Needs,
    tick: u32,
) -> Result<(), AllocError>
    ensures { OnOk result (out.new.items ≡ out.old.items
        ++ each (length system.now.counters)
        (λ c. needed ((need_of needs.now).counters c) (value_at (counter system.now c) tick)
        ++ number (phase_at (counter system.now c) tick))) }
{
    let parts = system.parts();
    for number in 0..parts.counters.len() {
        let counter = counter_at(system, number);
        let is_needed = needs.needs_value(CounterId::new(number as u8));
        push_counter(out, &counter, is_needed, tick)?;
    }
    Ok(())
}

/// Adds each alarm and each counter at a tick, where the clock shows the one before.
#[tactic(auto, using(crate::proofs::Steps::joined))]
pub fn push_times(
    out: &mut Vec<u8>,
    system: &System,
    needs: &Needs,
    objects: &Objects<'_, CompactQueues>,
    tick: u32,
) -> Result<(), AllocError>
    requires system { objects.now.system ≡ system.now }
    requires clock { objects.now.tick ≡ tick - 1 }
    ensures { OnOk result (out.new.items ≡ out.old.items
        ++ times_key system.now (need_of needs.now) (at_tick tick (kept_in objects.now))) }
{
    push_alarms(out, system, objects, tick)?;
    push_counters(out, system, needs, tick)
}
