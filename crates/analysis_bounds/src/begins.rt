//! Windows of a level one by one: how many ticks are enough for one that begins in a tick.

ghost use Rattle.std.specs.Prelude.{ℕ, ◌+◌, ◌*◌, ◌≡◌, ◌<◌, ◌≤◌, IfSome, IsTrue, length};
ghost use Rattle.law_windows.specs.Coming.{first_cost};
ghost use Rattle.analysis_bounds.specs.Coming.{AreAllPeriodic};
ghost use Rattle.analysis_bounds.specs.KnownTicks.{IsShort, known_cost, needed_from};
ghost use Rattle.analysis_bounds.specs.Levels.{costs_of};

use crate::coming::{cost_of_arrivals, more};
use crate::level::Level;
use crate::timing::{Timing, often_from, timing_in};
use crate::ways::number_at;
use crate::window::MAX_WINDOW;
use arrival_rules::ArrivalRule;
use osek_base::System;

/// The most ticks of some windows, and where one with so many begins.
#[derive(Clone, Copy)]
pub(crate) struct Longest {
    pub(crate) most: u32,
    pub(crate) begin: u32,
}

/// What may be left where a window begins in that tick.
fn first_cost(level: &Level, from: u32) -> u64
    ensures { result ≡ first_cost (costs_of level.now) from }
{
    if from == 0 {
        level.at_boot
    } else {
        level.at_begin
    }
}

/// What expiries cost in so many ticks, from one on; None above 2^64.
fn known_cost(
    system: &System,
    timings: &[Timing],
    level: &Level,
    from: u32,
    count: u32,
) -> Option<u64>
    ensures { IfSome result (λ sum. sum
        ≡ known_cost timings.now level.now from count (length system.now.alarms)) }
{
    let mut sum: u64 = 0;
    for alarm in 0..system.alarm_count() {
        let often = often_from(timing_in(timings, alarm), from, count)?;
        sum = more(sum, often, number_at(&level.expiries, alarm))?;
    }
    Some(sum)
}

/// The ticks that are needed for a window of so many that begins in a tick; None above 2^64.
fn needed_from(
    system: &System,
    rules: &[ArrivalRule],
    timings: &[Timing],
    level: &Level,
    from: u32,
    count: u32,
) -> Option<u64>
    requires { AreAllPeriodic rules.now }
    ensures { IfSome result (λ sum. sum
        ≡ needed_from system.now rules.now level.now timings.now from count) }
{
    let arrivals = cost_of_arrivals(system, rules, level, count)?;
    let expiries = known_cost(system, timings, level, from, count)?;
    let coming = arrivals.checked_add(expiries)?;
    first_cost(level, from).checked_add(coming)
}

/// The least number of ticks that is enough for a window that begins in a tick, if it is no more
/// than the greatest one that is tried.
fn ticks_from(
    system: &System,
    rules: &[ArrivalRule],
    timings: &[Timing],
    level: &Level,
    from: u32,
) -> Option<u32>
    requires { AreAllPeriodic rules.now }
    ensures { IfSome result
        (λ count. IsShort system.now rules.now level.now timings.now count from) }
{
    let mut count: u32 = 1;
    for _ in 0..MAX_WINDOW {
        let needed = needed_from(system, rules, timings, level, from, count)?;
        if needed <= u64::from(count) {
            return Some(count);
        }
        if needed > u64::from(MAX_WINDOW) {
            return None;
        }
        count = needed as u32;
    }
    None
}

/// Whether so many ticks are enough for a window that begins in a tick.
fn is_enough(
    system: &System,
    rules: &[ArrivalRule],
    timings: &[Timing],
    level: &Level,
    from: u32,
    count: u32,
) -> bool
    requires { AreAllPeriodic rules.now }
    ensures { IsTrue result
        → needed_from system.now rules.now level.now timings.now from count ≤ count }
{
    match needed_from(system, rules, timings, level, from, count) {
        None => false,
        Some(needed) => needed <= u64::from(count),
    }
}

/// The most ticks of some windows and of one more, which begins in a tick; None where it may have
/// too many.
pub(crate) fn longer(
    system: &System,
    rules: &[ArrivalRule],
    timings: &[Timing],
    level: &Level,
    from: u32,
    longest: Longest,
) -> Option<Longest>
    requires periodic { AreAllPeriodic rules.now }
    requires some { 1 ≤ longest.most }
    ensures more { IfSome result (λ new. longest.most ≤ new.most) }
    ensures short { IfSome result
        (λ new. IsShort system.now rules.now level.now timings.now new.most from) }
{
    if is_enough(system, rules, timings, level, from, longest.most) {
        return Some(longest);
    }
    let most = ticks_from(system, rules, timings, level, from)?;
    if most <= longest.most {
        return Some(longest);
    }
    Some(Longest { most, begin: from })
}
