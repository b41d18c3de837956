//! Windows of a level one by one, where known ticks come again after a round.

ghost use Rattle.std.specs.Prelude.{ℕ, ◌+◌, ◌*◌, ◌<◌, ◌≤◌, IfSome, List, length};
ghost use Rattle.analysis_bounds.specs.Coming.{AreAllPeriodic};
ghost use Rattle.analysis_bounds.specs.KnownTicks.{
  AreAllShortAt,
  AreShort,
  AreShortAt,
  AreShortByRounds,
  IsShort,
};
ghost use Rattle.analysis_bounds.specs.Levels.{numbered};
ghost use Rattle.analysis_bounds.specs.Timing.{AreTimed, timing_in};

use crate::begins::{Longest, longer};
use crate::coming::are_periodic;
use crate::level::Level;
use crate::rounds::{MOST_TICKS, is_round, round_of};
use crate::timing::{Timing, timing_in};
use crate::ways::number_at;
use arrival_rules::ArrivalRule;
use osek_base::System;

/// The most ticks of windows, with those that begin in one tick, if that lies before an end.
fn with_tick(
    system: &System,
    rules: &[ArrivalRule],
    timings: &[Timing],
    level: &Level,
    tick: u64,
    end: u32,
    longest: Longest,
) -> Option<Longest>
    requires periodic { AreAllPeriodic rules.now }
    requires some { 1 ≤ longest.most }
    ensures more { IfSome result (λ new. longest.most ≤ new.most) }
    ensures short { IfSome result (λ new. tick < end
        → IsShort system.now rules.now level.now timings.now new.most tick) }
{
    if tick >= u64::from(end) {
        return Some(longest);
    }
    longer(system, rules, timings, level, tick as u32, longest)
}

/// .. with those that begin in a tick of a first one and so many apart from there on.
fn with_each(
    system: &System,
    rules: &[ArrivalRule],
    timings: &[Timing],
    level: &Level,
    first: u64,
    gap: u64,
    end: u32,
    longest: Longest,
) -> Option<Longest>
    requires periodic { AreAllPeriodic rules.now }
    requires some { 1 ≤ longest.most }
    ensures more { IfSome result (λ new. longest.most ≤ new.most) }
    ensures short { IfSome result (λ new. (k : ℕ) → first + k * gap < end
        → IsShort system.now rules.now level.now timings.now new.most (first + k * gap)) }
{
    let mut tick = first;
    let mut now = longest;
    for _ in 0..MOST_TICKS {
        now = with_tick(system, rules, timings, level, tick, end, now)?;
        let left = u64::from(end).saturating_sub(tick);
        if gap >= left {
            return Some(now);
        }
        tick += gap;
    }
    None
}

/// .. with those that begin in a known tick of an alarm.
fn with_timing(
    system: &System,
    rules: &[ArrivalRule],
    timings: &[Timing],
    level: &Level,
    timing: Timing,
    end: u32,
    longest: Longest,
) -> Option<Longest>
    requires periodic { AreAllPeriodic rules.now }
    requires some { 1 ≤ longest.most }
    ensures more { IfSome result (λ new. longest.most ≤ new.most) }
    ensures short { IfSome result (λ new.
        AreShortAt timing system.now rules.now level.now timings.now new.most end) }
{
    match timing {
        Timing::Never => Some(longest),
        Timing::Once(tick) => with_tick(system, rules, timings, level, tick, end, longest),
        Timing::Each(first, gap) => {
            with_each(system, rules, timings, level, first, gap, end, longest)
        }
        Timing::Apart(_) => Some(longest),
    }
}

/// .. where its expiry costs something.
fn with_alarm(
    system: &System,
    rules: &[ArrivalRule],
    timings: &[Timing],
    level: &Level,
    alarm: usize,
    end: u32,
    longest: Longest,
) -> Option<Longest>
    requires periodic { AreAllPeriodic rules.now }
    requires some { 1 ≤ longest.most }
    ensures more { IfSome result (λ new. longest.most ≤ new.most) }
    ensures short { IfSome result (λ new. 1 ≤ numbered level.now.expiries.items alarm
        → AreShortAt (timing_in timings.now alarm) system.now rules.now level.now timings.now
        new.most end) }
{
    if number_at(&level.expiries, alarm) == 0 {
        return Some(longest);
    }
    let timing = timing_in(timings, alarm);
    with_timing(system, rules, timings, level, timing, end, longest)
}

/// .. of all alarms.
fn with_alarms(
    system: &System,
    rules: &[ArrivalRule],
    timings: &[Timing],
    level: &Level,
    end: u32,
    longest: Longest,
) -> Option<Longest>
    requires periodic { AreAllPeriodic rules.now }
    requires some { 1 ≤ longest.most }
    ensures more { IfSome result (λ new. longest.most ≤ new.most) }
    ensures short { IfSome result (λ new. AreAllShortAt system.now rules.now level.now timings.now
        new.most end (length system.now.alarms)) }
{
    let mut now = longest;
    for alarm in 0..system.alarm_count() {
        now = with_alarm(system, rules, timings, level, alarm, end, now)?;
    }
    Some(now)
}

/// The most ticks of windows that begin with the run, in one tick, or before an end in a known
/// tick.
fn most_at_expiries(
    system: &System,
    rules: &[ArrivalRule],
    timings: &[Timing],
    level: &Level,
    first: u32,
    end: u32,
) -> Option<Longest>
    requires { AreAllPeriodic rules.now }
    ensures { IfSome result (λ new.
        AreShort system.now rules.now level.now timings.now new.most first end) }
{
    let none = Longest { most: 1, begin: 0 };
    let at_boot = longer(system, rules, timings, level, 0, none)?;
    let at_first = longer(system, rules, timings, level, first, at_boot)?;
    with_alarms(system, rules, timings, level, end, at_first)
}

/// The most ticks of windows that begin before the end of a round: so many at most, as known ticks
/// come again. None where it's too long, has too many known ticks, or a window may be too long.
pub(crate) fn longest_of(
    system: &System,
    rules: &[ArrivalRule],
    timings: &[Timing],
    level: &Level,
) -> Option<Longest>
    ensures { IfSome result (λ new. (mode : ℕ) (least : List ℕ)
        → AreTimed system.now mode least timings.now
        → AreShortByRounds system.now mode rules.now level.now least new.most) }
{
    if !are_periodic(rules) {
        return None;
    }
    let round = round_of(system, timings, level)?;
    if !is_round(system, timings, level, round.first, round.ticks) {
        return None;
    }
    let end = round.first.checked_add(round.ticks)?;
    most_at_expiries(system, rules, timings, level, round.first, end)
}
