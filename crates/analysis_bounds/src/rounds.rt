//! Rounds of known ticks: from a first tick on, those of a level come again.

ghost use Rattle.std.specs.Prelude.{◌≡◌, ◌≤◌, IsTrue, length, true};
ghost use Rattle.analysis_bounds.specs.KnownTicks.{AreAgain, IsSomeRound, is_again};
ghost use Rattle.analysis_bounds.specs.Levels.{numbered};
ghost use Rattle.analysis_bounds.specs.Timing.{timing_in};

use crate::level::Level;
use crate::timing::{Timing, each_before, timing_in};
use crate::ways::number_at;
use osek_base::System;

/// No round ends later, in ticks.
pub const MOST_TICKS: u32 = 1_000_000;

/// No round has more known ticks before its end.
pub const MOST_BEGINS: u64 = 20_000;

/// So many ticks, from a first one on.
#[derive(Clone, Copy)]
pub(crate) struct Round {
    pub(crate) first: u32,
    pub(crate) ticks: u32,
}

/// Whether from a first tick on no more expiries lie in as many ticks a round later.
fn is_again(timing: Timing, first: u32, round: u32) -> bool
    ensures { IsTrue result → is_again timing first round ≡ true }
{
    match timing {
        Timing::Never => true,
        Timing::Once(tick) => tick <= u64::from(first),
        Timing::Each(tick, gap) => {
            gap >= 1 && tick <= u64::from(first) && u64::from(round) % gap == 0
        }
        Timing::Apart(_) => true,
    }
}

/// Whether those of an alarm do whose expiry costs something.
fn alarm_is_again(timings: &[Timing], level: &Level, alarm: usize, first: u32, round: u32) -> bool
    ensures { IsTrue result → 1 ≤ numbered level.now.expiries.items alarm
        → is_again (timing_in timings.now alarm) first round ≡ true }
{
    number_at(&level.expiries, alarm) == 0 || is_again(timing_in(timings, alarm), first, round)
}

/// Whether those of all alarms do.
fn are_again(system: &System, timings: &[Timing], level: &Level, first: u32, round: u32) -> bool
    ensures { IsTrue result
        → AreAgain timings.now level.now first round (length system.now.alarms) }
{
    for alarm in 0..system.alarm_count() {
        if !alarm_is_again(timings, level, alarm, first, round) {
            return false;
        }
    }
    true
}

/// Whether known ticks of a level come again after so many ticks, from a first one on; at true they
/// do.
pub(crate) fn is_round(
    system: &System,
    timings: &[Timing],
    level: &Level,
    first: u32,
    round: u32,
) -> bool
    ensures { IsTrue result → IsSomeRound system.now level.now timings.now first round }
{
    first >= 1 && round >= 1 && are_again(system, timings, level, first, round)
}

/// The greatest number that divides both.
fn common_divisor(one: u64, other: u64) -> u64 {
    let mut one = one;
    let mut other = other;
    for _ in 0..u64::BITS * 2 {
        if other == 0 {
            return one;
        }
        let rest = one % other;
        one = other;
        other = rest;
    }
    1
}

/// The least number that both divide; None above 2^64, or where there is none.
fn common_multiple(one: u64, other: u64) -> Option<u64> {
    let divisor = common_divisor(one, other);
    if divisor == 0 {
        return None;
    }
    one.checked_mul(other / divisor)
}

/// A tick or a number of ticks, if that isn't too great.
fn within(ticks: u64) -> Option<u32> {
    if ticks > u64::from(MOST_TICKS) {
        return None;
    }
    Some(ticks as u32)
}

/// A round, with an alarm's known ticks as well; None where it would be too long.
fn with_alarm(timing: Timing, round: Round) -> Option<Round> {
    match timing {
        Timing::Never => Some(round),
        Timing::Once(tick) => {
            let first = within(tick)?.max(round.first);
            Some(Round {
                first,
                ticks: round.ticks,
            })
        }
        Timing::Each(tick, gap) => {
            let first = within(tick)?.max(round.first);
            let ticks = within(common_multiple(u64::from(round.ticks), gap)?)?;
            Some(Round { first, ticks })
        }
        Timing::Apart(_) => Some(round),
    }
}

/// How many known ticks of an alarm lie below a tick.
fn begins_of(timing: Timing, end: u32) -> u64 {
    match timing {
        Timing::Never => 0,
        Timing::Once(_) => 1,
        Timing::Each(first, gap) => {
            if gap == 0 {
                return MOST_BEGINS;
            }
            each_before(first, gap, u64::from(end))
        }
        Timing::Apart(_) => 0,
    }
}

/// Whether few known ticks lie below a tick.
fn are_few(system: &System, timings: &[Timing], level: &Level, end: u32) -> bool {
    let mut begins: u64 = 0;
    for alarm in 0..system.alarm_count() {
        if number_at(&level.expiries, alarm) >= 1 {
            begins = begins.saturating_add(begins_of(timing_in(timings, alarm), end));
        }
    }
    begins <= MOST_BEGINS
}

/// The least round of a level; None where it's too long, or has too many known ticks.
pub(crate) fn round_of(system: &System, timings: &[Timing], level: &Level) -> Option<Round> {
    let mut round = Round { first: 1, ticks: 1 };
    for alarm in 0..system.alarm_count() {
        if number_at(&level.expiries, alarm) >= 1 {
            round = with_alarm(timing_in(timings, alarm), round)?;
        }
    }
    let end = round.first.checked_add(round.ticks)?;
    if end > MOST_TICKS {
        return None;
    }
    if !are_few(system, timings, level, end) {
        return None;
    }
    Some(round)
}
