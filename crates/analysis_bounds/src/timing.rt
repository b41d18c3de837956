//! OSEK/VDX OS: alarms, counters and alarm management. When alarms expire: those that boot alone
//! starts, in known ticks.

ghost use Rattle.std.specs.Prelude.{ℕ, ◌≡◌, ◌<◌, ◌^◌, IfOk, IfSome, length};
ghost use Rattle.analysis_bounds.specs.Levels.{numbered};
ghost use Rattle.analysis_bounds.specs.Timing.{
  AreTimed,
  each_before,
  often_from,
  once_before,
  timing_by,
  timing_in,
  timing_of,
};

use crate::coming::most_in;
use crate::pacing::{count_at, is_never_set, ticks_of};
use osek_base::{AlarmId, ModeId, System};
use std::alloc::{AllocError, Global};

/// When an alarm expires, in ticks.
#[derive(Clone, Copy)]
pub enum Timing {
    Never,
    /// In that tick and in no other one.
    Once(u64),
    /// In a first tick, and so many ticks apart from there on.
    Each(u64, u64),
    /// When programs set it, so many ticks apart at least.
    Apart(u64),
}

/// When an alarm expires that boot alone starts.
fn timing_by(base: u32, start: Option<(u32, u32)>) -> Timing
    ensures { result ≡ timing_by start base }
{
    match start {
        None => Timing::Never,
        Some((time, cycle)) => {
            let first = ticks_of(time, base);
            if cycle == 0 {
                Timing::Once(first)
            } else {
                Timing::Each(first, ticks_of(cycle, base))
            }
        }
    }
}

/// When an alarm expires that is set by so many counts at least, where programs set it.
fn timing_of(system: &System, mode: ModeId, least: &[u32], alarm: AlarmId) -> Timing
    requires { alarm < length system.now.alarms }
    ensures { result ≡ timing_of system.now mode (numbered least.now) alarm }
{
    let base = system.counter_of(alarm).ticks_per_base;
    let number = alarm.number() as usize;
    if is_never_set(system, number) {
        timing_by(base, system.alarm_start(mode, alarm))
    } else {
        Timing::Apart(ticks_of(count_at(least, number), base))
    }
}

/// When each alarm expires. An error is want of memory.
pub(crate) fn timings_of(
    alloc: Global,
    system: &System,
    mode: ModeId,
    least: &[u32],
) -> Result<Vec<Timing>, AllocError>
    ensures { IfOk result (λ timings. AreTimed system.now mode least.now timings.items) }
{
    let mut timings = Vec::new(alloc);
    for number in 0..system.alarm_count() {
        timings.push(timing_of(system, mode, least, AlarmId::new(number as u8)))?;
    }
    Ok(timings)
}

/// When an alarm expires: never where there is none.
pub(crate) fn timing_in(timings: &[Timing], alarm: usize) -> Timing
    ensures { result ≡ timing_in timings.now alarm }
{
    if alarm < timings.len() {
        timings[alarm]
    } else {
        Timing::Never
    }
}

/// How many lie below a tick, of one alone.
fn once_before(tick: u64, end: u64) -> u64
    ensures { result ≡ once_before tick end }
{
    if end <= tick { 0 } else { 1 }
}

/// How many lie below a tick, of those that lie a gap apart from a first one on.
pub(crate) fn each_before(first: u64, gap: u64, end: u64) -> u64
    requires gap { 0 < gap }
    requires few { end < 2 ^ 40 }
    ensures { result ≡ each_before first gap end }
{
    if end <= first {
        0
    } else {
        most_in(gap, end - first)
    }
}

/// How often an alarm expires at most in so many ticks, from one on; None where two would expire in
/// one tick.
pub(crate) fn often_from(timing: Timing, from: u32, count: u32) -> Option<u64>
    ensures { IfSome result (λ often. often ≡ often_from timing from count) }
{
    let begin = u64::from(from);
    let end = begin + u64::from(count);
    match timing {
        Timing::Never => Some(0),
        Timing::Once(tick) => {
            Some(once_before(tick, end).saturating_sub(once_before(tick, begin)))
        }
        Timing::Each(first, gap) => {
            if gap == 0 {
                return None;
            }
            let all = each_before(first, gap, end);
            Some(all.saturating_sub(each_before(first, gap, begin)))
        }
        Timing::Apart(gap) => {
            if gap == 0 {
                return None;
            }
            Some(most_in(gap, u64::from(count)))
        }
    }
}
