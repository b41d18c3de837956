//! What a routine or an alarm takes of the ticks of a window. For people: nothing is proved of it
//! but safety.

use crate::coming::{are_periodic, most_at, most_of, pace_in};
use crate::expiring::Alarms;
use crate::level::Level;
use crate::timing::{often_from, timing_in};
use crate::ways::number_at;
use arrival_rules::ArrivalRule;

/// How many interrupts of a routine come at most in so many ticks in a row, and how many
/// instructions each costs.
pub fn routine_share(
    rules: &[ArrivalRule],
    level: &Level,
    routine: usize,
    count: u32,
) -> (u64, u64) {
    let times = if are_periodic(rules) {
        most_of(rules, routine, count)
    } else {
        u64::from(count)
    };
    (times, number_at(&level.arrivals, routine))
}

/// How often an alarm expires at most in so many ticks, from that one on or, where there is none,
/// anywhere in a row; and how many instructions each expiry costs.
pub fn alarm_share(
    alarms: &Alarms,
    level: &Level,
    alarm: usize,
    count: u32,
    from: Option<u32>,
) -> (u64, u64) {
    let often = match from {
        None => most_at(pace_in(&alarms.paces, alarm), count),
        Some(begin) => often_from(timing_in(&alarms.timings, alarm), begin, count),
    };
    let times = often.unwrap_or(u64::from(count));
    (times, number_at(&level.expiries, alarm))
}
