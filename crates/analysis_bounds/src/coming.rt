//! What can come in some ticks in a row costs so much at most.

ghost use Rattle.std.specs.Prelude.{◌+◌, ◌*◌, ◌≡◌, ◌<◌, ◌≤◌, ◌^◌, IfSome, IsTrue, length};
ghost use Rattle.std.specs.List.{AllByRecursion, sum_by};
ghost use Rattle.osek_base.specs.Lists.{below};
ghost use Rattle.arrival_rules.specs.declared.rule.ArrivalRule.{ArrivalRule};
ghost use Rattle.law_alarms.specs.Spaced.{most_in};
ghost use Rattle.law_windows.specs.Analysis.{AreAlwaysEnough, most_by, most_cost, most_of};
ghost use Rattle.law_windows.specs.Expiring.{most_expiries};
ghost use Rattle.analysis_bounds.specs.Coming.{AreAllPeriodic, IsEnoughFor, arrivals_cost, expiries_cost};
ghost use Rattle.analysis_bounds.specs.Levels.{costs_of, numbered};
ghost use Rattle.analysis_bounds.specs.Pacing.{ArePaces, most_at, pace_in};

use crate::level::Level;
use crate::pacing::Pace;
use crate::ways::{fits, number_at};
use arrival_rules::ArrivalRule;
use osek_base::{ModeId, System};

/// How many that lie a gap apart find room in so many ticks.
pub(crate) fn most_in(gap: u64, count: u64) -> u64
    requires gap { 0 < gap }
    requires few { count < 2 ^ 40 }
    ensures value { result ≡ most_in gap count }
    ensures few { result ≤ 2 ^ 40 }
{
    count.saturating_sub(1) / gap + 1
}

/// Whether a rule has a period.
fn is_periodic(rule: &ArrivalRule) -> bool
    ensures { IsTrue result → 1 ≤ rule.now.period }
{
    rule.period >= 1
}

/// Whether each rule has a period; at true each has.
pub(crate) fn are_periodic(rules: &[ArrivalRule]) -> bool
    ensures { IsTrue result → AreAllPeriodic rules.now }
{
    match rules.split_first() {
        None => true,
        Some((first, rest)) => is_periodic(first) && are_periodic(rest),
    }
}

/// How many of its interrupts a rule lets come in so many ticks in a row.
fn most_by(rule: &ArrivalRule, count: u32) -> u64
    requires { 1 ≤ rule.now.period }
    ensures { result ≡ most_by rule.now count }
{
    if rule.slack == 0 {
        return 0;
    }
    let ticks = u64::from(count) + u64::from(rule.slack) - 1;
    most_in(u64::from(rule.period), ticks)
}

/// How many interrupts of a routine all rules let come in so many ticks in a row.
pub(crate) fn most_of(rules: &[ArrivalRule], routine: usize, count: u32) -> u64
    requires { AreAllPeriodic rules.now }
    ensures { result ≡ most_of rules.now routine count }
{
    match rules.split_first() {
        None => u64::from(count),
        Some((first, rest)) => {
            let others = most_of(rest, routine, count);
            if first.routine.number() as usize == routine {
                most_by(first, count).min(others)
            } else {
                others
            }
        }
    }
}

/// The product of two numbers, and a third; None above 2^64.
pub(crate) fn more(sum: u64, times: u64, cost: u64) -> Option<u64>
    ensures { IfSome result (λ all. all ≡ sum + times * cost) }
{
    let product = times.checked_mul(cost)?;
    sum.checked_add(product)
}

/// What interrupts cost that come in so many ticks in a row; None above 2^64.
pub(crate) fn cost_of_arrivals(
    system: &System,
    rules: &[ArrivalRule],
    level: &Level,
    count: u32,
) -> Option<u64>
    requires { AreAllPeriodic rules.now }
    ensures { IfSome result (λ sum. sum ≡ arrivals_cost rules.now level.now count
        (length system.now.routines)) }
{
    let mut sum: u64 = 0;
    for routine in 0..system.routine_count() {
        let many = most_of(rules, routine, count);
        sum = more(sum, many, number_at(&level.arrivals, routine))?;
    }
    Some(sum)
}

/// The pace of an alarm: it never expires where there is none.
pub(crate) fn pace_in(paces: &[Pace], alarm: usize) -> Pace
    ensures { result ≡ pace_in paces.now alarm }
{
    if alarm < paces.len() {
        paces[alarm]
    } else {
        Pace::Never
    }
}

/// How often at most in so many ticks; None where two would expire in one tick.
pub(crate) fn most_at(pace: Pace, count: u32) -> Option<u64>
    ensures { IfSome result (λ often. often ≡ most_at pace count) }
{
    match pace {
        Pace::Never => Some(0),
        Pace::Once => Some(1),
        Pace::Each(gap) => {
            if gap == 0 {
                return None;
            }
            Some(most_in(gap, u64::from(count)))
        }
    }
}

/// What expiries cost in so many ticks in a row; None above 2^64.
fn cost_of_expiries(system: &System, paces: &[Pace], level: &Level, count: u32) -> Option<u64>
    ensures { IfSome result (λ sum. sum ≡ expiries_cost paces.now level.now count
        (length system.now.alarms)) }
{
    let mut sum: u64 = 0;
    for alarm in 0..system.alarm_count() {
        let often = most_at(pace_in(paces, alarm), count)?;
        sum = more(sum, often, number_at(&level.expiries, alarm))?;
    }
    Some(sum)
}

/// What can come in so many ticks in a row costs so much at most; None above 2^64.
pub(crate) fn most_cost(
    system: &System,
    rules: &[ArrivalRule],
    paces: &[Pace],
    level: &Level,
    count: u32,
) -> Option<u64>
    requires { AreAllPeriodic rules.now }
    ensures { IfSome result (λ sum. sum ≡
        arrivals_cost rules.now level.now count (length system.now.routines)
        + expiries_cost paces.now level.now count (length system.now.alarms)) }
{
    let arrivals = cost_of_arrivals(system, rules, level, count)?;
    let expiries = cost_of_expiries(system, paces, level, count)?;
    arrivals.checked_add(expiries)
}

/// Whether so many ticks are enough for what may be left where a window begins and for what comes.
fn is_enough_for(level: &Level, more: u64, most: u32) -> bool
    ensures { IsTrue result → IsEnoughFor level.now more most }
{
    if most < 1 {
        return false;
    }
    if !fits(level.at_boot, more, u64::from(most)) {
        return false;
    }
    fits(level.at_begin, more, u64::from(most))
}

/// Whether so many ticks are enough for each window of a level: for what may be left where it
/// begins and for all that can come in them; at true they are.
pub fn are_enough(
    system: &System,
    mode: ModeId,
    rules: &[ArrivalRule],
    level: &Level,
    least: &[u32],
    paces: &[Pace],
    most: u32,
) -> bool
    requires { ArePaces system.now mode least.now paces.now }
    ensures { IsTrue result → AreAlwaysEnough system.now rules.now (costs_of level.now)
        (most_expiries system.now mode (numbered least.now) most) most }
{
    if !are_periodic(rules) {
        return false;
    }
    match most_cost(system, rules, paces, level, most) {
        None => false,
        Some(more) => is_enough_for(level, more, most),
    }
}
