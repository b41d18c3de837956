//! OSEK/VDX OS: interrupt processing, category 2. Whether what comes again and again pays what it
//! owes.

ghost use Rattle.std.specs.Prelude.{◌≡◌, ◌≤◌, IsTrue, length};
ghost use Rattle.std.specs.List.{filter};
ghost use Rattle.search_witnesses.specs.Listing.{ArePaid, comes_between, pay_by_each, pays_by};

use crate::debt::routine_of;
use arrival_rules::ArrivalRule;
use osek_base::Arrival;

/// Whether an arrival is of a routine, and comes at a tick or behind it, and before another.
fn comes_between(routine: usize, from: u32, until: u32, arrival: &Arrival) -> bool
    ensures { result ≡ comes_between routine from until arrival.now }
{
    routine_of(arrival) == routine && from <= arrival.tick && arrival.tick < until
}

/// How many arrivals of a routine come at a tick or behind it, and before another.
fn number_between(routine: usize, from: u32, until: u32, arrivals: &[Arrival]) -> usize
    ensures { result ≡ length (filter (comes_between routine from until) arrivals.now) }
{
    arrivals
        .iter()
        .filter(|arrival| comes_between(routine, from, until, arrival))
        .count()
}

/// Whether by a rule the arrivals in some ticks add no more than these take off.
fn pays_by(rule: &ArrivalRule, arrivals: &[Arrival], from: u32, until: u32) -> bool
    ensures { result ≡ pays_by rule.now arrivals.now from until }
{
    let routine = usize::from(rule.routine.number());
    let number = number_between(routine, from, until, arrivals) as u64;
    let added = number.saturating_mul(u64::from(rule.period));
    added <= u64::from(until.saturating_sub(from))
}

/// The same by each rule.
fn pay_by_each(rules: &[ArrivalRule], arrivals: &[Arrival], from: u32, until: u32) -> bool
    ensures { result ≡ pay_by_each rules.now arrivals.now from until }
{
    rules
        .iter()
        .all(|rule| pays_by(rule, arrivals, from, until))
}

/// Whether by no rule the arrivals from a tick on and before another add more than these ticks take
/// off; at true they don't.
pub(crate) fn are_paid(rules: &[ArrivalRule], arrivals: &[Arrival], from: u32, until: u32) -> bool
    requires { from ≤ until }
    ensures { IsTrue result → ArePaid rules.now arrivals.now from until }
{
    pay_by_each(rules, arrivals, from, until)
}
