//! OSEK/VDX OS: interrupt processing, category 2. Whether arrivals keep rules.

ghost use Rattle.std.specs.Prelude.{◌≡◌, IsTrue, true, nat_lt};
ghost use Rattle.std.specs.List.{list_all};
ghost use Rattle.osek_base.specs.ArrivalList.{are_in_order};
ghost use Rattle.osek_base.specs.declared.arrivals.Arrival.{Arrival};
ghost use Rattle.kernel.specs.Progress.{AreKnown};
ghost use Rattle.search_witnesses.specs.Listing.{come_once, comes_behind, keep_each, keeps_from};
ghost use Rattle.search_witnesses.specs.Listed.{IsKeptList};

use crate::debt::{Debt, routine_of};
use arrival_rules::ArrivalRule;
use osek_base::{Arrival, Arrivals, System};

/// Whether none of some arrivals is of a routine and comes before a tick. They are in order, so
/// none is asked behind the first that doesn't come before it.
fn come_behind(routine: usize, tick: u64, later: &[Arrival]) -> bool
    requires { are_in_order 0 later.now ≡ true }
    ensures { result ≡ list_all (comes_behind routine tick) later.now }
{
    for arrival in later {
        if tick <= u64::from(arrival.tick) {
            return true;
        }
        if routine_of(arrival) == routine {
            return false;
        }
    }
    true
}

/// Whether the arrivals of each routine come in ticks of their own.
fn come_once(arrivals: &[Arrival]) -> bool
    requires { are_in_order 0 arrivals.now ≡ true }
    ensures { result ≡ come_once arrivals.now }
{
    for (place, arrival) in arrivals.iter().enumerate() {
        let later = &arrivals[place + 1..];
        if !come_behind(routine_of(arrival), u64::from(arrival.tick) + 1, later) {
            return false;
        }
    }
    true
}

/// Whether arrivals in order keep a rule: each of its routine comes where the debt is below the
/// slack.
fn keep_one(rule: &ArrivalRule, arrivals: &[Arrival]) -> bool
    ensures { result ≡ keeps_from rule.now 0 0 arrivals.now }
{
    let mut debt = Debt::none();
    for arrival in arrivals {
        if !debt.admit(rule, arrival) {
            return false;
        }
    }
    true
}

/// Whether they keep each of some rules.
fn keep_each(rules: &[ArrivalRule], arrivals: &[Arrival]) -> bool
    ensures { result ≡ keep_each rules.now arrivals.now }
{
    rules.iter().all(|rule| keep_one(rule, arrivals))
}

/// Whether all arrivals are of routines of which there are so many.
fn are_known(count: usize, arrivals: &[Arrival]) -> bool
    ensures { result ≡ list_all (λ (a : Arrival). nat_lt a.routine count) arrivals.now }
{
    arrivals.iter().all(|arrival| routine_of(arrival) < count)
}

/// Whether all arrivals are of routines of a system; at true they are.
pub(crate) fn are_of_routines(system: &System, arrivals: &[Arrival]) -> bool
    ensures { IsTrue result → AreKnown system.now arrivals.now }
{
    are_known(system.routine_count(), arrivals)
}

/// Whether arrivals are of routines of a system and keep rules; at true they do, and no two of a
/// routine come in one tick.
pub(crate) fn keep_rules(system: &System, rules: &[ArrivalRule], arrivals: &Arrivals) -> bool
    ensures { IsTrue result → IsKeptList system.now rules.now arrivals.now }
{
    let list = arrivals.list();
    if !are_known(system.routine_count(), list) {
        return false;
    }
    if !come_once(list) {
        return false;
    }
    keep_each(rules, list)
}
