//! OSEK/VDX OS: interrupt processing. What interrupts owe by the rules by which they come.

ghost use Rattle.std.specs.Prelude.{ℕ, ◌≡◌, ◌<◌, ◌≤◌, ◌-◌, IfOk, IsTrue, OnOk, length, map, min, replicate, slice_index_or};
ghost use Rattle.arrival_rules.specs.Rules.{rule_at};
ghost use Rattle.search_labels.specs.Labels.{arrives_in};
ghost use Rattle.search_labels.specs.Parts.{debt_at, debt_behind, each_of};

use crate::places::give_places;
use arrival_rules::ArrivalRule;
use osek_base::IsrId;
use std::alloc::{AllocError, Global};

/// Nothing is owed by so many rules.
pub(crate) fn first_debts(alloc: Global, rules: usize) -> Result<Vec<u32>, AllocError>
    ensures { IfOk result (λ debts. debts.items ≡ replicate rules 0) }
{
    let mut debts = Vec::with_capacity(alloc, rules)?;
    for _made in 0..rules {
        debts.push(0)?;
    }
    Ok(debts)
}

/// Whether a routine arrives with a set.
#[tactic(auto, using(crate::proofs::SetLemmas::not_in))]
#[inline(always)]
fn arrives_in(set: u64, routine: usize) -> bool
    ensures { result ≡ arrives_in set routine }
{
    if routine >= 64 {
        return false;
    }
    (set >> routine) % 2 == 1
}

/// The rule of a number; beyond the list one that says nothing.
#[inline(always)]
fn rule_at(rules: &[ArrivalRule], number: usize) -> ArrivalRule
    ensures { result ≡ rule_at rules.now number }
{
    match rules.get(number) {
        Some(rule) => *rule,
        None => ArrivalRule {
            routine: IsrId::new(0),
            period: 0,
            slack: 1,
        },
    }
}

#[inline(always)]
fn next_debt(debts: &[u32], rules: &[ArrivalRule], set: u64, number: usize) -> u32
    requires { number < length debts.now }
    ensures { result ≡ debt_behind rules.now set debts.now number }
{
    let rule = rule_at(rules, number);
    rule.debt_behind(
        arrives_in(set, usize::from(rule.routine.number())),
        debts[number],
    )
}

/// Puts the debts behind a tick, in which the routines of a set arrive, in place of others.
#[tactic(auto, using(crate::proofs::FilledLemmas::one_more, crate::proofs::FilledLemmas::all_of))]
pub(crate) fn put_next_debts(
    next: &mut Vec<u32>,
    rules: &[ArrivalRule],
    set: u64,
    debts: &[u32],
) -> Result<(), AllocError>
    ensures { OnOk result
        (next.new.items ≡ each_of (debt_behind rules.now set) debts.now) }
{
    give_places(next, debts)?;
    for number in 0..debts.len() {
        next[number] = next_debt(debts, rules, set, number);
    }
    Ok(())
}

/// Whether each debt is no greater than that of the same number among others; at true they are.
pub(crate) fn are_less(debts: &[u32], others: &[u32]) -> bool
    requires { length debts.now ≡ length others.now }
    ensures { IsTrue result → (n : ℕ) → debt_at debts.now n ≤ debt_at others.now n }
{
    for number in 0..debts.len() {
        if debts[number] > others[number] {
            return false;
        }
    }
    true
}

/// Each debt is the smaller of its own and that of the same number among others.
pub(crate) fn join_debts(debts: &mut [u32], others: &[u32])
    requires { length debts.old ≡ length others.now }
    ensures count { length debts.new ≡ length debts.old }
    ensures each { (n : ℕ) →
        debt_at debts.new n ≡ min (debt_at debts.old n) (debt_at others.now n) }
{
    for (number, debt) in debts.iter_mut().enumerate() {
        *debt = (*debt).min(others[number]);
    }
}
