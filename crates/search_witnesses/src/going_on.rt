//! OSEK/VDX OS: interrupt processing, category 2. How interrupts go on behind those of a path, of
//! which contracts see nothing.

use crate::debt::Debt;
use arrival_rules::ArrivalRule;
use osek_base::{Arrival, IsrId, MAX_ROUTINES};
use std::alloc::{AllocError, Global};

/// How interrupts go on.
#[derive(Clone, Copy)]
pub(crate) enum GoingOn {
    /// None comes any more.
    Never,
    /// Those of each routine come as soon as they may.
    AsSoonAsTheyMay,
}

/// A rule, and what interrupts owe by it.
#[derive(Clone, Copy)]
struct Owing {
    rule: ArrivalRule,
    debt: Debt,
}

/// What is owed by a rule behind some arrivals in order.
fn debt_behind(rule: &ArrivalRule, arrivals: &[Arrival]) -> Debt {
    let mut debt = Debt::none();
    for arrival in arrivals {
        debt.admit(rule, arrival);
    }
    debt
}

/// The same by each rule.
fn owed_behind(
    alloc: Global,
    rules: &[ArrivalRule],
    arrivals: &[Arrival],
) -> Result<Vec<Owing>, AllocError> {
    let mut owed = Vec::with_capacity(alloc, rules.len())?;
    for rule in rules {
        let debt = debt_behind(rule, arrivals);
        owed.push(Owing { rule: *rule, debt })?;
    }
    Ok(owed)
}

/// Whether an arrival may come by each rule; where it may, it has come.
fn admit(owed: &mut [Owing], arrival: &Arrival) -> bool {
    for owing in owed.iter() {
        if !owing.debt.may_admit(&owing.rule, arrival) {
            return false;
        }
    }
    for owing in owed.iter_mut() {
        owing.debt.admit(&owing.rule, arrival);
    }
    true
}

/// Adds interrupts from a tick on and before another, of so many routines that there are, behind
/// arrivals before it. An error is want of memory.
pub(crate) fn go_on(
    alloc: Global,
    arrivals: &mut Vec<Arrival>,
    how: GoingOn,
    rules: &[ArrivalRule],
    count: usize,
    from: u32,
    until: u32,
) -> Result<(), AllocError> {
    if how == GoingOn::Never {
        return Ok(());
    }
    let mut owed = owed_behind(alloc, rules, arrivals)?;
    for tick in from..until {
        for number in 0..count.min(MAX_ROUTINES) {
            let routine = IsrId::new(number as u8);
            let arrival = Arrival { tick, routine };
            if admit(&mut owed, &arrival) {
                arrivals.push(arrival)?;
            }
        }
    }
    Ok(())
}
