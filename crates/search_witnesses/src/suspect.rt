//! Where a run may come twice to one state while a job of a task stands, of which contracts see
//! nothing: what is found here is tried.

ghost use Rattle.kernel.specs.Progress.{AreKnown};

use crate::debt::Debt;
use crate::paying::are_paid;
use crate::walk::Walk;
use arrival_rules::ArrivalRule;
use osek_base::{Arrival, Arrivals, ModeId, System};
use search_needs::Needs;
use std::alloc::{AllocError, Global};

/// A tick, and the key of the state before it.
#[derive(Drop)]
struct Mark {
    tick: u32,
    key: Vec<u8>,
}

/// Whether by a rule all that arrives from a tick on and before another may come once more behind
/// that one.
fn may_come(rule: &ArrivalRule, arrivals: &[Arrival], from: u32, until: u32) -> bool {
    let mut debt = Debt::none();
    for arrival in arrivals {
        if arrival.tick < until {
            debt.admit(rule, arrival);
        }
    }
    for arrival in arrivals {
        if from <= arrival.tick && arrival.tick < until {
            let again = Arrival {
                tick: arrival.tick.saturating_add(until.saturating_sub(from)),
                routine: arrival.routine,
            };
            if !debt.admit(rule, &again) {
                return false;
            }
        }
    }
    true
}

/// Whether all that arrives between two ticks may come again and again behind the second.
fn may_come_again(rules: &[ArrivalRule], arrivals: &[Arrival], from: u32, until: u32) -> bool {
    from < until
        && are_paid(rules, arrivals, from, until)
        && rules
            .iter()
            .all(|rule| may_come(rule, arrivals, from, until))
}

/// The tick of the first mark with a key from which on all may come again.
fn earlier(
    rules: &[ArrivalRule],
    arrivals: &[Arrival],
    marks: &[Mark],
    mark: &Mark,
) -> Option<u32> {
    for earlier in marks {
        if earlier.key == mark.key && may_come_again(rules, arrivals, earlier.tick, mark.tick) {
            return Some(earlier.tick);
        }
    }
    None
}

/// Two ticks before which a run that is walked for so many ticks comes to one state, while a job of
/// a task stands, and between which all arrivals may come again. Of the states since a job stands
/// those are compared with that came behind 0, 1, 2, 4, 8 and so on ticks: what comes in turns
/// comes twice behind one of them. An error is want of memory.
pub(crate) fn suspected(
    alloc: Global,
    system: &System,
    mode: ModeId,
    rules: &[ArrivalRule],
    needs: &Needs,
    arrivals: &Arrivals,
    ticks: usize,
    task: usize,
) -> Result<Option<(u32, u32)>, AllocError>
    requires { AreKnown system.now arrivals.now }
{
    let mut walk = Walk::begin(alloc, system, mode, arrivals)?;
    let mut marks = Vec::new(alloc);
    let mut stood = 0u32;
    for _tick in 0..=ticks {
        let mark = Mark {
            tick: walk.ticks(),
            key: walk.key(alloc, needs)?,
        };
        if let Some(from) = earlier(rules, arrivals.list(), &marks, &mark) {
            return Ok(Some((from, mark.tick)));
        }
        if stood == 0 || stood.is_power_of_two() {
            marks.push(mark)?;
        }
        if !walk.advance() {
            return Ok(None);
        }
        stood = stood.saturating_add(1);
        if !walk.stood(task) {
            marks.clear();
            stood = 0;
        }
    }
    Ok(None)
}
