//! OSEK/VDX OS: event mechanism. Costs of events, by task and event.

ghost use Rattle.std.specs.Prelude.{◌≡◌, ◌<◌, ◌||◌, IfSome, IsTrue, drop, nat_le, not, true};
ghost use Rattle.std.specs.List.{filter, sum_by};
ghost use Rattle.osek_base.specs.declared.limits.TheConstants.{MAX_EVENTS};
ghost use Rattle.law_nodes.specs.Early.{bits, is_set, least_in, least_of, lesser, sum_besides, sum_of};
ghost use Rattle.analysis_bounds.specs.Checks.{cost_each, task_pays};
ghost use Rattle.analysis_bounds.specs.Events.{is_summed};
ghost use Rattle.analysis_bounds.specs.Levels.{by_event, weights_of};

use crate::level::Level;
use crate::ways::number_at;
use osek_base::{MAX_EVENTS, MAX_TASKS};

/// Whether a mask has an event.
pub(crate) fn is_set(mask: u32, event: usize) -> bool
    requires { event < MAX_EVENTS }
    ensures { result ≡ is_set mask event }
{
    (mask >> event) % 2 == 1
}

/// What an event of a task costs, 0 where nothing is said.
pub(crate) fn event_at(list: &[u64], task: u8, event: usize) -> u64
    requires { event < MAX_EVENTS }
    ensures { result ≡ by_event list.now task event }
{
    number_at(list, task as usize * MAX_EVENTS + event)
}

/// Whether an event is summed: one of a mask, or one besides.
fn is_summed(mask: u32, besides: bool, event: usize) -> bool
    requires { event < MAX_EVENTS }
    ensures { result ≡ is_summed mask besides event }
{
    let set = is_set(mask, event);
    if besides { !set } else { set }
}

/// What events of a task cost together; None above 2^64.
fn sum_events(list: &[u64], task: u8, mask: u32, besides: bool) -> Option<u64>
    ensures { IfSome result (λ sum.
        sum ≡ sum_by (by_event list.now task) (filter (is_summed mask besides) bits)) }
{
    let mut sum: u64 = 0;
    for event in 0..MAX_EVENTS {
        if is_summed(mask, besides, event) {
            sum = sum.checked_add(event_at(list, task, event))?;
        }
    }
    Some(sum)
}

/// What the events of a mask cost together; None above 2^64.
fn sum_of(list: &[u64], task: u8, mask: u32) -> Option<u64>
    ensures { IfSome result (λ sum. sum ≡ sum_of (by_event list.now task) mask) }
{
    sum_events(list, task, mask, false)
}

/// What events of a task cost that are set; None above 2^64.
pub(crate) fn cost_of_set(level: &Level, task: u8, mask: u32) -> Option<u64>
    ensures { IfSome result (λ cost. cost ≡ (weights_of level.now).of_event task mask) }
{
    sum_of(&level.sets, task, mask)
}

/// What all events cost together that aren't in a mask; None above 2^64.
fn sum_besides(list: &[u64], task: u8, mask: u32) -> Option<u64>
    ensures { IfSome result (λ sum. sum ≡ sum_besides (by_event list.now task) mask) }
{
    sum_events(list, task, mask, true)
}

/// What all events of a task hold that aren't used; None above 2^64.
pub(crate) fn held_besides(level: &Level, task: u8, used: u32) -> Option<u64>
    ensures { IfSome result (λ sum.
        sum ≡ sum_besides (by_event level.now.holds.items task) used) }
{
    sum_besides(&level.holds, task, used)
}

/// The lesser of a number and one that there may be.
fn lesser(cost: u64, other: Option<u64>) -> u64
    ensures { result ≡ lesser cost other }
{
    match other {
        None => cost,
        Some(other) => cost.min(other),
    }
}

/// The least that one of the events of a mask from a number on costs.
fn least_from(list: &[u64], task: u8, mask: u32, event: usize) -> Option<u64>
    ensures { result ≡ least_of (by_event list.now task) (filter (is_set mask) (drop event bits)) }
{
    if event >= MAX_EVENTS {
        return None;
    }
    let rest = least_from(list, task, mask, event + 1);
    if is_set(mask, event) {
        Some(lesser(event_at(list, task, event), rest))
    } else {
        rest
    }
}

/// The least that one of the events of a mask costs, 0 where it has none.
pub(crate) fn least_in(list: &[u64], task: u8, mask: u32) -> u64
    ensures { result ≡ least_in (by_event list.now task) mask }
{
    least_from(list, task, mask, 0).unwrap_or(0)
}

/// Whether an event isn't in a mask, or costs so much at least.
fn costs_one(list: &[u64], task: u8, mask: u32, least: u64, event: usize) -> bool
    requires { event < MAX_EVENTS }
    ensures { result
        ≡ (not (is_set mask event) || nat_le least (by_event list.now task event)) }
{
    !is_set(mask, event) || least <= event_at(list, task, event)
}

/// Whether each event of a mask costs so much at least; at true each does.
fn cost_each(list: &[u64], task: u8, mask: u32, least: u64) -> bool
    ensures { IsTrue result → cost_each (by_event list.now task) mask least ≡ true }
{
    for event in 0..MAX_EVENTS {
        if !costs_one(list, task, mask, least, event) {
            return false;
        }
    }
    true
}

/// Whether each event of a mask, where it is set for a task, costs so much at least; at true each
/// does.
pub(crate) fn sets_cost_each(level: &Level, task: u8, mask: u32, least: u64) -> bool
    ensures { IsTrue result
        → cost_each (by_event level.now.sets.items task) mask least ≡ true }
{
    cost_each(&level.sets, task, mask, least)
}

/// Whether an event of a task costs what it holds.
fn event_pays(level: &Level, task: u8, event: usize) -> bool
    requires { event < MAX_EVENTS }
    ensures { result ≡ nat_le (by_event level.now.holds.items task event)
        (by_event level.now.sets.items task event) }
{
    event_at(&level.holds, task, event) <= event_at(&level.sets, task, event)
}

/// Whether each event of a task costs what it holds; at true each does.
fn task_pays(level: &Level, task: u8) -> bool
    ensures { IsTrue result → task_pays level.now task ≡ true }
{
    for event in 0..MAX_EVENTS {
        if !event_pays(level, task, event) {
            return false;
        }
    }
    true
}

/// .. of the task of a number.
pub(crate) fn task_pays_at(level: &Level, task: usize) -> bool
    ensures { IsTrue result → task_pays level.now task ≡ true }
{
    if task >= MAX_TASKS {
        return false;
    }
    task_pays(level, task as u8)
}
