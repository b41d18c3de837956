//! Whether prices of nodes pay for all that comes.

ghost use Rattle.std.specs.Prelude.{◌+◌, ◌≡◌, ◌<◌, ◌&&◌, IfSome, IsTrue, length, nat_le, true};
ghost use Rattle.std.specs.List.{filter, sum_by};
ghost use Rattle.osek_base.specs.Lists.{below};
ghost use Rattle.osek_base.specs.System.{alarm, starts_in};
ghost use Rattle.osek_base.specs.Tick.{action_call};
ghost use Rattle.osek_base.specs.Trace.{starting_tasks};
ghost use Rattle.law_costs.specs.Left.{of_all_alarms};
ghost use Rattle.law_costs.specs.Paying.{is_upper, start_of};
ghost use Rattle.law_nodes.specs.Paid.{alarms_pay, boot_pays, events_pay, prices_pay};
ghost use Rattle.analysis_nodes.specs.Graph.{IsGraph, table_of};
ghost use Rattle.analysis_bounds.specs.Checks.{ArePaying, HasPrices, alarm_pays};
ghost use Rattle.analysis_bounds.specs.Levels.{event_costs_of, numbered, priced, weights_of};

use crate::beginning::node_is_paid;
use crate::events::{cost_of_set, task_pays_at};
use crate::level::Level;
use crate::paying::are_set_once;
use crate::standing::is_upper;
use crate::ways::{fits, has_prices, node_count, node_pays, number_at};
use analysis_nodes::Graph;
use osek_base::{Action, ModeId, System};

/// Whether the price of each node pays, and is paid.
fn all_pay(system: &System, graph: &Graph, level: &Level) -> bool
    requires graph { IsGraph system.now graph.now }
    requires all { HasPrices graph.now level.now }
    ensures { IsTrue result
        → ArePaying system.now graph.now level.now (length graph.now.nodes.items) }
{
    for number in 0..node_count(graph) {
        if !node_pays(system, graph, level, number) {
            return false;
        }
        if !node_is_paid(system, graph, level, number) {
            return false;
        }
    }
    true
}

/// What an action of an alarm starts costs so much; None above 2^64.
fn cost_of_action(level: &Level, action: &Action) -> Option<u64>
    ensures { IfSome result (λ cost.
        cost ≡ start_of (weights_of level.now) (action_call action.now)) }
{
    match action {
        Action::ActivateTask(task) => Some(number_at(&level.tasks, task.number() as usize)),
        Action::SetEvent(task, mask) => cost_of_set(level, task.number(), *mask),
    }
}

/// The action of the alarm of a number.
fn action_of(system: &System, number: usize) -> &Action
    requires { number < length system.now.alarms }
    ensures { result.now ≡ (alarm system.now number).action }
{
    let own = &system.parts().alarms[number];
    &own.action
}

/// What an alarm starts as it expires costs so much; None above 2^64.
pub(crate) fn cost_of_expiry(system: &System, level: &Level, number: usize) -> Option<u64>
    requires { number < length system.now.alarms }
    ensures { IfSome result (λ cost.
        cost ≡ start_of (weights_of level.now) (action_call (alarm system.now number).action)) }
{
    let action = action_of(system, number);
    cost_of_action(level, action)
}

/// Whether a cost is paid by an expiry of an alarm, with what is paid when that is set.
fn is_paid_by(level: &Level, cost: u64, number: usize) -> bool
    ensures { IsTrue result → nat_le cost (numbered level.now.expiries.items number
        + numbered level.now.alarms.items number) ≡ true }
{
    match number_at(&level.expiries, number).checked_add(number_at(&level.alarms, number)) {
        None => false,
        Some(paid) => cost <= paid,
    }
}

/// Whether an expiry of an alarm pays for what that starts, with what is paid when it is set.
fn alarm_pays(system: &System, level: &Level, number: usize) -> bool
    requires { number < length system.now.alarms }
    ensures { IsTrue result → alarm_pays system.now (weights_of level.now) number ≡ true }
{
    match cost_of_expiry(system, level, number) {
        None => false,
        Some(cost) => is_paid_by(level, cost, number),
    }
}

/// What all alarms cost that pay when they are set; None above 2^64.
pub(crate) fn cost_of_alarms(system: &System, level: &Level) -> Option<u64>
    ensures { IfSome result (λ sum. sum ≡ of_all_alarms system.now (weights_of level.now)) }
{
    let mut sum: u64 = 0;
    for number in 0..system.alarm_count() {
        sum = sum.checked_add(number_at(&level.alarms, number))?;
    }
    Some(sum)
}

/// Whether expiries pay for what alarms start.
fn alarms_pay(system: &System, level: &Level) -> bool
    ensures { IsTrue result → alarms_pay system.now (weights_of level.now) ≡ true }
{
    for number in 0..system.alarm_count() {
        if !alarm_pays(system, level, number) {
            return false;
        }
    }
    true
}

/// Whether a task is of the level and starts with the mode.
pub(crate) fn starts_upper(system: &System, mode: ModeId, priority: u8, task: usize) -> bool
    requires { task < length system.now.tasks }
    ensures { result ≡ (starts_in system.now mode task && is_upper system.now priority task) }
{
    let upper = is_upper(system, priority, task);
    let task = &system.parts().tasks[task];
    let starts = task.starts_in(mode);
    starts && upper
}

/// What the tasks of the level cost that start with the mode; None above 2^64.
pub(crate) fn cost_of_boot(system: &System, mode: ModeId, level: &Level) -> Option<u64>
    ensures { IfSome result (λ sum. sum ≡ sum_by (weights_of level.now).of_task
        (filter (is_upper system.now level.now.priority) (starting_tasks system.now mode))) }
{
    let mut sum: u64 = 0;
    for task in 0..system.task_count() {
        if starts_upper(system, mode, level.priority, task) {
            sum = sum.checked_add(number_at(&level.tasks, task))?;
        }
    }
    Some(sum)
}

/// Whether boot pays for the tasks of the level that start with the mode, and for the section of a
/// dispatch, where all alarms are set.
fn boot_pays(system: &System, mode: ModeId, level: &Level) -> bool
    ensures { IsTrue result
        → boot_pays system.now mode level.now.priority (weights_of level.now) ≡ true }
{
    let Some(sum) = cost_of_boot(system, mode, level) else {
        return false;
    };
    let Some(set) = cost_of_alarms(system, level) else {
        return false;
    };
    if !fits(sum, set, level.at_boot) {
        return false;
    }
    fits(level.section, set, level.at_boot) && fits(level.section, set, level.at_begin)
}

/// Whether each event costs what it holds.
fn events_pay(system: &System, level: &Level) -> bool
    ensures { IsTrue result → events_pay system.now (event_costs_of level.now) ≡ true }
{
    for task in 0..system.task_count() {
        if !task_pays_at(level, task) {
            return false;
        }
    }
    true
}

/// Whether the prices of a level pay for each node and for all that comes; at true they do.
pub fn prices_pay(system: &System, mode: ModeId, graph: &Graph, level: &Level) -> bool
    requires graph { IsGraph system.now graph.now }
    ensures pays { IsTrue result
        → prices_pay system.now mode level.now.priority (weights_of level.now)
        (event_costs_of level.now) (priced (table_of graph.now) level.now.prices.items) ≡ true }
    ensures all { IsTrue result → HasPrices graph.now level.now }
{
    if !has_prices(graph, level) {
        return false;
    }
    if !all_pay(system, graph, level) {
        return false;
    }
    if !alarms_pay(system, level) {
        return false;
    }
    if !boot_pays(system, mode, level) {
        return false;
    }
    if !events_pay(system, level) {
        return false;
    }
    are_set_once(system, mode, graph, level)
}
