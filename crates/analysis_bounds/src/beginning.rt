//! Whether what begins at a node pays for it: an activation, an interrupt, an event, a dispatch.

ghost use Rattle.std.specs.Prelude.{◌≡◌, ◌<◌, IsTrue, ◌||◌, length, nat_le, not, replicate};
ghost use Rattle.law_nodes.specs.Paid.{may_rise};
ghost use Rattle.law_nodes.specs.Values.{may_have};
ghost use Rattle.analysis_nodes.specs.Graph.{IsGraph};
ghost use Rattle.analysis_nodes.specs.Nodes.{node_by};
ghost use Rattle.analysis_bounds.specs.Checks.{
  HasPrices,
  IsFreshPaid,
  IsPaid,
  IsWokenPaid,
  UsedAt,
  WokenCosts,
  WokenCostsAt,
  begins,
};

use crate::events::{held_besides, sets_cost_each};
use crate::level::Level;
use crate::standing::{goes_at, is_off, is_upper, may_rise};
use crate::ways::{node_count, number_at, price_at};
use analysis_nodes::{Graph, Node};
use osek_base::{Owner, System};

/// Whether registers may all be 0.
fn may_be_zeros(registers: &[Option<u32>]) -> bool
    ensures { result ≡ may_have registers.now (replicate (length registers.now) 0) }
{
    match registers.split_first() {
        None => true,
        Some((first, rest)) => {
            let may_be = match first {
                None => true,
                Some(value) => *value == 0,
            };
            may_be && may_be_zeros(rest)
        }
    }
}

/// Whether who begins may be at a node.
pub(crate) fn begins(node: &Node) -> bool
    ensures { result ≡ begins (node_by node.now) }
{
    let waits = node.waits_for.is_some();
    let off = is_off(&node.switch);
    let zeros = may_be_zeros(&node.registers);
    !waits && !off && node.held.is_empty() && node.place == 0 && zeros
}

/// Whether an activation or an interrupt pays for who begins at a node.
fn fresh_is_paid(system: &System, level: &Level, node: &Node, price: u64) -> bool
    ensures { IsTrue result → IsFreshPaid system.now level.now (node_by node.now) price }
{
    match &node.owner {
        Owner::Task(task) => {
            let number = task.number() as usize;
            let upper = is_upper(system, level.priority, number);
            !upper || !begins(node) || price <= number_at(&level.tasks, number)
        }
        Owner::Routine(routine) => {
            let number = routine.number() as usize;
            let goes = goes_at(system, usize::from(level.priority), number);
            !goes || !begins(node) || price <= number_at(&level.arrivals, number)
        }
    }
}

/// The used events of the node of a number.
fn used_at(graph: &Graph, number: usize) -> u32
    requires { number < length graph.now.nodes.items }
    ensures { UsedAt graph.now number result }
{
    let node = &graph.nodes[number];
    node.used
}

/// Whether events of a task that are waited for pay for the node at which a job goes on, and for
/// all others that may be set there.
fn woken_costs_at(graph: &Graph, level: &Level, task: u8, mask: u32, woken: usize) -> bool
    ensures { IsTrue result → WokenCostsAt graph.now level.now task mask woken }
{
    if woken >= node_count(graph) {
        return false;
    }
    let used = used_at(graph, woken);
    let Some(besides) = held_besides(level, task, used) else {
        return false;
    };
    let Some(least) = price_at(level, woken).checked_add(besides) else {
        return false;
    };
    sets_cost_each(level, task, mask, least)
}

/// .. by the number of that node.
fn woken_costs(graph: &Graph, level: &Level, task: u8, mask: u32, woken: Option<usize>) -> bool
    ensures { IsTrue result → WokenCosts graph.now level.now task mask woken }
{
    match woken {
        None => false,
        Some(woken) => woken_costs_at(graph, level, task, mask, woken),
    }
}

/// Whether events pay for what comes behind the wait of a job of the level, by the number of the
/// node at which that goes on.
fn woken_is_paid(
    system: &System,
    graph: &Graph,
    level: &Level,
    node: &Node,
    woken: Option<usize>,
) -> bool
    ensures { IsTrue result
        → IsWokenPaid system.now graph.now level.now (node_by node.now) woken }
{
    match node.owner {
        Owner::Routine(_) => true,
        Owner::Task(task) => {
            if !is_upper(system, level.priority, task.number() as usize) {
                return true;
            }
            match node.waits_for {
                None => true,
                Some(mask) => woken_costs(graph, level, task.number(), mask, woken),
            }
        }
    }
}

/// Whether a dispatch pays for the section that it begins at a node.
fn section_is_paid(system: &System, level: &Level, node: &Node, price: u64) -> bool
    ensures { result ≡ (not (may_rise system.now level.now.priority (node_by node.now))
        || nat_le price level.now.section) }
{
    !may_rise(system, level.priority, node) || price <= level.section
}

/// Whether a node costs something, and is paid by what begins there.
pub(crate) fn node_is_paid(system: &System, graph: &Graph, level: &Level, number: usize) -> bool
    requires graph { IsGraph system.now graph.now }
    requires all { HasPrices graph.now level.now }
    ensures { IsTrue result → IsPaid system.now graph.now level.now number }
{
    if number >= graph.nodes.len() || number >= graph.links.len() {
        return false;
    }
    let node = &graph.nodes[number];
    let links = &graph.links[number];
    let price = number_at(&level.prices, number);
    if price < 1 {
        return false;
    }
    if !section_is_paid(system, level, node, price) {
        return false;
    }
    if !fresh_is_paid(system, level, node, price) {
        return false;
    }
    woken_is_paid(system, graph, level, node, links.woken)
}
