//! Whether the price of a node pays for the ways on from it.

ghost use Rattle.std.specs.Prelude.{◌+◌, ◌≡◌, ◌<◌, IfSome, IsTrue, length, nat_le};
ghost use Rattle.law_nodes.specs.Early.{awaited, holds_events};
ghost use Rattle.analysis_nodes.specs.Graph.{IsGraph};
ghost use Rattle.analysis_nodes.specs.Nodes.{node_by};
ghost use Rattle.analysis_nodes.specs.Outcomes.{cost_of_alarm, cost_of_start};
ghost use Rattle.analysis_bounds.specs.Checks.{
  AreFitting,
  AreWithin,
  BeginsWithEnough,
  Fits,
  HasPrices,
  IsEnough,
  IsWithin,
  Pays,
  beside,
  cost_of_way,
  freed_at,
  freed_of,
  freed_where,
  is_lower,
  left_of,
};
ghost use Rattle.analysis_bounds.specs.Levels.{by_event, numbered, weights_of};

use crate::events::{cost_of_set, least_in};
use crate::level::Level;
use crate::prices::cost_of_alarms;
use crate::slowness::instruction_of;
use crate::standing::{goes_at, is_counted, is_upper, leaves_section};
use analysis_nodes::{Graph, Node, Start, Way, outcomes_are_all};
use osek_base::{Instr, Owner, Service, Status, System, TaskId};

/// How many nodes a graph has.
pub(crate) fn node_count(graph: &Graph) -> usize
    ensures { result ≡ length graph.now.nodes.items }
{
    let nodes: &[Node] = &graph.nodes;
    nodes.len()
}

/// How many prices a level has.
fn price_count(level: &Level) -> usize
    ensures { result ≡ length level.now.prices.items }
{
    let prices: &[u64] = &level.prices;
    prices.len()
}

/// Whether each node has a price.
pub(crate) fn has_prices(graph: &Graph, level: &Level) -> bool
    ensures { IsTrue result → HasPrices graph.now level.now }
{
    price_count(level) == node_count(graph)
}

/// Whether two numbers together are no more than a third.
pub(crate) fn fits(price: u64, more: u64, most: u64) -> bool
    ensures { result ≡ nat_le (price + more) most }
{
    match price.checked_add(more) {
        None => false,
        Some(sum) => sum <= most,
    }
}

/// The number at a place of a list, 0 where there is none.
pub(crate) fn number_at(list: &[u64], number: usize) -> u64
    ensures { result ≡ numbered list.now number }
{
    if number < list.len() { list[number] } else { 0 }
}

/// The price of the node of a number, 0 where there is none.
pub(crate) fn price_at(level: &Level, number: usize) -> u64
    ensures { result ≡ numbered level.now.prices.items number }
{
    number_at(&level.prices, number)
}

/// What a service starts costs so much, but for an alarm; None above 2^64.
fn cost_of_start(level: &Level, start: &Start) -> Option<u64>
    ensures { IfSome result (λ cost. cost ≡ cost_of_start (weights_of level.now) start.now) }
{
    match start {
        Start::Nothing => Some(0),
        Start::Activates(task) => Some(number_at(&level.tasks, task.number() as usize)),
        Start::Sets(task, mask) => cost_of_set(level, task.number(), *mask),
        Start::SetsAlarm(_) => Some(0),
    }
}

/// What an alarm costs that a service sets, by what each costs.
fn cost_of_alarm(alarms: &[u64], start: &Start) -> u64
    ensures { result ≡ cost_of_alarm (numbered alarms.now) start.now }
{
    match start {
        Start::SetsAlarm(alarm) => number_at(alarms, alarm.number() as usize),
        _ => 0,
    }
}

/// What a service starts and sets costs so much; None above 2^64.
fn cost_of_way(level: &Level, alarms: &[u64], start: &Start) -> Option<u64>
    ensures { IfSome result (λ cost. cost ≡ cost_of_way level.now alarms.now start.now) }
{
    cost_of_start(level, start)?.checked_add(cost_of_alarm(alarms, start))
}

/// The events that an instruction waits for, if it waits.
pub(crate) fn awaited(instr: &Instr) -> Option<u32>
    ensures { result ≡ awaited instr.now }
{
    match instr {
        Instr::Service(service) => match service {
            Service::WaitEvent(mask) => Some(*mask),
            _ => None,
        },
        _ => None,
    }
}

/// What a wait frees that goes on by an event that was set early, where none that it waits for was
/// used.
fn freed_of(level: &Level, task: u8, awaited: Option<u32>, used: u32) -> u64
    ensures { result ≡ freed_of (by_event level.now.holds.items task) awaited used }
{
    match awaited {
        None => 0,
        Some(mask) => {
            if mask & used == 0 {
                least_in(&level.holds, task, mask)
            } else {
                0
            }
        }
    }
}

/// Whether events that are set for a task hold anything: it is extended, and of the level.
pub(crate) fn holds_events(system: &System, priority: u8, task: TaskId) -> bool
    ensures { result ≡ holds_events system.now priority task }
{
    let upper = is_upper(system, priority, task.number() as usize);
    upper && system.is_extended(task)
}

/// What a job at a node frees, where it goes on there by an event that was set early.
fn freed_at(system: &System, level: &Level, node: &Node) -> u64
    ensures { result ≡ freed_at system.now level.now (node_by node.now) }
{
    match node.owner {
        Owner::Routine(_) => 0,
        Owner::Task(task) => {
            if !holds_events(system, level.priority, task) {
                return 0;
            }
            let awaited = awaited(&instruction_of(system, node));
            freed_of(level, task.number(), awaited, node.used)
        }
    }
}

/// .. by a way on that is no refusal.
fn freed_where(refusal: &Option<Status>, freed: u64) -> u64
    ensures { result ≡ freed_where refusal.now freed }
{
    match refusal {
        None => freed,
        Some(_) => 0,
    }
}

/// The section that a dispatch may begin behind the instruction at a node.
fn left_of(system: &System, level: &Level, node: &Node) -> u64
    ensures { result ≡ left_of node.now.owner system.now level.now.priority (weights_of level.now)
        (node_by node.now) }
{
    if leaves_section(system, level.priority, node) {
        level.section
    } else {
        0
    }
}

/// Whether the node of a number, if somebody of an owner that is there may count, costs with so
/// much more no more than the most.
fn is_within(
    system: &System,
    graph: &Graph,
    level: &Level,
    owner: &Owner,
    more: u64,
    most: u64,
    number: usize,
) -> bool
    ensures { IsTrue result → IsWithin system.now graph.now level.now owner.now more most number }
{
    if number >= graph.nodes.len() {
        return false;
    }
    let node = &graph.nodes[number];
    if !is_counted(system, level.priority, owner, node) {
        return true;
    }
    fits(number_at(&level.prices, number), more, most)
}

/// .. of all of some numbers.
fn are_within(
    system: &System,
    graph: &Graph,
    level: &Level,
    owner: &Owner,
    more: u64,
    most: u64,
    numbers: &[usize],
) -> bool
    ensures { IsTrue result
        → AreWithin system.now graph.now level.now owner.now more most numbers.now
        (length numbers.now) }
{
    for place in 0..numbers.len() {
        if !is_within(system, graph, level, owner, more, most, numbers[place]) {
            return false;
        }
    }
    true
}

/// Whether a way on from a node leaves, with what is started and set, no more than the most, and
/// what is freed besides.
fn way_fits(
    system: &System,
    graph: &Graph,
    level: &Level,
    node: &Node,
    way: &Way,
    alarms: &[u64],
    most: u64,
    freed: u64,
) -> bool
    ensures { IsTrue result → Fits system.now graph.now level.now (node_by node.now) way.now
        alarms.now most freed }
{
    let Some(more) = cost_of_way(level, alarms, &way.start) else {
        return false;
    };
    let Some(most_behind) = most.checked_add(freed_where(&way.refusal, freed)) else {
        return false;
    };
    if !fits(left_of(system, level, node), more, most) {
        return false;
    }
    are_within(
        system,
        graph,
        level,
        &node.owner,
        more,
        most_behind,
        &way.next,
    )
}

/// .. each of some ways.
fn ways_fit(
    system: &System,
    graph: &Graph,
    level: &Level,
    node: &Node,
    ways: &[Way],
    alarms: &[u64],
    most: u64,
    freed: u64,
) -> bool
    ensures { IsTrue result → AreFitting system.now graph.now level.now (node_by node.now)
        ways.now alarms.now most freed (length ways.now) }
{
    for place in 0..ways.len() {
        let way = &ways[place];
        if !way_fits(system, graph, level, node, way, alarms, most, freed) {
            return false;
        }
    }
    true
}

/// Whether one less than a price is enough for what is left of who may count, with what is started
/// and set.
fn is_enough(
    system: &System,
    graph: &Graph,
    level: &Level,
    node: &Node,
    ways: &[Way],
    price: u64,
) -> bool
    ensures { IsTrue result
        → IsEnough system.now graph.now level.now (node_by node.now) ways.now price }
{
    if !is_counted(system, level.priority, &node.owner, node) {
        return true;
    }
    match price.checked_sub(1) {
        None => false,
        Some(most) => {
            let freed = freed_at(system, level, node);
            ways_fit(system, graph, level, node, ways, &level.alarms, most, freed)
        }
    }
}

/// Whether it is a job of a task below the level, or a routine.
pub(crate) fn is_lower(system: &System, priority: u8, owner: &Owner) -> bool
    ensures { result ≡ is_lower system.now priority owner.now }
{
    match owner {
        Owner::Task(task) => !is_upper(system, priority, task.number() as usize),
        Owner::Routine(routine) => {
            !goes_at(system, usize::from(priority), routine.number() as usize)
        }
    }
}

/// What may be left besides of who is below the level where a window begins: all alarms, and beside
/// a routine the section too; None above 2^64.
fn cost_beside(system: &System, level: &Level, owner: &Owner) -> Option<u64>
    ensures { IfSome result (λ cost. cost ≡ beside owner.now system.now (weights_of level.now)) }
{
    let set = cost_of_alarms(system, level)?;
    match owner {
        Owner::Task(_) => Some(set),
        Owner::Routine(_) => level.section.checked_add(set),
    }
}

/// Whether of a task or routine below the level no more is left than may be where a window begins,
/// besides all alarms: one that it sets is among them.
fn begins_with_enough(
    system: &System,
    graph: &Graph,
    level: &Level,
    node: &Node,
    ways: &[Way],
) -> bool
    ensures { IsTrue result
        → BeginsWithEnough system.now graph.now level.now (node_by node.now) ways.now }
{
    if !is_lower(system, level.priority, &node.owner) {
        return true;
    }
    let Some(besides) = cost_beside(system, level, &node.owner) else {
        return false;
    };
    let Some(most) = level.at_begin.checked_sub(besides) else {
        return false;
    };
    ways_fit(system, graph, level, node, ways, &[], most, 0)
}

/// Whether the price of a node pays for the instruction there.
pub(crate) fn node_pays(system: &System, graph: &Graph, level: &Level, number: usize) -> bool
    requires graph { IsGraph system.now graph.now }
    requires all { HasPrices graph.now level.now }
    ensures { IsTrue result → Pays system.now graph.now level.now number }
{
    outcomes_are_all();
    if number >= graph.nodes.len() || number >= graph.links.len() {
        return false;
    }
    let node = &graph.nodes[number];
    let links = &graph.links[number];
    let price = number_at(&level.prices, number);
    if !is_enough(system, graph, level, node, &links.ways, price) {
        return false;
    }
    begins_with_enough(system, graph, level, node, &links.ways)
}
