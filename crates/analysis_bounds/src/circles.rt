//! Why there is no bound. For people: nothing is proved of it but safety.

use crate::beginning::begins;
use crate::events::is_set;
use crate::level::Level;
use crate::needs::{Item, Needs, event_number, item_of, number_of};
use crate::standing::{leaves_section, may_rise};
use crate::started::{missing_of_started, started_by, started_by_alarm};
use crate::waits::{early_events, is_freed};
use crate::ways::is_lower;
use analysis_nodes::{Graph, Way};
use osek_base::{MAX_EVENTS, Owner, System};
use std::alloc::{AllocError, Global};

/// Why a level has no bound.
#[derive(Drop)]
pub enum NoBound {
    /// A job or a routine may go round in a circle of which the node of that number is the first.
    Circle { node: usize },
    /// Activations of the task of that number start each other in a circle.
    Activations { task: usize },
    /// Events of the task of that number do.
    Events { task: usize },
    /// A job of a task below the level may go round in a section in which it is at that node.
    Section { node: usize },
    /// More is to be done than there are ticks.
    Overload { level: Level },
}

/// What isn't known of what a way leaves and starts.
fn missing_of_way(
    system: &System,
    priority: u8,
    needs: &Needs,
    way: &Way,
    early: Option<u32>,
) -> Option<Item> {
    if !is_freed(early, way) {
        for next in &way.next {
            if needs.counts(*next) && !needs.is_known(Item::Node(*next)) {
                return Some(Item::Node(*next));
            }
        }
    }
    missing_of_started(needs, started_by(system, priority, needs, &way.start))
}

/// What isn't known of what a node needs.
fn missing_of_node(
    system: &System,
    graph: &Graph,
    priority: u8,
    needs: &Needs,
    number: usize,
) -> Option<Item> {
    if number >= graph.nodes.len() || number >= graph.links.len() {
        return None;
    }
    let early = early_events(system, priority, &graph.nodes[number]);
    let links = &graph.links[number];
    for way in &links.ways {
        let item = missing_of_way(system, priority, needs, way, early);
        if item.is_some() {
            return item;
        }
    }
    if leaves_section(system, priority, &graph.nodes[number]) && !needs.is_known(Item::Section) {
        Some(Item::Section)
    } else {
        None
    }
}

/// Whether a node is of a task.
fn is_of(owner: &Owner, task: usize) -> bool {
    match owner {
        Owner::Task(other) => other.number() as usize == task,
        Owner::Routine(_) => false,
    }
}

/// The first node that isn't known at which a job of a task begins.
fn missing_of_task(graph: &Graph, needs: &Needs, task: usize) -> Option<Item> {
    for number in 0..graph.nodes.len() {
        let node = &graph.nodes[number];
        if is_of(&node.owner, task) && begins(node) && !needs.is_known(Item::Node(number)) {
            return Some(Item::Node(number));
        }
    }
    None
}

/// The first node that isn't known at which a job goes on behind a wait for an event.
fn missing_of_held(needs: &Needs, number: usize) -> Option<Item> {
    let event = number % MAX_EVENTS;
    for wait in &needs.waits {
        let item = Item::Node(wait.woken);
        let is_of = wait.task == number / MAX_EVENTS && is_set(wait.mask, event);
        if is_of && !needs.is_known(item) {
            return Some(item);
        }
    }
    None
}

/// What isn't known of what an event costs: where a job goes on behind a wait for it, or what
/// another event of the task holds.
fn missing_of_set(needs: &Needs, number: usize) -> Option<Item> {
    let node = missing_of_held(needs, number);
    if node.is_some() {
        return node;
    }
    for event in 0..MAX_EVENTS {
        let item = Item::Held(event_number(number / MAX_EVENTS, event));
        if !needs.is_known(item) {
            return Some(item);
        }
    }
    None
}

/// The first node that isn't known at which a dispatch may begin a section.
fn missing_of_section(system: &System, graph: &Graph, priority: u8, needs: &Needs) -> Option<Item> {
    for number in 0..graph.nodes.len() {
        let rises = may_rise(system, priority, &graph.nodes[number]);
        if rises && !needs.is_known(Item::Node(number)) {
            return Some(Item::Node(number));
        }
    }
    None
}

/// What isn't known of what an item needs.
fn missing_of(
    system: &System,
    graph: &Graph,
    priority: u8,
    needs: &Needs,
    item: Item,
) -> Option<Item> {
    match item {
        Item::Node(number) => missing_of_node(system, graph, priority, needs, number),
        Item::Task(task) => missing_of_task(graph, needs, task),
        Item::Held(number) => missing_of_held(needs, number),
        Item::Set(number) => missing_of_set(needs, number),
        Item::Alarm(alarm) => {
            missing_of_started(needs, started_by_alarm(system, priority, alarm))
        }
        Item::Section => missing_of_section(system, graph, priority, needs),
    }
}

/// The first item that isn't known.
fn first_missing(needs: &Needs, nodes: usize) -> Option<Item> {
    for number in 0..needs.count() {
        let item = item_of(number, nodes);
        if !needs.is_known(item) {
            return Some(item);
        }
    }
    None
}

/// An item in a circle to which one leads that isn't known: each step goes to one that it needs.
fn entered(
    alloc: Global,
    system: &System,
    graph: &Graph,
    priority: u8,
    needs: &Needs,
    from: Item,
) -> Result<Item, AllocError> {
    let mut seen: Vec<bool> = Vec::new(alloc);
    for _ in 0..needs.count() {
        seen.push(false)?;
    }
    let mut item = from;
    for _ in 0..needs.count() {
        let number = number_of(item, graph.nodes.len());
        if number >= seen.len() || seen[number] {
            break;
        }
        seen[number] = true;
        let Some(next) = missing_of(system, graph, priority, needs, item) else {
            break;
        };
        item = next;
    }
    Ok(item)
}

/// What a circle has.
#[derive(Clone, Copy)]
struct Circle {
    node: usize,
    task: Option<usize>,
    events: Option<usize>,
    alarm: Option<usize>,
}

/// A circle with one item more.
fn with_item(circle: Circle, item: Item) -> Circle {
    match item {
        Item::Node(node) => Circle {
            node: circle.node.min(node),
            ..circle
        },
        Item::Task(task) => Circle {
            task: Some(task),
            ..circle
        },
        Item::Held(number) | Item::Set(number) => Circle {
            events: Some(number / MAX_EVENTS),
            ..circle
        },
        Item::Alarm(alarm) => Circle {
            alarm: Some(alarm),
            ..circle
        },
        // It lies in no circle: a job that a dispatch raises needs no other section than its own.
        Item::Section => circle,
    }
}

/// The circle in which an item lies.
fn circle_of(system: &System, graph: &Graph, priority: u8, needs: &Needs, from: Item) -> Circle {
    let nodes = graph.nodes.len();
    let mut circle = Circle {
        node: usize::MAX,
        task: None,
        events: None,
        alarm: None,
    };
    let mut item = from;
    for _ in 0..needs.count() {
        circle = with_item(circle, item);
        let Some(next) = missing_of(system, graph, priority, needs, item) else {
            break;
        };
        if number_of(next, nodes) == number_of(from, nodes) {
            break;
        }
        item = next;
    }
    circle
}

/// Whether a node is of a task below a level.
fn is_lower_node(system: &System, graph: &Graph, priority: u8, number: usize) -> bool {
    if number >= graph.nodes.len() {
        return false;
    }
    let node = &graph.nodes[number];
    match node.owner {
        Owner::Task(_) => is_lower(system, priority, &node.owner),
        Owner::Routine(_) => false,
    }
}

/// The circle because of which there is no number of some item, if there is such an item.
fn some_circle(
    alloc: Global,
    system: &System,
    graph: &Graph,
    priority: u8,
    needs: &Needs,
) -> Result<Option<Circle>, AllocError> {
    let Some(from) = first_missing(needs, graph.nodes.len()) else {
        return Ok(None);
    };
    let item = entered(alloc, system, graph, priority, needs, from)?;
    Ok(Some(circle_of(system, graph, priority, needs, item)))
}

/// An alarm of the first circle, if there is one. An error is want of memory.
pub(crate) fn alarm_in_circle(
    alloc: Global,
    system: &System,
    graph: &Graph,
    priority: u8,
    needs: &Needs,
) -> Result<Option<usize>, AllocError> {
    match some_circle(alloc, system, graph, priority, needs)? {
        None => Ok(None),
        Some(circle) => Ok(circle.alarm),
    }
}

/// The circle because of which there is no number of some item, if there is such an item. An error
/// is want of memory.
pub(crate) fn first_circle(
    alloc: Global,
    system: &System,
    graph: &Graph,
    priority: u8,
    needs: &Needs,
) -> Result<Option<NoBound>, AllocError> {
    let Some(circle) = some_circle(alloc, system, graph, priority, needs)? else {
        return Ok(None);
    };
    let node = circle.node;
    if let Some(task) = circle.task {
        return Ok(Some(NoBound::Activations { task }));
    }
    if let Some(task) = circle.events {
        return Ok(Some(NoBound::Events { task }));
    }
    if is_lower_node(system, graph, priority, node) {
        return Ok(Some(NoBound::Section { node }));
    }
    Ok(Some(NoBound::Circle { node }))
}
