//! Works out what is counted of a level, by longest ways. Nothing is proved of it but safety.

use crate::beginning::begins;
use crate::circles::{NoBound, first_circle};
use crate::level::Level;
use crate::needs::{Item, Needs, event_number};
use crate::prices::{cost_of_alarms, cost_of_boot, cost_of_expiry};
use crate::standing::{goes_at, is_counted, is_upper, leaves_section, may_rise};
use crate::started::{Started, add_started, cost_of_started, started_by, started_by_alarm};
use crate::waits::{add_freed, add_wait, cost_of_set, early_events, is_freed, wait_at};
use crate::ways::is_lower;
use analysis_nodes::{Graph, Links, Node, Way};
use osek_base::{MAX_EVENTS, ModeId, Owner, System};
use std::alloc::{AllocError, Global};

// ---- who needs whom

/// What the price of a node needs by a way; and where that frees what events hold, what these hold.
fn add_way(
    system: &System,
    priority: u8,
    needs: &mut Needs,
    number: usize,
    node: &Node,
    way: &Way,
    early: Option<u32>,
) -> Result<(), AllocError> {
    let started = started_by(system, priority, needs, &way.start);
    add_started(needs, Item::Node(number), started)?;
    match early {
        Some(mask) if is_freed(early, way) => add_freed(needs, &node.owner, mask, way),
        _ => {
            for next in &way.next {
                if needs.counts(*next) {
                    needs.add(Item::Node(number), Item::Node(*next))?;
                }
            }
            Ok(())
        }
    }
}

/// What the price of a node needs.
fn add_price(
    system: &System,
    graph: &Graph,
    priority: u8,
    needs: &mut Needs,
    number: usize,
) -> Result<(), AllocError> {
    if number >= graph.nodes.len() || number >= graph.links.len() || !needs.counts(number) {
        return Ok(());
    }
    if leaves_section(system, priority, &graph.nodes[number]) {
        needs.add(Item::Node(number), Item::Section)?;
    }
    let node = &graph.nodes[number];
    let early = early_events(system, priority, node);
    let links = &graph.links[number];
    for way in &links.ways {
        add_way(system, priority, needs, number, node, way, early)?;
    }
    Ok(())
}

/// What needs the price of a node: an activation where its task begins, a dispatch where it begins
/// a section.
fn add_uses(
    system: &System,
    priority: u8,
    needs: &mut Needs,
    number: usize,
    node: &Node,
) -> Result<(), AllocError> {
    if may_rise(system, priority, node) {
        needs.add(Item::Section, Item::Node(number))?;
    }
    match node.owner {
        Owner::Task(task) if is_upper(system, priority, task.number() as usize) => {
            if begins(node) {
                needs.add(Item::Task(task.number() as usize), Item::Node(number))?;
            }
            Ok(())
        }
        _ => Ok(()),
    }
}

/// What alarms need that pay when they are set.
fn add_alarms(
    system: &System,
    priority: u8,
    needs: &mut Needs,
    paying: &[bool],
) -> Result<(), AllocError> {
    for alarm in 0..paying.len() {
        needs.push_paying(paying[alarm])?;
        if paying[alarm] {
            let started = started_by_alarm(system, priority, alarm);
            add_started(needs, Item::Alarm(alarm), started)?;
        }
    }
    Ok(())
}

/// Who needs whom at a level. An error is want of memory.
fn needs_of(
    alloc: Global,
    system: &System,
    graph: &Graph,
    priority: u8,
    paying: &[bool],
) -> Result<Needs, AllocError> {
    let mut needs = Needs::of(alloc, graph.nodes.len())?;
    for node in &graph.nodes {
        needs.push_counted(is_counted(system, priority, &node.owner, node))?;
    }
    add_alarms(system, priority, &mut needs, paying)?;
    for number in 0..graph.nodes.len() {
        add_price(system, graph, priority, &mut needs, number)?;
        add_uses(system, priority, &mut needs, number, &graph.nodes[number])?;
        if let Some(wait) = wait_at(system, graph, priority, number) {
            add_wait(&mut needs, wait)?;
        }
    }
    needs.begin()?;
    Ok(needs)
}

// ---- longest ways

/// What a way leaves at most, but for what is freed.
fn left_of_way(needs: &Needs, way: &Way, early: Option<u32>) -> u64 {
    let mut left: u64 = 0;
    if is_freed(early, way) {
        return left;
    }
    for next in &way.next {
        if needs.counts(*next) {
            left = left.max(needs.value(Item::Node(*next)));
        }
    }
    left
}

/// What the instruction at a node leaves and starts at most, with the alarms that it sets, or
/// without.
fn cost_behind(
    system: &System,
    priority: u8,
    needs: &Needs,
    node: &Node,
    links: &Links,
    with_alarms: bool,
) -> u64 {
    let section = if leaves_section(system, priority, node) {
        needs.value(Item::Section)
    } else {
        0
    };
    let early = early_events(system, priority, node);
    let mut most: u64 = 0;
    for way in &links.ways {
        let left = left_of_way(needs, way, early).max(section);
        let start = match started_by(system, priority, needs, &way.start) {
            Started::Alarm(_) if !with_alarms => 0,
            started => cost_of_started(needs, started),
        };
        most = most.max(left.saturating_add(start));
    }
    most
}

/// The price of a node: 1 where who is there doesn't count.
fn price_of(system: &System, graph: &Graph, priority: u8, needs: &Needs, number: usize) -> u64 {
    if !needs.counts(number) || number >= graph.nodes.len() || number >= graph.links.len() {
        return 1;
    }
    let node = &graph.nodes[number];
    let links = &graph.links[number];
    cost_behind(system, priority, needs, node, links, true).saturating_add(1)
}

/// Works out all that can be, in an order in which each comes behind those that it needs.
fn work_out(
    system: &System,
    graph: &Graph,
    priority: u8,
    needs: &mut Needs,
) -> Result<(), AllocError> {
    for _ in 0..needs.count() {
        let Some(item) = needs.next() else {
            break;
        };
        match item {
            Item::Node(number) => {
                let price = price_of(system, graph, priority, needs, number);
                needs.set(item, price);
            }
            Item::Set(number) => {
                let cost = cost_of_set(needs, number);
                needs.set(item, cost);
            }
            Item::Alarm(alarm) => {
                let started = started_by_alarm(system, priority, alarm);
                needs.set(item, cost_of_started(needs, started));
            }
            _ => {}
        }
        needs.close(item)?;
    }
    Ok(())
}

// ---- what comes

/// What an interrupt of a routine costs: nothing where the routine is below the level.
fn cost_of_arrival(
    system: &System,
    graph: &Graph,
    priority: u8,
    needs: &Needs,
    routine: usize,
) -> u64 {
    let mut most: u64 = 0;
    if !goes_at(system, usize::from(priority), routine) {
        return most;
    }
    for number in 0..graph.nodes.len() {
        let node = &graph.nodes[number];
        if let Owner::Routine(owner) = &node.owner {
            if owner.number() as usize == routine && begins(node) {
                most = most.max(needs.value(Item::Node(number)));
            }
        }
    }
    most
}

/// What the jobs and routines below a level leave and start at most where a window begins, but for
/// alarms; beside a routine the section is left too.
fn cost_of_beginning(system: &System, graph: &Graph, priority: u8, needs: &Needs) -> u64 {
    let mut most = needs.value(Item::Section);
    for number in 0..graph.nodes.len().min(graph.links.len()) {
        let node = &graph.nodes[number];
        if is_lower(system, priority, &node.owner) {
            let links = &graph.links[number];
            let left = cost_behind(system, priority, needs, node, links, false);
            let besides = match node.owner {
                Owner::Task(_) => 0,
                Owner::Routine(_) => needs.value(Item::Section),
            };
            most = most.max(left.saturating_add(besides));
        }
    }
    most
}

/// A level of which nothing is counted yet.
fn nothing(alloc: Global, priority: u8) -> Level {
    Level {
        priority,
        tasks: Vec::new(alloc),
        sets: Vec::new(alloc),
        holds: Vec::new(alloc),
        section: 0,
        arrivals: Vec::new(alloc),
        expiries: Vec::new(alloc),
        alarms: Vec::new(alloc),
        at_boot: 0,
        at_begin: 0,
        prices: Vec::new(alloc),
    }
}

/// What nodes, tasks, events and routines cost.
fn add_costs(
    system: &System,
    graph: &Graph,
    needs: &Needs,
    level: &mut Level,
) -> Result<(), AllocError> {
    for number in 0..graph.nodes.len() {
        level.prices.push(needs.value(Item::Node(number)))?;
    }
    for task in 0..system.task_count() {
        level.tasks.push(needs.value(Item::Task(task)))?;
        for event in 0..MAX_EVENTS {
            let number = event_number(task, event);
            level.sets.push(needs.value(Item::Set(number)))?;
            level.holds.push(needs.value(Item::Held(number)))?;
        }
    }
    for routine in 0..system.routine_count() {
        let cost = cost_of_arrival(system, graph, level.priority, needs, routine);
        level.arrivals.push(cost)?;
    }
    Ok(())
}

/// What expiries cost, and alarms that pay when they are set.
fn add_alarm_costs(system: &System, needs: &Needs, level: &mut Level) -> Result<(), AllocError> {
    for alarm in 0..system.alarm_count() {
        let cost = cost_of_expiry(system, level, alarm).unwrap_or(u64::MAX);
        if needs.pays(alarm) {
            level.expiries.push(0)?;
            level.alarms.push(cost)?;
        } else {
            level.expiries.push(cost)?;
            level.alarms.push(0)?;
        }
    }
    Ok(())
}

/// What is counted of a level, where all items are known.
fn level_of(
    alloc: Global,
    system: &System,
    mode: ModeId,
    graph: &Graph,
    priority: u8,
    needs: &Needs,
) -> Result<Level, AllocError> {
    let mut level = nothing(alloc, priority);
    add_costs(system, graph, needs, &mut level)?;
    add_alarm_costs(system, needs, &mut level)?;
    level.section = needs.value(Item::Section);
    let set = cost_of_alarms(system, &level).unwrap_or(u64::MAX);
    let begin = cost_of_beginning(system, graph, priority, needs);
    level.at_begin = begin.saturating_add(set);
    let boot = cost_of_boot(system, mode, &level).unwrap_or(u64::MAX);
    level.at_boot = boot.max(level.section).saturating_add(set);
    Ok(level)
}

/// Items of a level, worked out as far as they can be, where some alarms pay when they are set. An
/// error is want of memory.
pub(crate) fn worked_out(
    alloc: Global,
    system: &System,
    graph: &Graph,
    priority: u8,
    paying: &[bool],
) -> Result<Needs, AllocError> {
    let mut needs = needs_of(alloc, system, graph, priority, paying)?;
    work_out(system, graph, priority, &mut needs)?;
    Ok(needs)
}

/// What is counted of the level of a priority, where some alarms pay when they are set, or why it
/// can't be. An error is want of memory.
pub fn count_level(
    alloc: Global,
    system: &System,
    mode: ModeId,
    graph: &Graph,
    priority: u8,
    paying: &[bool],
) -> Result<Result<Level, NoBound>, AllocError> {
    let needs = worked_out(alloc, system, graph, priority, paying)?;
    if let Some(circle) = first_circle(alloc, system, graph, priority, &needs)? {
        return Ok(Err(circle));
    }
    Ok(Ok(level_of(alloc, system, mode, graph, priority, &needs)?))
}
