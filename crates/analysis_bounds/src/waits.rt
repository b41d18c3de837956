//! OSEK/VDX OS: event mechanism. Waits of the level, and what their events hold and cost, as far as
//! that is known. Nothing is proved of it but safety.

use crate::events::is_set;
use crate::needs::{Item, Needs, Wait, event_number};
use crate::slowness::instruction_of;
use crate::standing::is_upper;
use crate::ways::{awaited, holds_events};
use analysis_nodes::{Graph, Node, Way};
use osek_base::{MAX_EVENTS, Owner, System};
use std::alloc::AllocError;

/// The events of a wait at which a job of the level goes on by one that was set early, and frees what
/// that holds: none that it waits for was used.
pub(crate) fn early_events(system: &System, priority: u8, node: &Node) -> Option<u32> {
    match node.owner {
        Owner::Routine(_) => None,
        Owner::Task(task) => {
            if !holds_events(system, priority, task) {
                return None;
            }
            let mask = awaited(&instruction_of(system, node))?;
            (mask != 0 && mask & node.used == 0).then_some(mask)
        }
    }
}

/// Whether a way goes on behind such a wait: what follows is paid by what is freed.
pub(crate) fn is_freed(early: Option<u32>, way: &Way) -> bool {
    early.is_some() && way.refusal.is_none()
}

/// What the events of such a wait hold: what follows where it goes on.
pub(crate) fn add_freed(
    needs: &mut Needs,
    owner: &Owner,
    mask: u32,
    way: &Way,
) -> Result<(), AllocError> {
    let Owner::Task(task) = owner else {
        return Ok(());
    };
    for next in &way.next {
        if !needs.counts(*next) {
            continue;
        }
        for event in 0..MAX_EVENTS {
            if is_set(mask, event) {
                let number = event_number(task.number() as usize, event);
                needs.add(Item::Held(number), Item::Node(*next))?;
            }
        }
    }
    Ok(())
}

/// What events of a wait need: what they hold that where the job goes on, and what they cost
/// besides all that others hold which may be set there.
pub(crate) fn add_wait(needs: &mut Needs, wait: Wait) -> Result<(), AllocError> {
    for event in 0..MAX_EVENTS {
        if !is_set(wait.mask, event) {
            continue;
        }
        let number = event_number(wait.task, event);
        needs.add(Item::Held(number), Item::Node(wait.woken))?;
        needs.add(Item::Set(number), Item::Node(wait.woken))?;
        needs.add(Item::Set(number), Item::Held(number))?;
        for other in 0..MAX_EVENTS {
            if !is_set(wait.used, other) {
                let other = event_number(wait.task, other);
                needs.add(Item::Set(number), Item::Held(other))?;
            }
        }
    }
    needs.waits.push(wait)?;
    Ok(())
}

/// The wait of a job of the level at the node of a number, if it waits.
pub(crate) fn wait_at(system: &System, graph: &Graph, priority: u8, number: usize) -> Option<Wait> {
    if number >= graph.nodes.len() || number >= graph.links.len() {
        return None;
    }
    let node = &graph.nodes[number];
    let mask = node.waits_for?;
    let woken = graph.links[number].woken?;
    if woken >= graph.nodes.len() {
        return None;
    }
    match node.owner {
        Owner::Task(task) if is_upper(system, priority, task.number() as usize) => Some(Wait {
            task: task.number() as usize,
            mask,
            woken,
            used: graph.nodes[woken].used,
        }),
        _ => None,
    }
}

/// What all events hold that may be set where a job goes on behind a wait.
fn held_besides(needs: &Needs, wait: &Wait) -> u64 {
    let mut held: u64 = 0;
    for event in 0..MAX_EVENTS {
        if !is_set(wait.used, event) {
            let item = Item::Held(event_number(wait.task, event));
            held = held.saturating_add(needs.value(item));
        }
    }
    held
}

/// What an event costs where it is set: what it holds, or what follows a wait for it with all that
/// others hold.
pub(crate) fn cost_of_set(needs: &Needs, number: usize) -> u64 {
    let mut cost = needs.value(Item::Held(number));
    let event = number % MAX_EVENTS;
    for wait in &needs.waits {
        if wait.task == number / MAX_EVENTS && is_set(wait.mask, event) {
            let woken = needs.value(Item::Node(wait.woken));
            cost = cost.max(woken.saturating_add(held_besides(needs, wait)));
        }
    }
    cost
}
