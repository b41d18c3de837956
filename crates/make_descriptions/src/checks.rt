//! What is wrong of a description as a whole: names that stand twice or nowhere, and more objects
//! than there may be.

use crate::bodies::{tell_routine, tell_task};
use crate::description::{Action, Alarm, Body, Described, Does, Release, Task};
use crate::fault::{Fault, Wrong, tell};
use crate::lists::items;
use crate::names::is_among;
use crate::node::Node;
use crate::routines::{ALARM, ROUTINE, TIMEOUT};
use crate::uses::{all_events, all_resources, events_of, has_limited_wait, internal_resources};
use osek_base::{MAX_ALARMS, MAX_EVENTS, MAX_NAME, MAX_RESOURCES, MAX_ROUTINES};
use std::alloc::{AllocError, Global};

/// The task of that name.
fn task_of<'d, 'a>(described: &'d Described<'a>, name: &str) -> Option<&'d Task<'a>> {
    for task in &described.tasks {
        if task.name == name {
            return Some(task);
        }
    }
    None
}

/// Adds a name to those of its kind, told where it is there already. An empty name was told as
/// missing.
pub fn add_name<'a>(
    name: &'a str,
    place: usize,
    names: &mut Vec<&'a str>,
    faults: &mut Vec<Fault<'a>>,
) -> Result<(), AllocError> {
    if !name.is_empty() && is_among(names.as_slice(), name) {
        tell(faults, place, Wrong::Twice(name))?;
    }
    names.push(name)?;
    Ok(())
}

/// Whether a name in two parts stands among names.
fn has_made(names: &[&str], front: &str, name: &str) -> bool {
    for other in names {
        if other.strip_prefix(front) == Some(name) {
            return true;
        }
    }
    false
}

/// Tells where the name of what is made for a task is too long, or stands already.
fn tell_made<'a>(
    task: &Task<'a>,
    front: &'static str,
    names: &[&str],
    faults: &mut Vec<Fault<'a>>,
) -> Result<(), AllocError> {
    let place = task.place;
    if task.name.len().saturating_add(front.len()) > MAX_NAME {
        tell(faults, place, Wrong::MadeTooLong(front, task.name))?;
    }
    if has_made(names, front, task.name) {
        tell(faults, place, Wrong::MadeTwice(front, task.name))?;
    }
    Ok(())
}

/// Tells of names that stand twice among tasks, interrupts and alarms.
fn tell_names<'a>(
    alloc: Global,
    described: &Described<'a>,
    faults: &mut Vec<Fault<'a>>,
) -> Result<(), AllocError> {
    let mut tasks = Vec::new(alloc);
    let mut interrupts = Vec::new(alloc);
    let mut alarms = Vec::new(alloc);
    for interrupt in &described.interrupts {
        add_name(interrupt.name, interrupt.place, &mut interrupts, faults)?;
    }
    for alarm in &described.alarms {
        add_name(alarm.name, alarm.place, &mut alarms, faults)?;
    }
    for task in &described.tasks {
        add_name(task.name, task.place, &mut tasks, faults)?;
        match task.release {
            Release::Periodic { .. } => tell_made(task, ALARM, alarms.as_slice(), faults)?,
            Release::Sporadic(_) => tell_made(task, ROUTINE, interrupts.as_slice(), faults)?,
            Release::Others => {}
        }
        if has_limited_wait(&task.body) {
            tell_made(task, TIMEOUT, alarms.as_slice(), faults)?;
        }
    }
    Ok(())
}

/// Tells where the event of a task's limited waits has the name of another.
fn tell_timeouts<'a>(
    alloc: Global,
    nodes: &'a [Node],
    described: &Described<'a>,
    faults: &mut Vec<Fault<'a>>,
) -> Result<(), AllocError> {
    let events = all_events(alloc, nodes, described)?;
    for task in &described.tasks {
        if has_limited_wait(&task.body) && has_made(events.as_slice(), TIMEOUT, task.name) {
            tell(faults, task.place, Wrong::MadeTwice(TIMEOUT, task.name))?;
        }
    }
    Ok(())
}

/// How many objects are made for tasks.
#[derive(Clone, Copy)]
struct MadeObjects {
    /// Alarms of periods.
    periods: usize,
    /// Alarms of limited waits, and as many events.
    timeouts: usize,
    routines: usize,
}

/// How many objects are made for the tasks of a description.
fn made(described: &Described<'_>) -> MadeObjects {
    let mut made = MadeObjects {
        periods: 0,
        timeouts: 0,
        routines: 0,
    };
    for task in &described.tasks {
        match task.release {
            Release::Periodic { .. } => made.periods = made.periods.saturating_add(1),
            Release::Sporadic(_) => made.routines = made.routines.saturating_add(1),
            Release::Others => {}
        }
        if has_limited_wait(&task.body) {
            made.timeouts = made.timeouts.saturating_add(1);
        }
    }
    made
}

fn tell_count<'a>(
    count: usize,
    most: usize,
    what: &'static str,
    faults: &mut Vec<Fault<'a>>,
) -> Result<(), AllocError> {
    if count > most {
        tell(faults, 0, Wrong::TooMany(most, what))?;
    }
    Ok(())
}

/// Tells of kinds that have more objects than they may have.
fn tell_counts<'a>(
    alloc: Global,
    nodes: &'a [Node],
    described: &Described<'a>,
    faults: &mut Vec<Fault<'a>>,
) -> Result<(), AllocError> {
    let made = made(described);
    let alarms = described
        .alarms
        .len()
        .saturating_add(made.periods)
        .saturating_add(made.timeouts);
    let routines = described.interrupts.len().saturating_add(made.routines);
    let events = all_events(alloc, nodes, described)?
        .len()
        .saturating_add(made.timeouts);
    let internal = internal_resources(alloc, described)?.len();
    let resources = all_resources(alloc, described)?
        .len()
        .saturating_add(internal);
    tell_count(alarms, MAX_ALARMS, "alarms", faults)?;
    tell_count(routines, MAX_ROUTINES, "interrupts", faults)?;
    tell_count(events, MAX_EVENTS, "events", faults)?;
    tell_count(resources, MAX_RESOURCES, "resources", faults)
}

/// Tells where no task has a name. An empty name was told already.
fn tell_target<'a>(
    described: &Described<'a>,
    name: &'a str,
    place: usize,
    faults: &mut Vec<Fault<'a>>,
) -> Result<(), AllocError> {
    if !name.is_empty() && task_of(described, name).is_none() {
        tell(faults, place, Wrong::UnknownTask(name))?;
    }
    Ok(())
}

/// Tells where a task doesn't have an event that is set for it.
fn tell_event<'a>(
    alloc: Global,
    nodes: &'a [Node],
    described: &Described<'a>,
    task: &'a str,
    event: &'a str,
    place: usize,
    faults: &mut Vec<Fault<'a>>,
) -> Result<(), AllocError> {
    let Some(target) = task_of(described, task) else {
        return Ok(());
    };
    let events = events_of(alloc, nodes, &target.body)?;
    if !event.is_empty() && !is_among(events.as_slice(), event) {
        tell(faults, place, Wrong::NotItsEvent(task, event))?;
    }
    Ok(())
}

/// Tells of tasks and events that a body names and that aren't there.
fn tell_references<'a>(
    alloc: Global,
    nodes: &'a [Node],
    described: &Described<'a>,
    body: &Body<'a>,
    faults: &mut Vec<Fault<'a>>,
) -> Result<(), AllocError> {
    for step in &body.steps {
        match step.does {
            Does::Activate(name) | Does::Chain(name) => {
                tell_target(described, name, step.place, faults)?;
            }
            Does::Set(name, list) => {
                tell_target(described, name, step.place, faults)?;
                for node in items(alloc, nodes, list)? {
                    let event = node.text.as_str();
                    tell_event(alloc, nodes, described, name, event, node.place, faults)?;
                }
            }
            _ => {}
        }
    }
    Ok(())
}

fn tell_alarm<'a>(
    alloc: Global,
    nodes: &'a [Node],
    described: &Described<'a>,
    alarm: &Alarm<'a>,
    faults: &mut Vec<Fault<'a>>,
) -> Result<(), AllocError> {
    let place = alarm.action_place;
    match alarm.action {
        Action::Activate(name) => tell_target(described, name, place, faults),
        Action::Set(name, event) => {
            tell_target(described, name, place, faults)?;
            tell_event(alloc, nodes, described, name, event, place, faults)
        }
    }
}

/// Tells of resources that a body gets and that are internal.
fn tell_internal<'a>(
    body: &Body<'a>,
    internal: &[&str],
    faults: &mut Vec<Fault<'a>>,
) -> Result<(), AllocError> {
    for step in &body.steps {
        match step.does {
            Does::Get(name) if is_among(internal, name) => {
                tell(faults, step.place, Wrong::InternalResource(name))?;
            }
            _ => {}
        }
    }
    Ok(())
}

/// Tells of modes in a list that aren't declared, or that stand there twice.
fn tell_modes<'a>(
    alloc: Global,
    nodes: &'a [Node],
    described: &Described<'a>,
    modes: Option<usize>,
    faults: &mut Vec<Fault<'a>>,
) -> Result<(), AllocError> {
    let Some(list) = modes else {
        return Ok(());
    };
    let mut seen = Vec::new(alloc);
    for node in items(alloc, nodes, list)? {
        let name = node.text.as_str();
        if !is_among(described.modes.as_slice(), name) {
            tell(faults, node.place, Wrong::UnknownMode(name))?;
        }
        add_name(name, node.place, &mut seen, faults)?;
    }
    Ok(())
}

/// Tells what is wrong of a task, besides its name.
fn tell_of_task<'a>(
    alloc: Global,
    nodes: &'a [Node],
    described: &Described<'a>,
    task: &Task<'a>,
    faults: &mut Vec<Fault<'a>>,
) -> Result<(), AllocError> {
    tell_references(alloc, nodes, described, &task.body, faults)?;
    tell_task(alloc, &task.body, faults)?;
    tell_modes(alloc, nodes, described, task.modes, faults)?;
    if let (Some(internal), true) = (task.internal, task.is_non) {
        tell(faults, internal.place, Wrong::InternalOfNon)?;
    }
    if task.activations > 1 && !events_of(alloc, nodes, &task.body)?.is_empty() {
        let wrong = Wrong::ExtendedActivations;
        let place = task.activations_place;
        tell(faults, place, wrong)?;
    }
    Ok(())
}

/// Tells what is wrong of a description as a whole.
pub fn tell_all<'a>(
    alloc: Global,
    nodes: &'a [Node],
    described: &Described<'a>,
    faults: &mut Vec<Fault<'a>>,
) -> Result<(), AllocError> {
    tell_names(alloc, described, faults)?;
    tell_timeouts(alloc, nodes, described, faults)?;
    tell_counts(alloc, nodes, described, faults)?;
    let internal = internal_resources(alloc, described)?;
    for task in &described.tasks {
        tell_of_task(alloc, nodes, described, task, faults)?;
        tell_internal(&task.body, internal.as_slice(), faults)?;
    }
    for interrupt in &described.interrupts {
        tell_references(alloc, nodes, described, &interrupt.body, faults)?;
        tell_routine(&interrupt.body, faults)?;
    }
    for alarm in &described.alarms {
        tell_alarm(alloc, nodes, described, alarm, faults)?;
        tell_modes(alloc, nodes, described, alarm.modes, faults)?;
    }
    Ok(())
}
