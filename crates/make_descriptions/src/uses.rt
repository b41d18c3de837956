//! What bodies use: the events and resources that a task lists, and those of the whole system.

use crate::description::{Body, Described, Does};
use crate::lists::names;
use crate::names::{SCHEDULER, add};
use crate::node::Node;
use std::alloc::{AllocError, Global};

/// The events that a body waits for or clears, each once: those that its task has.
pub fn events_of<'a>(
    alloc: Global,
    nodes: &'a [Node],
    body: &Body<'a>,
) -> Result<Vec<&'a str>, AllocError> {
    let mut found = Vec::new(alloc);
    for step in &body.steps {
        if let Does::Wait { events, .. } | Does::Clear(events) = step.does {
            for name in names(alloc, nodes, events)? {
                add(&mut found, name)?;
            }
        }
    }
    Ok(found)
}

/// Whether a body has a limited wait.
pub fn has_limited_wait(body: &Body<'_>) -> bool {
    for step in &body.steps {
        if step.does.is_limited_wait() {
            return true;
        }
    }
    false
}

/// The resources that a body gets, each once: those that its task lists, so not RES_SCHEDULER.
pub fn resources_of<'a>(alloc: Global, body: &Body<'a>) -> Result<Vec<&'a str>, AllocError> {
    let mut found = Vec::new(alloc);
    for step in &body.steps {
        match step.does {
            Does::Get(name) if name != SCHEDULER => add(&mut found, name)?,
            _ => {}
        }
    }
    Ok(found)
}

/// The events of all tasks, in the order in which they stand first.
pub fn all_events<'a>(
    alloc: Global,
    nodes: &'a [Node],
    described: &Described<'a>,
) -> Result<Vec<&'a str>, AllocError> {
    let mut found = Vec::new(alloc);
    for task in &described.tasks {
        for name in events_of(alloc, nodes, &task.body)? {
            add(&mut found, name)?;
        }
    }
    Ok(found)
}

/// The internal resources of all tasks, in the order in which they stand first.
pub fn internal_resources<'a>(
    alloc: Global,
    described: &Described<'a>,
) -> Result<Vec<&'a str>, AllocError> {
    let mut found = Vec::new(alloc);
    for task in &described.tasks {
        if let Some(internal) = task.internal {
            add(&mut found, internal.name)?;
        }
    }
    Ok(found)
}

/// The resources that tasks get, in the order in which they stand first.
pub fn all_resources<'a>(
    alloc: Global,
    described: &Described<'a>,
) -> Result<Vec<&'a str>, AllocError> {
    let mut found = Vec::new(alloc);
    for task in &described.tasks {
        for name in resources_of(alloc, &task.body)? {
            add(&mut found, name)?;
        }
    }
    Ok(found)
}
