//! What is wrong of a work file beside its OIL file: steps that name what isn't declared, or what
//! their task doesn't list.

use make_descriptions::bodies::{tell_routine, tell_task};
use make_descriptions::description::{Body, Described, Does};
use make_descriptions::fault::{Fault, Wrong, tell};
use make_descriptions::lists::items;
use make_descriptions::names::SCHEDULER;
use make_descriptions::node::Node;
use oil_reader::{OilFile, TaskObject};
use osek_base::{Name, Property};
use std::alloc::{AllocError, Global};

/// A work file's keys and values, and the OIL file beside it.
#[derive(Clone, Copy)]
struct Beside<'a> {
    nodes: &'a [Node],
    file: &'a OilFile,
}

/// Whether a name stands in a list.
fn lists(names: &[Name], name: &str) -> bool {
    for other in names {
        if other.as_str() == name {
            return true;
        }
    }
    false
}

/// Whether an event is declared.
fn has_event(file: &OilFile, name: &str) -> bool {
    for event in file.events() {
        if event.name.as_str() == name {
            return true;
        }
    }
    false
}

/// What is wrong with getting a resource, where no task tells which ones it lists.
fn wrong_resource<'a>(file: &OilFile, name: &'a str) -> Option<Wrong<'a>> {
    if name == SCHEDULER {
        return (!file.os().use_res_scheduler).then_some(Wrong::NoScheduler);
    }
    for resource in file.resources() {
        if resource.name.as_str() == name {
            return match resource.property {
                Property::Internal => Some(Wrong::InternalResource(name)),
                Property::Standard => None,
            };
        }
    }
    Some(Wrong::UnknownResource(name))
}

impl<'a> Beside<'a> {
    /// The task of that name.
    fn task(self, name: &str) -> Option<&'a TaskObject> {
        for task in self.file.tasks() {
            if task.name.as_str() == name {
                return Some(task);
            }
        }
        None
    }

    /// Tells where a task can't get a resource. An empty name was told already.
    fn tell_resource(
        self,
        task: &TaskObject,
        owner: &'a str,
        name: &'a str,
        place: usize,
        faults: &mut Vec<Fault<'a>>,
    ) -> Result<(), AllocError> {
        if name.is_empty() {
            return Ok(());
        }
        if let Some(wrong) = wrong_resource(self.file, name) {
            return tell(faults, place, wrong);
        }
        if name != SCHEDULER && !lists(task.resources.as_slice(), name) {
            return tell(faults, place, Wrong::UnlistedResource(owner, name));
        }
        Ok(())
    }

    /// Tells of each event of a list that isn't declared, or that a task doesn't list.
    fn tell_events(
        self,
        alloc: Global,
        task: &TaskObject,
        owner: &'a str,
        list: usize,
        faults: &mut Vec<Fault<'a>>,
    ) -> Result<(), AllocError> {
        for node in items(alloc, self.nodes, list)? {
            let event = node.text.as_str();
            if event.is_empty() || lists(task.events.as_slice(), event) {
                continue;
            }
            let wrong = if has_event(self.file, event) {
                Wrong::UnlistedEvent(owner, event)
            } else {
                Wrong::UnknownEvent(event)
            };
            tell(faults, node.place, wrong)?;
        }
        Ok(())
    }

    /// Tells where no task has a name. An empty name was told already.
    fn tell_target(
        self,
        name: &'a str,
        place: usize,
        faults: &mut Vec<Fault<'a>>,
    ) -> Result<(), AllocError> {
        if !name.is_empty() && self.task(name).is_none() {
            tell(faults, place, Wrong::UnknownTask(name))?;
        }
        Ok(())
    }

    /// Tells of tasks, and of events set for them, that a body names and that aren't there.
    fn tell_named(
        self,
        alloc: Global,
        body: &Body<'a>,
        faults: &mut Vec<Fault<'a>>,
    ) -> Result<(), AllocError> {
        for step in &body.steps {
            match step.does {
                Does::Activate(name) | Does::Chain(name) => {
                    self.tell_target(name, step.place, faults)?;
                }
                Does::Set(name, list) => {
                    self.tell_target(name, step.place, faults)?;
                    if let Some(task) = self.task(name) {
                        self.tell_events(alloc, task, name, list, faults)?;
                    }
                }
                _ => {}
            }
        }
        Ok(())
    }

    /// Tells of resources and events that the body of a task needs and the task doesn't list.
    fn tell_listed(
        self,
        alloc: Global,
        task: &TaskObject,
        owner: &'a str,
        body: &Body<'a>,
        faults: &mut Vec<Fault<'a>>,
    ) -> Result<(), AllocError> {
        for step in &body.steps {
            match step.does {
                Does::Get(name) => self.tell_resource(task, owner, name, step.place, faults)?,
                Does::Wait { events, .. } | Does::Clear(events) => {
                    self.tell_events(alloc, task, owner, events, faults)?;
                }
                _ => {}
            }
        }
        Ok(())
    }
}

/// Tells of each limited wait: its alarm and its event aren't the OIL file's.
fn tell_limits<'a>(body: &Body<'a>, faults: &mut Vec<Fault<'a>>) -> Result<(), AllocError> {
    for step in &body.steps {
        if step.does.is_limited_wait() {
            tell(faults, step.place, Wrong::LimitBesideOil)?;
        }
    }
    Ok(())
}

/// Tells what is wrong of the bodies of a work file.
pub(crate) fn tell_bodies<'a>(
    alloc: Global,
    nodes: &'a [Node],
    file: &'a OilFile,
    described: &Described<'a>,
    faults: &mut Vec<Fault<'a>>,
) -> Result<(), AllocError> {
    let beside = Beside { nodes, file };
    for task in &described.tasks {
        beside.tell_named(alloc, &task.body, faults)?;
        tell_task(alloc, &task.body, faults)?;
        tell_limits(&task.body, faults)?;
        if let Some(object) = beside.task(task.name) {
            beside.tell_listed(alloc, object, task.name, &task.body, faults)?;
        }
    }
    for interrupt in &described.interrupts {
        beside.tell_named(alloc, &interrupt.body, faults)?;
        tell_routine(&interrupt.body, faults)?;
    }
    Ok(())
}
