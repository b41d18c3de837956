//! Who holds each resource, in the trace event format.

use crate::held::Held;
use crate::stretch::Stretch;
use crate::trace_event::{Events, Group, Place};
use crate::track::Track;
use osek_base::System;
use serde_json::{Value, json};
use std::alloc::{AllocError, Global};
use std::io::{self, Write};

/// How many resources can be held.
fn held_count(system: &System) -> usize {
    let declared = system.names().resources.len();
    declared.saturating_add(usize::from(system.has_res_scheduler()))
}

/// The name of what can be held: behind the declared resources stands RES_SCHEDULER.
fn resource_name(system: &System, number: usize) -> &str {
    match system.names().resources.get(number) {
        Some(name) => name.as_str(),
        None => "RES_SCHEDULER",
    }
}

/// The names of what is held, with spaces between them.
pub(crate) fn held_names(alloc: Global, system: &System, held: Held) -> Result<String, AllocError> {
    let mut names = String::new(alloc);
    for number in 0..held_count(system) {
        if held.contains(number) {
            names.push_str(if names.is_empty() { "" } else { " " })?;
            names.push_str(resource_name(system, number))?;
        }
    }
    Ok(names)
}

/// The ticks in a row for which a task holds a resource.
#[derive(Clone, Copy)]
struct Hold {
    first: u32,
    last: u32,
}

/// Writes the holds of a resource by a task.
#[derive(Drop)]
struct Holds<'a> {
    resource: usize,
    place: Place,
    task: &'a str,
    told: &'a Value,
    hold: Option<Hold>,
}

impl Holds<'_> {
    /// Writes the hold that has come to its end, if one has.
    fn put<W: Write>(&mut self, events: &mut Events<'_, W>) -> io::Result<()> {
        match self.hold.take() {
            Some(hold) => events.slice(self.place, self.task, hold.first, hold.last, self.told),
            None => Ok(()),
        }
    }

    /// Goes on with the next stretch of the task's row.
    fn pass<W: Write>(&mut self, stretch: &Stretch, events: &mut Events<'_, W>) -> io::Result<()> {
        if !stretch.moment.held.contains(self.resource) {
            return self.put(events);
        }
        let first = match self.hold {
            Some(hold) => hold.first,
            None => stretch.first,
        };
        self.hold = Some(Hold {
            first,
            last: stretch.last,
        });
        Ok(())
    }
}

/// Writes the track of a resource: a slice for each hold, with the name of the task.
fn put_resource<W: Write>(
    system: &System,
    resource: usize,
    tasks: &[Track],
    told: &Value,
    events: &mut Events<'_, W>,
) -> io::Result<()> {
    let place = Place {
        group: Group::Resources,
        number: resource.saturating_add(1),
    };
    events.name_track(place, resource_name(system, resource))?;
    for (track, name) in tasks.iter().zip(system.names().tasks.as_slice()) {
        let mut holds = Holds {
            resource,
            place,
            task: name.as_str(),
            told,
            hold: None,
        };
        if track.is_drawn {
            let (closed, last) = track.row.stretches();
            for stretch in closed {
                holds.pass(stretch, events)?;
            }
            if let Some(last) = last {
                holds.pass(&last, events)?;
            }
        }
        holds.put(events)?;
    }
    Ok(())
}

/// Writes the tracks of all resources that can be held.
pub(crate) fn put_holds<W: Write>(
    alloc: Global,
    system: &System,
    tasks: &[Track],
    events: &mut Events<'_, W>,
) -> io::Result<()> {
    let told = json!(in alloc; {})?;
    for resource in 0..held_count(system) {
        put_resource(system, resource, tasks, &told, events)?;
    }
    Ok(())
}
