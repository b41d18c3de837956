//! A picture of a run in the trace event format, which Perfetto and chrome://tracing open: its rows
//! as tracks, its stretches as slices, its marks as instants.

use crate::drawn_marks::sign_text;
use crate::kind::RowKind;
use crate::stretch::Stretch;
use crate::svg::place_of_routine;
use crate::timeline::Timeline;
use crate::trace_event::{Events, Group, Place};
use crate::trace_holds::{held_names, put_holds};
use crate::track::Track;
use osek_base::System;
use serde_json::{Value, json};
use std::alloc::{AllocError, Global};
use std::io::{self, Write};

/// What is told of a stretch of a task: the dynamic priority of its oldest job, how many jobs there
/// are, and what they hold.
fn told_of_task(alloc: Global, system: &System, stretch: &Stretch) -> Result<Value, AllocError> {
    let moment = stretch.moment;
    let (priority, jobs) = (moment.priority, moment.jobs);
    let holds = held_names(alloc, system, moment.held)?;
    json!(in alloc; {"priority": priority, "jobs": jobs, "holds": holds})
}

/// Writes a stretch, where something is done in it.
fn put_stretch<W: Write>(
    alloc: Global,
    system: &System,
    kind: RowKind,
    place: Place,
    stretch: &Stretch,
    events: &mut Events<'_, W>,
) -> io::Result<()> {
    let activity = stretch.moment.activity;
    if activity.is_nothing() {
        return Ok(());
    }
    let told = match kind {
        RowKind::Task => told_of_task(alloc, system, stretch)?,
        RowKind::Routine => json!(in alloc; {})?,
    };
    events.slice(
        place,
        kind.does(activity),
        stretch.first,
        stretch.last,
        &told,
    )
}

/// Writes a row: its name, its stretches, and what came to it.
fn put_row<W: Write>(
    alloc: Global,
    system: &System,
    kind: RowKind,
    place: Place,
    name: &str,
    track: &Track,
    events: &mut Events<'_, W>,
) -> io::Result<()> {
    events.name_track(place, name)?;
    let (closed, last) = track.row.stretches();
    for stretch in closed {
        put_stretch(alloc, system, kind, place, stretch, events)?;
    }
    if let Some(last) = last {
        put_stretch(alloc, system, kind, place, &last, events)?;
    }
    for mark in &track.marks {
        let text = sign_text(alloc, system, mark.sign)?;
        events.instant(place, text.as_str(), mark.tick)?;
    }
    Ok(())
}

/// Writes the rows of routines, by falling PRIORITY.
fn put_routines<W: Write>(
    alloc: Global,
    system: &System,
    tracks: &[Track],
    events: &mut Events<'_, W>,
) -> io::Result<()> {
    let routines = system.parts().routines.as_slice();
    let names = system.names().routines.as_slice();
    for (number, ((track, routine), name)) in tracks.iter().zip(routines).zip(names).enumerate() {
        if track.is_drawn {
            let before = place_of_routine(tracks, routines, number, routine.priority);
            let place = Place {
                group: Group::Routines,
                number: before.saturating_add(1),
            };
            put_row(
                alloc,
                system,
                RowKind::Routine,
                place,
                name.as_str(),
                track,
                events,
            )?;
        }
    }
    Ok(())
}

/// Writes the rows of tasks, which stand by falling priority.
fn put_tasks<W: Write>(
    alloc: Global,
    system: &System,
    tracks: &[Track],
    events: &mut Events<'_, W>,
) -> io::Result<()> {
    let names = system.names().tasks.as_slice();
    for (number, (track, name)) in tracks.iter().zip(names).enumerate() {
        if track.is_drawn {
            let place = Place {
                group: Group::Tasks,
                number: number.saturating_add(1),
            };
            put_row(
                alloc,
                system,
                RowKind::Task,
                place,
                name.as_str(),
                track,
                events,
            )?;
        }
    }
    Ok(())
}

impl Timeline {
    fn put_events<W: Write>(&self, alloc: Global, system: &System, out: &mut W) -> io::Result<()> {
        let mut events = Events::new(alloc, out);
        events.begin()?;
        for group in Group::ALL {
            events.name_group(group)?;
        }
        put_routines(alloc, system, self.routines.as_slice(), &mut events)?;
        put_tasks(alloc, system, self.tasks.as_slice(), &mut events)?;
        put_holds(alloc, system, self.tasks.as_slice(), &mut events)?;
        events.end()
    }

    /// The picture in the trace event format, as JSON: a track for each routine and task that was
    /// chosen, by falling priority, and one for each resource, with who of them holds it. A tick is
    /// a microsecond. The only error is want of memory.
    pub fn events_text(&self, alloc: Global, system: &System) -> Result<Vec<u8>, AllocError> {
        let mut text = Vec::new(alloc);
        match self.put_events(alloc, system, &mut text) {
            Ok(()) => Ok(text),
            Err(_) => Err(AllocError),
        }
    }
}
