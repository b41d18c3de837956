//! Mistakes of an OIL file, each at its place.

use crate::declared::{inner, word_of};
use crate::events::sharing;
use crate::idle::why_idle;
use crate::parsed::Parsed;
use crate::uses::task_lists;
use explain_texts::Piece::{self, Named, Text};
use explain_texts::Source;
use oil_reader::{Attribute, Kind, Object};
use osek_base::System;
use std::io::{self, Write};

/// Where warnings are written, and whether the line of the text is shown below each.
#[derive(Drop)]
pub(crate) struct Warnings<'w, W> {
    pub out: &'w mut W,
    pub are_explained: bool,
}

impl<W: Write> Warnings<'_, W> {
    /// Writes a warning at a place.
    pub(crate) fn warn(
        &mut self,
        source: Source<'_>,
        place: usize,
        what: &[Piece<'_>],
    ) -> io::Result<()> {
        if self.are_explained {
            source.tell(place, what, self.out)
        } else {
            source.mention(place, what, self.out)
        }
    }

    /// Warns of an object that a task doesn't list.
    pub(crate) fn warn_unlisted<'p>(
        &mut self,
        source: Source<'_>,
        place: usize,
        task: &'p str,
        kind: Kind,
        name: &'p str,
    ) -> io::Result<()> {
        let what = [
            Text("warning: "),
            Named(Kind::Task, task),
            Text(" doesn't list "),
            Named(kind, name),
        ];
        self.warn(source, place, &what)
    }
}

/// Warns of an event in a task's list that shares a bit with an earlier one.
fn warn_of_event<'p, W: Write>(
    parsed: Parsed<'_, '_>,
    system: &System,
    task: &Object<'p>,
    attribute: &Attribute<'p>,
    warnings: &mut Warnings<'_, W>,
) -> io::Result<()> {
    let setting = attribute.setting;
    if setting.name.text != "EVENT" {
        return Ok(());
    }
    let event = word_of(setting.value);
    let Some(other) = sharing(system, task, event, setting.value_place) else {
        return Ok(());
    };
    let what = [
        Text("warning: "),
        Named(Kind::Event, event),
        Text(" shares a bit with "),
        Named(Kind::Event, other),
        Text(", which "),
        Named(Kind::Task, task.name.text),
        Text(" lists too"),
    ];
    warnings.warn(parsed.oil, setting.value_place, &what)
}

fn warn_of_events<W: Write>(
    parsed: Parsed<'_, '_>,
    system: &System,
    task: &Object<'_>,
    warnings: &mut Warnings<'_, W>,
) -> io::Result<()> {
    for attribute in &task.attributes {
        warn_of_event(parsed, system, task, attribute, warnings)?;
    }
    Ok(())
}

/// Warns of an alarm that sets an event which its task doesn't list.
fn warn_of_action<W: Write>(
    parsed: Parsed<'_, '_>,
    alarm: &Object<'_>,
    warnings: &mut Warnings<'_, W>,
) -> io::Result<()> {
    let Some(task) = inner(alarm, "ACTION", "TASK") else {
        return Ok(());
    };
    let Some(event) = inner(alarm, "ACTION", "EVENT") else {
        return Ok(());
    };
    let task = word_of(task.value);
    let name = word_of(event.value);
    if task_lists(parsed.tree, task, "EVENT", name) {
        return Ok(());
    }
    warnings.warn_unlisted(parsed.oil, event.value_place, task, Kind::Event, name)
}

fn warn_of_object<W: Write>(
    parsed: Parsed<'_, '_>,
    system: &System,
    object: &Object<'_>,
    warnings: &mut Warnings<'_, W>,
) -> io::Result<()> {
    if let Some(why) = why_idle(parsed, object) {
        let name = Named(object.kind, object.name.text);
        warnings.warn(
            parsed.oil,
            object.place,
            &[Text("warning: "), Text(why), name],
        )?;
    }
    match object.kind {
        Kind::Task => warn_of_events(parsed, system, object, warnings),
        Kind::Alarm => warn_of_action(parsed, object, warnings),
        _ => Ok(()),
    }
}

/// Writes what is surely a mistake in an OIL file, object by object. An error is a failed write.
pub(crate) fn warn_of_objects<W: Write>(
    parsed: Parsed<'_, '_>,
    system: &System,
    warnings: &mut Warnings<'_, W>,
) -> io::Result<()> {
    for object in &parsed.tree.objects {
        warn_of_object(parsed, system, object, warnings)?;
    }
    Ok(())
}
