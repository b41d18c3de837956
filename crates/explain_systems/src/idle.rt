//! Objects that nobody uses.

use crate::declared::{is_internal, is_set};
use crate::parsed::Parsed;
use crate::uses::{is_acted_on, is_activated, is_listed, is_named, is_started};
use oil_reader::{Kind, Object};

/// Whether a task lists a resource that is internal, or a program names it.
fn is_resource_used(parsed: Parsed<'_, '_>, name: &str) -> bool {
    if is_internal(parsed.tree, name) {
        is_listed(parsed.tree, Kind::Task, "RESOURCE", name)
    } else {
        is_named(parsed.words, Kind::Resource, name)
    }
}

/// Whether a program or an alarm names an event.
fn is_event_used(parsed: Parsed<'_, '_>, name: &str) -> bool {
    is_named(parsed.words, Kind::Event, name) || is_acted_on(parsed.tree, "SETEVENT", "EVENT", name)
}

/// Whether a mode starts an alarm, or a program sets it.
fn is_alarm_used(parsed: Parsed<'_, '_>, alarm: &Object<'_>) -> bool {
    is_set(alarm, "AUTOSTART", "TRUE") || is_started(parsed.words, alarm.name.text)
}

/// Whether an object is used.
fn is_used(parsed: Parsed<'_, '_>, object: &Object<'_>) -> bool {
    let name = object.name.text;
    match object.kind {
        Kind::Task => is_activated(parsed.tree, parsed.words, object),
        Kind::Resource => is_resource_used(parsed, name),
        Kind::Event => is_event_used(parsed, name),
        Kind::Counter => is_listed(parsed.tree, Kind::Alarm, "COUNTER", name),
        Kind::Alarm => is_alarm_used(parsed, object),
        Kind::Os | Kind::AppMode | Kind::Isr => true,
    }
}

/// What is said before the kind and name of an object that nobody uses; None of one that somebody
/// uses.
pub(crate) fn why_idle(parsed: Parsed<'_, '_>, object: &Object<'_>) -> Option<&'static str> {
    if is_used(parsed, object) {
        return None;
    }
    Some(match object.kind {
        Kind::Task => "nothing activates ",
        Kind::Resource if is_internal(parsed.tree, object.name.text) => "no task lists ",
        Kind::Resource => "no program names ",
        Kind::Counter => "no alarm runs on ",
        Kind::Alarm => "no mode starts and no program sets ",
        _ => "no program and no alarm names ",
    })
}
