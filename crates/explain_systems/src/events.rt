//! Events and their masks.

use crate::declared::word_of;
use crate::lists::tasks_with;
use crate::table::ListingTable;
use oil_reader::{Object, SyntaxTree};
use osek_base::System;
use std::alloc::{AllocError, Global};

/// The mask of the event of a name, 0 where there is none.
fn mask_of(system: &System, name: &str) -> u32 {
    let masks = system.parts().events.iter();
    for (event, mask) in system.names().events.iter().zip(masks) {
        if event.as_str() == name {
            return *mask;
        }
    }
    0
}

fn add_event(
    alloc: Global,
    tree: &SyntaxTree<'_>,
    event: &str,
    mask: u32,
    table: &mut ListingTable,
) -> Result<(), AllocError> {
    table.text(event)?;
    table.mask(mask)?;
    table.names(tasks_with(alloc, tree, "EVENT", event)?)
}

/// The events, in declaration order.
pub(crate) fn event_table(
    alloc: Global,
    system: &System,
    tree: &SyntaxTree<'_>,
) -> Result<ListingTable, AllocError> {
    let mut table = ListingTable::new(alloc, &["event", "mask", "tasks"])?;
    let masks = system.parts().events.iter();
    for (event, mask) in system.names().events.iter().zip(masks) {
        add_event(alloc, tree, event.as_str(), *mask, &mut table)?;
    }
    Ok(table)
}

/// The event before a place that a task lists and whose mask has a bit of that of an event.
pub(crate) fn sharing<'a>(
    system: &System,
    task: &Object<'a>,
    event: &str,
    place: usize,
) -> Option<&'a str> {
    let mask = mask_of(system, event);
    for attribute in &task.attributes {
        let setting = attribute.setting;
        let other = word_of(setting.value);
        if setting.name.text == "EVENT"
            && setting.value_place < place
            && mask_of(system, other) & mask != 0
        {
            return Some(other);
        }
    }
    None
}
