//! The table of the tasks.

use crate::declared::{attribute, number_in, object, word_of};
use crate::lists::{listed, modes, resources};
use crate::table::ListingTable;
use oil_reader::{Kind, Object, SyntaxTree};
use osek_base::{System, TaskId};
use std::alloc::{AllocError, Global};

const COLUMNS: [&str; 10] = [
    "task",
    "number",
    "priority",
    "threshold",
    "schedule",
    "activation",
    "starts",
    "internal",
    "resources",
    "events",
];

/// The priority that a task has at least while it runs: its own, or its internal ceiling.
fn threshold(system: &System, number: usize) -> u8 {
    if number >= system.task_count() {
        return 0;
    }
    let task = TaskId::new(number as u8);
    let priority = system.priority_of(task);
    priority.max(system.internal_ceiling(task).unwrap_or(0))
}

/// Adds what an object has as a task.
fn add_attributes(
    alloc: Global,
    tree: &SyntaxTree<'_>,
    task: &Object<'_>,
    table: &mut ListingTable,
) -> Result<(), AllocError> {
    table.text(match attribute(task, "SCHEDULE") {
        Some(schedule) => word_of(schedule.setting.value),
        None => "",
    })?;
    table.number(number_in(task, "ACTIVATION") as usize)?;
    table.names(modes(alloc, task)?)?;
    table.names(resources(alloc, tree, task, true)?)?;
    table.names(resources(alloc, tree, task, false)?)?;
    table.names(listed(alloc, task, "EVENT")?)
}

fn add_task(
    alloc: Global,
    system: &System,
    tree: &SyntaxTree<'_>,
    number: usize,
    task: &Object<'_>,
    table: &mut ListingTable,
) -> Result<(), AllocError> {
    table.text(task.name.text)?;
    table.number(number)?;
    table.number(number_in(task, "PRIORITY") as usize)?;
    table.number(usize::from(threshold(system, number)))?;
    add_attributes(alloc, tree, task, table)
}

/// The tasks by their numbers.
pub(crate) fn task_table(
    alloc: Global,
    system: &System,
    tree: &SyntaxTree<'_>,
) -> Result<ListingTable, AllocError> {
    let mut table = ListingTable::new(alloc, &COLUMNS)?;
    for (number, name) in system.names().tasks.iter().enumerate() {
        if let Some(task) = object(tree, Kind::Task, name.as_str()) {
            add_task(alloc, system, tree, number, task, &mut table)?;
        }
    }
    Ok(table)
}
