//! The tables of interrupt routines, resources, counters and alarms.

use crate::declared::{attribute, inner, number_in, number_of, word_of};
use crate::lists::{modes, tasks_with};
use crate::table::ListingTable;
use oil_reader::{Kind, Object, SyntaxTree};
use osek_base::{ResId, ResourceNumber, System};
use std::alloc::{AllocError, Global};

/// The word that an attribute has as its value, empty where there is none.
fn word_in<'a>(object: &Object<'a>, word: &str) -> &'a str {
    match attribute(object, word) {
        Some(attribute) => word_of(attribute.setting.value),
        None => "",
    }
}

/// The interrupt routines, in declaration order.
pub(crate) fn routine_table(
    alloc: Global,
    tree: &SyntaxTree<'_>,
) -> Result<ListingTable, AllocError> {
    let mut table = ListingTable::new(alloc, &["routine", "priority"])?;
    for routine in &tree.objects {
        if routine.kind == Kind::Isr {
            table.text(routine.name.text)?;
            table.number(number_in(routine, "PRIORITY") as usize)?;
        }
    }
    Ok(table)
}

/// The ceiling of a declared resource.
fn ceiling(system: &System, number: usize) -> u8 {
    if number >= system.resource_count() {
        return 0;
    }
    system.ceiling(ResId::Declared(ResourceNumber::new(number as u8)))
}

/// Adds RES_SCHEDULER, which is open to every task.
fn add_scheduler(system: &System, table: &mut ListingTable) -> Result<(), AllocError> {
    table.text("RES_SCHEDULER")?;
    table.number(usize::from(system.ceiling(ResId::Scheduler)))?;
    table.text("STANDARD")?;
    table.text("all")
}

fn add_resource(
    alloc: Global,
    tree: &SyntaxTree<'_>,
    resource: &Object<'_>,
    ceiling: u8,
    table: &mut ListingTable,
) -> Result<(), AllocError> {
    let name = resource.name.text;
    table.text(name)?;
    table.number(usize::from(ceiling))?;
    table.text(word_in(resource, "RESOURCEPROPERTY"))?;
    table.names(tasks_with(alloc, tree, "RESOURCE", name)?)
}

/// The resources, in declaration order, and RES_SCHEDULER where it exists.
pub(crate) fn resource_table(
    alloc: Global,
    system: &System,
    tree: &SyntaxTree<'_>,
) -> Result<ListingTable, AllocError> {
    let mut table = ListingTable::new(alloc, &["resource", "ceiling", "property", "tasks"])?;
    let mut number: usize = 0;
    for resource in &tree.objects {
        if resource.kind == Kind::Resource {
            add_resource(alloc, tree, resource, ceiling(system, number), &mut table)?;
            number = number.saturating_add(1);
        }
    }
    if system.has_res_scheduler() {
        add_scheduler(system, &mut table)?;
    }
    Ok(table)
}

/// The counters, in declaration order.
pub(crate) fn counter_table(
    alloc: Global,
    tree: &SyntaxTree<'_>,
) -> Result<ListingTable, AllocError> {
    let words = ["MAXALLOWEDVALUE", "TICKSPERBASE", "MINCYCLE"];
    let mut table = ListingTable::new(alloc, &["counter", words[0], words[1], words[2]])?;
    for counter in &tree.objects {
        if counter.kind == Kind::Counter {
            table.text(counter.name.text)?;
            for word in &words {
                table.number(number_in(counter, *word) as usize)?;
            }
        }
    }
    Ok(table)
}

/// The word that a setting in an alarm's ACTION has, empty where there is none.
fn acted_on<'a>(alarm: &Object<'a>, word: &str) -> &'a str {
    match inner(alarm, "ACTION", word) {
        Some(setting) => word_of(setting.value),
        None => "",
    }
}

/// Adds a time of an alarm that starts by itself, in counts.
fn add_time(alarm: &Object<'_>, word: &str, table: &mut ListingTable) -> Result<(), AllocError> {
    match inner(alarm, "AUTOSTART", word) {
        Some(setting) => table.number(number_of(setting.value) as usize),
        None => table.text(""),
    }
}

const ALARM_COLUMNS: [&str; 8] = [
    "alarm",
    "counter",
    "action",
    "task",
    "event",
    "starts",
    "ALARMTIME",
    "CYCLETIME",
];

fn add_alarm(
    alloc: Global,
    alarm: &Object<'_>,
    table: &mut ListingTable,
) -> Result<(), AllocError> {
    table.text(alarm.name.text)?;
    table.text(word_in(alarm, "COUNTER"))?;
    table.text(word_in(alarm, "ACTION"))?;
    table.text(acted_on(alarm, "TASK"))?;
    table.text(acted_on(alarm, "EVENT"))?;
    table.names(modes(alloc, alarm)?)?;
    add_time(alarm, "ALARMTIME", table)?;
    add_time(alarm, "CYCLETIME", table)
}

/// The alarms, in declaration order.
pub(crate) fn alarm_table(
    alloc: Global,
    tree: &SyntaxTree<'_>,
) -> Result<ListingTable, AllocError> {
    let mut table = ListingTable::new(alloc, &ALARM_COLUMNS)?;
    for alarm in &tree.objects {
        if alarm.kind == Kind::Alarm {
            add_alarm(alloc, alarm, &mut table)?;
        }
    }
    Ok(table)
}
