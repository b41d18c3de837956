//! The sections of a description, as they stand in the text.

use crate::checks::add_name;
use crate::description::{Action, Alarm, Described, Internal, Interrupt, Task};
use crate::fault::{Fault, Wrong, tell};
use crate::lists::items;
use crate::node::{Kind, Node};
use crate::read_arrivals::{arriving, release};
use crate::read_lists::tell_names;
use crate::read_steps::body;
use crate::read_tables::{Found, Table, number_or, part, part_alone, ticks_or, want};
use crate::times::tell_tick;
use osek_base::{
    MAX_ACTIVATION, MAX_ALARMS, MAX_MODES, MAX_ROUTINE_PRIORITY, MAX_ROUTINES, MAX_TASK_PRIORITY,
    MAX_TASKS, MAX_TICKS,
};
use std::alloc::{AllocError, Global};

/// What may stand before all sections.
const ROOT_KEYS: [&str; 5] = ["name", "mode", "modes", "tick", "ticks"];

/// The keys of a task.
const TASK_KEYS: [&str; 15] = [
    "name",
    "priority",
    "activations",
    "schedule",
    "internal",
    "autostart",
    "modes",
    "period",
    "offset",
    "least",
    "most",
    "seed",
    "deadline",
    "body",
    "loop",
];

/// The keys of an interrupt.
const INTERRUPT_KEYS: [&str; 11] = [
    "name", "priority", "period", "offset", "jitter", "seed", "ticks", "least", "most", "deadline",
    "body",
];

const ALARM_KEYS: [&str; 7] = [
    "name", "period", "offset", "modes", "activate", "set", "event",
];

/// The longest time that is allowed.
pub fn deadline<'a>(
    table: &Table<'a>,
    faults: &mut Vec<Fault<'a>>,
) -> Result<Option<u32>, AllocError> {
    table.ticks("deadline", (1, MAX_TICKS), faults)
}

/// Whether a task is NON.
fn is_non<'a>(table: &Table<'a>, faults: &mut Vec<Fault<'a>>) -> Result<bool, AllocError> {
    let (Some(word), Some(Found { node, .. })) = (
        table.text("schedule", faults)?,
        table.find("schedule"),
    ) else {
        return Ok(false);
    };
    if word != "NON" && word != "FULL" {
        tell(faults, node.place, Wrong::NoSchedule(word))?;
    }
    Ok(word == "NON")
}

/// The list of the modes in which something is started.
fn modes_of<'a>(
    alloc: Global,
    table: &Table<'a>,
    faults: &mut Vec<Fault<'a>>,
) -> Result<Option<usize>, AllocError> {
    match table.list("modes", faults)? {
        Some(list) => {
            tell_names(alloc, table.nodes, list, MODE_NAME, faults)?;
            Ok(Some(list.at))
        }
        None => Ok(None),
    }
}

/// The internal resource of a task.
fn internal<'a>(
    table: &Table<'a>,
    faults: &mut Vec<Fault<'a>>,
) -> Result<Option<Internal<'a>>, AllocError> {
    match (table.name("internal", faults)?, table.find("internal")) {
        (Some(name), Some(Found { node, .. })) => Ok(Some(Internal {
            name,
            place: node.place,
        })),
        _ => Ok(None),
    }
}

/// Tells where modes are said of a task that nothing starts.
fn tell_unstarted<'a>(table: &Table<'a>, faults: &mut Vec<Fault<'a>>) -> Result<(), AllocError> {
    if table.find("autostart").is_none() {
        part_alone(table, "modes", "period", faults)?;
    }
    Ok(())
}

fn task<'a>(
    alloc: Global,
    table: &Table<'a>,
    faults: &mut Vec<Fault<'a>>,
) -> Result<Task<'a>, AllocError> {
    let _ = table.tell_unknown(alloc, &TASK_KEYS, &[], "a task", faults)?;
    want(table, "priority", faults)?;
    tell_unstarted(table, faults)?;
    let name = table.own_name(faults)?;
    let priority = number_or(table, "priority", (0, MAX_TASK_PRIORITY as u32), 0, faults)?;
    let activations = number_or(table, "activations", (1, MAX_ACTIVATION as u32), 1, faults)?;
    let activations_place = match table.find("activations") {
        Some(Found { node, .. }) => node.place,
        None => table.place,
    };
    let is_non = is_non(table, faults)?;
    let starts = table.is_true("autostart", faults)?;
    let modes = modes_of(alloc, table, faults)?;
    let internal = internal(table, faults)?;
    let release = release(table, faults)?;
    let deadline = deadline(table, faults)?;
    let body = body(alloc, table, faults)?;
    Ok(Task {
        name,
        place: table.place,
        priority,
        activations,
        activations_place,
        is_non,
        starts,
        modes,
        internal,
        release,
        deadline,
        body,
    })
}

fn interrupt<'a>(
    alloc: Global,
    table: &Table<'a>,
    faults: &mut Vec<Fault<'a>>,
) -> Result<Interrupt<'a>, AllocError> {
    let _ = table.tell_unknown(alloc, &INTERRUPT_KEYS, &[], "an interrupt", faults)?;
    let name = table.own_name(faults)?;
    let priority = number_or(
        table,
        "priority",
        (0, MAX_ROUTINE_PRIORITY as u32),
        0,
        faults,
    )?;
    let arriving = arriving(alloc, table, faults)?;
    let deadline = deadline(table, faults)?;
    let body = body(alloc, table, faults)?;
    Ok(Interrupt {
        name,
        place: table.place,
        priority,
        arriving,
        deadline,
        body,
    })
}

/// What an alarm does, with the place that says so.
fn action<'a>(
    table: &Table<'a>,
    faults: &mut Vec<Fault<'a>>,
) -> Result<(usize, Action<'a>), AllocError> {
    part(table, "set", "activate", faults)?;
    if let Some(Found { node, .. }) = table.find("activate") {
        part_alone(table, "event", "set", faults)?;
        let name = table.name("activate", faults)?.unwrap_or("");
        return Ok((node.place, Action::Activate(name)));
    }
    let Some(Found { node, .. }) = table.find("set") else {
        tell(faults, table.place, Wrong::Missing("activate or set"))?;
        return Ok((table.place, Action::Activate("")));
    };
    let place = node.place;
    let name = table.name("set", faults)?.unwrap_or("");
    want(table, "event", faults)?;
    let event = table.name("event", faults)?.unwrap_or("");
    Ok((place, Action::Set(name, event)))
}

fn alarm<'a>(
    alloc: Global,
    table: &Table<'a>,
    faults: &mut Vec<Fault<'a>>,
) -> Result<Alarm<'a>, AllocError> {
    let _ = table.tell_unknown(alloc, &ALARM_KEYS, &[], "an alarm", faults)?;
    want(table, "period", faults)?;
    let name = table.own_name(faults)?;
    let period = ticks_or(table, "period", (1, MAX_TICKS), 1, faults)?;
    let offset = ticks_or(table, "offset", (1, MAX_TICKS), period, faults)?;
    let modes = modes_of(alloc, table, faults)?;
    let (action_place, action) = action(table, faults)?;
    Ok(Alarm {
        name,
        place: table.place,
        action_place,
        period,
        offset,
        modes,
        action,
    })
}

/// Tells where a kind has more objects than it may have.
pub fn is_full<'a>(
    len: usize,
    most: usize,
    what: &'static str,
    place: usize,
    faults: &mut Vec<Fault<'a>>,
) -> Result<bool, AllocError> {
    if len == most {
        tell(faults, place, Wrong::TooMany(most, what))?;
    }
    Ok(len >= most)
}

/// Adds what a section describes. False where there are too many of its kind.
fn add_section<'a>(
    alloc: Global,
    described: &mut Described<'a>,
    table: &Table<'a>,
    key: &'a str,
    faults: &mut Vec<Fault<'a>>,
) -> Result<bool, AllocError> {
    let place = table.place;
    if key == "task" {
        if is_full(described.tasks.len(), MAX_TASKS, "tasks", place, faults)? {
            return Ok(false);
        }
        described.tasks.push(task(alloc, table, faults)?)?;
    } else if key == "interrupt" {
        if is_full(
            described.interrupts.len(),
            MAX_ROUTINES,
            "interrupts",
            place,
            faults,
        )? {
            return Ok(false);
        }
        described.interrupts.push(interrupt(alloc, table, faults)?)?;
    } else if key == "alarm" {
        if is_full(described.alarms.len(), MAX_ALARMS, "alarms", place, faults)? {
            return Ok(false);
        }
        described.alarms.push(alarm(alloc, table, faults)?)?;
    } else {
        tell(faults, place, Wrong::UnknownSection(key))?;
    }
    Ok(true)
}

/// What a text describes, read up to the first section that is one too many.
pub fn described<'a>(
    alloc: Global,
    nodes: &'a [Node],
    faults: &mut Vec<Fault<'a>>,
) -> Result<Described<'a>, AllocError> {
    let root = root_of(nodes);
    let _ = root.tell_unknown(alloc, &ROOT_KEYS, &[], "the system", faults)?;
    tell_tick(&root, faults)?;
    let mut described = Described {
        name: root.name("name", faults)?.unwrap_or("System"),
        modes: all_modes(alloc, nodes, &root, faults)?,
        ticks: end_of_arrivals(&root, faults)?,
        tasks: Vec::new(alloc),
        interrupts: Vec::new(alloc),
        alarms: Vec::new(alloc),
    };
    for (at, node) in nodes.iter().enumerate() {
        if node.kind == Kind::Section {
            let table = Table::of(nodes, at, node);
            if !add_section(alloc, &mut described, &table, node.key.as_str(), faults)? {
                break;
            }
        }
    }
    Ok(described)
}

const MODE_NAME: &str = "the name of a mode";

/// The modes of a system: those of a list, or one.
fn all_modes<'a>(
    alloc: Global,
    nodes: &'a [Node],
    root: &Table<'a>,
    faults: &mut Vec<Fault<'a>>,
) -> Result<Vec<&'a str>, AllocError> {
    let mut modes = Vec::new(alloc);
    part(root, "modes", "mode", faults)?;
    if let Some(list) = root.list("modes", faults)? {
        tell_names(alloc, nodes, list, MODE_NAME, faults)?;
        for node in items(alloc, nodes, list.at)? {
            add_name(node.text.as_str(), node.place, &mut modes, faults)?;
        }
        if modes.len() > MAX_MODES {
            tell(faults, list.node.place, Wrong::TooMany(MAX_MODES, "modes"))?;
        }
        return Ok(modes);
    }
    modes.push(root.name("mode", faults)?.unwrap_or("Normal"))?;
    Ok(modes)
}

/// Before which tick interrupts arrive, where nothing is said.
const DEFAULT_TICKS: u32 = 1000;

/// Before which tick interrupts arrive.
pub fn end_of_arrivals<'a>(
    root: &Table<'a>,
    faults: &mut Vec<Fault<'a>>,
) -> Result<u32, AllocError> {
    ticks_or(root, "ticks", (1, MAX_TICKS), DEFAULT_TICKS, faults)
}

/// What stands before all sections.
pub fn root_of<'a>(nodes: &'a [Node]) -> Table<'a> {
    Table {
        nodes,
        first: 0,
        behind: first_section(nodes),
        depth: 0,
        place: 0,
    }
}

/// The number of the first node that begins a section.
fn first_section(nodes: &[Node]) -> usize {
    for (at, node) in nodes.iter().enumerate() {
        if node.kind == Kind::Section {
            return at;
        }
    }
    nodes.len()
}
