//! The conformance class of a system, and which tasks make it so.

use osek_base::{Class, System};
use std::io::{self, Write};

/// The name of a task.
fn name_of(system: &System, number: usize) -> &str {
    match system.names().tasks.get(number) {
        Some(name) => name.as_str(),
        None => "",
    }
}

/// Writes what is said of a task, where there is such a task.
fn write_task<W: Write>(
    system: &System,
    task: Option<usize>,
    said: &str,
    out: &mut W,
) -> io::Result<()> {
    match task {
        Some(task) => writeln!(out, "  {} {said}", name_of(system, task)),
        None => Ok(()),
    }
}

/// Writes the class, and below it the first task that lists an event, the first with several
/// activations, and the first that has the priority of the task before it.
pub(crate) fn write_class<W: Write>(system: &System, class: Class, out: &mut W) -> io::Result<()> {
    writeln!(out, "class {}", class.name())?;
    let extended = first_extended(system);
    write_task(system, extended, "lists an event", out)?;
    let multiple = first_multiple(system);
    write_task(system, multiple, "has several activations", out)?;
    let Some(task) = first_tied(system) else {
        return Ok(());
    };
    let before = name_of(system, task.saturating_sub(1));
    writeln!(
        out,
        "  {before} and {} have one priority",
        name_of(system, task)
    )
}

fn first_extended(system: &System) -> Option<usize> {
    for (number, task) in system.parts().tasks.iter().enumerate() {
        if !task.events.is_empty() {
            return Some(number);
        }
    }
    None
}

fn first_multiple(system: &System) -> Option<usize> {
    for (number, task) in system.parts().tasks.iter().enumerate() {
        if task.activation > 1 {
            return Some(number);
        }
    }
    None
}

/// The first task whose number follows that of a task of its priority.
fn first_tied(system: &System) -> Option<usize> {
    let mut before = None;
    for (number, task) in system.parts().tasks.iter().enumerate() {
        if before == Some(task.priority) {
            return Some(number);
        }
        before = Some(task.priority);
    }
    None
}
