//! A work file to begin with: each task and routine of an OIL file, what the file tells of it as a
//! comment, and one tick of work, or as many as its execution budget has.

use oil_import::{Budget, Budgets};
use oil_reader::{IsrObject, Kind, OilFile, ResourceObject, TaskObject};
use osek_base::{MAX_TICKS, Name, Property, Schedule};
use std::io::{self, Write};

/// Writes names with commas between them.
fn write_names<W: Write>(names: &[Name], out: &mut W) -> io::Result<()> {
    for (number, name) in names.iter().enumerate() {
        if number > 0 {
            out.write_all(b", ")?;
        }
        out.write_all(name.as_str().as_bytes())?;
    }
    Ok(())
}

/// Writes names in quotation marks, with commas between them.
fn write_quoted<W: Write>(names: &[Name], out: &mut W) -> io::Result<()> {
    for (number, name) in names.iter().enumerate() {
        let front = if number > 0 { ", " } else { "" };
        write!(out, "{front}\"{}\"", name.as_str())?;
    }
    Ok(())
}

fn write_head<W: Write>(file: &OilFile, out: &mut W) -> io::Result<()> {
    writeln!(
        out,
        "# Times for the tasks and interrupt routines of CPU {}.",
        file.cpu().as_str()
    )?;
    out.write_all(
        b"# With the OIL file: osek make --oil system.oil work.toml -o FOLDER
# Steps: work, get, release, activate, chain, set, wait, clear, repeat, suspend and schedule. work = N takes exactly N ticks.

ticks = 1000 # interrupts arrive before this tick
",
    )
}

/// Writes what the OIL file tells of a task.
fn write_settings<W: Write>(task: &TaskObject, out: &mut W) -> io::Result<()> {
    let schedule = match task.schedule {
        Schedule::Non => "NON",
        Schedule::Full => "FULL",
    };
    write!(
        out,
        "\n# PRIORITY = {}; SCHEDULE = {schedule}; ",
        task.priority
    )?;
    write!(out, "ACTIVATION = {}; AUTOSTART = ", task.activation)?;
    if task.autostart.is_empty() {
        return out.write_all(b"FALSE\n");
    }
    out.write_all(b"TRUE in ")?;
    write_names(task.autostart.as_slice(), out)?;
    out.write_all(b"\n")
}

fn is_internal(resources: &[ResourceObject], name: &Name) -> bool {
    for resource in resources {
        if resource.name.as_str() == name.as_str() {
            return resource.property == Property::Internal;
        }
    }
    false
}

/// Writes a line for each resource that a task lists.
fn write_resources<W: Write>(file: &OilFile, task: &TaskObject, out: &mut W) -> io::Result<()> {
    for name in &task.resources {
        write!(out, "# RESOURCE = {}", name.as_str())?;
        if is_internal(file.resources(), name) {
            out.write_all(b", an internal one: it isn't got")?;
        }
        out.write_all(b"\n")?;
    }
    Ok(())
}

/// Writes the body: the work of a budget that is a number of ticks, else one tick.
fn write_body<W: Write>(budget: Option<Budget<'_>>, out: &mut W) -> io::Result<()> {
    let ticks = match budget {
        Some(
            Budget {
                number: Some(number),
                ..
            },
        ) if 1 <= number && number <= MAX_TICKS => number,
        _ => 1,
    };
    write!(out, "body = [ {{ work = {ticks} }} ]")?;
    if let Some(budget) = budget {
        write!(out, " # EXECUTIONBUDGET = {}", budget.text)?;
        if budget.number == Some(ticks) {
            out.write_all(b", taken as ticks")?;
        }
    }
    out.write_all(b"\n")
}

/// Writes what an extended task mostly does, as a comment.
fn write_loop<W: Write>(events: &[Name], out: &mut W) -> io::Result<()> {
    out.write_all(b"# loop = true\n# body = [ { wait = [")?;
    write_quoted(events, out)?;
    out.write_all(b"] }, { clear = [")?;
    write_quoted(events, out)?;
    out.write_all(b"] }, { work = 1 } ]\n")
}

fn write_task<W: Write>(
    file: &OilFile,
    task: &TaskObject,
    budgets: &Budgets<'_>,
    out: &mut W,
) -> io::Result<()> {
    let name = task.name.as_str();
    let events = task.events.as_slice();
    write_settings(task, out)?;
    write_resources(file, task, out)?;
    if !events.is_empty() {
        out.write_all(b"# extended; EVENT = ")?;
        write_names(events, out)?;
        out.write_all(b"\n")?;
    }
    writeln!(out, "[[task]]\nname = \"{name}\"")?;
    if !events.is_empty() {
        write_loop(events, out)?;
    }
    write_body(budgets.of(Kind::Task, name), out)
}

fn write_routine<W: Write>(
    routine: &IsrObject,
    budgets: &Budgets<'_>,
    out: &mut W,
) -> io::Result<()> {
    let name = routine.name.as_str();
    writeln!(out, "\n# PRIORITY = {}", routine.priority)?;
    writeln!(out, "[[interrupt]]\nname = \"{name}\"\n# period = 100")?;
    write_body(budgets.of(Kind::Isr, name), out)
}

/// Writes a work file for an OIL file: `make_work` takes it as it is. An error is a failed write.
pub fn write_skeleton<W: Write>(
    file: &OilFile,
    budgets: &Budgets<'_>,
    out: &mut W,
) -> io::Result<()> {
    write_head(file, out)?;
    for task in file.tasks() {
        write_task(file, task, budgets, out)?;
    }
    for routine in file.routines() {
        write_routine(routine, budgets, out)?;
    }
    Ok(())
}
