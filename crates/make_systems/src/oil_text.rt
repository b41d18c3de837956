//! The OIL file of a description.

use make_descriptions::description::{Action, Alarm, Described, Release, Task};
use make_descriptions::lists::names;
use make_descriptions::node::Node;
use make_descriptions::routines::{ALARM, ROUTINE, TIMEOUT};
use make_descriptions::uses::{
    all_events, all_resources, events_of, has_limited_wait, internal_resources, resources_of,
};
use std::alloc::Global;
use std::io::{self, Write};

/// What stands before the objects behind the CPU's name. Errors are seen in a trace.
const OS: &[u8] = b"  OS Os {
    STATUS = EXTENDED; STARTUPHOOK = FALSE; ERRORHOOK = TRUE; SHUTDOWNHOOK = FALSE;
    PRETASKHOOK = FALSE; POSTTASKHOOK = FALSE; };
";

/// The counter of all alarms: one count a tick.
const CLOCK: &[u8] =
    b"  COUNTER Clock { MAXALLOWEDVALUE = 2147483647; TICKSPERBASE = 1; MINCYCLE = 1; };
";

/// Whether the first job of a task is there from the beginning: it is said so, or its period begins
/// at tick 0.
fn starts(task: &Task<'_>) -> bool {
    match task.release {
        Release::Periodic { offset: 0, .. } => true,
        _ => task.starts,
    }
}

/// Writes modes, each an APPMODE.
fn write_listed<W: Write>(modes: &[&str], out: &mut W) -> io::Result<()> {
    for mode in modes {
        write!(out, " APPMODE = {mode};")?;
    }
    Ok(())
}

/// Writes the modes in which something is started.
fn write_modes<W: Write>(
    alloc: Global,
    nodes: &[Node],
    described: &Described<'_>,
    modes: Option<usize>,
    out: &mut W,
) -> io::Result<()> {
    let listed = match modes {
        Some(list) => names(alloc, nodes, list)?,
        None => Vec::new(alloc),
    };
    if listed.is_empty() {
        write_listed(&described.modes, out)
    } else {
        write_listed(&listed, out)
    }
}

fn write_task<W: Write>(
    alloc: Global,
    nodes: &[Node],
    described: &Described<'_>,
    task: &Task<'_>,
    out: &mut W,
) -> io::Result<()> {
    let schedule = if task.is_non { "NON" } else { "FULL" };
    writeln!(out, "  TASK {} {{", task.name)?;
    write!(
        out,
        "    PRIORITY = {}; SCHEDULE = {schedule}; ",
        task.priority
    )?;
    write!(out, "ACTIVATION = {}; AUTOSTART = ", task.activations)?;
    if starts(task) {
        out.write_all(b"TRUE {")?;
        write_modes(alloc, nodes, described, task.modes, out)?;
        out.write_all(b" };")?;
    } else {
        out.write_all(b"FALSE;")?;
    }
    if let Some(internal) = task.internal {
        write!(out, "\n    RESOURCE = {};", internal.name)?;
    }
    for resource in resources_of(alloc, &task.body)? {
        write!(out, "\n    RESOURCE = {resource};")?;
    }
    for event in events_of(alloc, nodes, &task.body)? {
        write!(out, "\n    EVENT = {event};")?;
    }
    if has_limited_wait(&task.body) {
        write!(out, "\n    EVENT = {TIMEOUT}{};", task.name)?;
    }
    out.write_all(b" };\n")
}

/// Writes from when on and how often an alarm expires, up to its modes.
fn write_times<W: Write>(first: u32, period: u32, out: &mut W) -> io::Result<()> {
    write!(
        out,
        "    AUTOSTART = TRUE {{ ALARMTIME = {first}; CYCLETIME = {period};"
    )
}

/// Writes the alarms that activate a task.
fn write_activation<W: Write>(name: &str, out: &mut W) -> io::Result<()> {
    writeln!(
        out,
        "    COUNTER = Clock; ACTION = ACTIVATETASK {{ TASK = {name}; }};"
    )
}

/// Writes the alarm of a task that has a period.
fn write_task_alarm<W: Write>(
    alloc: Global,
    nodes: &[Node],
    described: &Described<'_>,
    task: &Task<'_>,
    out: &mut W,
) -> io::Result<()> {
    let Release::Periodic { period, offset } = task.release else {
        return Ok(());
    };
    // The job at tick 0 is the one that is there from the beginning.
    let first = if offset == 0 { period } else { offset };
    writeln!(out, "  ALARM {ALARM}{} {{", task.name)?;
    write_activation(task.name, out)?;
    write_times(first, period, out)?;
    write_modes(alloc, nodes, described, task.modes, out)?;
    out.write_all(END_OF_TIMES)
}

/// What stands behind the modes of an alarm.
const END_OF_TIMES: &[u8] = b" }; };\n";

fn write_alarm<W: Write>(
    alloc: Global,
    nodes: &[Node],
    described: &Described<'_>,
    alarm: &Alarm<'_>,
    out: &mut W,
) -> io::Result<()> {
    writeln!(out, "  ALARM {} {{", alarm.name)?;
    match alarm.action {
        Action::Activate(name) => write_activation(name, out)?,
        Action::Set(name, event) => {
            write!(
                out,
                "    COUNTER = Clock; ACTION = SETEVENT {{ TASK = {name}; "
            )?;
            writeln!(out, "EVENT = {event}; }};")?;
        }
    }
    write_times(alarm.offset, alarm.period, out)?;
    write_modes(alloc, nodes, described, alarm.modes, out)?;
    out.write_all(END_OF_TIMES)
}

/// Writes the alarm that ends the limited waits of a task.
fn write_timeout<W: Write>(name: &str, out: &mut W) -> io::Result<()> {
    writeln!(out, "  ALARM {TIMEOUT}{name} {{")?;
    write!(out, "    COUNTER = Clock; ACTION = SETEVENT {{ ")?;
    writeln!(out, "TASK = {name}; EVENT = {TIMEOUT}{name}; }};")?;
    out.write_all(b"    AUTOSTART = FALSE; };\n")
}

fn write_alarms<W: Write>(
    alloc: Global,
    nodes: &[Node],
    described: &Described<'_>,
    out: &mut W,
) -> io::Result<()> {
    for task in &described.tasks {
        write_task_alarm(alloc, nodes, described, task, out)?;
    }
    for alarm in &described.alarms {
        write_alarm(alloc, nodes, described, alarm, out)?;
    }
    for task in &described.tasks {
        if has_limited_wait(&task.body) {
            write_timeout(task.name, out)?;
        }
    }
    Ok(())
}

fn write_routines<W: Write>(described: &Described<'_>, out: &mut W) -> io::Result<()> {
    for interrupt in &described.interrupts {
        write!(out, "  ISR {} {{ CATEGORY = 2; ", interrupt.name)?;
        writeln!(out, "PRIORITY = {}; }};", interrupt.priority)?;
    }
    for task in &described.tasks {
        if let Release::Sporadic(_) = task.release {
            writeln!(out, "  ISR {ROUTINE}{} {{ CATEGORY = 2; }};", task.name)?;
        }
    }
    Ok(())
}

fn write_resources<W: Write>(
    alloc: Global,
    described: &Described<'_>,
    out: &mut W,
) -> io::Result<()> {
    for name in all_resources(alloc, described)? {
        writeln!(out, "  RESOURCE {name} {{ RESOURCEPROPERTY = STANDARD; }};")?;
    }
    for name in internal_resources(alloc, described)? {
        writeln!(out, "  RESOURCE {name} {{ RESOURCEPROPERTY = INTERNAL; }};")?;
    }
    Ok(())
}

/// Writes the events of limited waits.
fn write_timeout_events<W: Write>(described: &Described<'_>, out: &mut W) -> io::Result<()> {
    for task in &described.tasks {
        if has_limited_wait(&task.body) {
            writeln!(out, "  EVENT {TIMEOUT}{} {{ MASK = AUTO; }};", task.name)?;
        }
    }
    Ok(())
}

/// Writes the OIL file. An error is a failed write or want of memory.
pub fn write_oil<W: Write>(
    alloc: Global,
    nodes: &[Node],
    described: &Described<'_>,
    out: &mut W,
) -> io::Result<()> {
    writeln!(out, "OIL_VERSION = \"2.5\";\nCPU {} {{", described.name)?;
    out.write_all(OS)?;
    for mode in &described.modes {
        writeln!(out, "  APPMODE {mode} {{}};")?;
    }
    for task in &described.tasks {
        write_task(alloc, nodes, described, task, out)?;
    }
    write_routines(described, out)?;
    write_resources(alloc, described, out)?;
    for event in all_events(alloc, nodes, described)? {
        writeln!(out, "  EVENT {event} {{ MASK = AUTO; }};")?;
    }
    write_timeout_events(described, out)?;
    out.write_all(CLOCK)?;
    write_alarms(alloc, nodes, described, out)?;
    out.write_all(b"};\n")
}
