//! How each level of an analysis is bounded: the ticks that windows have at most, and the sum that
//! they are; or why there is no bound.

use crate::failed_service::name_of;
use analysis_bounds::{Analysis, Level, LevelWindow, NoBound, Window, alarm_share, routine_share};
use analysis_nodes::Graph;
use arrival_rules::ArrivalRule;
use osek_base::{IsrId, Name, System, TaskId};
use std::io::{self, Write};

/// The name of a number; empty, where there is none.
fn name_at(names: &[Name], number: usize) -> &str {
    match names.get(number) {
        Some(name) => name.as_str(),
        None => "",
    }
}

/// Writes the priority of a level among routines and the routines that have it.
fn write_routines<W: Write>(system: &System, priority: u8, out: &mut W) -> io::Result<()> {
    write!(out, "routine priority {priority}")?;
    let names = system.names();
    for number in 0..system.routine_count() {
        if system.routine_priority(IsrId::new(number as u8)) == priority {
            write!(out, ", {}", name_at(names.routines.as_slice(), number))?;
        }
    }
    Ok(())
}

/// Writes the priority of a level and the tasks that have it; or that it's of the routines alone,
/// and which have it.
fn write_level<W: Write>(system: &System, priority: u8, out: &mut W) -> io::Result<()> {
    let top = system.top_priority();
    if priority > top {
        let above = priority - top - 1;
        if above > 0 {
            return write_routines(system, above, out);
        }
        return out.write_all(b"routines alone");
    }
    write!(out, "priority {priority}")?;
    let names = system.names();
    for number in 0..system.task_count() {
        if system.priority_of(TaskId::new(number as u8)) == priority {
            write!(out, ", {}", name_at(names.tasks.as_slice(), number))?;
        }
    }
    Ok(())
}

/// Writes how often something comes, and what it costs each time, if it costs anything.
fn write_share<W: Write>(name: &str, times: u64, cost: u64, out: &mut W) -> io::Result<()> {
    if times == 0 || cost == 0 {
        return Ok(());
    }
    write!(out, ", {name} {times} * {cost}")
}

/// Whether the longest window begins with the run, and not as any other: by the tick in which it
/// begins, or where that isn't known, by what may be left there.
fn begins_with_run(level: &Level, from: Option<u32>) -> bool {
    match from {
        Some(tick) => tick == 0 && level.at_boot != level.at_begin,
        None => level.at_boot > level.at_begin,
    }
}

/// Writes what each alarm costs that pays when it is set, and may be set where a window begins.
fn write_set_alarms<W: Write>(system: &System, level: &Level, out: &mut W) -> io::Result<()> {
    let names = system.names();
    for (number, cost) in level.alarms.iter().enumerate() {
        if *cost > 0 {
            let name = name_at(names.alarms.as_slice(), number);
            write!(out, ", {name} {cost} if set")?;
        }
    }
    Ok(())
}

/// Writes what may be left where a window begins, and apart from the rest what alarms cost that are
/// set there.
fn write_left<W: Write>(
    system: &System,
    level: &Level,
    from: Option<u32>,
    out: &mut W,
) -> io::Result<()> {
    let mut set: u64 = 0;
    for cost in &level.alarms {
        set = set.saturating_add(*cost);
    }
    if begins_with_run(level, from) {
        write!(out, "{} with the run", level.at_boot.saturating_sub(set))?;
    } else {
        write!(out, "{} to begin with", level.at_begin.saturating_sub(set))?;
    }
    write_set_alarms(system, level, out)
}

/// Writes what each interrupt and each expiry costs, where it costs anything.
fn write_costs<W: Write>(system: &System, level: &Level, out: &mut W) -> io::Result<()> {
    let names = system.names();
    for (number, cost) in level.arrivals.iter().enumerate() {
        if *cost > 0 {
            let name = name_at(names.routines.as_slice(), number);
            write!(out, ", {name} {cost} each time")?;
        }
    }
    for (number, cost) in level.expiries.iter().enumerate() {
        if *cost > 0 {
            let name = name_at(names.alarms.as_slice(), number);
            write!(out, ", {name} {cost} each time")?;
        }
    }
    Ok(())
}

/// Writes the sum of what may be left where a window begins and of what comes in so many ticks.
fn write_sum<W: Write>(
    system: &System,
    rules: &[ArrivalRule],
    analysis: &Analysis,
    level: &Level,
    most: u32,
    from: Option<u32>,
    out: &mut W,
) -> io::Result<()> {
    write_left(system, level, from, out)?;
    let names = system.names();
    for number in 0..system.routine_count() {
        let (times, cost) = routine_share(rules, level, number, most);
        write_share(name_at(names.routines.as_slice(), number), times, cost, out)?;
    }
    for number in 0..system.alarm_count() {
        let (times, cost) = alarm_share(&analysis.alarms, level, number, most, from);
        write_share(name_at(names.alarms.as_slice(), number), times, cost, out)?;
    }
    Ok(())
}

/// Writes where a node is: whose it is, and its place.
fn write_place<W: Write>(
    system: &System,
    graph: &Graph,
    number: usize,
    out: &mut W,
) -> io::Result<()> {
    if number >= graph.nodes.len() {
        return Ok(());
    }
    let node = &graph.nodes[number];
    write!(out, "{} at {}", name_of(system, node.owner), node.place)
}

/// Writes why a level has no bound.
fn write_reason<W: Write>(
    system: &System,
    analysis: &Analysis,
    why: &NoBound,
    out: &mut W,
) -> io::Result<()> {
    let names = system.names();
    match why {
        NoBound::Circle { node } => {
            out.write_all(b"goes round without an end: ")?;
            write_place(system, &analysis.graph, *node, out)
        }
        NoBound::Activations { task } => {
            let name = name_at(names.tasks.as_slice(), *task);
            write!(out, "jobs of {name} start jobs of {name} again")
        }
        NoBound::Events { task } => {
            let name = name_at(names.tasks.as_slice(), *task);
            write!(
                out,
                "what events of {name} release sets events of {name} again"
            )
        }
        NoBound::Section { node } => {
            out.write_all(b"no end of a section is seen: ")?;
            write_place(system, &analysis.graph, *node, out)
        }
        NoBound::Overload { level } => {
            out.write_all(b"more comes than there are ticks: ")?;
            write_left(system, level, None, out)?;
            write_costs(system, level, out)
        }
    }
}

/// Writes what is told of a level.
fn write_window<W: Write>(
    system: &System,
    rules: &[ArrivalRule],
    analysis: &Analysis,
    window: &Window,
    out: &mut W,
) -> io::Result<()> {
    match window {
        Window::Bounded { level, most, from } => {
            let plural = if *most == 1 { "" } else { "s" };
            write!(out, ": {most} tick{plural}: ")?;
            write_sum(system, rules, analysis, level, *most, *from, out)
        }
        Window::Unbounded(why) => {
            out.write_all(b": no bound: ")?;
            write_reason(system, analysis, why, out)
        }
    }
}

/// Writes a line for each level, from the routines alone down to the least priority. An error is a
/// failed write.
pub(crate) fn write_levels<W: Write>(
    system: &System,
    rules: &[ArrivalRule],
    analysis: &Analysis,
    out: &mut W,
) -> io::Result<()> {
    for level in &analysis.levels {
        let LevelWindow { priority, window } = level;
        write_level(system, *priority, out)?;
        write_window(system, rules, analysis, window, out)?;
        out.write_all(b"\n")?;
    }
    Ok(())
}
