//! The programs of a description.
//!
//! Each step is one instruction, so one tick, but for these: `work` is as many ticks as it says,
//! `repeat` is two before its first round and two behind each, and a limited wait is five.
//! Registers: r1 and r2 are those of `work` and of limits, r4 and r5 count rounds, r6 is 1 in a
//! repeat, and r7 is never written, so it is 0, as at each job's and routine's beginning.

use make_descriptions::Work;
use make_descriptions::description::{Body, Described, Does, Release};
use make_descriptions::lists::names;
use make_descriptions::node::Node;
use make_descriptions::routines::{ROUTINE, TIMEOUT};
use std::alloc::Global;
use std::io::{self, Write};

/// The labels that a program has so far, and those of the repeats that are open.
#[derive(Drop)]
struct ProgramLabels {
    next: usize,
    open: Vec<usize>,
}

impl ProgramLabels {
    fn new(alloc: Global) -> Self {
        ProgramLabels {
            next: 0,
            open: Vec::new(alloc),
        }
    }

    fn take(&mut self) -> usize {
        let label = self.next;
        self.next = label.saturating_add(1);
        label
    }
}

/// The register that counts the rounds of a repeat that stands in so many.
fn counter(depth: usize) -> &'static str {
    if depth == 0 { "r4" } else { "r5" }
}

fn write_work<W: Write>(ticks: u32, label: usize, out: &mut W) -> io::Result<()> {
    let work = Work::of(ticks);
    writeln!(out, "      ; work {ticks}")?;
    if work.rounds > 0 {
        writeln!(out, "      LI r1, {}", work.rounds)?;
        out.write_all(b"      LI r2, 1\n")?;
        writeln!(out, "L{label}:")?;
        out.write_all(b"      SUB r1, r1, r2\n")?;
        writeln!(out, "      JNE r1, r7, L{label}")?;
    }
    for _ in 0..work.nops {
        out.write_all(b"      NOP\n")?;
    }
    Ok(())
}

/// Writes the names of events, joined.
fn write_events<W: Write>(
    alloc: Global,
    nodes: &[Node],
    list: usize,
    out: &mut W,
) -> io::Result<()> {
    let names = names(alloc, nodes, list)?;
    for (number, name) in names.iter().enumerate() {
        if number > 0 {
            out.write_all(b" + ")?;
        }
        out.write_all(name.as_bytes())?;
    }
    out.write_all(b"\n")
}

fn write_repeat<W: Write>(rounds: u32, labels: &mut ProgramLabels, out: &mut W) -> io::Result<()> {
    let register = counter(labels.open.len());
    let label = labels.take();
    labels.open.push(label)?;
    writeln!(out, "      ; repeat {rounds}")?;
    writeln!(out, "      LI {register}, {rounds}")?;
    out.write_all(b"      LI r6, 1\n")?;
    writeln!(out, "L{label}:")
}

fn write_end<W: Write>(labels: &mut ProgramLabels, out: &mut W) -> io::Result<()> {
    let label = labels.open.pop().unwrap_or(0);
    let register = counter(labels.open.len());
    writeln!(out, "      SUB {register}, {register}, r6")?;
    writeln!(out, "      JNE {register}, r7, L{label}")
}

/// Writes a wait, which an alarm of the task ends so many ticks behind the one that sets it.
fn write_limited<W: Write>(
    alloc: Global,
    nodes: &[Node],
    task: &str,
    events: usize,
    ticks: u32,
    out: &mut W,
) -> io::Result<()> {
    writeln!(out, "      ; within {ticks}")?;
    writeln!(out, "      LI r1, {ticks}")?;
    writeln!(out, "      SREL {TIMEOUT}{task}, r1, r7")?;
    write!(out, "      WAIT {TIMEOUT}{task} + ")?;
    write_events(alloc, nodes, events, out)?;
    writeln!(out, "      CANA {TIMEOUT}{task}")?;
    writeln!(out, "      CLRE {TIMEOUT}{task}")
}

/// Writes a step of a task or routine.
fn write_step<W: Write>(
    alloc: Global,
    nodes: &[Node],
    owner: &str,
    does: Does<'_>,
    labels: &mut ProgramLabels,
    out: &mut W,
) -> io::Result<()> {
    match does {
        Does::Work(ticks) => write_work(ticks, labels.take(), out),
        Does::Get(name) => writeln!(out, "      GETR {name}"),
        Does::Release(name) => writeln!(out, "      RELR {name}"),
        Does::Activate(name) => writeln!(out, "      ACT {name}"),
        Does::Chain(name) => writeln!(out, "      CHAIN {name}"),
        Does::Set(name, list) => {
            write!(out, "      SETE {name}, ")?;
            write_events(alloc, nodes, list, out)
        }
        Does::Wait { events, within } => match within {
            Some(ticks) => write_limited(alloc, nodes, owner, events, ticks, out),
            None => {
                out.write_all(b"      WAIT ")?;
                write_events(alloc, nodes, events, out)
            }
        },
        Does::Clear(list) => {
            out.write_all(b"      CLRE ")?;
            write_events(alloc, nodes, list, out)
        }
        Does::Repeat(rounds) => write_repeat(rounds, labels, out),
        Does::End => write_end(labels, out),
        Does::Suspend => out.write_all(b"      SAI\n"),
        Does::Resume => out.write_all(b"      RAI\n"),
        Does::Schedule => out.write_all(b"      SCHED\n"),
    }
}

fn write_steps<W: Write>(
    alloc: Global,
    nodes: &[Node],
    owner: &str,
    body: &Body<'_>,
    out: &mut W,
) -> io::Result<()> {
    let mut labels = ProgramLabels::new(alloc);
    for step in &body.steps {
        write_step(alloc, nodes, owner, step.does, &mut labels, out)?;
    }
    Ok(())
}

/// Writes the program of a task: it ends with `TERM`, or goes round.
fn write_task<W: Write>(
    alloc: Global,
    nodes: &[Node],
    name: &str,
    body: &Body<'_>,
    out: &mut W,
) -> io::Result<()> {
    writeln!(out, ".task {name}")?;
    if body.is_looped {
        out.write_all(b"again:\n")?;
        write_steps(alloc, nodes, name, body, out)?;
        return out.write_all(b"      JMP again\n\n");
    }
    write_steps(alloc, nodes, name, body, out)?;
    out.write_all(b"      TERM\nlast: JMP last\n\n")
}

/// Writes the programs of all tasks, then those of all routines. An error is a failed write or want
/// of memory.
pub fn write_programs<W: Write>(
    alloc: Global,
    nodes: &[Node],
    described: &Described<'_>,
    out: &mut W,
) -> io::Result<()> {
    for task in &described.tasks {
        write_task(alloc, nodes, task.name, &task.body, out)?;
    }
    for interrupt in &described.interrupts {
        writeln!(out, ".isr {}", interrupt.name)?;
        write_steps(alloc, nodes, interrupt.name, &interrupt.body, out)?;
        out.write_all(b"      RETI\n\n")?;
    }
    for task in &described.tasks {
        if let Release::Sporadic(_) = task.release {
            writeln!(out, ".isr {ROUTINE}{}", task.name)?;
            writeln!(out, "      ACT {}", task.name)?;
            out.write_all(b"      RETI\n\n")?;
        }
    }
    Ok(())
}
