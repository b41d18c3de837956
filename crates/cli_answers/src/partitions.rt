//! What is written of partitions.

use crate::verdict::Verdict;
use osek_base::System;
use partition_check::{Denial, NamedDenial, every_denial};
use partition_isolation::check_isolation;
use std::alloc::{AllocError, Global};
use std::fmt;
use std::io::Write;
use tracer::RunFault;

/// Writes a denial at a priority: the rule, its subject by name, and a place where the rule is on
/// programs.
pub fn write_denial<O: Write>(
    priority: u8,
    denial: NamedDenial,
    out: &mut O,
) -> Result<Verdict<'static>, RunFault> {
    writeln!(out, "denied: {denial}")?;
    Ok(Verdict::Denied(priority, denial))
}

/// Writes whether the part of a system from a priority upward is separable, or the first denial.
fn write_check<O: Write>(
    system: &System,
    priority: u8,
    out: &mut O,
) -> Result<Verdict<'static>, RunFault> {
    match check_isolation(system, priority) {
        Ok(()) => {
            writeln!(out, "accepted")?;
            Ok(Verdict::Done)
        }
        Err(denial) => write_denial(priority, denial.named(system), out),
    }
}

/// Writes the same for each priority from 0 to the greatest of a task, a line each.
fn write_partitions<O: Write>(system: &System, out: &mut O) -> Result<Verdict<'static>, RunFault> {
    for priority in 0..=system.top_priority() {
        write!(out, "{priority}: ")?;
        write_check(system, priority, out)?;
    }
    Ok(Verdict::Done)
}

/// Writes whether the part from a priority upward is separable, or all denials, a line each.
fn write_full_check<O: Write>(
    alloc: Global,
    system: &System,
    priority: u8,
    out: &mut O,
) -> Result<Verdict<'static>, RunFault> {
    let is_accepted = check_isolation(system, priority).is_ok();
    let denials = every_denial(alloc, system, priority)?;
    if is_accepted || denials.is_empty() {
        return write_check(system, priority, out);
    }
    for denial in &denials {
        writeln!(out, "denied: {denial}")?;
    }
    Ok(Verdict::AllDenied(priority, denials))
}

/// Neighbouring priorities with one verdict.
#[derive(Clone, Copy)]
pub struct Stretch {
    pub first: u8,
    pub last: u8,
    /// The first denial at each of them.
    pub denial: Option<Denial>,
}

/// The priorities: `FIRST..LAST`, or the one.
impl fmt::Display for Stretch {
    fn fmt<W: fmt::Write>(&self, f: &mut fmt::Formatter<W>) -> fmt::Result {
        if self.first == self.last {
            return write!(f, "{}", self.first);
        }
        write!(f, "{}..{}", self.first, self.last)
    }
}

/// The priorities from 0 to the greatest of a task, as long stretches as there are.
pub fn stretches(alloc: Global, system: &System) -> Result<Vec<Stretch>, AllocError> {
    let mut stretches: Vec<Stretch> = Vec::new(alloc);
    for priority in 0..=system.top_priority() {
        let denial = check_isolation(system, priority).err();
        match stretches.last_mut() {
            Some(stretch) if stretch.denial == denial => stretch.last = priority,
            _ => stretches.push(Stretch {
                first: priority,
                last: priority,
                denial,
            })?,
        }
    }
    Ok(stretches)
}

/// Writes what `write_partitions` writes, neighbours with one verdict as one line.
fn write_joined<O: Write>(
    alloc: Global,
    system: &System,
    out: &mut O,
) -> Result<Verdict<'static>, RunFault> {
    for stretch in stretches(alloc, system)? {
        write!(out, "{stretch}: ")?;
        write_check(system, stretch.first, out)?;
    }
    Ok(Verdict::Done)
}

/// Writes whether the part from a priority upward is separable, or else the first denial or all.
pub fn write_cut<O: Write>(
    alloc: Global,
    system: &System,
    priority: u8,
    is_whole: bool,
    out: &mut O,
) -> Result<Verdict<'static>, RunFault> {
    if is_whole {
        write_full_check(alloc, system, priority, out)
    } else {
        write_check(system, priority, out)
    }
}

/// Writes that for each priority, or for neighbours with one verdict at once.
pub fn write_cuts<O: Write>(
    alloc: Global,
    system: &System,
    are_joined: bool,
    out: &mut O,
) -> Result<Verdict<'static>, RunFault> {
    if are_joined {
        write_joined(alloc, system, out)
    } else {
        write_partitions(system, out)
    }
}
