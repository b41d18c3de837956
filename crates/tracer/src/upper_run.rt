//! Partitions. From the three texts to the view at a priority.

ghost use Rattle.std.specs.Prelude.{IfErr, OnOk};
ghost use Rattle.osek_base.specs.Separable.{Separable};
ghost use Rattle.tracer.specs.Writing.{Writes};
ghost use Rattle.tracer.specs.UpperRuns.{IsView, RefusesPartition, IsFirstViewRefusal};
ghost use Rattle.tracer.specs.WholeRuns.{IsShown, RefusesStart};
ghost use Rattle.tracer.specs.declared.shown.Shown.{Shown};

use crate::run_fault::RunFault;
use crate::shown::Shown;
use crate::system_texts::read_system;
use crate::trace_input::TraceInput;
use crate::whole_run::write_run;
use osek_base::System;
use partition_check::{check_partition, upper_only};
use sinks::Sink;
use std::alloc::Global;

/// Checks that the upper part of a system at p is separable. A refusal is the first denial, with
/// its subject's name.
fn check_upper(system: &System, p: u8) -> Result<(), RunFault>
    ensures accepts { OnOk result (Separable system.now p) }
    ensures denies { IfErr result (RefusesPartition system.now p) }
{
    match check_partition(system, p) {
        Ok(()) => Ok(()),
        Err(denial) => Err(RunFault::Denied(denial.named(system))),
    }
}

/// Writes the view at p of a run of a system's upper part by itself, which is that of the system.
fn write_alone<S: Sink>(
    alloc: Global,
    system: &System,
    p: u8,
    input: &TraceInput<'_>,
    out: &mut S,
) -> Result<(), RunFault>
    requires { Separable system.now p }
    ensures { Writes S.taken S.has_failed (IsShown system.now (Shown.View p) input.now)
        (RefusesStart system.now input.now.irqs input.now.mode) out.old out.new result }
{
    let part = upper_only(alloc, system, p)?;
    write_run(alloc, &part, Shown::View(p), input, out)
}

/// Runs a system for some ticks, and writes the view at p, 0 to 63: the trace as far as it is of
/// tasks of priority p or more, of routines, and of alarms that act on such tasks. All is as in
/// `run`, but that the partition at p is checked before the arrival list is read: where it is
/// denied, the answer is the first denial, and nothing is written.
///
/// With `alone` it is the upper part of the system that is run, by itself. What is written is the
/// same.
pub fn run_upper<S: Sink>(
    alloc: Global,
    input: &TraceInput<'_>,
    p: u8,
    alone: bool,
    out: &mut S,
) -> Result<(), RunFault>
    ensures { Writes S.taken S.has_failed (IsView input.now p) (IsFirstViewRefusal input.now p)
        out.old out.new result }
{
    let system = read_system(alloc, input.oil(), input.asm())?;
    check_upper(&system, p)?;
    if alone {
        return write_alone(alloc, &system, p, input, out);
    }
    write_run(alloc, &system, Shown::View(p), input, out)
}
