//! Whole runs: from the three texts to the trace.

ghost use Rattle.std.specs.Prelude.{IfOk, IfErr};
ghost use Rattle.tracer.specs.declared.shown.Shown.{Shown};
ghost use Rattle.tracer.specs.Shown.{MayShow};
ghost use Rattle.tracer.specs.Writing.{Writes};
ghost use Rattle.tracer.specs.WholeRuns.{IsBegun, IsShown, IsShownOf, IsTrace, IsBlockingTrace, RefusesStart, IsFirstRefusal};

use crate::parts::{Parts, Views, Whole};
use crate::run_fault::RunFault;
use crate::shown::Shown;
use crate::system_texts::read_system;
use crate::trace_input::TraceInput;
use crate::written_ticks::write_ticks;
use arrival_reader::read_arrivals;
use kernel::{Blockers, Counted, Kernel, NotCounted};
use osek_base::System;
use ready_queues::LevelQueues;
use sinks::Sink;
use std::alloc::Global;
use trace_lines::InstructionTexts;

/// The system, booted in a mode with the arrivals of a list, or the first fault of these.
fn begin<'s, B: Blockers>(
    alloc: Global,
    system: &'s System,
    irqs: &[u8],
    mode: &str,
) -> Result<Kernel<'s, LevelQueues, B>, RunFault>
    ensures begun { IfOk result (IsBegun system.now irqs.now mode.now) }
    ensures refusal { IfErr result (RefusesStart system.now irqs.now mode.now) }
{
    let arrivals = read_arrivals(alloc, irqs, system)?;
    Ok(Kernel::boot(alloc, system, mode, arrivals)?)
}

/// Boots a system, by a kernel that counts blockers or not, runs it, and writes what is shown of
/// it.
fn write_kernel_run<B: Blockers, V: Parts, S: Sink>(
    alloc: Global,
    system: &System,
    shown: Shown,
    input: &TraceInput<'_>,
    out: &mut S,
) -> Result<(), RunFault>
    requires { MayShow B.are_counted V.are_views shown }
    ensures { Writes S.taken S.has_failed (IsShown system.now shown input.now)
        (RefusesStart system.now input.now.irqs input.now.mode) out.old out.new result }
{
    let mut kernel: Kernel<'_, LevelQueues, B> = begin(alloc, system, input.irqs(), input.mode())?;
    let texts = InstructionTexts::new(alloc, system)?;
    write_ticks::<B, V, S>(&mut kernel, &texts, shown, input.ticks(), out)?;
    Ok(())
}

/// Boots a system in the mode with the arrivals of the list, runs it for so many ticks, and writes
/// what is shown of them. Blockers are counted only where their numbers are.
pub(crate) fn write_run<S: Sink>(
    alloc: Global,
    system: &System,
    shown: Shown,
    input: &TraceInput<'_>,
    out: &mut S,
) -> Result<(), RunFault>
    ensures { Writes S.taken S.has_failed (IsShown system.now shown input.now)
        (RefusesStart system.now input.now.irqs input.now.mode) out.old out.new result }
{
    match shown {
        Shown::All => write_kernel_run::<NotCounted, Whole, S>(alloc, system, shown, input, out),
        Shown::Blocking => write_kernel_run::<Counted, Whole, S>(alloc, system, shown, input, out),
        Shown::View(_) => {
            write_kernel_run::<NotCounted, Views, S>(alloc, system, shown, input, out)
        }
    }
}

/// Makes the system of the two texts, runs it, and writes what is shown of it.
fn write_system<S: Sink>(
    alloc: Global,
    shown: Shown,
    input: &TraceInput<'_>,
    out: &mut S,
) -> Result<(), RunFault>
    ensures { Writes S.taken S.has_failed (IsShownOf input.now shown) (IsFirstRefusal input.now)
        out.old out.new result }
{
    let system = read_system(alloc, input.oil(), input.asm())?;
    write_run(alloc, &system, shown, input, out)
}

/// Runs a system for some ticks, and writes its trace. The OIL text is read, then the programs, the
/// system is made of both, then the arrival list is read and the system is booted in the mode: the
/// first refusal is the answer, and nothing is written. A write that fails ends the run, nothing is
/// tried again, and what was written is a beginning of the trace.
pub fn run<S: Sink>(alloc: Global, input: &TraceInput<'_>, out: &mut S) -> Result<(), RunFault>
    ensures { Writes S.taken S.has_failed (IsTrace input.now) (IsFirstRefusal input.now) out.old
        out.new result }
{
    write_system(alloc, Shown::All, input, out)
}

/// As `run`, but each line of an instruction that is its job's first since the job became ready has
/// ` ! ` behind it, and how many blockers the job had since then: jobs of a lower priority that
/// executed.
pub fn run_blocking<S: Sink>(
    alloc: Global,
    input: &TraceInput<'_>,
    out: &mut S,
) -> Result<(), RunFault>
    ensures { Writes S.taken S.has_failed (IsBlockingTrace input.now) (IsFirstRefusal input.now)
        out.old out.new result }
{
    write_system(alloc, Shown::Blocking, input, out)
}
