//! The value change dump of a run.

ghost use Rattle.std.specs.Prelude.{◌≡◌, ℕ, List};
ghost use Rattle.view_runs.specs.Dumps.{IsDump, IsDumpOf};
ghost use Rattle.sinks.specs.Sinks.{Puts};
ghost use Rattle.tracer.specs.WholeRuns.{RefusesStart};
ghost use Rattle.tracer.specs.Writing.{Writes};
ghost use Rattle.view_dumps.specs.Dumps.{started};

use crate::beginning::{RunInput, begin};
use crate::progress::Progress;
use crate::ticks::{next_tick, pass_alike};
use kernel::NotCounted;
use osek_base::System;
use seen_runs::ObservedRun;
use sinks::{Sink, SinkFault};
use std::alloc::Global;
use std::io::Write;
use tracer::RunFault;
use view_dumps::ValueChanges;

/// Writes the dump of a run that has just begun, as many ticks as asked for, or up to a shutdown.
fn dump_run<S: Sink, E: Write>(
    run: &mut ObservedRun<'_, NotCounted>,
    dump: &mut ValueChanges<'_>,
    ticks: u32,
    progress: &mut Progress<'_, E>,
    out: &mut S,
) -> Result<(), SinkFault>
    requires begun { run.old.ticks ≡ 0 }
    requires started { dump.old ≡ started run.old.system dump.old.first }
    ensures { (bytes : List ℕ) × IsDumpOf run.old ticks dump.old.first bytes
        × Puts S.taken S.has_failed out.old out.new bytes result }
{
    dump.begin(out)?;
    'ticks: while next_tick(run, ticks, progress) {
        dump.observe(run.observation(), out)?;
        let Some(first) = pass_alike(run, ticks) else {
            continue;
        };
        dump.observe_alike(run.observation(), first, run.ticks_done(), out)?;
    }
    dump.end(out)
}

/// Runs a system and writes the value change dump of its ticks from `from` on: the declarations,
/// what changes in each tick, one after another, and the time behind the last. A refusal comes
/// before the first byte; a write that fails ends the run, behind a beginning of the dump.
pub fn write_vcd<S: Sink, E: Write>(
    alloc: Global,
    system: &System,
    input: RunInput<'_>,
    from: u32,
    progress: &mut Progress<'_, E>,
    out: &mut S,
) -> Result<(), RunFault>
    ensures { Writes S.taken S.has_failed
        (IsDump system.now input.entry.irqs.now input.entry.mode.now input.entry.ticks from)
        (RefusesStart system.now input.entry.irqs.now input.entry.mode.now) out.old out.new
        result }
{
    let mut run = begin::<NotCounted>(alloc, system, input.irqs, input.mode)?;
    let mut dump = ValueChanges::new(system, from);
    dump_run(&mut run, &mut dump, input.ticks, progress, out)?;
    Ok(())
}
