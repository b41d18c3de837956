//! How each run begins that is shown.

ghost use Rattle.std.specs.Prelude.{◌≡◌, IfErr, IfOk};
ghost use Rattle.tracer.specs.WholeRuns.{IsBegun, RefusesStart};

use arrival_reader::read_arrivals;
use kernel::Blockers;
use osek_base::System;
use seen_runs::ObservedRun;
use std::alloc::Global;
use tracer::RunFault;

/// What a run is of besides its system: its arrival list, the mode, and how many ticks, at most
/// 1,000,000.
#[derive(Clone, Copy)]
pub struct RunInput<'a> {
    pub irqs: &'a [u8],
    pub mode: &'a str,
    pub ticks: u32,
}

/// The system, booted in a mode with the arrivals of a list, or the first fault of these. `B` says
/// whether the blockers of jobs are counted.
pub(crate) fn begin<'s, B: Blockers>(
    alloc: Global,
    system: &'s System,
    irqs: &[u8],
    mode: &str,
) -> Result<ObservedRun<'s, B>, RunFault>
    ensures begun { IfOk result (IsBegun system.now irqs.now mode.now) }
    ensures refusal { IfErr result (RefusesStart system.now irqs.now mode.now) }
{
    let arrivals = read_arrivals(alloc, irqs, system)?;
    Ok(ObservedRun::boot(alloc, system, mode, arrivals)?)
}
