//! The analysis of an upper part by itself.

ghost use Rattle.std.specs.Prelude.{◌≡◌, IfOk};
ghost use Rattle.osek_base.specs.Separable.{Separable};
ghost use Rattle.osek_base.specs.Agree.{upper_part};
ghost use Rattle.analysis_bounds.specs.Above.{
  BoundsAllAbove,
  HoldsEndAbove,
  InterruptsStartAbove,
  JobsEndAbove,
};

use crate::analysis::{Analysis, TooMany, analyse};
use arrival_rules::ArrivalRule;
use law_upper::{
    bounded_interrupts_start_above, bounded_upper_holds_end, bounded_upper_jobs_end,
    bounds_of_the_part_hold,
};
use osek_base::{ModeId, System};
use partition_check::upper_only;
use std::alloc::{AllocError, Global};

/// An upper part by itself, and what an analysis tells of it.
#[derive(Drop)]
pub struct UpperAnalysis {
    /// The part, with names, numbers and modes of its own objects.
    pub part: System,
    /// What no run of it exceeds.
    pub analysis: Analysis,
}

/// Bounds the figures of every run of the upper part of a system at p by itself in a mode, whatever
/// interrupts arrive whose rules are kept, by counting.
///
/// The bounds hold inside the system, and inside every system that is separable at p and agrees
/// with it from p upward, whatever runs below: of upper tasks, all routines, and upper resources
/// and alarms. So each job of an upper task that is bounded ends or begins to wait within as many
/// ticks in all of them, each that gets an upper resource, or RES_SCHEDULER, that is bounded
/// releases it so, and a routine that is bounded starts so behind each interrupt that isn't lost.
/// An error is want of memory.
pub fn analyse_upper(
    alloc: Global,
    system: &System,
    p: u8,
    mode: ModeId,
    rules: &[ArrivalRule],
) -> Result<Result<UpperAnalysis, TooMany>, AllocError>
    requires { Separable system.now p }
    ensures part { IfOk result (λ found. IfOk found (λ upper.
        upper.part ≡ upper_part system.now p)) }
    ensures bounds { IfOk result (λ found. IfOk found (λ upper.
        BoundsAllAbove system.now p mode rules.now upper.analysis)) }
    ensures ends { IfOk result (λ found. IfOk found (λ upper.
        JobsEndAbove system.now p mode rules.now upper.analysis)) }
    ensures starts { IfOk result (λ found. IfOk found (λ upper.
        InterruptsStartAbove system.now p mode rules.now upper.analysis)) }
    ensures releases { IfOk result (λ found. IfOk found (λ upper.
        HoldsEndAbove system.now p mode rules.now upper.analysis)) }
{
    system.shows_proper();
    bounds_of_the_part_hold();
    bounded_upper_jobs_end();
    bounded_interrupts_start_above();
    bounded_upper_holds_end();
    let part = upper_only(alloc, system, p)?;
    match analyse(alloc, &part, mode, rules)? {
        Ok(analysis) => Ok(Ok(UpperAnalysis { part, analysis })),
        Err(too_many) => Ok(Err(too_many)),
    }
}
