//! The search through all states of an upper part by itself.

ghost use Rattle.std.specs.Prelude.{◌≡◌, IfOk};
ghost use Rattle.osek_base.specs.Separable.{Separable};
ghost use Rattle.osek_base.specs.Agree.{upper_part};
ghost use Rattle.search_bounds.specs.Above.{
  HoldAbove,
  HoldsEndAbove,
  InterruptsStartAbove,
  JobsEndAbove,
};

use crate::finding::find_bounds;
use arrival_rules::ArrivalRule;
use law_upper::{
    bounded_interrupts_start_above, bounded_upper_holds_end, bounded_upper_jobs_end,
    bounds_of_the_part_hold,
};
use osek_base::{ModeId, System};
use partition_check::upper_only;
use search_nodes::{Bounds, Extent, Watch};
use std::alloc::{AllocError, Global};

/// An upper part by itself, and its bounds.
#[derive(Drop)]
pub struct UpperBounds {
    /// The part, with names, numbers and modes of its own objects.
    pub part: System,
    /// What a search through all its states has come to.
    pub bounds: Bounds,
}

/// Searches all states that the upper part of a system at p comes to by itself in a mode, whatever
/// interrupts arrive whose rules, in ticks by routine, are kept; 1 where none is given.
///
/// Where the search is decided, the bounds hold inside the system, and inside every system that is
/// separable at p and agrees with it from p upward, whatever runs below: of upper tasks, all
/// routines, and upper resources and alarms. Where it isn't, they hold there after as many ticks at
/// most as the levels that the search has done. So each job of an upper task that is bounded by a
/// decided search ends or begins to wait within as many ticks in all of them, each that gets an
/// upper resource, or RES_SCHEDULER, that is bounded releases it so, and a routine that is bounded
/// starts so behind each interrupt that isn't lost. Who watches is told how far the search has come.
/// An error is want of memory.
pub fn find_upper_bounds<W: Watch>(
    alloc: Global,
    system: &System,
    p: u8,
    mode: ModeId,
    rules: &[ArrivalRule],
    extent: Extent,
    watch: &mut W,
) -> Result<UpperBounds, AllocError>
    requires { Separable system.now p }
    ensures part { IfOk result (λ upper. upper.part ≡ upper_part system.now p) }
    ensures found { IfOk result (λ upper.
        HoldAbove system.now p mode rules.now upper.bounds) }
    ensures ends { IfOk result (λ upper.
        JobsEndAbove system.now p mode rules.now upper.bounds) }
    ensures starts { IfOk result (λ upper.
        InterruptsStartAbove system.now p mode rules.now upper.bounds) }
    ensures releases { IfOk result (λ upper.
        HoldsEndAbove system.now p mode rules.now upper.bounds) }
{
    system.shows_proper();
    bounds_of_the_part_hold();
    bounded_upper_jobs_end();
    bounded_interrupts_start_above();
    bounded_upper_holds_end();
    let part = upper_only(alloc, system, p)?;
    let bounds = find_bounds(alloc, &part, mode, rules, extent, watch)?;
    Ok(UpperBounds { part, bounds })
}
