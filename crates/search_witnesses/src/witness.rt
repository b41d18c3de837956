//! Runs that show what bounds tell.

ghost use Rattle.std.specs.Prelude.{◌≡◌, IfOk, IfSome};
ghost use Rattle.search_witnesses.specs.Listed.{IsKeptList};
ghost use Rattle.law_bounds.specs.Showing.{Shows};
ghost use Rattle.search_witnesses.specs.Shown.{IsWitness};

use crate::candidate::arrivals_of;
use crate::keeping::keep_rules;
use crate::running::shown_in_run;
use arrival_rules::ArrivalRule;
use osek_base::{Arrival, Arrivals, ModeId, System};
use search_nodes::Bounds;
use std::alloc::{AllocError, Global};
use view_measures::Figure;

/// Arrivals that keep rules, and behind how many ticks their run shows a figure.
#[derive(Drop)]
pub struct Witness {
    pub arrivals: Arrivals,
    /// 0 to 1,000,000.
    pub ticks: u32,
}

/// A copy of arrivals.
fn copy_of(alloc: Global, arrivals: &[Arrival]) -> Result<Vec<Arrival>, AllocError>
    ensures { IfOk result (λ copy. copy.items ≡ arrivals.now) }
{
    let mut copy = Vec::with_capacity(alloc, arrivals.len())?;
    copy.extend_from_slice(arrivals)?;
    Ok(copy)
}

/// Arrivals twice, where they keep rules.
pub(crate) fn kept_twice(
    alloc: Global,
    system: &System,
    rules: &[ArrivalRule],
    arrivals: Vec<Arrival>,
) -> Result<Option<(Arrivals, Arrivals)>, AllocError>
    ensures { IfOk result (λ found. IfSome found (λ both.
        IsKeptList system.now rules.now both.0 × (both.1 ≡ both.0))) }
{
    let copy = copy_of(alloc, &arrivals)?;
    let Some(arrivals) = Arrivals::new(arrivals) else {
        return Ok(None);
    };
    let Some(copy) = Arrivals::new(copy) else {
        return Ok(None);
    };
    if !keep_rules(system, rules, &arrivals) {
        return Ok(None);
    }
    Ok(Some((arrivals, copy)))
}

/// Arrivals and a number of ticks, where they keep rules and their run shows so much of a
/// figure: so many ticks, or some more where that is told later.
fn tried(
    alloc: Global,
    system: &System,
    mode: ModeId,
    rules: &[ArrivalRule],
    arrivals: Vec<Arrival>,
    ticks: u32,
    figure: Figure,
    value: u32,
) -> Result<Option<Witness>, AllocError>
    ensures { IfOk result (λ found. IfSome found (λ w. IsKeptList system.now rules.now w.arrivals
        × Shows system.now mode w.arrivals w.ticks figure value)) }
{
    let Some((arrivals, copy)) = kept_twice(alloc, system, rules, arrivals)? else {
        return Ok(None);
    };
    match shown_in_run(alloc, system, mode, copy, ticks, figure, value)? {
        Some((ticks, shown)) if shown == value => Ok(Some(Witness { arrivals, ticks })),
        _ => Ok(None),
    }
}

/// A run that shows what is told of a figure: exactly so many ticks, those of the cap where it is
/// told no higher, exactly so many jobs or blockers, or that something is lost, refused or answered
/// other than E_OK, where that has come, and that nothing is, where it hasn't. Its interrupts keep
/// the rules.
///
/// What a search has come by is tried by running it, so it may be that none is found. For blockers
/// it has come to a tick in which a job is blocked, and they are told when the job executes again:
/// so that run goes on without interrupts, for 4,096 ticks at most. An error is want of memory.
pub fn find_witness(
    alloc: Global,
    system: &System,
    mode: ModeId,
    rules: &[ArrivalRule],
    found: &Bounds,
    figure: Figure,
) -> Result<Option<Witness>, AllocError>
    ensures { IfOk result (λ witness.
        IfSome witness (IsWitness system.now mode rules.now found.now figure)) }
{
    let path = found.trails.path(alloc, figure)?;
    let Ok(ticks) = u32::try_from(path.len()) else {
        return Ok(None);
    };
    let arrivals = arrivals_of(alloc, &path, system.routine_count())?;
    let value = found.peaks.told(figure);
    tried(alloc, system, mode, rules, arrivals, ticks, figure, value)
}
