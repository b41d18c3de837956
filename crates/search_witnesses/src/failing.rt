//! OSEK/VDX OS: error handling. Runs in whose last tick a service is answered other than E_OK.

ghost use Rattle.std.specs.Prelude.{◌≡◌, IfOk, IfSome, IsTrue, Some};
ghost use Rattle.std.specs.List.{All};
ghost use Rattle.kernel.specs.Progress.{AreKnown};
ghost use Rattle.search_witnesses.specs.Failing.{Fails, FailsAtEnd, IsFailing};
ghost use Rattle.search_witnesses.specs.Listed.{IsKeptList};

use crate::candidate::arrivals_of;
use crate::running::{begin, watch};
use crate::witness::{Witness, kept_twice};
use arrival_rules::ArrivalRule;
use osek_base::{Arrival, Arrivals, ModeId, System};
use search_nodes::Bounds;
use seen_ticks::Failure;
use std::alloc::{AllocError, Global};

/// Whether a service that is told, if one is, is another one; at true it is.
fn is_same(told: &Option<Failure>, failure: &Failure) -> bool
    ensures { IsTrue result → told.now ≡ Some failure.now }
{
    match told {
        Some(told) => *told == *failure,
        None => false,
    }
}

/// Whether the last of the first ticks of a run has a service that is answered other than E_OK; at
/// true it has. An error is want of memory.
fn fails_at_end(
    alloc: Global,
    system: &System,
    mode: ModeId,
    arrivals: Arrivals,
    ticks: u32,
    failure: &Failure,
) -> Result<bool, AllocError>
    requires { AreKnown system.now arrivals }
    ensures { IfOk result (λ fails. IsTrue fails →
        FailsAtEnd system.now mode arrivals ticks failure.now) }
{
    let Some(mut run) = begin(alloc, system, mode, arrivals)? else {
        return Ok(false);
    };
    let Some(watched) = watch(system, &mut run, 0, ticks) else {
        return Ok(false);
    };
    Ok(is_same(&watched.failure, failure))
}

/// Arrivals and a number of ticks, where they keep rules and the last of these ticks of their
/// run has a service that is answered other than E_OK.
fn tried(
    alloc: Global,
    system: &System,
    mode: ModeId,
    rules: &[ArrivalRule],
    arrivals: Vec<Arrival>,
    ticks: u32,
    failure: &Failure,
) -> Result<Option<Witness>, AllocError>
    ensures { IfOk result (λ found. IfSome found (λ w. IsKeptList system.now rules.now w.arrivals
        × FailsAtEnd system.now mode w.arrivals w.ticks failure.now)) }
{
    let Some((arrivals, copy)) = kept_twice(alloc, system, rules, arrivals)? else {
        return Ok(None);
    };
    if fails_at_end(alloc, system, mode, copy, ticks, failure)? {
        Ok(Some(Witness { arrivals, ticks }))
    } else {
        Ok(None)
    }
}

/// A run in whose last tick the service of a number among those that bounds tell is answered as
/// they tell it. Its interrupts keep the rules.
///
/// What a search has come by is tried by running it, so it may be that none is found. An error is
/// want of memory.
pub fn find_failing(
    alloc: Global,
    system: &System,
    mode: ModeId,
    rules: &[ArrivalRule],
    found: &Bounds,
    number: usize,
) -> Result<Option<Witness>, AllocError>
    ensures { IfOk result (λ witness.
        IfSome witness (IsFailing system.now mode rules.now found.now.peaks number)) }
{
    let Some(failure) = found.peaks.failures().get(number) else {
        return Ok(None);
    };
    let path = found.trails.path_of_service(alloc, number)?;
    let Ok(ticks) = u32::try_from(path.len()) else {
        return Ok(None);
    };
    let arrivals = arrivals_of(alloc, &path, system.routine_count())?;
    tried(alloc, system, mode, rules, arrivals, ticks, failure)
}

/// Whether a run is found in whose last tick the service of a number is answered so.
fn is_shown(
    alloc: Global,
    system: &System,
    mode: ModeId,
    rules: &[ArrivalRule],
    found: &Bounds,
    number: usize,
) -> Result<bool, AllocError>
    ensures { IfOk result (λ shown. IsTrue shown →
        Fails system.now mode rules.now found.now.peaks number) }
{
    match find_failing(alloc, system, mode, rules, found, number)? {
        Some(_run) => Ok(true),
        None => Ok(false),
    }
}

/// The services, by number, that bounds tell as answered other than E_OK and that a run is found to
/// show so. An error is want of memory.
pub fn failing_services(
    alloc: Global,
    system: &System,
    mode: ModeId,
    rules: &[ArrivalRule],
    found: &Bounds,
) -> Result<Vec<usize>, AllocError>
    ensures { IfOk result (λ services.
        All (Fails system.now mode rules.now found.now.peaks) services.items) }
{
    let count = found.peaks.failures().len();
    let mut services = Vec::new(alloc);
    for number in 0..count {
        if is_shown(alloc, system, mode, rules, found, number)? {
            services.push(number)?;
        }
    }
    Ok(services)
}
