//! OSEK/VDX OS: interrupt processing. Ages of pending interrupts.

ghost use Rattle.std.specs.Prelude.{ℕ, ◌≡◌, ◌<◌, ◌≤◌, IfOk, IsTrue, OnOk, None, length, map, min, replicate, slice_index_or};
ghost use Rattle.std.specs.Option.{option_map};
ghost use Rattle.law_figures.specs.Merging.{merged_age};
ghost use Rattle.law_figures.specs.Pending.{IsOlder, pending_in, pending_next};
ghost use Rattle.law_figures.specs.Times.{waited};
ghost use Rattle.seen_ticks.specs.Seen.{seen_of};
ghost use Rattle.search_labels.specs.Parts.{each_of, pending_at, pending_behind};

use crate::counting::older;
use crate::places::give_places;
use crate::ticks::routine_tick;
use seen_ticks::Observation;
use std::alloc::{AllocError, Global};
use view_figures::RoutineTick;

/// No interrupt is pending.
pub(crate) fn first_pending(alloc: Global, routines: usize) -> Result<Vec<Option<u32>>, AllocError>
    ensures { IfOk result (λ pending. pending.items ≡ replicate routines None) }
{
    let mut pending = Vec::with_capacity(alloc, routines)?;
    for _made in 0..routines {
        pending.push(None)?;
    }
    Ok(pending)
}

/// The age in a tick, up to a cap, before a start clears the flag.
#[inline(always)]
fn pending_in(cap: u32, tick: &RoutineTick, age: Option<u32>) -> Option<u32>
    ensures { result ≡ option_map (min cap) (pending_in tick.now age) }
{
    match age {
        Some(age) => Some(older(age, cap)),
        None if tick.seen.is_pending || tick.seen.is_started => Some(older(0, cap)),
        None => None,
    }
}

#[inline(always)]
fn next_age(cap: u32, tick: &RoutineTick, age: Option<u32>) -> Option<u32>
    ensures { result ≡ option_map (min cap) (pending_next tick.now age) }
{
    if tick.seen.is_started {
        None
    } else {
        pending_in(cap, tick, age)
    }
}

/// What an interrupt has waited in a tick, up to a cap, where its routine starts without that tick.
#[inline(always)]
pub(crate) fn waited(cap: u32, tick: &RoutineTick, age: Option<u32>) -> Option<u32>
    ensures { result ≡ option_map (min cap) (waited tick.now age) }
{
    if tick.seen.is_started {
        Some(cap.min(age.unwrap_or(0)))
    } else {
        pending_in(cap, tick, age)
    }
}

/// The age of the interrupt of a routine; none beyond the list.
#[inline(always)]
pub(crate) fn pending_of(pending: &[Option<u32>], routine: usize) -> Option<u32>
    ensures { result ≡ pending_at pending.now routine }
{
    match pending.get(routine) {
        Some(age) => *age,
        None => None,
    }
}

/// Puts the ages behind a tick in place of others.
#[tactic(auto, using(crate::proofs::FilledLemmas::one_more, crate::proofs::FilledLemmas::all_of))]
pub(crate) fn put_next_pending(
    next: &mut Vec<Option<u32>>,
    cap: u32,
    seen: &Observation,
    pending: &[Option<u32>],
) -> Result<(), AllocError>
    ensures { OnOk result (next.new.items ≡
        each_of (pending_behind cap (seen_of seen.now)) pending.now) }
{
    give_places(next, pending)?;
    for routine in 0..pending.len() {
        let age = pending_of(pending, routine);
        next[routine] = next_age(cap, &routine_tick(seen, routine), age);
    }
    Ok(())
}

/// Whether an age is at least another one; at true it is.
pub(crate) fn is_older(age: Option<u32>, other: Option<u32>) -> bool
    ensures { IsTrue result → IsOlder age other }
{
    match (age, other) {
        (_, None) => true,
        (None, Some(_)) => false,
        (Some(age), Some(other)) => age >= other,
    }
}

/// Whether each age is at least that of the same routine among others; at true they are.
pub(crate) fn are_older(pending: &[Option<u32>], others: &[Option<u32>]) -> bool
    requires { length pending.now ≡ length others.now }
    ensures { IsTrue result → (i : ℕ) →
        IsOlder (pending_at pending.now i) (pending_at others.now i) }
{
    for routine in 0..pending.len() {
        if !is_older(pending_of(pending, routine), pending_of(others, routine)) {
            return false;
        }
    }
    true
}

fn merged_age(age: Option<u32>, other: Option<u32>) -> Option<u32>
    ensures { result ≡ merged_age age other }
{
    match (age, other) {
        (None, other) => other,
        (age, None) => age,
        (Some(age), Some(other)) => Some(age.max(other)),
    }
}

/// Each age is the greater of its own and that of the same routine among others.
pub(crate) fn join_pending(pending: &mut [Option<u32>], others: &[Option<u32>])
    requires { length pending.old ≡ length others.now }
    ensures count { length pending.new ≡ length pending.old }
    ensures each { (i : ℕ) → pending_at pending.new i
        ≡ merged_age (pending_at pending.old i) (pending_at others.now i) }
{
    for (routine, age) in pending.iter_mut().enumerate() {
        *age = merged_age(*age, pending_of(others, routine));
    }
}
