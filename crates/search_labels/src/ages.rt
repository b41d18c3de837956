//! OSEK/VDX OS: task management. Ages of a task's jobs, oldest first.

ghost use Rattle.std.specs.Prelude.{ℕ, ◌≡◌, ◌≤◌, ◌++◌, false, suc, IsTrue, OnOk, cond, length, map, max, min, replicate, slice_index_or};
ghost use Rattle.std.specs.Option.{option_map};
ghost use Rattle.view_figures.specs.ResponseSums.{later};
ghost use Rattle.law_figures.specs.Ages.{AreOlder, ages_next, followed, oldest_age};
ghost use Rattle.law_figures.specs.Merging.{merged_ages};
ghost use Rattle.search_labels.specs.Parts.{ages_of_jobs};

use crate::counting::older;
use std::alloc::AllocError;
use view_figures::{MAX_UNFINISHED, TaskTick};

/// How many jobs of a task are followed in a tick.
#[inline(always)]
fn followed(tick: &TaskTick) -> usize
    ensures { result ≡ followed tick.now }
{
    usize::from(tick.standing()).min(MAX_UNFINISHED)
}

/// Adds each age a tick later, up to a cap.
#[inline(always)]
fn push_older(ages: &mut Vec<u32>, cap: u32, old: &[u32]) -> Result<(), AllocError>
    ensures { OnOk result
        (ages.new.items ≡ ages.old.items ++ map (λ n. min cap (suc n)) old.now) }
{
    for age in old {
        ages.push(older(*age, cap))?;
    }
    Ok(())
}

/// Adds so many ages in the first tick, up to a cap.
#[inline(always)]
fn push_new(ages: &mut Vec<u32>, cap: u32, count: usize) -> Result<(), AllocError>
    ensures { OnOk result (ages.new.items ≡ ages.old.items ++ map (min cap) (replicate count 1)) }
{
    for _new in 0..count {
        ages.push(older(0, cap))?;
    }
    Ok(())
}

/// Adds each age a tick later and so many in the first tick, each up to a cap.
#[inline(always)]
fn push_ages(ages: &mut Vec<u32>, cap: u32, old: &[u32], new: usize) -> Result<(), AllocError>
    ensures { OnOk result (ages.new.items
        ≡ ages.old.items ++ map (min cap) (map suc old.now ++ replicate new 1)) }
{
    push_older(ages, cap, old)?;
    push_new(ages, cap, new)?;
    Ok(())
}

/// The ages of the jobs that had one and are left, where the oldest leaves or stays.
#[inline(always)]
fn staying(old: &[u32], leaves: bool) -> &[u32]
    ensures { result.now ≡ cond leaves (later old.now) old.now }
{
    match old.split_first() {
        Some((_, rest)) if leaves => rest,
        _ => old,
    }
}

/// The age of the oldest job; 0 where none has one.
#[inline(always)]
fn first_age(old: &[u32]) -> u32
    ensures { result ≡ slice_index_or old.now 0 0 }
{
    match old.first() {
        Some(age) => *age,
        None => 0,
    }
}

/// Adds the ages of a task behind a tick, up to a cap, of which no more than one job had an age or
/// is followed, and stays.
#[tactic(auto, using(crate::proofs::AgeLemmas::none_stays, crate::proofs::AgeLemmas::one_stays))]
#[inline(always)]
fn push_one(ages: &mut Vec<u32>, cap: u32, jobs: usize, old: &[u32]) -> Result<(), AllocError>
    requires { max jobs (length old.now) ≤ 1 }
    ensures { OnOk result
        (ages.new.items ≡ ages.old.items ++ map (min cap) (ages_of_jobs jobs false old.now)) }
{
    if jobs.max(old.len()) == 0 {
        return Ok(());
    }
    ages.push(older(first_age(old), cap))?;
    Ok(())
}

/// Adds the ages of a task behind a tick, up to a cap, by how many of its jobs are followed in the
/// tick and whether the oldest leaves then.
#[tactic(auto, using(crate::proofs::AgeLemmas::jobs_left))]
#[inline(never)]
fn push_left(
    ages: &mut Vec<u32>,
    cap: u32,
    jobs: usize,
    leaves: bool,
    old: &[u32],
) -> Result<(), AllocError>
    ensures { OnOk result
        (ages.new.items ≡ ages.old.items ++ map (min cap) (ages_of_jobs jobs leaves old.now)) }
{
    let old = staying(old, leaves);
    let left = jobs.saturating_sub(usize::from(leaves));
    push_ages(ages, cap, old, left.saturating_sub(old.len()))
}

/// The same, with a short way for a task that has one job, which stays.
#[tactic(auto, using(crate::proofs::AgeLemmas::all_stay))]
#[inline(always)]
fn push_jobs(
    ages: &mut Vec<u32>,
    cap: u32,
    jobs: usize,
    leaves: bool,
    old: &[u32],
) -> Result<(), AllocError>
    ensures { OnOk result
        (ages.new.items ≡ ages.old.items ++ map (min cap) (ages_of_jobs jobs leaves old.now)) }
{
    if leaves {
        return push_left(ages, cap, jobs, true, old);
    }
    if jobs.max(old.len()) > 1 {
        return push_left(ages, cap, jobs, false, old);
    }
    push_one(ages, cap, jobs, old)
}

/// Whether a task has no job in a tick; at true none is followed.
#[inline(always)]
fn has_none(tick: &TaskTick) -> bool
    ensures { IsTrue result → followed tick.now ≡ 0 }
{
    tick.seen.jobs == 0
}

/// Adds the ages of a task behind a tick, up to a cap: none where it had none and has no job.
#[tactic(auto, using(crate::proofs::AgeLemmas::no_jobs))]
#[inline(always)]
pub(crate) fn push_next(
    ages: &mut Vec<u32>,
    cap: u32,
    tick: &TaskTick,
    old: &[u32],
) -> Result<(), AllocError>
    ensures { OnOk result
        (ages.new.items ≡ ages.old.items ++ map (min cap) (ages_next tick.now old.now)) }
{
    if has_none(tick) && old.is_empty() {
        return Ok(());
    }
    push_jobs(ages, cap, followed(tick), tick.leaves(), old)
}

/// The age of the oldest job in a tick, up to a cap.
#[inline(always)]
pub(crate) fn oldest_age(ages: &[u32], cap: u32, tick: &TaskTick) -> Option<u32>
    ensures { result ≡ option_map (min cap) (oldest_age tick.now ages.now) }
{
    match ages.first() {
        Some(age) => Some(older(*age, cap)),
        None if followed(tick) > 0 => Some(older(0, cap)),
        None => None,
    }
}

/// Whether ages are at least as many as others, and each at least as old; at true they are.
#[tactic(auto, using(crate::proofs::AgeLemmas::older_each))]
pub(crate) fn is_older(ages: &[u32], others: &[u32]) -> bool
    ensures { IsTrue result → AreOlder ages.now others.now }
{
    if ages.len() < others.len() {
        return false;
    }
    for job in 0..others.len() {
        if ages[job] < others[job] {
            return false;
        }
    }
    true
}

/// Each is the greater of two.
pub(crate) fn join_one(ages: &mut Vec<u32>, others: &[u32]) -> Result<(), AllocError>
    ensures each { OnOk result (ages.new.items ≡ merged_ages ages.old.items others.now) }
    ensures grows { length ages.old.items ≤ length ages.new.items }
{
    for job in 0..others.len() {
        if job < ages.len() {
            ages[job] = ages[job].max(others[job]);
        } else {
            ages.push(others[job])?;
        }
    }
    Ok(())
}

/// Adds the greater of each two.
#[tactic(auto, using(crate::proofs::AgeLemmas::one_merged, crate::proofs::AgeLemmas::merged_none))]
pub(crate) fn push_merged(
    ages: &mut Vec<u32>,
    old: &[u32],
    others: &[u32],
) -> Result<(), AllocError>
    ensures { OnOk result (ages.new.items ≡ ages.old.items ++ merged_ages old.now others.now) }
{
    match (old.split_first(), others.split_first()) {
        (None, _) => ages.extend_from_slice(others),
        (_, None) => ages.extend_from_slice(old),
        (Some((age, old)), Some((other, others))) => {
            ages.push((*age).max(*other))?;
            push_merged(ages, old, others)
        }
    }
}
