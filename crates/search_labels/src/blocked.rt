//! OSEK/VDX OS: resource management, priority inversion. For how many ticks jobs have been blocked.

ghost use Rattle.std.specs.Prelude.{ℕ, ◌≡◌, ◌<◌, ◌≤◌, IfOk, IsTrue, OnOk, length, map, max, min, replicate, slice_index_or};
ghost use Rattle.view_figures.specs.FigureSums.{levels_of, lower_executes};
ghost use Rattle.law_figures.specs.Blocking.{blocked_in, is_blocked_in};
ghost use Rattle.seen_ticks.specs.Seen.{seen_of};
ghost use Rattle.search_labels.specs.Parts.{blocked_after, blocked_at, blocked_behind, each_of};
ghost use Rattle.search_labels.specs.Ticks.{executing_level};

use crate::counting::older;
use crate::places::give_places;
use crate::ticks::{executing_level, is_above, is_ready};
use osek_base::System;
use seen_ticks::{Observation, TaskSeen};
use std::alloc::{AllocError, Global};
use view_figures::TaskTick;

/// No job has been blocked.
pub(crate) fn first_blocked(alloc: Global, tasks: usize) -> Result<Vec<u32>, AllocError>
    ensures { IfOk result (λ blocked. blocked.items ≡ replicate tasks 0) }
{
    let mut blocked = Vec::with_capacity(alloc, tasks)?;
    for _made in 0..tasks {
        blocked.push(0)?;
    }
    Ok(blocked)
}

/// For how many ticks the oldest job of a task has been blocked; 0 beyond the list.
#[inline(always)]
pub(crate) fn blocked_of(blocked: &[u32], task: usize) -> u32
    ensures { result ≡ blocked_at blocked.now task }
{
    match blocked.get(task) {
        Some(ticks) => *ticks,
        None => 0,
    }
}

/// Whether a task is blocked in a tick.
#[inline(always)]
fn is_blocked(tick: &TaskTick) -> bool
    ensures { result ≡ is_blocked_in tick.now }
{
    is_ready(&tick.seen) && tick.lower_executes
}

/// For how many ticks a job has been blocked, up to a cap, the present one counted.
#[inline(always)]
pub(crate) fn blocked_in(cap: u32, tick: &TaskTick, ticks: u32) -> u32
    ensures { result ≡ min cap (blocked_in tick.now ticks) }
{
    if is_blocked(tick) {
        older(ticks, cap)
    } else {
        cap.min(ticks)
    }
}

/// For how many ticks the oldest job has been blocked behind a tick, up to a cap; 0 where the job
/// before it ended there or began to wait. The static priority of the task that executes is known.
#[inline(always)]
fn next_ticks(
    system: &System,
    cap: u32,
    executing: Option<u8>,
    seen: &TaskSeen,
    ticks: u32,
    task: usize,
) -> u32
    ensures { result ≡ blocked_after cap executing
        (slice_index_or (levels_of system.now) task 0) seen.now ticks }
{
    if seen.ended || seen.waits {
        0
    } else if is_ready(seen) && is_above(system, executing, task) {
        older(ticks, cap)
    } else {
        cap.min(ticks)
    }
}

/// The same of a task by its number, where it is known for how many ticks those of all have been.
#[tactic(auto, using(crate::proofs::BlockedLemmas::behind))]
#[inline(always)]
fn ticks_behind(
    system: &System,
    cap: u32,
    executing: Option<u8>,
    seen: &Observation,
    blocked: &[u32],
    task: usize,
) -> u32
    requires { executing ≡ executing_level (levels_of system.now) seen.now.executor }
    ensures { result ≡ blocked_behind
        (lower_executes (levels_of system.now) seen.now.executor) cap (seen_of seen.now)
        blocked.now task }
{
    let one = seen.task(task);
    next_ticks(
        system,
        cap,
        executing,
        &one,
        blocked_of(blocked, task),
        task,
    )
}

/// Puts the ticks behind a tick in place of others.
#[tactic(auto, using(crate::proofs::FilledLemmas::one_more, crate::proofs::FilledLemmas::all_of))]
pub(crate) fn put_next_blocked(
    next: &mut Vec<u32>,
    system: &System,
    cap: u32,
    seen: &Observation,
    blocked: &[u32],
) -> Result<(), AllocError>
    ensures { OnOk result (next.new.items ≡ each_of (blocked_behind
        (lower_executes (levels_of system.now) seen.now.executor) cap (seen_of seen.now))
        blocked.now) }
{
    give_places(next, blocked)?;
    let executing = executing_level(system, &seen.executor);
    for task in 0..blocked.len() {
        next[task] = ticks_behind(system, cap, executing, seen, blocked, task);
    }
    Ok(())
}

/// Whether each task has been blocked for at least as many ticks as among others; at true each has.
pub(crate) fn are_at_least(blocked: &[u32], others: &[u32]) -> bool
    requires { length blocked.now ≡ length others.now }
    ensures { IsTrue result → (k : ℕ) → blocked_at others.now k ≤ blocked_at blocked.now k }
{
    for task in 0..blocked.len() {
        if blocked[task] < others[task] {
            return false;
        }
    }
    true
}

/// Each number of ticks is the greater of its own and that of the same task among others.
pub(crate) fn join_blocked(blocked: &mut [u32], others: &[u32])
    requires { length blocked.old ≡ length others.now }
    ensures count { length blocked.new ≡ length blocked.old }
    ensures each { (k : ℕ) →
        blocked_at blocked.new k ≡ max (blocked_at blocked.old k) (blocked_at others.now k) }
{
    for (task, ticks) in blocked.iter_mut().enumerate() {
        *ticks = (*ticks).max(others[task]);
    }
}
