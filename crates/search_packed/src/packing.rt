//! Labels are written as bytes.

ghost use Rattle.std.specs.Prelude.{◌≡◌, ◌≤◌, ◌++◌, IsTrue, OnOk, [], length};
ghost use Rattle.std.specs.List.{flat_map};
ghost use Rattle.search_keys.specs.Bytes.{number, optional};
ghost use Rattle.search_packed.specs.Packed.{
  IsAdded,
  ages_bytes,
  bare,
  blocked_part,
  count_beside,
  first_parts,
  hold_bytes,
  last_parts,
  listed,
  packed,
  pending_part,
};

use crate::zeros::{are_free, are_none, are_zero, drop_zeros};
use search_keys::{push_count, push_number, push_optional};
use search_labels::{Hold, Labels};
use std::alloc::AllocError;

/// Adds each number.
#[tactic(auto, using(std::proofs::lemmas::List::flat_map_more))]
fn push_each(out: &mut Vec<u8>, numbers: &[u32]) -> Result<(), AllocError>
    ensures { OnOk result (out.new.items ≡ out.old.items ++ flat_map number numbers.now) }
{
    for n in numbers {
        push_number(out, *n)?;
    }
    Ok(())
}

/// Adds how many numbers there are, and each of them.
#[tactic(auto, using(std::proofs::lemmas::List::append_assoc))]
fn push_numbers(out: &mut Vec<u8>, numbers: &[u32]) -> Result<(), AllocError>
    ensures { OnOk result (out.new.items ≡ out.old.items ++ listed number numbers.now) }
{
    push_count(out, numbers.len())?;
    push_each(out, numbers)
}

/// Adds the ages of a task that has two jobs or more.
#[inline(never)]
#[tactic(auto, using(crate::proofs::PackingLemmas::ages_laws))]
fn push_many(out: &mut Vec<u8>, ages: &[u32]) -> Result<(), AllocError>
    requires { 2 ≤ length ages.now }
    ensures { OnOk result (out.new.items ≡ out.old.items ++ ages_bytes ages.now) }
{
    push_count(out, 1)?;
    push_numbers(out, ages)
}

/// Adds the ages of a task's jobs.
#[inline(always)]
#[tactic(auto, using(crate::proofs::PackingLemmas::ages_laws))]
fn push_task(out: &mut Vec<u8>, ages: &[u32]) -> Result<(), AllocError>
    ensures { OnOk result (out.new.items ≡ out.old.items ++ ages_bytes ages.now) }
{
    if ages.len() == 0 {
        return push_count(out, 0);
    }
    if ages.len() == 1 {
        return push_count(out, ages[0] as usize + 2);
    }
    push_many(out, ages)
}

/// Adds the ages of each task's jobs.
fn push_tasks(out: &mut Vec<u8>, labels: &Labels) -> Result<(), AllocError>
    ensures { OnOk result
        (out.new.items ≡ out.old.items ++ flat_map ages_bytes labels.now.ages) }
{
    for task in 0..labels.task_count() {
        push_task(out, labels.ages(task))?;
    }
    Ok(())
}

/// Adds of how many tasks there are ages, and those of each.
#[tactic(auto, using(std::proofs::lemmas::List::append_assoc))]
fn push_ages(out: &mut Vec<u8>, labels: &Labels) -> Result<(), AllocError>
    ensures { OnOk result (out.new.items ≡ out.old.items ++ listed ages_bytes labels.now.ages) }
{
    push_count(out, labels.task_count())?;
    push_tasks(out, labels)
}

/// Adds what is seldom all zeros.
#[tactic(auto, using(crate::proofs::PackingLemmas::first_there))]
fn push_first(out: &mut Vec<u8>, labels: &Labels) -> Result<(), AllocError>
    ensures { OnOk result (out.new.items ≡ out.old.items ++ first_parts labels.now) }
{
    push_numbers(out, labels.debts())?;
    push_ages(out, labels)?;
    push_count(out, labels.holds().len())
}

/// Adds who holds a resource, and for how long.
#[tactic(auto, using(std::proofs::lemmas::List::append_assoc))]
fn push_hold(out: &mut Vec<u8>, hold: Hold) -> Result<(), AllocError>
    ensures { OnOk result (out.new.items ≡ out.old.items ++ hold_bytes hold) }
{
    push_optional(out, holder_of(hold))?;
    push_number(out, hold.held())
}

/// The number of the task that holds a resource, if one does.
fn holder_of(hold: Hold) -> Option<u32>
    ensures { result ≡ hold.holder }
{
    match hold.holder() {
        Some(task) => Some(task.number() as u32),
        None => None,
    }
}

/// Adds each hold.
#[tactic(auto, using(std::proofs::lemmas::List::flat_map_more))]
fn push_each_hold(out: &mut Vec<u8>, holds: &[Hold]) -> Result<(), AllocError>
    ensures { OnOk result (out.new.items ≡ out.old.items ++ flat_map hold_bytes holds.now) }
{
    for hold in holds {
        push_hold(out, *hold)?;
    }
    Ok(())
}

/// Adds how many things there are, beside how many others.
#[tactic(auto, using(crate::proofs::PackingLemmas::beside_laws))]
fn push_beside(out: &mut Vec<u8>, others: usize, count: usize) -> Result<(), AllocError>
    ensures { OnOk result (out.new.items ≡ out.old.items ++ count_beside others count) }
{
    if count == others {
        return push_count(out, 0);
    }
    push_count(out, 1)?;
    push_count(out, count)
}

/// Adds each number that there is, or that there is none.
#[tactic(auto, using(std::proofs::lemmas::List::flat_map_more))]
fn push_each_optional(out: &mut Vec<u8>, ages: &[Option<u32>]) -> Result<(), AllocError>
    ensures { OnOk result (out.new.items ≡ out.old.items ++ flat_map (optional number) ages.now) }
{
    for age in ages {
        push_optional(out, *age)?;
    }
    Ok(())
}

/// Adds how many ages of interrupts there are at most, and each.
#[tactic(auto, using(std::proofs::lemmas::List::append_assoc))]
fn push_pending(out: &mut Vec<u8>, labels: &Labels) -> Result<(), AllocError>
    ensures { OnOk result (out.new.items ≡ out.old.items ++ pending_part labels.now) }
{
    push_beside(out, labels.debts().len(), labels.pending().len())?;
    push_each_optional(out, labels.pending())
}

/// Adds for how many tasks blocked ticks are told, and each.
#[tactic(auto, using(std::proofs::lemmas::List::append_assoc))]
fn push_blocked(out: &mut Vec<u8>, labels: &Labels) -> Result<(), AllocError>
    ensures { OnOk result (out.new.items ≡ out.old.items ++ blocked_part labels.now) }
{
    push_beside(out, labels.task_count(), labels.blocked().len())?;
    push_each(out, labels.blocked())
}

/// Adds what is seldom anything but zeros.
#[inline(never)]
#[tactic(auto, using(std::proofs::lemmas::List::append_assoc))]
fn push_last(out: &mut Vec<u8>, labels: &Labels) -> Result<(), AllocError>
    ensures { OnOk result (out.new.items ≡ out.old.items ++ last_parts labels.now) }
{
    push_pending(out, labels)?;
    push_blocked(out, labels)
}

/// Whether no interrupt pends, and those of each routine are told.
#[tactic(auto, using(crate::proofs::ZeroLemmas::list_beside_zero))]
fn has_none_pending(labels: &Labels) -> bool
    ensures { IsTrue result → bare (pending_part labels.now) ≡ [] }
{
    labels.pending().len() == labels.debts().len() && are_none(labels.pending())
}

/// Whether no job has been blocked, and those of each task are told.
#[tactic(auto, using(crate::proofs::ZeroLemmas::list_beside_zero))]
fn has_none_blocked(labels: &Labels) -> bool
    ensures { IsTrue result → bare (blocked_part labels.now) ≡ [] }
{
    labels.blocked().len() == labels.task_count() && are_zero(labels.blocked())
}

/// Whether what comes last is zeros.
#[tactic(auto, using(crate::proofs::ZeroLemmas::both_zero))]
fn has_zeros_last(labels: &Labels) -> bool
    ensures { IsTrue result → bare (last_parts labels.now) ≡ [] }
{
    has_none_pending(labels) && has_none_blocked(labels)
}

/// Adds the bytes of labels, and zeros behind them, but most of these are left out.
#[tactic(auto, using(crate::proofs::PackingLemmas::added_laws))]
fn push_parts(out: &mut Vec<u8>, labels: &Labels) -> Result<(), AllocError>
    ensures { OnOk result (IsAdded out.old.items out.new.items (packed labels.now)) }
{
    push_first(out, labels)?;
    if !has_zeros_last(labels) {
        push_each_hold(out, labels.holds())?;
        return push_last(out, labels);
    }
    if are_free(labels.holds()) {
        return Ok(());
    }
    push_each_hold(out, labels.holds())
}

/// Adds the bytes of labels. An error is that there is no memory; any bytes may have been added
/// then.
#[tactic(auto, using(crate::proofs::PackingLemmas::all_packed))]
pub fn pack(labels: &Labels, out: &mut Vec<u8>) -> Result<(), AllocError>
    ensures { OnOk result (out.new.items ≡ out.old.items ++ packed labels.now) }
{
    let begin = out.len();
    push_parts(out, labels)?;
    drop_zeros(out, begin);
    Ok(())
}
