//! OSEK/VDX OS: resource management. By whom a resource is held, and for how long.

ghost use Rattle.std.specs.Prelude.{ℕ, ◌≡◌, ◌<◌, ◌≤◌, ◌⊎◌, IfOk, IsTrue, OnOk, length, map, min, replicate, slice_index_or};
ghost use Rattle.std.specs.Option.{option_map};
ghost use Rattle.law_figures.specs.Holding.{IsLonger, held_by, held_in, held_ticks, hold_next};
ghost use Rattle.seen_ticks.specs.Seen.{seen_of};
ghost use Rattle.search_labels.specs.Parts.{each_of, hold_at, hold_behind};
ghost use Rattle.search_labels.specs.Labels.{capped_hold, no_hold};
ghost use Rattle.search_labels.specs.Joining.{AreJoinable, joined_hold, has_held};

use crate::counting::older;
use crate::places::give_places;
use crate::ticks::holder_tick;
use osek_base::TaskId;
use seen_ticks::{Holder, Observation};
use std::alloc::{AllocError, Global};
use std::marker::Model;
use view_figures::HolderTick;

/// Who holds a resource, and for how many ticks in a row, up to a cap.
#[derive(Clone, Copy)]
pub struct Hold {
    holder: Holder,
    held: u32,
}

impl Model for Hold {
    ghost use Rattle.law_figures.specs.Holding.{Hold as Held};

    ghost Value = { Held };

    ghost view = { λ h. record { holder = h.holder; held = h.held } };

    ghost inverse = { λ h. record { holder = h.holder; held = h.held } };
}

impl Hold {
    /// A task holds it for so many ticks, or none.
    pub(crate) fn new(holder: Option<TaskId>, held: u32) -> Self
        ensures holder { result.holder ≡ holder }
        ensures held { result.held ≡ held }
    {
        Hold {
            holder: Holder::new(holder),
            held,
        }
    }

    /// The task, if one has held it.
    pub fn holder(self) -> Option<TaskId>
        ensures { result ≡ self.holder }
    {
        self.holder.task()
    }

    /// For how many ticks in a row, up to a cap.
    pub fn held(self) -> u32
        ensures { result ≡ self.held }
    {
        self.held
    }

    /// Nobody holds it.
    pub(crate) fn none() -> Self
        ensures { result ≡ no_hold }
    {
        Hold {
            holder: Holder::new(None),
            held: 0,
        }
    }

    /// For how many ticks in a row a task has held it.
    #[inline(always)]
    fn held_by(self, task: TaskId) -> u32
        ensures { result ≡ held_by task self }
    {
        match self.holder.task() {
            Some(holder) if task.number() == holder.number() => self.held,
            _ => 0,
        }
    }

    /// For how many ticks a holder has held it in a tick, up to a cap; 0 where there is none.
    #[inline(always)]
    fn held_in(self, cap: u32, holder: Holder) -> u32
        ensures { result ≡ min cap (held_in holder self) }
    {
        match holder.task() {
            Some(task) => older(self.held_by(task), cap),
            None => 0,
        }
    }

    #[inline(always)]
    fn next(self, cap: u32, tick: &HolderTick) -> Self
        ensures { result ≡ capped_hold cap (hold_next tick.now self) }
    {
        Hold {
            holder: tick.holder,
            held: self.held_in(cap, tick.holder),
        }
    }

    /// For how long it is held in a tick, up to a cap.
    #[inline(always)]
    pub(crate) fn held_ticks(self, cap: u32, tick: &HolderTick) -> Option<u32>
        ensures { result ≡ option_map (min cap) (held_ticks tick.now self) }
    {
        match tick.holder.task() {
            Some(task) => Some(older(self.held_by(task), cap)),
            None => None,
        }
    }
}

impl Hold {
    /// Whether a task has held it.
    fn has_held(self) -> bool
        ensures { result ≡ has_held self }
    {
        self.holder.task().is_some() && self.held > 0
    }

    /// Whether two are of one holder.
    fn is_same_holder(self, other: Hold) -> bool
        ensures { IsTrue result → self.holder ≡ other.holder }
    {
        match (self.holder.task(), other.holder.task()) {
            (Some(task), Some(holder)) => task.number() == holder.number(),
            (None, None) => true,
            _ => false,
        }
    }

    /// Whether each task has held it at least as long as in another hold; at true each has.
    pub(crate) fn is_longer(self, other: Hold) -> bool
        ensures { IsTrue result → IsLonger self other }
    {
        !other.has_held() || (self.is_same_holder(other) && self.held >= other.held)
    }

    /// Whether no two tasks have held it.
    fn is_joinable(self, other: Hold) -> bool
        ensures { IsTrue result → AreJoinable self other }
    {
        !self.has_held() || !other.has_held() || self.is_same_holder(other)
    }

    /// The longer of two.
    fn joined(self, other: Hold) -> Hold
        ensures { result ≡ joined_hold self other }
    {
        if !other.has_held() {
            self
        } else if !self.has_held() {
            other
        } else {
            Hold {
                holder: self.holder,
                held: self.held.max(other.held),
            }
        }
    }
}

/// Nobody holds a resource.
pub(crate) fn first_holds(alloc: Global, held: usize) -> Result<Vec<Hold>, AllocError>
    ensures { IfOk result (λ holds. holds.items ≡ replicate held no_hold) }
{
    let mut holds = Vec::with_capacity(alloc, held)?;
    for _made in 0..held {
        holds.push(Hold::none())?;
    }
    Ok(holds)
}

/// The hold of a resource; none beyond the list.
#[inline(always)]
pub(crate) fn hold_of(holds: &[Hold], resource: usize) -> Hold
    ensures { result ≡ hold_at holds.now resource }
{
    match holds.get(resource) {
        Some(hold) => *hold,
        None => Hold::none(),
    }
}

/// Puts the holds behind a tick in place of others.
#[tactic(auto, using(crate::proofs::FilledLemmas::one_more, crate::proofs::FilledLemmas::all_of))]
pub(crate) fn put_next_holds(
    next: &mut Vec<Hold>,
    cap: u32,
    seen: &Observation,
    holds: &[Hold],
) -> Result<(), AllocError>
    ensures { OnOk result (next.new.items ≡
        each_of (hold_behind cap (seen_of seen.now)) holds.now) }
{
    give_places(next, holds)?;
    for resource in 0..holds.len() {
        let hold = hold_of(holds, resource);
        next[resource] = hold.next(cap, &holder_tick(seen, resource));
    }
    Ok(())
}

/// Whether each is at least as long as that of the same resource among others; at true they are.
pub(crate) fn are_longer(holds: &[Hold], others: &[Hold]) -> bool
    requires { length holds.now ≡ length others.now }
    ensures { IsTrue result → (r : ℕ) → IsLonger (hold_at holds.now r) (hold_at others.now r) }
{
    for resource in 0..holds.len() {
        if !hold_of(holds, resource).is_longer(hold_of(others, resource)) {
            return false;
        }
    }
    true
}

/// Whether no resource was held by two tasks; at true none was.
pub(crate) fn are_joinable(holds: &[Hold], others: &[Hold]) -> bool
    requires { length holds.now ≡ length others.now }
    ensures { IsTrue result → (r : ℕ) → AreJoinable (hold_at holds.now r) (hold_at others.now r) }
{
    for resource in 0..holds.len() {
        if !hold_of(holds, resource).is_joinable(hold_of(others, resource)) {
            return false;
        }
    }
    true
}

/// Each is the longer of its own and that of the same resource among others.
pub(crate) fn join_holds(holds: &mut [Hold], others: &[Hold])
    requires { length holds.old ≡ length others.now }
    ensures count { length holds.new ≡ length holds.old }
    ensures each { (r : ℕ) → hold_at holds.new r
        ≡ joined_hold (hold_at holds.old r) (hold_at others.now r) }
{
    for (resource, hold) in holds.iter_mut().enumerate() {
        *hold = hold.joined(hold_of(others, resource));
    }
}
