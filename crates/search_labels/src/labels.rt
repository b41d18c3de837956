//! Labels of a state that may come in many runs.

ghost use Rattle.std.specs.Prelude.{ℕ, ◌≡◌, ◌<◌, ◌≤◌, ◌^◌, ◌++◌, ◌∷◌, [], IfOk, IsTrue, OnOk, length, min};
ghost use Rattle.std.specs.Int.{bit_at};
ghost use Rattle.std.specs.Option.{option_map};
ghost use Rattle.osek_base.specs.declared.limits.TheConstants.{MAX_ROUTINES};
ghost use Rattle.view_figures.specs.FigureSums.{levels_of, lower_executes};
ghost use Rattle.law_figures.specs.Ages.{AreOlder, oldest_age};
ghost use Rattle.law_figures.specs.Blocking.{blocked_in};
ghost use Rattle.law_figures.specs.Holding.{IsLonger, held_ticks};
ghost use Rattle.law_figures.specs.Pending.{IsOlder};
ghost use Rattle.law_figures.specs.Times.{waited};
ghost use Rattle.seen_ticks.specs.Seen.{seen_of};
ghost use Rattle.search_labels.specs.Labels.{
  IsAtLeast,
  ages_of,
  blocked_of,
  first_labels,
  hold_of,
  next_labels,
  pending_of,
  debt_of,
};
ghost use Rattle.search_labels.specs.Joining.{AreOfAsMany, Joins};
ghost use Rattle.search_labels.specs.Parts.{IsIdle};

use crate::age_lists::{AgeLists, are_older as are_jobs_older};
use crate::blocked::{
    are_at_least, blocked_in, blocked_of, first_blocked, join_blocked, put_next_blocked,
};
use crate::debts::{are_less, first_debts, join_debts, put_next_debts};
use crate::holds::{
    Hold, are_joinable, are_longer, first_holds, hold_of, join_holds, put_next_holds,
};
use crate::pending::{
    are_older, first_pending, is_older, join_pending, pending_of, put_next_pending, waited,
};
use crate::ticks::is_jobless;
use arrival_rules::ArrivalRule;
use osek_base::{System, TaskId};
use seen_ticks::{Observation, TaskSeen};
use std::alloc::{AllocError, Global};
use std::marker::Model;
use view_figures::{HolderTick, RoutineTick, TaskTick};

/// What interrupts owe by the rules by which they come, and for how many ticks jobs stand ready or
/// run, interrupts are pending, resources are held and jobs have been blocked at most, each up to a cap.
#[derive(Drop)]
pub struct Labels {
    /// By rule, in ticks.
    debts: Vec<u32>,
    /// By task.
    ages: AgeLists,
    /// By routine, the age of its interrupt, if one is pending.
    pending: Vec<Option<u32>>,
    /// By resource.
    holds: Vec<Hold>,
    /// By task, for how many ticks its oldest job has been blocked.
    blocked: Vec<u32>,
}

impl Model for Labels {
    ghost use Rattle.search_labels.specs.Labels.{Labels as Told};

    ghost Value = { Told };

    ghost view = { λ l. record {
      debts = l.debts.items;
      ages = l.ages;
      pending = l.pending.items;
      holds = l.holds.items;
      blocked = l.blocked.items;
    } };
}

impl Labels {
    /// Those after boot, of so many rules, tasks, routines and resources that can be held. An error
    /// is that there is no memory.
    pub fn first(
        alloc: Global,
        rules: usize,
        tasks: usize,
        routines: usize,
        held: usize,
    ) -> Result<Labels, AllocError>
        ensures { IfOk result (λ l. l ≡ first_labels rules tasks routines held) }
    {
        Ok(Labels {
            debts: first_debts(alloc, rules)?,
            ages: AgeLists::none(alloc, tasks)?,
            pending: first_pending(alloc, routines)?,
            holds: first_holds(alloc, held)?,
            blocked: first_blocked(alloc, tasks)?,
        })
    }

    /// Of no thing.
    pub fn new(alloc: Global) -> Labels
        ensures { result ≡ first_labels 0 0 0 0 }
    {
        Labels {
            debts: Vec::new(alloc),
            ages: AgeLists::new(alloc),
            pending: Vec::new(alloc),
            holds: Vec::new(alloc),
            blocked: Vec::new(alloc),
        }
    }

    /// They become those behind a tick of a system in which the routines of a set arrive. The cap, up
    /// to which ages go, is in ticks. An error is that there is no memory;
    /// the labels may have any values then.
    pub fn become_next(
        &mut self,
        system: &System,
        cap: u32,
        rules: &[ArrivalRule],
        set: u64,
        seen: &Observation,
        old: &Labels,
    ) -> Result<(), AllocError>
        ensures { OnOk result (self.new ≡ next_labels
            (lower_executes (levels_of system.now) seen.now.executor)
            cap rules.now set (seen_of seen.now) old.now) }
    {
        put_next_debts(&mut self.debts, rules, set, &old.debts)?;
        self.ages.become_next(cap, seen, &old.ages)?;
        put_next_pending(&mut self.pending, cap, seen, &old.pending)?;
        put_next_holds(&mut self.holds, cap, seen, &old.holds)?;
        put_next_blocked(&mut self.blocked, system, cap, seen, &old.blocked)?;
        Ok(())
    }

    /// Whether as much is owed as with other labels.
    pub fn has_same_debts(&self, other: &Labels) -> bool
        ensures { IsTrue result → self.now.debts ≡ other.now.debts }
    {
        self.debts.as_slice() == other.debts.as_slice()
    }

    /// By rule, what interrupts of its routine owe, in ticks.
    pub fn debts(&self) -> &[u32]
        ensures { result.now ≡ self.now.debts }
    {
        &self.debts
    }

    /// Of how many tasks they are.
    pub fn task_count(&self) -> usize
        ensures { result ≡ length self.now.ages }
    {
        self.ages.len()
    }

    /// The ages of a task's jobs, oldest first; none beyond the last task.
    pub fn ages(&self, task: usize) -> &[u32]
        ensures { result.now ≡ ages_of self.now task }
    {
        self.ages.of(task)
    }

    /// By routine, the age of its interrupt, if one is pending.
    pub fn pending(&self) -> &[Option<u32>]
        ensures { result.now ≡ self.now.pending }
    {
        &self.pending
    }

    /// By resource.
    pub fn holds(&self) -> &[Hold]
        ensures { result.now ≡ self.now.holds }
    {
        &self.holds
    }

    /// By task, for how many ticks its oldest job has been blocked.
    pub fn blocked(&self) -> &[u32]
        ensures { result.now ≡ self.now.blocked }
    {
        &self.blocked
    }

    /// Whether a task has no job in a tick, had none before, and nothing of it is shown; at true it
    /// is so.
    #[inline(always)]
    pub fn is_idle(&self, seen: &TaskSeen, task: usize) -> bool
        ensures { IsTrue result → IsIdle seen.now self.now task }
    {
        is_jobless(seen) && self.ages.is_without(task) && blocked_of(&self.blocked, task) == 0
    }

    /// The age of a task's oldest job in a tick, up to a cap.
    #[inline(always)]
    pub fn oldest_age(&self, cap: u32, tick: &TaskTick, task: usize) -> Option<u32>
        ensures { result ≡ option_map (min cap) (oldest_age tick.now (ages_of self.now task)) }
    {
        self.ages.oldest(cap, tick, task)
    }

    /// What an interrupt of a routine has waited in a tick, up to a cap.
    #[inline(always)]
    pub fn waited(&self, cap: u32, tick: &RoutineTick, routine: usize) -> Option<u32>
        ensures { result ≡ option_map (min cap) (waited tick.now (pending_of self.now routine)) }
    {
        waited(cap, tick, pending_of(&self.pending, routine))
    }

    /// For how long a resource is held in a tick, up to a cap.
    #[inline(always)]
    pub fn held_ticks(&self, cap: u32, tick: &HolderTick, resource: usize) -> Option<u32>
        ensures { result ≡ option_map (min cap) (held_ticks tick.now (hold_of self.now resource)) }
    {
        hold_of(&self.holds, resource).held_ticks(cap, tick)
    }

    /// For how many ticks a task's oldest job has been blocked, up to a cap, a tick counted.
    #[inline(always)]
    pub fn blocked_ticks(&self, cap: u32, tick: &TaskTick, task: usize) -> u32
        ensures { result ≡ min cap (blocked_in tick.now (blocked_of self.now task)) }
    {
        blocked_in(cap, tick, blocked_of(&self.blocked, task))
    }

    /// Whether two are of as many things.
    fn is_of_as_many(&self, other: &Labels) -> bool
        ensures { IsTrue result → AreOfAsMany self.now other.now }
    {
        self.debts.len() == other.debts.len()
            && self.ages.len() == other.ages.len()
            && self.pending.len() == other.pending.len()
            && self.holds.len() == other.holds.len()
            && self.blocked.len() == other.blocked.len()
    }

    /// Whether the jobs of a task are at least as old as with other labels; at true they are.
    pub fn has_older_jobs(&self, other: &Labels, task: usize) -> bool
        ensures { IsTrue result → AreOlder (ages_of self.now task) (ages_of other.now task) }
    {
        self.ages.is_older(&other.ages, task)
    }

    /// Whether an interrupt of a routine has waited at least as long as with other labels; at true
    /// it has.
    pub fn has_older_interrupt(&self, other: &Labels, routine: usize) -> bool
        ensures { IsTrue result →
            IsOlder (pending_of self.now routine) (pending_of other.now routine) }
    {
        is_older(
            pending_of(&self.pending, routine),
            pending_of(&other.pending, routine),
        )
    }

    /// Whether a resource was held at least as long as with other labels; at true it was.
    pub fn has_longer_hold(&self, other: &Labels, resource: usize) -> bool
        ensures { IsTrue result → IsLonger (hold_of self.now resource) (hold_of other.now resource) }
    {
        hold_of(&self.holds, resource).is_longer(hold_of(&other.holds, resource))
    }

    /// Whether a task's oldest job has been blocked for at least as many ticks as with other
    /// labels; at true it has.
    pub fn has_more_blocked(&self, other: &Labels, task: usize) -> bool
        ensures { IsTrue result → blocked_of other.now task ≤ blocked_of self.now task }
    {
        blocked_of(&self.blocked, task) >= blocked_of(&other.blocked, task)
    }

    /// Whether what may arrive with others may with these, and nothing is older there; at true it
    /// is so.
    pub fn is_at_least(&self, other: &Labels) -> bool
        ensures { IsTrue result → IsAtLeast self.now other.now }
    {
        if !self.is_of_as_many(other) {
            return false;
        }
        are_less(&self.debts, &other.debts)
            && are_older(&self.pending, &other.pending)
            && are_longer(&self.holds, &other.holds)
            && are_at_least(&self.blocked, &other.blocked)
            && are_jobs_older(&self.ages, &other.ages)
    }

    /// Makes of these labels the least that are at least these and others, and answers whether that
    /// could be done: not where the two are of different numbers of things, or where two tasks have
    /// held a resource. An error is that there is no memory; the labels may have any values then.
    pub fn join(&mut self, other: &Labels) -> Result<bool, AllocError>
        ensures { IfOk result (Joins self.old other.now self.new) }
    {
        if !self.is_of_as_many(other) || !are_joinable(&self.holds, &other.holds) {
            return Ok(false);
        }
        self.ages.join(&other.ages)?;
        join_debts(&mut self.debts, &other.debts);
        join_pending(&mut self.pending, &other.pending);
        join_holds(&mut self.holds, &other.holds);
        join_blocked(&mut self.blocked, &other.blocked);
        Ok(true)
    }
}

/// They are filled thing by thing, in the order of the lists. An error is that there is no memory;
/// they stay then.
impl Labels {
    /// Of no thing any more.
    pub fn clear(&mut self)
        ensures { self.new ≡ first_labels 0 0 0 0 }
    {
        self.debts.clear();
        self.ages.clear();
        self.pending.clear();
        self.holds.clear();
        self.blocked.clear();
    }

    /// What interrupts owe by one more rule, in ticks.
    #[inline(always)]
    pub fn push_debt(&mut self, debt: u32) -> Result<(), AllocError>
        ensures { OnOk result
            (self.new ≡ record self.old { debts = self.old.debts ++ debt ∷ [] }) }
    {
        self.debts.push(debt)?;
        Ok(())
    }

    /// The age of one more job of the task that comes next.
    #[inline(always)]
    pub fn push_age(&mut self, age: u32) -> Result<(), AllocError> {
        self.ages.push_age(age)
    }

    /// One more task, whose jobs were told.
    #[inline(always)]
    pub fn end_task(&mut self) -> Result<(), AllocError> {
        self.ages.end_task()
    }

    /// The age of one more routine's interrupt, if one is pending.
    #[inline(always)]
    pub fn push_pending(&mut self, age: Option<u32>) -> Result<(), AllocError>
        ensures { OnOk result
            (self.new ≡ record self.old { pending = self.old.pending ++ age ∷ [] }) }
    {
        self.pending.push(age)?;
        Ok(())
    }

    /// One more resource, who holds it, and for how many ticks.
    #[inline(always)]
    pub fn push_hold(&mut self, holder: Option<TaskId>, held: u32) -> Result<(), AllocError>
        ensures { OnOk result (self.new ≡ record self.old {
          holds = self.old.holds ++ record { holder = holder; held = held } ∷ [];
        }) }
    {
        self.holds.push(Hold::new(holder, held))?;
        Ok(())
    }

    /// One more task, and for how many ticks its oldest job has been blocked.
    #[inline(always)]
    pub fn push_blocked(&mut self, ticks: u32) -> Result<(), AllocError>
        ensures { OnOk result
            (self.new ≡ record self.old { blocked = self.old.blocked ++ ticks ∷ [] }) }
    {
        self.blocked.push(ticks)?;
        Ok(())
    }
}
