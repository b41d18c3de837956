//! OSEK/VDX OS: task management. Ages of the jobs of all tasks, in one list.

ghost use Rattle.std.specs.Prelude.{ℕ, ◌≡◌, ◌<◌, ◌≤◌, [], IfOk, IsTrue, OnOk, length, min, replicate, slice_range};
ghost use Rattle.std.specs.Option.{option_map};
ghost use Rattle.law_figures.specs.Ages.{AreOlder, oldest_age};
ghost use Rattle.law_figures.specs.Merging.{merged_ages};
ghost use Rattle.seen_ticks.specs.Seen.{seen_of};
ghost use Rattle.search_labels.specs.AgeLists.{AreLists, begin_of, lists_of};
ghost use Rattle.search_labels.specs.Parts.{ages_at, ages_behind, each_of, merged_lists};

use crate::ages::{is_older, join_one, oldest_age, push_merged, push_next};
use crate::places::give_places;
use crate::ticks::task_tick;
use seen_ticks::Observation;
use std::alloc::{AllocError, Global};
use std::marker::Model;
use view_figures::TaskTick;

/// For how many ticks each job of each task stands ready or runs, up to a cap, oldest first. The
/// ages of a task stand behind those of the one before, so that all take two allocations. Contracts
/// see a list for each task.
#[derive(Drop)]
pub(crate) struct AgeLists {
    ages: Vec<u32>,
    /// By task, where its ages end.
    ends: Vec<usize>,
}

impl Model for AgeLists {
    ghost use Rattle.std.specs.Prelude.{ℕ, List};
    ghost use Rattle.search_labels.specs.AgeLists.{AreLists, lists_of};

    ghost Value = { List (List ℕ) };

    ghost view = { λ a. lists_of a.ages.items a.ends.items };

    ghost invariant = { λ a. AreLists a.ages.items a.ends.items };
}

/// Where the ages of a task begin.
#[tactic(auto, using(crate::proofs::ListLemmas::begin_behind))]
#[inline(always)]
fn begin_of(ends: &[usize], task: usize) -> usize
    requires { task < length ends.now }
    ensures { result ≡ begin_of ends.now task }
{
    if task == 0 { 0 } else { ends[task - 1] }
}

/// The ages from a place to another.
#[inline(always)]
fn part_of(ages: &[u32], begin: usize, end: usize) -> &[u32]
    requires rising { begin ≤ end }
    requires within { end ≤ length ages.now }
    ensures { result.now ≡ slice_range ages.now begin end }
{
    &ages[begin..end]
}

/// The ages of a task; none beyond the last task.
#[inline(always)]
fn ages_of<'a>(ages: &'a [u32], ends: &[usize], task: usize) -> &'a [u32]
    requires { AreLists ages.now ends.now }
    ensures { result.now ≡ ages_at (lists_of ages.now ends.now) task }
{
    if task >= ends.len() {
        return &[];
    }
    part_of(ages, begin_of(ends, task), ends[task])
}

/// As many ends as tasks, where none has a job.
fn no_ends(alloc: Global, tasks: usize) -> Result<Vec<usize>, AllocError>
    ensures { IfOk result (λ ends. ends.items ≡ replicate tasks 0) }
{
    let mut ends = Vec::with_capacity(alloc, tasks)?;
    for _made in 0..tasks {
        ends.push(0)?;
    }
    Ok(ends)
}

/// How many ends there are.
#[inline(always)]
fn count(ends: &[usize]) -> usize
    ensures { result ≡ length ends.now }
{
    ends.len()
}

/// Whether all end at the same places; at true they do.
fn have_same_ends(ends: &[usize], others: &[usize]) -> bool
    ensures { IsTrue result → ends.now ≡ others.now }
{
    ends == others
}

/// The greater ages of two.
fn merged(lists: &AgeLists, others: &AgeLists) -> Result<AgeLists, AllocError>
    ensures { IfOk result (λ merged. merged ≡ each_of (merged_lists others.now) lists.now) }
{
    let alloc = *lists.ages.allocator();
    let mut ages = Vec::with_capacity(alloc, lists.ages.len())?;
    let mut ends = Vec::with_capacity(alloc, lists.len())?;
    for task in 0..lists.len() {
        push_merged(&mut ages, lists.of(task), others.of(task))?;
        ends.push(ages.len())?;
    }
    Ok(AgeLists { ages, ends })
}

fn replace(lists: &mut AgeLists, others: AgeLists)
    ensures { lists.new ≡ others }
{
    *lists = others;
}

/// Puts the ages behind a tick in place of others, with where those of each task end. The old ages
/// are gone over once, as each task's begin where those of the one before end.
fn put_next(
    ages: &mut Vec<u32>,
    ends: &mut Vec<usize>,
    cap: u32,
    seen: &Observation,
    old_ages: &[u32],
    old_ends: &[usize],
) -> Result<(), AllocError>
    requires { AreLists old_ages.now old_ends.now }
    ensures are { OnOk result (AreLists ages.new.items ends.new.items) }
    ensures same { OnOk result (lists_of ages.new.items ends.new.items
        ≡ each_of (ages_behind cap (seen_of seen.now)) (lists_of old_ages.now old_ends.now)) }
{
    give_places(ends, old_ends)?;
    ages.clear();
    let mut begin = 0;
    for task in 0..old_ends.len() {
        let end = old_ends[task];
        let old = part_of(old_ages, begin, end);
        push_next(ages, cap, &task_tick(seen, task), old)?;
        ends[task] = ages.len();
        begin = end;
    }
    Ok(())
}

/// Whether the ages of each task are at least those of the same task among others; at true they
/// are.
pub(crate) fn are_older(lists: &AgeLists, others: &AgeLists) -> bool
    requires { length lists.now ≡ length others.now }
    ensures { IsTrue result → (k : ℕ) → AreOlder (ages_at lists.now k) (ages_at others.now k) }
{
    for task in 0..lists.len() {
        if !lists.is_older(others, task) {
            return false;
        }
    }
    true
}

impl AgeLists {
    /// No task has a job.
    pub(crate) fn none(alloc: Global, tasks: usize) -> Result<Self, AllocError>
        ensures { IfOk result (λ lists. lists ≡ replicate tasks []) }
    {
        let ends = no_ends(alloc, tasks)?;
        Ok(AgeLists {
            ages: Vec::new(alloc),
            ends,
        })
    }

    /// Of no task.
    pub(crate) fn new(alloc: Global) -> Self
        ensures { result ≡ [] }
    {
        AgeLists {
            ages: Vec::new(alloc),
            ends: Vec::new(alloc),
        }
    }

    /// Of no task any more.
    pub(crate) fn clear(&mut self)
        ensures { self.new ≡ [] }
    {
        self.ages.clear();
        self.ends.clear();
    }

    /// Adds an age to the task that comes next.
    pub(crate) fn push_age(&mut self, age: u32) -> Result<(), AllocError> {
        self.ages.push(age)?;
        Ok(())
    }

    /// One more task, whose ages were added since the one before.
    pub(crate) fn end_task(&mut self) -> Result<(), AllocError> {
        self.ends.push(self.ages.len())?;
        Ok(())
    }

    /// They become those behind a tick. After an error there are none.
    pub(crate) fn become_next(
        &mut self,
        cap: u32,
        seen: &Observation,
        old: &AgeLists,
    ) -> Result<(), AllocError>
        ensures { OnOk result
            (self.new ≡ each_of (ages_behind cap (seen_of seen.now)) old.now) }
    {
        match put_next(
            &mut self.ages,
            &mut self.ends,
            cap,
            seen,
            &old.ages,
            &old.ends,
        ) {
            Ok(()) => Ok(()),
            Err(error) => {
                self.ends.clear();
                Err(error)
            }
        }
    }

    /// How many tasks there are.
    #[inline(always)]
    pub(crate) fn len(&self) -> usize
        ensures { result ≡ length self.now }
    {
        count(&self.ends)
    }

    /// The ages of a task; none beyond the last task.
    #[inline(always)]
    pub(crate) fn of(&self, task: usize) -> &[u32]
        ensures { result.now ≡ ages_at self.now task }
    {
        ages_of(&self.ages, &self.ends, task)
    }

    /// Whether a task has no age; at true it has none.
    #[tactic(auto, using(std::proofs::lemmas::List::nil_from_length))]
    #[inline(always)]
    pub(crate) fn is_without(&self, task: usize) -> bool
        ensures { IsTrue result → ages_at self.now task ≡ [] }
    {
        self.of(task).is_empty()
    }

    /// The age of a task's oldest job in a tick, up to a cap.
    #[inline(always)]
    pub(crate) fn oldest(&self, cap: u32, tick: &TaskTick, task: usize) -> Option<u32>
        ensures { result ≡ option_map (min cap) (oldest_age tick.now (ages_at self.now task)) }
    {
        oldest_age(self.of(task), cap, tick)
    }

    /// Whether the ages of a task are at least those of the same task among others; at true they
    /// are.
    pub(crate) fn is_older(&self, others: &AgeLists, task: usize) -> bool
        ensures { IsTrue result → AreOlder (ages_at self.now task) (ages_at others.now task) }
    {
        is_older(self.of(task), others.of(task))
    }

    /// The ages of each task are the greater of its own and those of the same task among others.
    pub(crate) fn join(&mut self, others: &AgeLists) -> Result<(), AllocError>
        requires { length self.old ≡ length others.now }
        ensures count { OnOk result (length self.new ≡ length self.old) }
        ensures each { OnOk result ((k : ℕ) → ages_at self.new k
            ≡ merged_ages (ages_at self.old k) (ages_at others.now k)) }
    {
        if have_same_ends(&self.ends, &others.ends) {
            join_one(&mut self.ages, &others.ages)?;
            return Ok(());
        }
        replace(self, merged(self, others)?);
        Ok(())
    }
}
