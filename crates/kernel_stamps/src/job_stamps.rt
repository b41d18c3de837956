//! Since which tick each job is ready, by task.

ghost use Rattle.std.specs.Prelude.{◌≡◌, ◌<◌, ◌≤◌, [], ◌∷◌, ◌++◌, Some, length, replicate, slice_set, slice_index_or, is_none, true, None};
ghost use Rattle.kernel_stamps.specs.Stamps.{changed, stamp_oldest, stamp_of_oldest, spent_oldest, without_oldest};

use crate::task_stamps::TaskStamps;
use arrayvec::ArrayVec;
use osek_base::{MAX_ACTIVATION, MAX_TASKS, TaskId};
use std::marker::Model;

/// The stamps of the jobs of each task.
#[derive(Drop)]
pub struct JobStamps {
    tasks: ArrayVec<TaskStamps, MAX_TASKS>,
    /// A task whose oldest job is known to have no stamp: the one that executed last, as long as no
    /// stamp has changed since; or else `NOBODY`. One byte, so that one comparison tells.
    spent: u8,
}

const NOBODY: u8 = u8::MAX;

impl Model for JobStamps {
    ghost use Rattle.kernel_stamps.specs.Stamps.{HasNone, Stamped, task_of};

    ghost Value = { Stamped };

    ghost view = { λ s. record { lists = s.tasks.items; spent = task_of s.spent } };

    ghost invariant = { λ s. HasNone (task_of s.spent) s.tasks.items };
}

/// The content becomes the stamps of some tasks.
fn replace_tasks(tasks: &mut ArrayVec<TaskStamps, MAX_TASKS>, others: &[TaskStamps])
    requires { length others.now ≤ MAX_TASKS }
    ensures { tasks.new.items ≡ others.now }
{
    if tasks.len() == others.len() {
        copy_each(tasks.as_mut_slice(), others);
        return;
    }
    tasks.clear();
    for number in 0..others.len() {
        let other = &others[number];
        tasks.push(other.copied());
    }
}

/// The stamps of each task become those of another one.
fn copy_each(tasks: &mut [TaskStamps], others: &[TaskStamps])
    requires { length tasks.old ≡ length others.now }
    ensures { tasks.new ≡ others.now }
{
    for number in 0..others.len() {
        let task = &mut tasks[number];
        task.copy_from(&others[number]);
    }
}

impl JobStamps {
    /// No job of any task.
    pub fn new(count: usize) -> Self
        requires { count ≤ MAX_TASKS }
        ensures { result ≡ record { lists = replicate count []; spent = None } }
    {
        let mut tasks = ArrayVec::new();
        for _made in 0..count {
            tasks.push(TaskStamps::new());
        }
        JobStamps {
            tasks,
            spent: NOBODY,
        }
    }

    /// The stamps become those of others.
    pub fn copy_from(&mut self, other: &JobStamps)
        ensures { self.new ≡ other.now }
    {
        replace_tasks(&mut self.tasks, other.tasks.as_slice());
        self.spent = other.spent;
    }

    /// A job of a task more, ready from a tick on: it is the newest.
    #[inline(always)]
    pub fn add(&mut self, task: TaskId, tick: u32)
        requires task { task < length self.old.lists }
        requires room { length (slice_index_or self.old.lists task []) < MAX_ACTIVATION }
        ensures { self.new ≡ changed task (λ list. list ++ Some tick ∷ []) None self.old }
    {
        self.spent = NOBODY;
        self.tasks[task.number() as usize].add(tick);
    }

    /// The oldest job of a task ends, if there is one.
    #[inline(always)]
    pub fn end(&mut self, task: TaskId)
        requires { task < length self.old.lists }
        ensures { self.new ≡ changed task without_oldest None self.old }
    {
        self.spent = NOBODY;
        self.tasks[task.number() as usize].end();
    }

    /// The oldest job of a task is ready from a tick on, where it has no stamp.
    #[inline(always)]
    pub fn stamp(&mut self, task: TaskId, tick: u32)
        requires { task < length self.old.lists }
        ensures { self.new ≡ changed task (stamp_oldest tick) None self.old }
    {
        self.spent = NOBODY;
        self.tasks[task.number() as usize].stamp(tick);
    }

    /// Whether it is known that the oldest job of a task has no stamp any more: its stamp was taken
    /// last, and no stamp has changed since.
    #[inline(always)]
    pub fn is_known_spent(&self, task: TaskId) -> bool
        ensures spent { result ≡ true → self.now.spent ≡ Some task }
        ensures none { result ≡ true
            → stamp_of_oldest (slice_index_or self.now.lists task []) ≡ None }
    {
        self.spent == task.number()
    }

    /// Whether the oldest job of a task has no stamp any more, or the task has no job.
    #[inline(always)]
    pub fn is_spent(&self, task: TaskId) -> bool
        ensures { result ≡ is_none (stamp_of_oldest (slice_index_or self.now.lists task [])) }
    {
        if self.is_known_spent(task) {
            return true;
        }
        match self.tasks.as_slice().get(task.number() as usize) {
            None => true,
            Some(stamps) => stamps.is_spent(),
        }
    }

    /// The oldest job of a task executes: its stamp is taken.
    #[inline(always)]
    pub fn take(&mut self, task: TaskId) -> Option<u32>
        requires { task < length self.old.lists }
        ensures stamp { result ≡ stamp_of_oldest (slice_index_or self.old.lists task []) }
        ensures after { self.new ≡ changed task spent_oldest (Some task) self.old }
    {
        if self.is_known_spent(task) {
            return None;
        }
        self.spent = task.number();
        self.tasks[task.number() as usize].take()
    }
}
