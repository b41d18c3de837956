//! OSEK/VDX OS: task management, scheduling policy. The ready tasks by level, as contracts of services see them.

ghost use Rattle.std.specs.Prelude.{◌≡◌, ◌<◌, ◌≤◌, suc, [], IfOk, replicate, length, ℕ};
ghost use Rattle.ready_queues.specs.Queues.{total};
ghost use Rattle.ready_queues.specs.QueueMoves.{put_newest, put_oldest, without_first_at_level, first, highest};
ghost use Rattle.ready_queues.specs.LevelLists.{by_level, level_lists};
ghost use Rattle.services.specs.Steps.{ReadyBecomes};

use crate::copy_queues::CopyQueues;
use osek_base::TaskId;
use ready_queues::{LEVELS, ReadyQueues};
use std::alloc::{AllocError, Global};
use std::marker::Model;

/// Ready tasks by level. Contracts see the list of the levels, oldest task first, and how many tasks there is room for.
#[derive(Drop)]
pub struct ReadyList<Q: ReadyQueues> {
    queues: Q,
}

impl<Q: ReadyQueues> Model for ReadyList<Q> {
    ghost use Rattle.ready_queues.specs.LevelLists.{level_lists};
    ghost use Rattle.ready_queues.specs.Levels.{Levels};

    ghost Value = { Levels };

    ghost view = { λ r. record { lists = level_lists (Q.queues r.queues); room = Q.room r.queues } };
}

impl<Q: ReadyQueues> ReadyList<Q> {
    /// No task, and room for so many.
    pub fn with_room(alloc: Global, count: usize) -> Result<Self, AllocError>
        ensures empty { IfOk result (λ r. by_level r.lists ≡ (λ l. [])) }
        ensures room { IfOk result (λ r. r.room ≡ count) }
    {
        Ok(ReadyList {
            queues: Q::with_room(alloc, count)?,
        })
    }

    /// The queues themselves.
    pub fn queues(&self) -> &Q
        ensures { level_lists (Q.queues result.now) ≡ self.now.lists }
    {
        &self.queues
    }

    /// Adds a task behind those of its level.
    #[inline(always)]
    pub fn put_newest(&mut self, level: u8, task: TaskId)
        requires level { level < LEVELS }
        requires room { total (by_level self.old.lists) < self.old.room }
        ensures { ReadyBecomes (λ q. put_newest q level task) self.old self.new }
    {
        self.queues.put_newest(level, task);
    }

    /// Adds a task before those of its level.
    #[inline(always)]
    pub fn put_oldest(&mut self, level: u8, task: TaskId)
        requires level { level < LEVELS }
        requires room { total (by_level self.old.lists) < self.old.room }
        ensures { ReadyBecomes (λ q. put_oldest q level task) self.old self.new }
    {
        self.queues.put_oldest(level, task);
    }

    /// The highest level that has a task, where none above `top` has.
    #[inline(always)]
    pub fn highest(&self, top: u8) -> Option<u8>
        requires none { (l : ℕ) → top < l → by_level self.now.lists l ≡ [] }
        requires top { top < LEVELS }
        ensures { result ≡ highest (suc top) (by_level self.now.lists) }
    {
        self.queues.top()
    }

    /// Takes the first task of the highest level that has one.
    #[inline(always)]
    pub fn take_first(&mut self, level: u8) -> TaskId
        requires some { 0 < length (by_level self.old.lists level) }
        requires none { (l : ℕ) → level < l → by_level self.old.lists l ≡ [] }
        requires level { level < LEVELS }
        ensures task { result ≡ first (by_level self.old.lists level) }
        ensures becomes { ReadyBecomes (λ q. without_first_at_level q level) self.old self.new }
    {
        match self.queues.take_first() {
            Some(task) => task,
            None => unreachable!(),
        }
    }
}

impl<Q: CopyQueues> ReadyList<Q> {
    /// The tasks of each level become those of another list with as much room.
    pub fn copy_from(&mut self, other: &ReadyList<Q>)
        requires { self.old.room ≡ other.now.room }
        ensures { self.new ≡ other.now }
    {
        self.queues.copy_from(&other.queues);
    }
}
