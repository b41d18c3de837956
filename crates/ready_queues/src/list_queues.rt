//! The ready list as a list for each level, and no more.

ghost use Rattle.std.specs.Prelude.{◌≡◌, ◌<◌, [], ◌∷◌, ◌++◌, length};
ghost use Rattle.circular_buffer.specs.Buffer.{buffer};

use crate::ready_queues::{LEVELS, ReadyQueues};
use circular_buffer::HeapCircularBuffer;
use osek_base::TaskId;
use std::alloc::{AllocError, Global};
use std::marker::Model;

/// A list for each level, each with room for all entries. The highest level that has a task is
/// found by going through the levels.
#[derive(Drop)]
pub struct ListQueues {
    levels: Vec<HeapCircularBuffer<TaskId>>,
    count: usize,
    room: usize,
}

impl Model for ListQueues {
    ghost use Rattle.ready_queues.specs.Levels.{Levels, seen, IsCounted};

    ghost Value = { Levels };

    ghost view = { λ a. seen a.levels.items a.room };

    ghost invariant = { λ a. IsCounted a.levels.items a.count a.room };
}

impl ReadyQueues for ListQueues {
    ghost use Rattle.ready_queues.specs.Levels.{tasks_of};

    ghost queues = { λ s. tasks_of s };

    ghost room = { λ s. s.room };

    fn with_room(alloc: Global, count: usize) -> Result<Self, AllocError> {
        let mut levels = Vec::with_capacity(alloc, LEVELS as usize)?;
        for _made in 0..LEVELS {
            levels.push(HeapCircularBuffer::with_capacity(alloc, count)?)?;
        }
        Ok(ListQueues {
            levels,
            count: 0,
            room: count,
        })
    }

    fn has_room(&self) -> bool {
        self.count < self.room
    }

    fn top(&self) -> Option<u8> {
        for level in (0..LEVELS).rev() {
            if !self.levels[level as usize].is_empty() {
                return Some(level);
            }
        }
        None
    }

    fn put_newest(&mut self, level: u8, task: TaskId) {
        let tasks = &mut self.levels[level as usize];
        push_newest(tasks, task);
        self.count += 1;
    }

    fn put_oldest(&mut self, level: u8, task: TaskId) {
        let tasks = &mut self.levels[level as usize];
        push_oldest(tasks, task);
        self.count += 1;
    }

    fn take_first(&mut self) -> Option<TaskId> {
        let top = self.top()?;
        let first = self.levels[top as usize].pop_front();
        self.count -= 1;
        first
    }
}

/// Adds a task behind those of a list that has room.
fn push_newest(tasks: &mut HeapCircularBuffer<TaskId>, task: TaskId)
    requires { length tasks.old.items < tasks.old.capacity }
    ensures { tasks.new ≡ buffer (tasks.old.items ++ task ∷ []) tasks.old.capacity }
{
    let _ = tasks.push_back(task);
}

/// Adds a task before those of a list that has room.
fn push_oldest(tasks: &mut HeapCircularBuffer<TaskId>, task: TaskId)
    requires { length tasks.old.items < tasks.old.capacity }
    ensures { tasks.new ≡ buffer (task ∷ tasks.old.items) tasks.old.capacity }
{
    let _ = tasks.push_front(task);
}
