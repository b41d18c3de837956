//! The ready list as a ring for each level, and one word that says which levels have a task.

use crate::level::Level;
use crate::level_set::LevelSet;
use crate::ready_queues::{LEVELS, ReadyQueues};
use osek_base::TaskId;
use std::alloc::{AllocError, Global};
use std::marker::Model;

/// A ring for each level, each with room for all entries, a slot before each ring for a task put
/// oldest or put alone, and a word whose bit k is set exactly where level k has a task.
///
/// `top` reads the word alone. A put or a take makes at most one ring operation, but for
/// `put_oldest` where the slot of its level is occupied: that moves each task of the ring once.
#[derive(Drop)]
pub struct LevelQueues {
    levels: Vec<Level>,
    occupied: LevelSet,
    count: usize,
    room: usize,
}

impl Model for LevelQueues {
    ghost use Rattle.ready_queues.specs.Levels.{Levels, seen, IsCounted, IsMarked};

    ghost Value = { Levels };

    ghost view = { λ a. seen a.levels.items a.room };

    ghost invariant = { λ a. IsCounted a.levels.items a.count a.room × IsMarked a.levels.items a.occupied };
}

impl ReadyQueues for LevelQueues {
    ghost use Rattle.ready_queues.specs.Levels.{tasks_of};

    ghost queues = { λ s. tasks_of s };

    ghost room = { λ s. s.room };

    fn with_room(alloc: Global, count: usize) -> Result<Self, AllocError> {
        let mut levels = Vec::with_capacity(alloc, LEVELS as usize)?;
        for _made in 0..LEVELS {
            levels.push(Level::with_room(alloc, count)?)?;
        }
        Ok(LevelQueues {
            levels,
            occupied: LevelSet::new(),
            count: 0,
            room: count,
        })
    }

    fn has_room(&self) -> bool {
        self.count < self.room
    }

    #[inline(always)]
    fn top(&self) -> Option<u8> {
        self.occupied.highest()
    }

    #[inline(always)]
    fn put_newest(&mut self, level: u8, task: TaskId) {
        let tasks = &mut self.levels[level as usize];
        tasks.put_newest(task);
        self.occupied.insert(level);
        self.count += 1;
    }

    #[inline(always)]
    fn put_oldest(&mut self, level: u8, task: TaskId) {
        let tasks = &mut self.levels[level as usize];
        tasks.put_oldest(task);
        self.occupied.insert(level);
        self.count += 1;
    }

    #[inline(always)]
    fn take_first(&mut self) -> Option<TaskId> {
        let top = self.top()?;
        let tasks = &mut self.levels[top as usize];
        let first = tasks.take_first();
        if tasks.is_empty() {
            self.occupied.remove(top);
        }
        self.count -= 1;
        first
    }
}
