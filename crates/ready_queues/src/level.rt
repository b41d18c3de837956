//! The tasks of one level.

ghost use Rattle.std.specs.Prelude.{◌≡◌, ◌<◌, [], ◌∷◌, ◌++◌, length, drop, slice_get, IfOk};
ghost use Rattle.osek_base.specs.Lists.{is_empty};
ghost use Rattle.circular_buffer.specs.Buffer.{buffer};

use circular_buffer::HeapCircularBuffer;
use osek_base::TaskId;
use std::alloc::{AllocError, Global};
use std::marker::Model;

/// A ring of tasks, and a slot before it for the first task, which is empty after that one was
/// taken. Contracts see the tasks, first the one in the slot, and how many the ring can hold.
#[derive(Drop)]
pub struct Level {
    first: Option<TaskId>,
    ring: HeapCircularBuffer<TaskId>,
}

impl Model for Level {
    ghost use Rattle.std.specs.Prelude.{ℕ};
    ghost use Rattle.std.specs.Coded.{coded_ℕ};
    ghost use Rattle.circular_buffer.specs.Buffer.{Buffer, buffer, buffer_code};

    ghost Value = { Buffer ℕ };

    ghost coded = { buffer_code coded_ℕ };

    ghost use Rattle.ready_queues.specs.Level.{slot_and_ring};

    ghost view = { λ a. buffer (slot_and_ring a.first a.ring.items) a.ring.capacity };
}

impl Level {
    /// An empty level whose ring has room for `count` tasks.
    pub fn with_room(alloc: Global, count: usize) -> Result<Self, AllocError>
        ensures { IfOk result (λ level. level ≡ buffer [] count) }
    {
        let ring = HeapCircularBuffer::with_capacity(alloc, count)?;
        Ok(Level { first: None, ring })
    }

    /// Whether it has no task.
    #[inline(always)]
    pub fn is_empty(&self) -> bool
        ensures { result ≡ is_empty self.now.items }
    {
        self.first.is_none() && self.ring.is_empty()
    }

    /// Adds a task behind the others; where there is none, into the slot.
    #[inline(always)]
    pub fn put_newest(&mut self, task: TaskId)
        requires { length self.old.items < self.old.capacity }
        ensures { self.new ≡ buffer (self.old.items ++ task ∷ []) self.old.capacity }
    {
        if self.is_empty() {
            self.first = Some(task);
        } else {
            let _ = self.ring.push_back(task);
        }
    }

    /// Adds a task before the others. Where the slot is occupied, its task goes to the front of
    /// the ring first, which moves each task of the ring once.
    #[inline(always)]
    pub fn put_oldest(&mut self, task: TaskId)
        requires { length self.old.items < self.old.capacity }
        ensures { self.new ≡ buffer (task ∷ self.old.items) self.old.capacity }
    {
        if let Some(before) = self.first {
            put_in_front(&mut self.ring, before);
        }
        self.first = Some(task);
    }

    /// Takes the first task.
    #[inline(always)]
    pub fn take_first(&mut self) -> Option<TaskId>
        ensures value { result ≡ slice_get self.old.items 0 }
        ensures tasks { self.new ≡ buffer (drop 1 self.old.items) self.old.capacity }
    {
        match self.first.take() {
            Some(task) => Some(task),
            None => self.ring.pop_front(),
        }
    }
}

/// Puts a task at the front of a ring: by a push behind, after which each task that stood there
/// moves once from front to back.
#[inline(never)]
fn put_in_front(ring: &mut HeapCircularBuffer<TaskId>, task: TaskId)
    requires { length ring.old.items < ring.old.capacity }
    ensures { ring.new ≡ buffer (task ∷ ring.old.items) ring.old.capacity }
{
    let stood = ring.len();
    let _ = ring.push_back(task);
    for _moved in 0..stood {
        if let Some(first) = ring.pop_front() {
            let _ = ring.push_back(first);
        }
    }
}
