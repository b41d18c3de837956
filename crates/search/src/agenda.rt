//! The numbers that are still to be visited.

ghost use Rattle.std.specs.Prelude.{◌≡◌, ℕ, ◌<◌, Bool, false, List, [], ◌∷◌, ◌++◌, length, slice_get, slice_index_or, if◌then◌else◌, drop, OnOk, OnErr};
ghost use Rattle.search.specs.Numbers.{is_in, put_in};

use std::alloc::{AllocError, Global};
use std::collections::VecDeque;
use std::marker::Model;

/// Numbers in the order in which they were put, each at most once.
#[derive(Drop)]
pub struct Agenda {
    queue: VecDeque<usize>,
    /// By number, whether it is in the queue.
    queued: Vec<bool>,
}

impl Model for Agenda {
    ghost use Rattle.std.specs.Prelude.{ℕ, List};
    ghost use Rattle.search.specs.Numbers.{AreMarked};

    ghost Value = { List ℕ };

    ghost view = { λ a. a.queue.items };

    ghost invariant = { λ a. AreMarked a.queue.items a.queued.items };
}

impl Agenda {
    /// No number.
    pub fn new(alloc: Global) -> Self
        ensures { result ≡ [] }
    {
        Agenda {
            queue: VecDeque::new(alloc),
            queued: Vec::new(alloc),
        }
    }

    /// How many numbers there are.
    pub fn len(&self) -> usize
        ensures { result ≡ length self.now }
    {
        self.queue.len()
    }

    /// Whether a number is there.
    pub fn contains(&self, number: usize) -> bool
        ensures { result ≡ is_in number self.now }
    {
        is_marked(&self.queued, number)
    }

    /// The first number.
    pub fn first(&self) -> Option<usize>
        ensures { result ≡ slice_get self.now 0 }
    {
        self.queue.front().copied()
    }

    /// Puts a number last, unless it is there.
    pub fn put(&mut self, number: usize) -> Result<(), AllocError>
        ensures ok { OnOk result (self.new ≡ put_in number self.old) }
        ensures err { OnErr result (self.new ≡ self.old) }
    {
        make_room(&mut self.queued, number)?;
        if !self.queued[number] {
            self.queue.push_back(number)?;
            self.queued[number] = true;
        }
        Ok(())
    }

    /// Takes the first number.
    pub fn take(&mut self) -> Option<usize>
        ensures first { result ≡ slice_get self.old 0 }
        ensures rest { self.new ≡ drop 1 self.old }
    {
        let number = self.queue.pop_front()?;
        self.queued[number] = false;
        Some(number)
    }
}

/// Whether a number is marked; one that has no mark isn't.
fn is_marked(marks: &[bool], number: usize) -> bool
    ensures { result ≡ slice_index_or marks.now number false }
{
    number < marks.len() && marks[number]
}

/// Gives a number a mark, where it has none: not marked.
fn make_room(marks: &mut Vec<bool>, number: usize) -> Result<(), AllocError>
    ensures room { OnOk result (number < length marks.new.items) }
    ensures same { (k : ℕ) →
        slice_index_or marks.new.items k false ≡ slice_index_or marks.old.items k false }
{
    while marks.len() <= number {
        marks.push(false)?;
    }
    Ok(())
}
