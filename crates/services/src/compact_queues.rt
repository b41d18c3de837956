//! OSEK/VDX OS: task management, scheduling policy. The ready list as one list in the order in which tasks run.

ghost use Rattle.std.specs.Prelude.{◌≡◌, ◌<◌, ◌≤◌, length, drop, take, slice_index_or, true, false};
ghost use Rattle.std.specs.List.{list_any};
ghost use Rattle.std.specs.Vec.{vec_capacity};
ghost use Rattle.services.specs.CompactQueues.{AreLeft, first_level, first_ready, is_below, no_entry, placed};

use crate::copy_queues::CopyQueues;
use crate::ready_entry::ReadyEntry;
use osek_base::TaskId;
use ready_queues::ReadyQueues;
use std::alloc::{AllocError, Global};
use std::marker::Model;

/// The ready tasks with their levels in one list: the highest level first, and of one level the oldest task first. That is
/// the order in which they run. Each call but `top` goes through the list, so that it suits few ready tasks, and what is to be
/// copied often. Contracts see the list, and how many entries there is room for.
#[derive(Drop)]
pub struct CompactQueues {
    entries: Vec<ReadyEntry>,
    room: usize,
}

impl Model for CompactQueues {
    ghost use Rattle.std.specs.Vec.{vec_capacity};
    ghost use Rattle.services.specs.CompactQueues.{Entries, IsCompact};

    ghost Value = { Entries };

    ghost view = { λ q. record { entries = q.entries.items; room = q.room } };

    ghost invariant = { λ q. IsCompact q.entries.items q.room (vec_capacity q.entries) };
}

impl CompactQueues {
    /// The ready tasks with their levels, in the order in which they run.
    pub fn entries(&self) -> &[ReadyEntry]
        ensures { result.now ≡ self.now.entries }
    {
        &self.entries
    }
}

impl ReadyQueues for CompactQueues {
    ghost use Rattle.services.specs.CompactQueues.{tasks_at};

    ghost queues = { λ q. tasks_at q.entries };

    ghost room = { λ q. q.room };

    fn with_room(alloc: Global, count: usize) -> Result<Self, AllocError> {
        Ok(CompactQueues {
            entries: Vec::with_capacity(alloc, count)?,
            room: count,
        })
    }

    fn has_room(&self) -> bool {
        self.entries.len() < self.room
    }

    fn top(&self) -> Option<u8> {
        first_level(&self.entries)
    }

    fn put_newest(&mut self, level: u8, task: TaskId) {
        put(&mut self.entries, level, ReadyEntry { level, task });
    }

    fn put_oldest(&mut self, level: u8, task: TaskId) {
        put(&mut self.entries, level + 1, ReadyEntry { level, task });
    }

    fn take_first(&mut self) -> Option<TaskId> {
        let first = first_ready(&self.entries);
        drop_first(&mut self.entries);
        first
    }
}

impl CopyQueues for CompactQueues {
    fn copy_from(&mut self, other: &Self) {
        replace(&mut self.entries, &other.entries);
    }
}

/// The level of the first entry.
fn first_level(entries: &[ReadyEntry]) -> Option<u8>
    ensures { result ≡ first_level entries.now }
{
    match entries.split_first() {
        None => None,
        Some((first, _)) => Some(first.level),
    }
}

/// The task of the first entry.
fn first_ready(entries: &[ReadyEntry]) -> Option<TaskId>
    ensures { result ≡ first_ready entries.now }
{
    match entries.split_first() {
        None => None,
        Some((first, _)) => Some(first.task),
    }
}

/// Takes the first entry out, if there is one.
fn drop_first(entries: &mut Vec<ReadyEntry>)
    ensures { AreLeft (drop 1 entries.old.items) entries.new.items (vec_capacity entries.old)
        (vec_capacity entries.new) }
{
    if !entries.is_empty() {
        entries.remove(0);
    }
}

/// Adds an entry before the first one of a level below `from`.
fn put(entries: &mut Vec<ReadyEntry>, from: u8, entry: ReadyEntry)
    requires { length entries.old.items < vec_capacity entries.old }
    ensures { AreLeft (placed from entry entries.old.items) entries.new.items
        (vec_capacity entries.old) (vec_capacity entries.new) }
{
    let place = place_below(entries, from);
    match entries.insert(place, entry) {
        Ok(()) => {}
        Err(_) => unreachable!(),
    }
}

/// The place of the first entry of a level below `from`, or else the length.
fn place_below(entries: &[ReadyEntry], from: u8) -> usize
    ensures low { result ≤ length entries.now }
    ensures before { list_any (is_below from) (take result entries.now) ≡ false }
    ensures here { result < length entries.now
        → is_below from (slice_index_or entries.now result no_entry) ≡ true }
{
    for place in 0..entries.len() {
        let entry = &entries[place];
        if entry.level < from {
            return place;
        }
    }
    entries.len()
}

/// The content becomes some entries, for which there is room.
fn replace(entries: &mut Vec<ReadyEntry>, others: &[ReadyEntry])
    requires { length others.now ≤ vec_capacity entries.old }
    ensures { AreLeft others.now entries.new.items (vec_capacity entries.old)
        (vec_capacity entries.new) }
{
    entries.clear();
    match entries.extend_from_slice(others) {
        Ok(()) => {}
        Err(_) => unreachable!(),
    }
}
