//! Numbers of nodes by hash, of which nothing is claimed.

use crate::node::Node;
use osek_base::{Owner, ResId};
use std::alloc::{AllocError, Global};

/// Stands where there is no number.
const NONE: u32 = u32::MAX;

/// How many places there are for hashes. All indices have as many: a node that was left out since
/// another one at its place covers it is found covered by that one in each index.
const PLACES: usize = 131_072;

/// Numbers by hash. Those whose hash has one place are a chain, the last one first. Only numbers
/// below 2^32 - 1 are found.
#[derive(Drop)]
pub(crate) struct Index {
    /// By place, the number that was added last.
    last: Vec<u32>,
    /// By number, the one of its place that was added before it.
    before: Vec<u32>,
}

/// A number that is found, if it is one.
fn found(number: u32) -> Option<usize> {
    if number == NONE {
        None
    } else {
        Some(number as usize)
    }
}

impl Index {
    /// No number.
    pub(crate) fn new(alloc: Global) -> Result<Self, AllocError> {
        let mut last = Vec::new(alloc);
        last.resize(PLACES, NONE)?;
        Ok(Index {
            last,
            before: Vec::new(alloc),
        })
    }

    /// How many numbers there are.
    pub(crate) fn len(&self) -> usize {
        self.before.len()
    }

    /// The place of a hash, if there is any.
    fn place_of(&self, hash: u64) -> Option<usize> {
        ((hash ^ (hash >> 32)) as usize).checked_rem(self.last.len())
    }

    /// The last number at the place of a hash.
    pub(crate) fn first(&self, hash: u64) -> Option<usize> {
        found(*self.last.get(self.place_of(hash)?)?)
    }

    /// The number before another one at its place.
    pub(crate) fn after(&self, number: usize) -> Option<usize> {
        found(*self.before.get(number)?)
    }

    /// Adds a number at the place of a hash: as many as there are.
    pub(crate) fn add(&mut self, hash: u64) -> Result<(), AllocError> {
        let number = u32::try_from(self.before.len()).unwrap_or(NONE);
        if let Some(place) = self.place_of(hash) {
            return self.link(place, number);
        }
        self.before.push(NONE)?;
        Ok(())
    }

    /// Puts a number first at a place.
    fn link(&mut self, place: usize, number: u32) -> Result<(), AllocError> {
        if place >= self.last.len() {
            self.before.push(NONE)?;
            return Ok(());
        }
        let last = self.last[place];
        self.before.push(last)?;
        self.last[place] = number;
        Ok(())
    }
}

/// A hash with one value more.
fn mixed(hash: u64, value: u64) -> u64 {
    let more = (hash ^ value).wrapping_mul(0x9e37_79b9_7f4a_7c15);
    more ^ (more >> 29)
}

/// A value that may not be known, as a number.
fn optional(value: Option<u32>) -> u64 {
    match value {
        None => u64::MAX,
        Some(value) => u64::from(value),
    }
}

fn owner_hash(owner: Owner) -> u64 {
    match owner {
        Owner::Task(task) => u64::from(task.number()),
        Owner::Routine(routine) => 256 + u64::from(routine.number()),
    }
}

fn resource_hash(resource: &ResId) -> u64 {
    match resource {
        ResId::Declared(number) => u64::from(number.number()),
        ResId::Scheduler => 256,
    }
}

/// A hash of all of a node but its registers and used events.
pub(crate) fn hash_beside(node: &Node) -> u64 {
    let mut hash = mixed(owner_hash(node.owner), u64::from(node.place));
    hash = mixed(hash, u64::from(node.switch.suspended_all));
    hash = mixed(hash, u64::from(node.switch.suspended_os));
    hash = mixed(hash, if node.switch.disabled { 1 } else { 0 });
    for resource in &node.held {
        hash = mixed(hash, resource_hash(resource));
    }
    mixed(hash, optional(node.waits_for))
}

/// A hash of a node.
pub(crate) fn hash_of(node: &Node) -> u64 {
    let mut hash = mixed(hash_beside(node), u64::from(node.used));
    for register in &node.registers {
        hash = mixed(hash, optional(*register));
    }
    hash
}
