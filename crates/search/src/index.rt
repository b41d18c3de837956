//! Numbers by hash, of which nothing is claimed.

use std::alloc::{AllocError, Global};

/// Stands where there is no number.
const NONE: u32 = u32::MAX;

/// How many places there are at first.
const FEW: usize = 16;

/// How many numbers there may be for each place.
const NUMBERS_OF_ONE: usize = 2;

/// Numbers by hash. Those whose hash has one place are a ring, in the order in which they were
/// added. Only numbers below 2^32 - 1 are found.
#[derive(Drop)]
pub struct Index {
    /// By place, the number that was added last.
    last: Vec<u32>,
    /// By number, the one that was added next to its ring; behind the last one stands the first.
    next: Vec<u32>,
    /// By number, its hash in 32 bits.
    hashes: Vec<u32>,
}

/// A hash in 32 bits.
fn short(hash: u64) -> u32 {
    ((hash ^ (hash >> 32)) & 0xffff_ffff) as u32
}

impl Index {
    /// No number.
    pub fn new(alloc: Global) -> Self {
        Index {
            last: Vec::new(alloc),
            next: Vec::new(alloc),
            hashes: Vec::new(alloc),
        }
    }

    /// How many numbers there are.
    pub fn len(&self) -> usize {
        self.hashes.len()
    }

    /// The number of a hash that was added first.
    pub fn first(&self, hash: u64) -> Option<usize> {
        let hash = short(hash);
        let last = self.last_of(hash)?;
        self.found(*self.next.get(last)? as usize, last, hash)
    }

    /// The number that was added next of the hash of another one.
    pub fn after(&self, number: usize) -> Option<usize> {
        let hash = *self.hashes.get(number)?;
        let last = self.last_of(hash)?;
        if number == last {
            return None;
        }
        self.found(*self.next.get(number)? as usize, last, hash)
    }

    /// The first number of a hash in a ring, from one of its numbers on.
    fn found(&self, from: usize, last: usize, hash: u32) -> Option<usize> {
        let mut at = from;
        for _number in 0..self.hashes.len() {
            if *self.hashes.get(at)? == hash {
                return Some(at);
            }
            if at == last {
                return None;
            }
            at = *self.next.get(at)? as usize;
        }
        None
    }

    /// The place of a hash.
    fn place_of(&self, hash: u32) -> Option<usize> {
        (hash as usize).checked_rem(self.last.len())
    }

    /// The last number of the ring that a hash has.
    fn last_of(&self, hash: u32) -> Option<usize> {
        match *self.last.get(self.place_of(hash)?)? {
            NONE => None,
            last => Some(last as usize),
        }
    }

    /// Adds a number to those of a hash: as many as there are.
    pub fn add(&mut self, hash: u64) -> Result<(), AllocError> {
        let number = self.hashes.len();
        self.next.push(NONE)?;
        self.hashes.push(short(hash))?;
        if number >= self.last.len().saturating_mul(NUMBERS_OF_ONE) {
            self.grow()
        } else {
            self.link(number);
            Ok(())
        }
    }

    /// Doubles the places, and makes the rings anew.
    fn grow(&mut self) -> Result<(), AllocError> {
        let places = self.last.len().saturating_mul(2).max(FEW);
        self.last.clear();
        self.last.resize(places, NONE)?;
        for number in 0..self.hashes.len() {
            self.link(number);
        }
        Ok(())
    }

    /// Puts a number last in the ring that its hash has.
    fn link(&mut self, number: usize) {
        let (Some(hash), Ok(new)) = (self.hashes.get(number), u32::try_from(number)) else {
            return;
        };
        let Some(place) = self.place_of(*hash) else {
            return;
        };
        if new == NONE || place >= self.last.len() || number >= self.next.len() {
            return;
        }
        let last = self.last[place];
        self.last[place] = new;
        self.next[number] = new;
        if last != NONE && (last as usize) < self.next.len() {
            self.next[number] = self.next[last as usize];
            self.next[last as usize] = new;
        }
    }
}
