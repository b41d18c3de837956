//! What a search keeps of a state.

ghost use Rattle.std.specs.Prelude.{◌≡◌, ◌==◌, ◌≤◌, IfOk, IfSome, IsFalse, IsTrue, OnOk, drop, length, take};
ghost use Rattle.search_packed.specs.Unpacked.{unpacked};
ghost use Rattle.law_bounds.specs.Nodes.{Covers};

use crate::bytes::{behind, copy_of, first_of};
use crate::comparing::{Comparing, labels_of};
use crate::raised::Raised;
use osek_base::System;
use search_keys::are_equal;
use search_labels::Labels;
use search_packed::{pack, packed_are_told};
use std::alloc::{AllocError, Global};
use std::marker::Model;
use std::mem;

/// What a node takes beside the bytes of its key and its labels, about: itself, its block, its
/// entry of the trail, and its places among hashes and open nodes.
const BYTES_BESIDE: u64 = 88;

/// In place of the number of an entry, where there is none.
const NONE: u32 = u32::MAX;

/// In place of that of a machine, where the run is over in the state: it is never ticked.
const OVER: u16 = u16::MAX;

/// And where there is no machine.
const NO_MACHINE: u16 = u16::MAX - 1;

/// The key of a state, whether the run is over in it, and its labels. Contracts see nothing of how
/// its machine is made again.
#[derive(Drop)]
pub struct Node {
    /// The key, and the labels behind it.
    bytes: Vec<u8>,
    /// The entry that tells how it came to be, once it is kept.
    entry: u32,
    /// How many bytes the key has.
    key_len: u16,
    /// The place of the machine from which its own is made, while it is open; or that the run is
    /// over. A byte more would make each node eight bytes longer.
    base: u16,
}

impl Model for Node {
    ghost use Rattle.std.specs.Prelude.{◌==◌, ◌≤◌, drop, length, take};
    ghost use Rattle.search_packed.specs.Unpacked.{unpacked};
    ghost use Rattle.law_bounds.specs.Nodes.{Node as Kept};
    ghost use Rattle.search_nodes.specs.declared.node.TheConstants.{OVER};

    ghost Value = { Kept };

    ghost view = { λ n. record {
      key = take n.key_len n.bytes.items;
      over = n.base == OVER;
      labels = unpacked (drop n.key_len n.bytes.items);
    } };

    ghost invariant = { λ n. n.key_len ≤ length n.bytes.items };
}

/// What stands in place of a machine's, in a state in which the run is over or not.
fn no_machine(is_over: bool) -> u16
    ensures { (result == OVER) ≡ is_over }
{
    if is_over { OVER } else { NO_MACHINE }
}

/// The place of a machine as it is kept. One that doesn't fit isn't, and where the run is over
/// none.
fn place_of(place: usize, is_over: bool) -> u16
    ensures { (result == OVER) ≡ is_over }
{
    if is_over || place >= NO_MACHINE as usize {
        return no_machine(is_over);
    }
    u16::try_from(place).unwrap_or(NO_MACHINE)
}

/// A number as it is kept. One that doesn't fit isn't.
fn short(number: usize) -> u32 {
    u32::try_from(number).unwrap_or(NONE)
}

/// Whether the ages of two nodes of one state can stand beside each other: where interrupts can
/// arrive as soon in both, or the other stands for all that the one does.
fn go_together(labels: &Labels, others: &Labels) -> bool {
    labels.has_same_debts(others) || others.is_at_least(labels)
}

/// Which labels others raise, where interrupts can arrive as soon in both. Else the others take
/// their place.
fn raised_by(system: &System, labels: &Labels, others: &Labels) -> Option<Raised> {
    if labels.has_same_debts(others) {
        Some(Raised::by(system, labels, others))
    } else {
        None
    }
}

impl Node {
    /// One of so many bytes of a key and those of labels behind them; none where the key has 2^16
    /// bytes or more.
    pub fn new(bytes: Vec<u8>, key_len: usize, is_over: bool) -> Option<Self>
        requires { key_len ≤ length bytes.items }
        ensures key { IfSome result (λ n. n.key ≡ take key_len bytes.items) }
        ensures over { IfSome result (λ n. n.over ≡ is_over) }
        ensures labels { IfSome result (λ n. n.labels ≡ unpacked (drop key_len bytes.items)) }
    {
        let Ok(key_len) = u16::try_from(key_len) else {
            return None;
        };
        Some(Node {
            bytes,
            entry: NONE,
            key_len,
            base: no_machine(is_over),
        })
    }

    /// Its bytes, of a node that isn't needed.
    pub fn into_bytes(self) -> Vec<u8> {
        self.bytes
    }

    /// It has room for its bytes and no more, as it has where it was kept before. Answers the room
    /// in which they were, if that is another one.
    pub fn fit(&mut self, alloc: Global) -> Result<Vec<u8>, AllocError>
        ensures { self.new ≡ self.old }
    {
        if self.entry != NONE {
            return Ok(Vec::new(alloc));
        }
        let bytes = copy_of(alloc, &self.bytes)?;
        Ok(mem::replace(&mut self.bytes, bytes))
    }

    /// The bytes of its state's key.
    pub fn key(&self) -> &[u8]
        ensures { result.now ≡ self.now.key }
    {
        first_of(&self.bytes, self.key_len as usize)
    }

    /// The bytes of its labels.
    pub fn packed(&self) -> &[u8]
        ensures { unpacked result.now ≡ self.now.labels }
    {
        behind(&self.bytes, self.key_len as usize)
    }

    /// Whether the run is over in its state.
    pub fn is_over(&self) -> bool
        ensures { result ≡ self.now.over }
    {
        self.base == OVER
    }

    /// The entry that tells how it came to be, once it is kept.
    pub fn entry(&self) -> Option<usize> {
        if self.entry == NONE {
            None
        } else {
            Some(self.entry as usize)
        }
    }

    /// The place of the machine from which its own is made, while it is open.
    pub fn base(&self) -> Option<usize> {
        if self.base < NO_MACHINE {
            Some(self.base as usize)
        } else {
            None
        }
    }

    /// It is kept: an entry tells how it came to be, and its machine is made from that at a place.
    pub fn keep(&mut self, entry: usize, base: usize)
        ensures { self.new ≡ self.old }
    {
        self.entry = short(entry);
        self.base = place_of(base, self.is_over());
    }

    /// It was visited, and needs no machine more.
    pub fn close(&mut self)
        ensures { self.new ≡ self.old }
    {
        self.base = no_machine(self.is_over());
    }

    /// Whether two are of one state, but for their labels.
    fn is_of_same(&self, other: &Node) -> bool
        ensures key { IsTrue result → self.now.key ≡ other.now.key }
        ensures over { IsTrue result → self.now.over ≡ other.now.over }
    {
        self.is_over() == other.is_over() && are_equal(self.key(), other.key())
    }

    /// Whether it stands for all that another one stands for.
    pub fn covers(&self, other: &Node, comparing: &mut Comparing) -> bool
        ensures { IsTrue result → Covers self.now other.now }
    {
        self.is_of_same(other) && comparing.are_at_least(self.packed(), other.packed())
    }

    /// It has other labels.
    fn put_labels(&mut self, alloc: Global, labels: &Labels) -> Result<(), AllocError>
        ensures { OnOk result (self.new ≡ record self.old { labels = labels.now }) }
    {
        packed_are_told();
        let mut bytes = copy_of(alloc, self.key())?;
        pack(labels, &mut bytes)?;
        self.bytes = copy_of(alloc, &bytes)?;
        Ok(())
    }

    /// Makes it stand for all that another one stands for too, where both are of one state, and
    /// answers whether that could be done: where interrupts can arrive as soon in both, or the
    /// other stands for all that this one does. With the waits of one and the ages of another,
    /// interrupts would come sooner than they can.
    pub fn join(
        &mut self,
        alloc: Global,
        system: &System,
        other: &Node,
        comparing: &mut Comparing,
    ) -> Result<bool, AllocError>
        ensures both { IfOk result (λ done. IsTrue done →
            Covers self.new self.old × Covers self.new other.now) }
        ensures same { IfOk result (λ done. IsFalse done → self.new ≡ self.old) }
    {
        if !self.is_of_same(other) {
            return Ok(false);
        }
        comparing.read(self.packed(), other.packed())?;
        let Some(own) = comparing.one(self.packed()) else {
            return Ok(false);
        };
        let Some(others) = comparing.other(other.packed()) else {
            return Ok(false);
        };
        if !go_together(own, others) {
            return Ok(false);
        }
        let raised = raised_by(system, own, others);
        let Some(mut labels) = labels_of(alloc, self.packed())? else {
            return Ok(false);
        };
        if !labels.join(others)? {
            return Ok(false);
        }
        self.put_labels(alloc, &labels)?;
        comparing.raised = raised;
        Ok(true)
    }

    /// How many bytes it and others take, about, where it is kept that wasn't before.
    pub fn size_with(&self, others: u64) -> u64 {
        if self.entry == NONE {
            let own = BYTES_BESIDE.saturating_add(self.bytes.len() as u64);
            others.saturating_add(own)
        } else {
            others
        }
    }

    /// A number that goes by the key.
    pub fn hash(&self) -> u64 {
        hash_of(self.key())
    }
}

/// An odd factor, whose bits are those of the golden ratio.
const FACTOR: u64 = 0x9e37_79b9_7f4a_7c15;

/// Fewer than eight bytes as a number.
fn word_of(bytes: &[u8]) -> u64 {
    let mut word = 0u64;
    for byte in bytes {
        word = (word << 8) | u64::from(*byte);
    }
    word
}

/// A number that goes by another one and a word: a rotation, an exclusive or and a product.
#[inline(always)]
fn mixed(hash: u64, word: u64) -> u64 {
    let turned = (hash << 5) | (hash >> 59);
    (turned ^ word).wrapping_mul(FACTOR)
}

/// A number that goes by another one and by bytes, eight at a time.
fn hash_behind(hash: u64, bytes: &[u8]) -> u64 {
    match bytes.split_first_chunk::<8>() {
        Some((word, rest)) => hash_behind(mixed(hash, u64::from_le_bytes(*word)), rest),
        None => mixed(hash, word_of(bytes)),
    }
}

/// A number that goes by bytes.
fn hash_of(bytes: &[u8]) -> u64 {
    let hash = hash_behind(0, bytes);
    (hash ^ (hash >> 32)).wrapping_mul(FACTOR)
}
