//! The labels of two nodes, which are compared and joined.

ghost use Rattle.std.specs.Prelude.{◌≡◌, IfOk, IfSome, IsTrue};
ghost use Rattle.search_labels.specs.Labels.{IsAtLeast};
ghost use Rattle.search_packed.specs.Unpacked.{unpacked};

use crate::raised::Raised;
use law_bounds::labels_are_ordered;
use search_keys::are_equal;
use search_labels::Labels;
use search_packed::ReadLabels;
use std::alloc::{AllocError, Global};

/// Room in which the labels of two nodes are read. Those that were read last stay, as a new node is
/// compared with many.
#[derive(Drop)]
pub struct Comparing {
    one: ReadLabels,
    other: ReadLabels,
    /// The labels that the other node raised when the two were joined.
    pub raised: Option<Raised>,
    /// Whether memory was wanted where that could not be told.
    pub wants_memory: bool,
}

impl Comparing {
    /// Nothing was read yet.
    pub fn new(alloc: Global) -> Self {
        Comparing {
            one: ReadLabels::new(alloc),
            other: ReadLabels::new(alloc),
            raised: None,
            wants_memory: false,
        }
    }

    /// Reads the labels that bytes of two nodes tell.
    pub(crate) fn read(&mut self, one: &[u8], other: &[u8]) -> Result<(), AllocError> {
        self.one.read(one)?;
        self.other.read(other)
    }

    /// Those of the one.
    pub(crate) fn one(&self, bytes: &[u8]) -> Option<&Labels>
        ensures { IfSome result (λ l. unpacked bytes.now ≡ l.now) }
    {
        self.one.of(bytes)
    }

    /// Those of the other.
    pub(crate) fn other(&self, bytes: &[u8]) -> Option<&Labels>
        ensures { IfSome result (λ l. unpacked bytes.now ≡ l.now) }
    {
        self.other.of(bytes)
    }

    /// Whether the labels that bytes tell are at least those that others tell; at true they are.
    /// Want of memory can't be told here, so it is noted.
    pub(crate) fn are_at_least(&mut self, one: &[u8], other: &[u8]) -> bool
        ensures { IsTrue result → IsAtLeast (unpacked one.now) (unpacked other.now) }
    {
        labels_are_ordered();
        if are_equal(one, other) {
            return true;
        }
        match self.read(one, other) {
            Ok(()) => self.tell_at_least(one, other),
            Err(AllocError) => {
                self.wants_memory = true;
                false
            }
        }
    }

    /// The same of those that were read.
    fn tell_at_least(&self, one: &[u8], other: &[u8]) -> bool
        ensures { IsTrue result → IsAtLeast (unpacked one.now) (unpacked other.now) }
    {
        let (Some(labels), Some(others)) = (self.one(one), self.other(other)) else {
            return false;
        };
        labels.is_at_least(others)
    }
}

/// The labels that bytes tell, if any have such bytes.
pub(crate) fn labels_of(alloc: Global, bytes: &[u8]) -> Result<Option<Labels>, AllocError>
    ensures { IfOk result (λ found. IfSome found (λ l. unpacked bytes.now ≡ l)) }
{
    let mut read = ReadLabels::new(alloc);
    read.read(bytes)?;
    Ok(read.into_labels(bytes))
}
