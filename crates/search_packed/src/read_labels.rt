//! Labels that bytes tell.

ghost use Rattle.std.specs.Prelude.{◌≡◌, IfSome};
ghost use Rattle.search_packed.specs.Unpacked.{unpacked};

use crate::laws::packed_are_told;
use crate::packing::pack;
use crate::reading::read_into;
use search_keys::are_equal;
use search_labels::Labels;
use std::alloc::{AllocError, Global};
use std::marker::Model;

/// The labels that were read last, in room that is used again. Contracts see nothing of which these
/// are.
#[derive(Drop)]
pub struct ReadLabels {
    labels: Labels,
    /// Their bytes, once they are known.
    bytes: Vec<u8>,
    is_known: bool,
}

impl Model for ReadLabels {
    ghost use Rattle.std.specs.Prelude.{◌≡◌, true};
    ghost use Rattle.search_packed.specs.Packed.{packed};

    ghost Value = { Unit {0} };

    ghost view = { λ r. tt };

    ghost invariant = { λ r. r.is_known ≡ true → r.bytes.items ≡ packed r.labels };
}

impl ReadLabels {
    /// None were read yet.
    pub fn new(alloc: Global) -> Self {
        ReadLabels {
            labels: Labels::new(alloc),
            bytes: Vec::new(alloc),
            is_known: false,
        }
    }

    /// Whether bytes were read last.
    #[inline(always)]
    fn has_read(&self, bytes: &[u8]) -> bool {
        self.is_known && are_equal(&self.bytes, bytes)
    }

    /// Reads bytes in place of those that were read last.
    #[inline(never)]
    fn read_anew(&mut self, bytes: &[u8]) -> Result<(), AllocError> {
        self.is_known = false;
        read_into(&mut self.labels, bytes)?;
        self.bytes.clear();
        pack(&self.labels, &mut self.bytes)?;
        self.is_known = true;
        Ok(())
    }

    /// Reads bytes, unless they were read last. An error is that there is no memory.
    #[inline(always)]
    pub fn read(&mut self, bytes: &[u8]) -> Result<(), AllocError> {
        if self.has_read(bytes) {
            return Ok(());
        }
        self.read_anew(bytes)
    }

    /// The labels that bytes tell; none where others were read last, or where no labels have such
    /// bytes.
    pub fn of(&self, bytes: &[u8]) -> Option<&Labels>
        ensures { IfSome result (λ l. unpacked bytes.now ≡ l.now) }
    {
        packed_are_told();
        if !self.is_known || !are_equal(&self.bytes, bytes) {
            return None;
        }
        Some(&self.labels)
    }

    /// The same, to keep.
    pub fn into_labels(self, bytes: &[u8]) -> Option<Labels>
        ensures { IfSome result (λ l. unpacked bytes.now ≡ l) }
    {
        packed_are_told();
        if !self.is_known || !are_equal(&self.bytes, bytes) {
            return None;
        }
        Some(self.labels)
    }
}
