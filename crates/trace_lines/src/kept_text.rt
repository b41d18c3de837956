//! Texts that are made once and written often.

ghost use Rattle.std.specs.Prelude.{◌≡◌, ◌+◌, ◌≤◌, ◌++◌, length, IfOk};

use crate::block::{BLOCK_SIZE, Block};
use crate::short_text::ShortText;
use std::alloc::{AllocError, Global};
use std::marker::Model;

/// How many bytes of a text are copied at once, which most texts don't exceed.
const FRONT_SIZE: usize = 48;

/// A text that is kept. Seen as its bytes.
#[derive(Drop)]
pub(crate) struct KeptText {
    front: ShortText<FRONT_SIZE>,
    /// What of the text is longer than `front`.
    rest: Vec<u8>,
}

impl Model for KeptText {
    ghost use Rattle.std.specs.Prelude.{◌++◌, ℕ, List};

    ghost Value = { List ℕ };

    ghost view = { λ t. t.front ++ t.rest.items };
}

impl KeptText {
    /// A copy of some bytes.
    pub fn of(alloc: Global, bytes: &[u8]) -> Result<Self, AllocError>
        ensures { IfOk result (λ t. t ≡ bytes.now) }
    {
        let (front, rest) = bytes.split_at(bytes.len().min(FRONT_SIZE));
        let mut kept = Vec::new(alloc);
        kept.extend_from_slice(rest)?;
        Ok(KeptText {
            front: ShortText::of(front),
            rest: kept,
        })
    }

    /// Appends the text.
    #[inline(always)]
    pub fn push_to(&self, text: &mut Block)
        requires { length text.old + length self.now + 64 ≤ BLOCK_SIZE }
        ensures { text.new ≡ text.old ++ self.now }
    {
        text.push_front(self.front.cells(), self.front.len());
        if !self.rest.is_empty() {
            text.push_bytes(&self.rest);
        }
    }
}
