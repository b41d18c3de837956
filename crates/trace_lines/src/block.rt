//! Lines that wait to be written.

ghost use Rattle.std.specs.Prelude.{◌≡◌, ◌+◌, ◌≤◌, [], length, OnOk};
ghost use Rattle.sinks.specs.Sinks.{Passes, Writing};

use crate::text::Text;
use sinks::{Sink, SinkFault, flush};

/// How many bytes a block has room for.
pub(crate) const BLOCK_SIZE: usize = 4096;

/// The room that a record needs at most: its line, a number of blockers, the line's end, and the
/// places that are copied with a short text.
pub(crate) const RECORD_SIZE: usize = 256;

/// The room that the end of a record's line needs of it: a number of blockers, and the line's end.
pub(crate) const END_SIZE: usize = 14;

/// Lines that wait to be written.
pub type Block = sinks::Block<BLOCK_SIZE>;

impl Text for Block {
    ghost use Rattle.trace_lines.specs.declared.block.TheConstants.{BLOCK_SIZE};

    ghost bytes = { λ b. b };

    ghost room = { BLOCK_SIZE };

    #[inline(always)]
    fn push_str(&mut self, piece: &str) {
        self.push_bytes(piece.as_bytes());
    }
}

/// Writes what waits where the next record might find no room.
#[inline(always)]
pub(crate) fn make_room<S: Sink>(text: &mut Block, out: &mut S) -> Result<(), SinkFault>
    ensures room { OnOk result (length text.new + RECORD_SIZE ≤ BLOCK_SIZE) }
    ensures puts { Writing S.taken S.has_failed out.old out.new
        (λ a b. Passes a b text.old text.new []) text.old result }
{
    if text.len() > BLOCK_SIZE - RECORD_SIZE {
        flush(text, out)?;
    }
    Ok(())
}
