//! Texts that are put together piece by piece.

ghost use Rattle.std.specs.Prelude.{◌≡◌, ℕ, ◌+◌, ◌≤◌, List, ◌++◌, length};

use arrayvec::ArrayString;

/// A text that grows at its end, up to a room that never changes.
pub(crate) trait Text {
    /// The bytes so far.
    ghost bytes: { Self → List ℕ };

    /// How many bytes there is room for.
    ghost room: { ℕ };

    /// Appends a piece.
    fn push_str(&mut self, piece: &str)
        requires { length (bytes self.old) + length piece.now ≤ room }
        ensures { bytes self.new ≡ bytes self.old ++ piece.now };
}

impl<const CAP: usize> Text for ArrayString<CAP> {
    ghost bytes = { λ s. s.bytes };

    ghost room = { CAP };

    fn push_str(&mut self, piece: &str) {
        ArrayString::push_str(self, piece);
    }
}
