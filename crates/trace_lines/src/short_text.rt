//! Short texts in places of their own.

ghost use Rattle.std.specs.Prelude.{◌≡◌, ◌<◌, ◌≤◌, length, slice_set, take};

use std::marker::Model;

/// At most `N` bytes, which lie in the value itself. Seen as their list.
#[derive(Drop)]
pub(crate) struct ShortText<const N: usize> {
    cells: [u8; N],
    len: usize,
}

impl<const N: usize> Model for ShortText<N> {
    ghost use Rattle.std.specs.Prelude.{◌≡◌, ◌≤◌, ℕ, List, length, take};

    ghost Value = { List ℕ };

    ghost view = { λ t. take t.len t.cells };

    ghost invariant = { λ t. (t.len ≤ N) × (length t.cells ≡ N) };
}

impl<const N: usize> ShortText<N> {
    /// A copy of some bytes.
    pub fn of(bytes: &[u8]) -> Self
        requires { length bytes.now ≤ N }
        ensures { result ≡ bytes.now }
    {
        let mut cells = [0; N];
        cells[..bytes.len()].copy_from_slice(bytes);
        ShortText {
            cells,
            len: bytes.len(),
        }
    }

    /// The number of bytes.
    #[inline(always)]
    pub fn len(&self) -> usize
        ensures value { result ≡ length self.now }
        ensures fits { result ≤ N }
    {
        self.len
    }

    /// Puts a byte in place of the one at an index.
    #[inline(always)]
    pub fn set(&mut self, index: usize, byte: u8)
        requires { index < length self.old }
        ensures { self.new ≡ slice_set self.old index byte }
    {
        self.cells[index] = byte;
    }

    /// The bytes, and behind them what else the places have.
    #[inline(always)]
    pub fn cells(&self) -> &[u8; N]
        ensures { take (length self.now) result.now ≡ self.now }
    {
        &self.cells
    }
}
