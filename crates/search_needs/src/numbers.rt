//! Sets of numbers below 64.

ghost use Rattle.std.specs.Prelude.{ℕ, ◌≡◌, ◌≤◌, ◌<◌, nat_lt, IsTrue};
ghost use Rattle.search_needs.specs.Table.{has};

use std::marker::Model;

/// A set of numbers below 64: a word whose bit n is set exactly where n is in it. Contracts see the
/// word.
#[derive(Clone, Copy)]
pub struct Numbers {
    word: u64,
}

impl Model for Numbers {
    ghost use Rattle.std.specs.Prelude.{ℕ};

    ghost Value = { ℕ };

    ghost view = { λ n. n.word };

    ghost inverse = { λ w. record { word = w } };
}

impl Numbers {
    /// The numbers below `count`, which is at most 64.
    pub(crate) fn below(count: usize) -> Self
        requires { count ≤ 64 }
        ensures { (n : ℕ) → has result n ≡ nat_lt n count }
    {
        if count == 64 {
            return Numbers { word: u64::MAX };
        }
        Numbers {
            word: (1 << count) - 1,
        }
    }

    /// As a word whose bit n is set exactly where n is in it.
    #[inline(always)]
    pub(crate) fn bits(self) -> u64
        ensures { result ≡ self }
    {
        self.word
    }

    /// Whether a number is in it.
    #[inline(always)]
    pub(crate) fn has(self, number: u8) -> bool
        requires { number < 64 }
        ensures { result ≡ has self number }
    {
        (self.word >> number) % 2 == 1
    }

    /// Whether no number is in it; at true none is.
    pub(crate) fn is_empty(self) -> bool
        ensures { IsTrue result → (n : ℕ) → IsTrue (has self n) → ⊥ }
    {
        self.word == 0
    }

    /// Whether all of its numbers are in `other`; at true they are.
    pub(crate) fn is_within(self, other: Numbers) -> bool
        ensures { IsTrue result → (n : ℕ) → IsTrue (has self n) → IsTrue (has other n) }
    {
        self.word | other.word == other.word
    }

    /// Whether none of its numbers is in `other`; at true none is.
    pub(crate) fn is_apart(self, other: Numbers) -> bool
        ensures { IsTrue result → (n : ℕ) → IsTrue (has self n) → IsTrue (has other n) → ⊥ }
    {
        self.word & other.word == 0
    }

    /// A number more.
    pub(crate) fn add(&mut self, number: u8)
        requires { number < 64 }
    {
        self.word |= 1 << number;
    }

    /// All numbers of another set more.
    pub(crate) fn add_all(&mut self, other: Numbers) {
        self.word |= other.word;
    }
}
