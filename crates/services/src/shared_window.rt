//! The words of a resource's window.

ghost use Rattle.std.specs.Prelude.{◌≡◌, ◌%◌, slice_index, slice_set};
ghost use Rattle.osek_base.specs.declared.limits.TheConstants.{SHARED_WORDS};
ghost use Rattle.osek_base.specs.State.{no_shared};

use osek_base::SHARED_WORDS;
use std::marker::Model;

/// The window of a resource, of [`SHARED_WORDS`] words. Contracts see the list of its words.
#[derive(Drop)]
pub struct SharedWindow {
    words: [u32; SHARED_WORDS],
}

impl Model for SharedWindow {
    ghost use Rattle.std.specs.Prelude.{ℕ, List};

    ghost Value = { List ℕ };

    ghost view = { λ w. w.words };
}

impl SharedWindow {
    /// All words are 0.
    pub fn new() -> Self
        ensures { result ≡ no_shared }
    {
        SharedWindow {
            words: [0; SHARED_WORDS],
        }
    }

    /// All words become those of another window.
    pub fn copy_from(&mut self, other: &SharedWindow)
        ensures { self.new ≡ other.now }
    {
        self.words.copy_from_slice(&other.words);
    }

    /// The word at an index, which counts mod [`SHARED_WORDS`].
    pub fn word(&self, index: u32) -> u32
        ensures { result ≡ slice_index self.now (index % SHARED_WORDS) }
    {
        self.words[(index % SHARED_WORDS as u32) as usize]
    }

    /// Writes the word at an index, which counts mod [`SHARED_WORDS`]. All other words stay.
    pub fn store(&mut self, index: u32, new: u32)
        ensures { self.new ≡ slice_set self.old (index % SHARED_WORDS) new }
    {
        self.words[(index % SHARED_WORDS as u32) as usize] = new;
    }
}
