//! The words of the windows.

ghost use Rattle.std.specs.Prelude.{◌≡◌, ◌<◌, ◌+◌, ◌*◌, ℕ, IsTrue};
ghost use Rattle.osek_base.specs.declared.ids.Owner.{Owner};
ghost use Rattle.osek_base.specs.State.{with_word};
ghost use Rattle.machine.specs.Windows.{word, window_of, has_window};

use osek_base::{MAX_ROUTINES, MAX_TASKS, Owner, WINDOW_WORDS};
use std::marker::Model;

/// How many windows there are.
const WINDOWS: usize = MAX_TASKS + MAX_ROUTINES;

/// How many words there are in all windows.
const ALL_WORDS: usize = WINDOWS * WINDOW_WORDS;

/// A window of [`WINDOW_WORDS`] words for each task and each routine that there may be: of all windows the words of one index
/// stand side by side, so that the few words that programs use stand at the front. Contracts see the word of an owner at an
/// index.
#[derive(Drop)]
pub struct Windows {
    words: [u32; ALL_WORDS],
    /// How many of the words are copied: from there on all are 0.
    used: usize,
}

impl Model for Windows {
    ghost use Rattle.std.specs.Prelude.{ℕ, List, ◌≤◌};
    ghost use Rattle.machine.specs.Windows.{IsBlankFrom};
    ghost use Rattle.machine.specs.declared.windows.TheConstants.{ALL_WORDS};

    ghost Value = { List ℕ };

    ghost view = { λ w. w.words };

    ghost invariant = { λ w. (w.used ≤ ALL_WORDS) × IsBlankFrom w.used w.words };
}

impl Windows {
    /// All words are 0.
    pub fn new() -> Self
        ensures { (o : Owner) (i : ℕ) → word result o i ≡ 0 }
    {
        Windows {
            words: [0; ALL_WORDS],
            used: 0,
        }
    }

    /// The word of an owner at an index of its window.
    pub fn word(&self, owner: Owner, index: u8) -> u32
        requires { index < WINDOW_WORDS }
        ensures { result ≡ word self.now owner index }
    {
        self.words[position(owner, index)]
    }

    /// Writes the word of an owner at an index of its window. All other words stay.
    pub fn store(&mut self, owner: Owner, index: u8, new: u32)
        requires { index < WINDOW_WORDS }
        ensures { (o : Owner) (i : ℕ)
            → word self.new o i ≡ with_word (word self.old) owner index new o i }
    {
        let position = position(owner, index);
        self.words[position] = new;
        if self.used <= position {
            self.used = position + 1;
        }
    }

    /// All words become those of other windows.
    pub fn copy_from(&mut self, other: &Windows)
        ensures { self.new ≡ other.now }
    {
        let used = self.used.max(other.used);
        self.words[..used].copy_from_slice(&other.words[..used]);
        self.used = other.used;
    }
}

/// Where a word stands among all.
fn position(owner: Owner, index: u8) -> usize
    requires { index < WINDOW_WORDS }
    ensures value { result ≡ index * WINDOWS + window_of owner }
    ensures owner { IsTrue (has_window owner) }
    ensures low { result < ALL_WORDS }
{
    let window = match owner {
        Owner::Task(task) => task.number(),
        Owner::Routine(routine) => MAX_TASKS as u8 + routine.number(),
    };
    index as usize * WINDOWS + window as usize
}
