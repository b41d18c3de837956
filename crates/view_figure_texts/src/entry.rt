//! Figures with their words.

ghost use Rattle.std.specs.Prelude.{◌≡◌};
ghost use Rattle.view_figure_texts.specs.Sections.{counted, told};

use crate::cells::Cell;
use crate::words::Word;

/// A figure of an object, and its word.
#[derive(Clone, Copy)]
pub struct Entry {
    pub word: Word,
    pub cell: Cell,
}

impl Entry {
    /// A figure of any form.
    pub fn new(word: Word, cell: Cell) -> Self
        ensures { result ≡ told word cell }
    {
        Entry { word, cell }
    }

    /// A count.
    pub fn count(word: Word, count: u32) -> Self
        ensures { result ≡ counted word count }
    {
        Entry::new(word, Cell::Count(count))
    }
}
