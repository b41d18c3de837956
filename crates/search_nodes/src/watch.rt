//! Who watches a search.

use search::Progress;

/// One that is told how far a search has come.
pub trait Watch {
    /// A visit was made, and the nodes that are kept take about so many bytes.
    fn searched(&mut self, progress: Progress, bytes: u64);
}
