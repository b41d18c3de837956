//! What a search for bounds has come to.

use crate::trails::Trails;
use search::Outcome;
use search_peaks::Peaks;

/// How far a search goes, and up to which age it tells times.
#[derive(Clone, Copy)]
pub struct Extent {
    /// How many states may be kept.
    pub nodes: usize,
    /// How many visits of states may be made.
    pub visits: u64,
    /// The age up to which times are told, in ticks: one that reaches it may be any.
    pub cap: u32,
}

/// What a search has come to.
#[derive(Drop)]
pub struct Bounds {
    /// Whether all states were visited, and how many.
    pub outcome: Outcome,
    /// The greatest times that were seen, and what has happened in any tick.
    pub peaks: Peaks,
    /// The age up to which times are told, in ticks.
    pub cap: u32,
    /// How the search has come to the peaks, for runs that may show them.
    pub trails: Trails,
}
