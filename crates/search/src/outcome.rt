//! What a search comes to.

/// How far a search may go.
#[derive(Clone, Copy)]
pub struct Limits {
    /// How many nodes may be kept.
    pub nodes: usize,
    /// How many visits may be made. A node is visited once, and once more whenever it was opened
    /// again.
    pub visits: u64,
}

/// How far a search came.
#[derive(Clone, Copy, PartialEq, Eq)]
pub struct Progress {
    /// How many nodes are kept.
    pub nodes: usize,
    /// How many of them are open: still to be visited, or to be visited again.
    pub open_nodes: usize,
    /// How many visits were made to their end.
    pub visits: u64,
    /// How many choices were tried; `u64::MAX` stands for that and more.
    pub steps: u64,
    /// For how many steps from the beginning all that can come was tried.
    pub levels: u64,
}

/// Why a search stopped.
#[derive(Clone, Copy, PartialEq, Eq)]
pub enum Obstacle {
    /// As many nodes are kept as may be, and one more would be needed.
    Nodes,
    /// As many visits were made as may be.
    Visits,
    /// What comes of a node can't be kept: there was no node for it.
    NoPlace,
}

/// What a search comes to.
#[derive(Clone, Copy, PartialEq, Eq)]
pub enum Outcome {
    /// The nodes that are kept stand for all that can come, and what is seen is noted.
    Decided(Progress),
    /// It stopped before.
    Undecided(Obstacle, Progress),
}
