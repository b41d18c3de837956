//! Graphs of nodes: where runs come to, and the ways between.

use crate::node::Node;
use crate::outcome::Start;
use osek_base::Status;

/// A way on from a node: one thing that may become of who executes there.
#[derive(Drop)]
pub struct Way {
    /// How a service is answered, if not E_OK.
    pub refusal: Option<Status>,
    pub start: Start,
    /// The numbers of the nodes that cover where it may stand then.
    pub next: Vec<usize>,
}

/// The ways on from a node.
#[derive(Drop)]
pub struct Links {
    pub ways: Vec<Way>,
    /// Where the node waits, the number of the node at which it goes on.
    pub woken: Option<usize>,
}

/// Nodes, and by the number of each the ways on from it.
#[derive(Drop)]
pub struct Graph {
    pub nodes: Vec<Node>,
    pub links: Vec<Links>,
}
