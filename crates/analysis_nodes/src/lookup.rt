//! Nodes that cover another one, found by hash.

ghost use Rattle.std.specs.Prelude.{◌<◌, IfSome, IsTrue, length, map};
ghost use Rattle.analysis_nodes.specs.Graph.{IsCoveredBy};
ghost use Rattle.analysis_nodes.specs.Nodes.{node_by};

use crate::covering::{covers, is_beside};
use crate::index::{Index, hash_beside, hash_of};
use crate::node::Node;

/// Whether the node of a number covers that one.
fn covers_at(nodes: &[Node], at: usize, node: &Node) -> bool
    ensures { IsTrue result → IsCoveredBy (map node_by nodes.now) at (node_by node.now) }
{
    if at >= nodes.len() {
        return false;
    }
    let candidate = &nodes[at];
    covers(candidate, node)
}

/// The number of a node that covers that one, of those at the place of a hash.
pub(crate) fn covering_among(nodes: &[Node], index: &Index, hash: u64, node: &Node) -> Option<usize>
    ensures { IfSome result
        (λ number. IsCoveredBy (map node_by nodes.now) number (node_by node.now)) }
{
    let mut at = index.first(hash)?;
    for _step in 0..index.len() {
        if covers_at(nodes, at, node) {
            return Some(at);
        }
        at = index.after(at)?;
    }
    None
}

/// The number of a node that covers that one: one that has the same registers and used events, or
/// else one whose hash leaves them out.
pub(crate) fn covered_by(nodes: &[Node], index: &Index, node: &Node) -> Option<usize>
    ensures { IfSome result
        (λ number. IsCoveredBy (map node_by nodes.now) number (node_by node.now)) }
{
    match covering_among(nodes, index, hash_of(node), node) {
        Some(number) => Some(number),
        None => covering_among(nodes, index, hash_beside(node), node),
    }
}

/// The number of a node that is the same as that one but for registers and used events, of those at
/// the place of its hash.
pub(crate) fn beside_among(nodes: &[Node], index: &Index, hash: u64, node: &Node) -> Option<usize>
    ensures { IfSome result (λ number. number < length nodes.now) }
{
    let mut at = index.first(hash)?;
    for _step in 0..index.len() {
        if at >= nodes.len() {
            return None;
        }
        let candidate = &nodes[at];
        if is_beside(candidate, node) {
            return Some(at);
        }
        at = index.after(at)?;
    }
    None
}
