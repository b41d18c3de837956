//! Lists of a description.

use crate::node::Node;
use std::alloc::{AllocError, Global};

/// The number for a list that isn't there: no node has it.
pub const NO_LIST: usize = usize::MAX;

/// The number of the first node behind those that stand in one.
pub fn behind(nodes: &[Node], at: usize, depth: usize) -> usize {
    let from = at.saturating_add(1);
    for number in from..nodes.len() {
        if let Some(node) = nodes.get(number) {
            if node.depth <= depth {
                return number;
            }
        }
    }
    nodes.len()
}

/// The values of a list.
pub fn items<'a>(alloc: Global, nodes: &'a [Node], at: usize) -> Result<Vec<&'a Node>, AllocError> {
    let mut found = Vec::new(alloc);
    let Some(list) = nodes.get(at) else {
        return Ok(found);
    };
    let depth = list.depth.saturating_add(1);
    for number in at.saturating_add(1)..behind(nodes, at, list.depth) {
        if let Some(node) = nodes.get(number) {
            if node.depth == depth {
                found.push(node)?;
            }
        }
    }
    Ok(found)
}

/// The names in a list.
pub fn names<'a>(alloc: Global, nodes: &'a [Node], at: usize) -> Result<Vec<&'a str>, AllocError> {
    let mut found = Vec::new(alloc);
    for node in items(alloc, nodes, at)? {
        found.push(node.text.as_str())?;
    }
    Ok(found)
}
