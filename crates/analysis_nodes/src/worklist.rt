//! The search for the nodes of one task or routine, of which nothing is claimed: that the nodes
//! that are found cover all is checked at the end.

use crate::index::{Index, hash_beside, hash_of};
use crate::joining::join;
use crate::lookup::{beside_among, covering_among};
use crate::node::Node;
use crate::stepping::{fresh_node, woken_node};
use crate::telling::outcomes;
use osek_base::{Owner, System};
use std::alloc::{AllocError, Global};

/// How often a node is visited at most: once as it is found, and once for each of 8 registers that
/// it forgets and each of 32 events that come to those used.
const VISITS: usize = 41;

/// A node that is new is open.
fn add(
    nodes: &mut Vec<Node>,
    index: &mut Index,
    open: &mut Vec<usize>,
    hash: u64,
    node: Node,
) -> Result<(), AllocError> {
    open.push(nodes.len())?;
    index.add(hash)?;
    nodes.push(node)?;
    Ok(())
}

/// A node that none covers is added.
fn admit_exact(
    nodes: &mut Vec<Node>,
    index: &mut Index,
    open: &mut Vec<usize>,
    node: Node,
) -> Result<(), AllocError> {
    let hash = hash_of(&node);
    match covering_among(nodes, index, hash, &node) {
        Some(_) => Ok(()),
        None => add(nodes, index, open, hash, node),
    }
}

/// A node is joined with the one that is the same but for registers and used events. That one is
/// open again if it changes.
fn admit_joined(
    nodes: &mut Vec<Node>,
    index: &mut Index,
    open: &mut Vec<usize>,
    node: Node,
) -> Result<(), AllocError> {
    let hash = hash_beside(&node);
    match beside_among(nodes, index, hash, &node) {
        None => add(nodes, index, open, hash, node),
        Some(number) => {
            let kept = &mut nodes[number];
            if join(kept, &node) {
                open.push(number)?;
            }
            Ok(())
        }
    }
}

/// A node is added, or found covered, or joined with another one.
fn admit(
    nodes: &mut Vec<Node>,
    index: &mut Index,
    open: &mut Vec<usize>,
    joined: bool,
    node: Node,
) -> Result<(), AllocError> {
    if joined {
        admit_joined(nodes, index, open, node)
    } else {
        admit_exact(nodes, index, open, node)
    }
}

/// All nodes of a list are admitted.
fn admit_all(
    nodes: &mut Vec<Node>,
    index: &mut Index,
    open: &mut Vec<usize>,
    joined: bool,
    next: Vec<Node>,
) -> Result<(), AllocError> {
    for node in next {
        admit(nodes, index, open, joined, node)?;
    }
    Ok(())
}

/// Admits what may become of who executes at the node of a number. False where that isn't known.
fn visit_steps(
    alloc: Global,
    system: &System,
    nodes: &mut Vec<Node>,
    index: &mut Index,
    open: &mut Vec<usize>,
    joined: bool,
    number: usize,
) -> Result<bool, AllocError> {
    if number >= nodes.len() {
        return Ok(false);
    }
    match outcomes(alloc, system, &nodes[number])? {
        None => Ok(false),
        Some(found) => {
            for outcome in found {
                admit_all(nodes, index, open, joined, outcome.next)?;
            }
            Ok(true)
        }
    }
}

/// Admits the node behind the wait of the node of a number, if that waits.
fn visit_woken(
    alloc: Global,
    nodes: &mut Vec<Node>,
    index: &mut Index,
    open: &mut Vec<usize>,
    joined: bool,
    number: usize,
) -> Result<(), AllocError> {
    if number >= nodes.len() {
        return Ok(());
    }
    let node = &nodes[number];
    if node.waits_for.is_none() {
        return Ok(());
    }
    let woken = woken_node(alloc, node)?;
    admit(nodes, index, open, joined, woken)
}

/// Visits the nodes that are open, one after another. False where they are more than `most`, or
/// where it isn't known what becomes of one.
fn visit_all(
    alloc: Global,
    system: &System,
    nodes: &mut Vec<Node>,
    joined: bool,
    most: usize,
    owner: &Owner,
) -> Result<bool, AllocError> {
    let mut index = Index::new(alloc)?;
    let mut open = Vec::new(alloc);
    admit(
        nodes,
        &mut index,
        &mut open,
        joined,
        fresh_node(alloc, *owner),
    )?;
    for _visit in 0..most.saturating_mul(VISITS).saturating_add(1) {
        match open.pop() {
            None => return Ok(true),
            Some(number) => {
                visit_woken(alloc, nodes, &mut index, &mut open, joined, number)?;
                if !visit_steps(alloc, system, nodes, &mut index, &mut open, joined, number)? {
                    return Ok(false);
                }
            }
        }
        if nodes.len() > most {
            return Ok(false);
        }
    }
    Ok(false)
}

/// The nodes of a task or a routine, at most so many, joined or not. None where there are more, or
/// where it isn't known what becomes of one.
pub(crate) fn explore(
    alloc: Global,
    system: &System,
    owner: &Owner,
    joined: bool,
    most: usize,
) -> Result<Option<Vec<Node>>, AllocError> {
    let mut nodes = Vec::new(alloc);
    if visit_all(alloc, system, &mut nodes, joined, most, owner)? {
        Ok(Some(nodes))
    } else {
        Ok(None)
    }
}
