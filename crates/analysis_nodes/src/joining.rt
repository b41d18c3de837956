//! Nodes that are joined, and the nodes of all tasks and routines. Nothing is claimed of them.

use crate::index::{Index, hash_beside, hash_of};
use crate::node::Node;
use crate::values::knows_no_more;
use crate::worklist::explore;
use osek_base::{IsrId, MAX_ROUTINES, MAX_TASKS, Owner, REGISTERS, System, TaskId};
use std::alloc::{AllocError, Global};

/// The nodes of a task or a routine are joined where they are more.
const JOINED_ABOVE: usize = 20_000;

/// The first node forgets the registers that the second has otherwise, and has the used events of
/// both. Whether that changes it.
pub(crate) fn join(node: &mut Node, other: &Node) -> bool {
    let used = node.used | other.used;
    let mut changes = used != node.used;
    node.used = used;
    for register in 0..REGISTERS {
        if !knows_no_more(node.registers[register], other.registers[register]) {
            node.registers[register] = None;
            changes = true;
        }
    }
    changes
}

/// Nodes are added, each by its hash; where they are joined, by one that leaves registers and used
/// events out.
fn append(
    nodes: &mut Vec<Node>,
    index: &mut Index,
    more: Vec<Node>,
    joined: bool,
) -> Result<(), AllocError> {
    for node in more {
        let hash = if joined {
            hash_beside(&node)
        } else {
            hash_of(&node)
        };
        index.add(hash)?;
        nodes.push(node)?;
    }
    Ok(())
}

/// Adds the nodes of a task or a routine. False where there are more than `most` in all.
fn add_owner(
    alloc: Global,
    system: &System,
    most: usize,
    nodes: &mut Vec<Node>,
    index: &mut Index,
    owner: &Owner,
) -> Result<bool, AllocError> {
    let left = most.saturating_sub(nodes.len());
    if let Some(more) = explore(alloc, system, owner, false, left.min(JOINED_ABOVE))? {
        append(nodes, index, more, false)?;
        return Ok(true);
    }
    match explore(alloc, system, owner, true, left)? {
        None => Ok(false),
        Some(more) => {
            append(nodes, index, more, true)?;
            Ok(true)
        }
    }
}

/// Adds the nodes of each task and each routine. False where there are more than `most`.
pub(crate) fn add_all(
    alloc: Global,
    system: &System,
    most: usize,
    nodes: &mut Vec<Node>,
    index: &mut Index,
) -> Result<bool, AllocError> {
    for number in 0..system.task_count().min(MAX_TASKS) {
        let owner = Owner::Task(TaskId::new(number as u8));
        if !add_owner(alloc, system, most, nodes, index, &owner)? {
            return Ok(false);
        }
    }
    for number in 0..system.routine_count().min(MAX_ROUTINES) {
        let owner = Owner::Routine(IsrId::new(number as u8));
        if !add_owner(alloc, system, most, nodes, index, &owner)? {
            return Ok(false);
        }
    }
    Ok(true)
}
