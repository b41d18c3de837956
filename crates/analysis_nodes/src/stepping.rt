//! Nodes that are made from nodes.

ghost use Rattle.std.specs.Prelude.{◌≡◌, ◌<◌, ◌∷◌, [], IfOk, map};
ghost use Rattle.osek_base.specs.declared.limits.TheConstants.{MAX_INSTRUCTIONS};
ghost use Rattle.law_nodes.specs.Nodes.{fresh_node, with_awaited, woken_node};
ghost use Rattle.law_nodes.specs.Services.{next_node};
ghost use Rattle.law_nodes.specs.Steps.{sets_node};
ghost use Rattle.analysis_nodes.specs.Nodes.{node_by, switch_by};

use crate::node::Node;
use crate::switch::Switch;
use osek_base::{MAX_INSTRUCTIONS, Owner, REGISTERS, Register, ResId};
use std::alloc::{AllocError, Global};

/// The resources of a list.
fn copied_resources(alloc: Global, held: &[ResId]) -> Result<Vec<ResId>, AllocError>
    ensures { IfOk result (λ copy. copy.items ≡ held.now) }
{
    held.to_vec(alloc)
}

/// The same node.
pub(crate) fn copied(alloc: Global, node: &Node) -> Result<Node, AllocError>
    ensures { IfOk result (λ copy. node_by copy ≡ node_by node.now) }
{
    let held = copied_resources(alloc, &node.held)?;
    Ok(Node {
        owner: node.owner,
        switch: node.switch,
        held,
        waits_for: node.waits_for,
        used: node.used,
        place: node.place,
        registers: node.registers,
    })
}

/// A job or a routine as it begins: interrupts are on, and all is 0. No event is set for a new job.
pub(crate) fn fresh_node(alloc: Global, owner: Owner) -> Node
    ensures { node_by result ≡ fresh_node owner }
{
    Node {
        owner,
        switch: Switch {
            disabled: false,
            suspended_all: 0,
            suspended_os: 0,
        },
        held: Vec::new(alloc),
        waits_for: None,
        used: 0,
        place: 0,
        registers: [Some(0); REGISTERS],
    }
}

/// Events, and those that are waited for.
fn with_awaited(used: u32, awaited: Option<u32>) -> u32
    ensures { result ≡ with_awaited used awaited }
{
    match awaited {
        None => used,
        Some(mask) => used | mask,
    }
}

/// The node whose wait has ended: what was waited for is used.
pub(crate) fn woken_node(alloc: Global, node: &Node) -> Result<Node, AllocError>
    ensures { IfOk result (λ woken. node_by woken ≡ woken_node (node_by node.now)) }
{
    let mut woken = copied(alloc, node)?;
    woken.used = with_awaited(node.used, node.waits_for);
    woken.waits_for = None;
    Ok(woken)
}

/// The node at a place.
pub(crate) fn node_at(alloc: Global, node: &Node, place: u32) -> Result<Node, AllocError>
    ensures { IfOk result (λ next. node_by next ≡ record (node_by node.now) { place = place }) }
{
    let mut next = copied(alloc, node)?;
    next.place = place;
    Ok(next)
}

/// The next instruction follows.
pub(crate) fn next_node(alloc: Global, node: &Node) -> Result<Node, AllocError>
    requires { node.now.place < MAX_INSTRUCTIONS }
    ensures { IfOk result (λ next. node_by next ≡ next_node (node_by node.now)) }
{
    node_at(alloc, node, node.place + 1)
}

/// The next instruction follows, with a switch of interrupts.
pub(crate) fn node_with_switch(
    alloc: Global,
    node: &Node,
    switch: Switch,
) -> Result<Node, AllocError>
    requires { node.now.place < MAX_INSTRUCTIONS }
    ensures { IfOk result (λ next. node_by next
        ≡ record (next_node (node_by node.now)) { switch = switch_by switch }) }
{
    let mut next = next_node(alloc, node)?;
    next.switch = switch;
    Ok(next)
}

/// A register gets a value, or one that isn't known, and the next instruction follows.
pub(crate) fn node_with_value(
    alloc: Global,
    node: &Node,
    register: Register,
    value: Option<u32>,
) -> Result<Node, AllocError>
    requires { node.now.place < MAX_INSTRUCTIONS }
    ensures { IfOk result (λ next. node_by next ≡ sets_node (node_by node.now) register value) }
{
    let mut next = next_node(alloc, node)?;
    next.registers[register.number() as usize] = value;
    Ok(next)
}

/// One node as a list.
pub(crate) fn alone(alloc: Global, node: Node) -> Result<Vec<Node>, AllocError>
    ensures { IfOk result (λ nodes. map node_by nodes.items ≡ node_by node ∷ []) }
{
    let mut nodes = Vec::new(alloc);
    nodes.push(node)?;
    Ok(nodes)
}

/// Two nodes as a list.
pub(crate) fn both(alloc: Global, node: Node, other: Node) -> Result<Vec<Node>, AllocError>
    ensures { IfOk result (λ nodes. map node_by nodes.items ≡ node_by node ∷ node_by other ∷ []) }
{
    let mut nodes = Vec::new(alloc);
    nodes.push(node)?;
    nodes.push(other)?;
    Ok(nodes)
}
