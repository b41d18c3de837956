//! OSEK/VDX OS: GetEvent. What a job may find set for its own task.

ghost use Rattle.std.specs.Prelude.{◌≡◌, ◌==◌, ◌&&◌, ◌<◌, ◌++◌, ◌^◌, IfOk, map, bit_or};
ghost use Rattle.osek_base.specs.declared.ids.Owner.{Owner};
ghost use Rattle.osek_base.specs.declared.instr.Service.{Service};
ghost use Rattle.osek_base.specs.declared.limits.TheConstants.{MAX_EVENTS};
ghost use Rattle.law_nodes.specs.Early.{is_set};
ghost use Rattle.law_nodes.specs.Services.{job_granted};
ghost use Rattle.law_nodes.specs.Shown.{are_few, shown_node, shown_to, subsets, with_event};
ghost use Rattle.analysis_nodes.specs.Nodes.{node_by};

use crate::node::Node;
use crate::settable::settable;
use crate::stepping::{alone, copied};
use osek_base::{MAX_EVENTS, Owner, System, TaskId};
use std::alloc::{AllocError, Global};

/// Of more events it isn't told which are set.
const MOST_SHOWN: u32 = 4;

/// Whether a mask has so few events that it is told which are set.
fn are_few(mask: u32) -> bool
    ensures { result ≡ are_few mask }
{
    mask.count_ones() <= MOST_SHOWN
}

/// Whether an event is in a mask.
fn is_set(mask: u32, event: usize) -> bool
    requires { event < MAX_EVENTS }
    ensures { result ≡ is_set mask event }
{
    (mask >> event) % 2 == 1
}

/// The mask of an event.
fn bit_of(event: usize) -> u32
    requires { event < MAX_EVENTS }
    ensures { result ≡ 2 ^ event }
{
    1 << event
}

/// Masks, and each with one more event.
fn with_bit(alloc: Global, bit: u32, sets: &[u32]) -> Result<Vec<u32>, AllocError>
    ensures { IfOk result (λ more. more.items ≡ sets.now ++ map (λ v. bit_or v bit) sets.now) }
{
    let mut more = sets.to_vec(alloc)?;
    for set in sets {
        more.push(*set | bit)?;
    }
    Ok(more)
}

/// .. if a mask has that event.
fn with_event(
    alloc: Global,
    mask: u32,
    event: usize,
    sets: Vec<u32>,
) -> Result<Vec<u32>, AllocError>
    requires { event < MAX_EVENTS }
    ensures { IfOk result (λ more. more.items ≡ with_event mask event sets.items) }
{
    if is_set(mask, event) {
        with_bit(alloc, bit_of(event), &sets)
    } else {
        Ok(sets)
    }
}

/// All masks that have no others than the events of a mask.
#[tactic(auto, unfolding(law_nodes::specs::Shown::subsets))]
fn subsets(alloc: Global, mask: u32) -> Result<Vec<u32>, AllocError>
    ensures { IfOk result (λ sets. sets.items ≡ subsets mask) }
{
    let mut sets = Vec::new(alloc);
    sets.push(0)?;
    for event in 0..MAX_EVENTS {
        sets = with_event(alloc, mask, event, sets)?;
    }
    Ok(sets)
}

/// A job that finds these events set: r1 has them, and all of them are used.
fn shown_node(alloc: Global, node: &Node, set: u32) -> Result<Node, AllocError>
    ensures { IfOk result (λ shown. node_by shown ≡ shown_node (node_by node.now) set) }
{
    let mut shown = copied(alloc, node)?;
    shown.used = set;
    shown.registers[1] = Some(set);
    Ok(shown)
}

/// .. one of each of some masks.
fn shown_nodes(alloc: Global, node: &Node, sets: &[u32]) -> Result<Vec<Node>, AllocError>
    ensures { IfOk result (λ nodes. map node_by nodes.items
        ≡ map (shown_node (node_by node.now)) sets.now) }
{
    let mut nodes = Vec::new(alloc);
    for set in sets {
        let shown = shown_node(alloc, node, *set)?;
        nodes.push(shown)?;
    }
    Ok(nodes)
}

/// Whether a job of a task gets the events of that task, and few may be set for it.
fn is_shown(own: TaskId, task: TaskId, mask: u32) -> bool
    ensures { result ≡ (own == task && are_few mask) }
{
    let same = own.number() == task.number();
    let few = are_few(mask);
    same && few
}

/// By all that a job of a task may find set for it, if few events may be set.
fn shown_of(
    alloc: Global,
    system: &System,
    own: TaskId,
    node: Node,
    task: TaskId,
) -> Result<Vec<Node>, AllocError>
    ensures { IfOk result (λ nodes. map node_by nodes.items
        ≡ shown_to (Owner.Task own) system.now task (node_by node)) }
{
    let settable = settable(system, task);
    if is_shown(own, task, settable) {
        let sets = subsets(alloc, settable)?;
        shown_nodes(alloc, &node, &sets)
    } else {
        alone(alloc, node)
    }
}

/// .. of a routine, that isn't told.
fn shown_to(
    alloc: Global,
    system: &System,
    owner: Owner,
    node: Node,
    task: TaskId,
) -> Result<Vec<Node>, AllocError>
    ensures { IfOk result (λ nodes. map node_by nodes.items
        ≡ shown_to owner system.now task (node_by node)) }
{
    match owner {
        Owner::Task(own) => shown_of(alloc, system, own, node, task),
        Owner::Routine(_) => alone(alloc, node),
    }
}

/// A job gets the events of a task.
pub(crate) fn with_shown(
    alloc: Global,
    system: &System,
    node: Node,
    task: Option<TaskId>,
) -> Result<Vec<Node>, AllocError>
    ensures { IfOk result (λ nodes. map node_by nodes.items
        ≡ job_granted system.now (Service.GetEvent task) (node_by node)) }
{
    match task {
        None => alone(alloc, node),
        Some(task) => shown_to(alloc, system, node.owner, node, task),
    }
}
