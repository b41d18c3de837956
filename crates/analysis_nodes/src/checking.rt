//! The ways between nodes, each of which is checked, and graphs.

ghost use Rattle.std.specs.Prelude.{◌≡◌, true, is_some, IfOk, IfSome, IsTrue, length, map};
ghost use Rattle.std.specs.List.{list_all};
ghost use Rattle.osek_base.specs.declared.ids.Owner.{Owner};
ghost use Rattle.osek_base.specs.Lists.{below};
ghost use Rattle.law_nodes.specs.Nodes.{fresh_node, is_covered};
ghost use Rattle.analysis_nodes.specs.Graph.{AreCoveredBy, AreLinked, AreWays, IsGraph, IsLinked, IsWay, IsWoken};
ghost use Rattle.analysis_nodes.specs.Nodes.{node_by, outcome_told};

use crate::graph::{Graph, Links, Way};
use crate::index::Index;
use crate::joining::add_all;
use crate::lookup::covered_by;
use crate::node::Node;
use crate::outcome::Outcome;
use crate::stepping::{fresh_node, woken_node};
use crate::telling::outcomes;
use osek_base::{IsrId, MAX_ROUTINES, MAX_TASKS, Owner, System, TaskId};
use std::alloc::{AllocError, Global};

/// The numbers of nodes that cover some, one by one.
fn numbers_of(
    alloc: Global,
    nodes: &[Node],
    index: &Index,
    next: &[Node],
) -> Result<Option<Vec<usize>>, AllocError>
    ensures { IfOk result (λ found. IfSome found (λ numbers.
        AreCoveredBy (map node_by nodes.now) numbers.items (map node_by next.now))) }
{
    let mut numbers = Vec::new(alloc);
    for node in next {
        match covered_by(nodes, index, node) {
            None => return Ok(None),
            Some(number) => numbers.push(number)?,
        }
    }
    Ok(Some(numbers))
}

/// The way of an outcome.
fn way_of(
    alloc: Global,
    nodes: &[Node],
    index: &Index,
    outcome: &Outcome,
) -> Result<Option<Way>, AllocError>
    ensures { IfOk result (λ found. IfSome found (λ way.
        IsWay (map node_by nodes.now) way (outcome_told outcome.now))) }
{
    match numbers_of(alloc, nodes, index, &outcome.next)? {
        None => Ok(None),
        Some(next) => Ok(Some(Way {
            refusal: outcome.refusal,
            start: outcome.start,
            next,
        })),
    }
}

/// The ways of some outcomes, one by one.
fn ways_of(
    alloc: Global,
    nodes: &[Node],
    index: &Index,
    outcomes: &[Outcome],
) -> Result<Option<Vec<Way>>, AllocError>
    ensures { IfOk result (λ found. IfSome found (λ ways.
        AreWays (map node_by nodes.now) ways.items (map outcome_told outcomes.now))) }
{
    let mut ways = Vec::new(alloc);
    for outcome in outcomes {
        match way_of(alloc, nodes, index, outcome)? {
            None => return Ok(None),
            Some(way) => ways.push(way)?,
        }
    }
    Ok(Some(ways))
}

/// Where a node waits, the number of a node at which it goes on.
fn woken_of(
    alloc: Global,
    nodes: &[Node],
    index: &Index,
    node: &Node,
) -> Result<Option<Option<usize>>, AllocError>
    ensures { IfOk result (λ found. IfSome found (λ woken. is_some node.now.waits_for ≡ true
        → IsWoken (map node_by nodes.now) woken (node_by node.now))) }
{
    match node.waits_for {
        None => Ok(Some(None)),
        Some(_) => {
            let woken = woken_node(alloc, node)?;
            match covered_by(nodes, index, &woken) {
                None => Ok(None),
                Some(number) => Ok(Some(Some(number))),
            }
        }
    }
}

/// The links of a node.
fn links_of(
    alloc: Global,
    system: &System,
    nodes: &[Node],
    index: &Index,
    node: &Node,
) -> Result<Option<Links>, AllocError>
    ensures { IfOk result (λ found. IfSome found (λ links.
        IsLinked system.now (map node_by nodes.now) (node_by node.now) links)) }
{
    let Some(outcomes) = outcomes(alloc, system, node)? else {
        return Ok(None);
    };
    let Some(ways) = ways_of(alloc, nodes, index, &outcomes)? else {
        return Ok(None);
    };
    match woken_of(alloc, nodes, index, node)? {
        None => Ok(None),
        Some(woken) => Ok(Some(Links { ways, woken })),
    }
}

/// The links of all nodes, by their numbers.
fn all_links(
    alloc: Global,
    system: &System,
    nodes: &[Node],
    index: &Index,
) -> Result<Option<Vec<Links>>, AllocError>
    ensures { IfOk result (λ found. IfSome found (λ links.
        AreLinked system.now nodes.now (length nodes.now) links.items)) }
{
    let mut all = Vec::new(alloc);
    for number in 0..nodes.len() {
        match links_of(alloc, system, nodes, index, &nodes[number])? {
            None => return Ok(None),
            Some(links) => all.push(links)?,
        }
    }
    Ok(Some(all))
}

/// Whether a node covers a task or a routine as it begins; at true one does.
fn covers_fresh(alloc: Global, nodes: &[Node], index: &Index, owner: Owner) -> bool
    ensures { IsTrue result → is_covered (map node_by nodes.now) (fresh_node owner) ≡ true }
{
    let fresh = fresh_node(alloc, owner);
    match covered_by(nodes, index, &fresh) {
        None => false,
        Some(_) => true,
    }
}

/// Whether nodes cover each task as it begins; at true they do.
fn covers_tasks(alloc: Global, system: &System, nodes: &[Node], index: &Index) -> bool
    ensures { IsTrue result → list_all
        (λ t. is_covered (map node_by nodes.now) (fresh_node (Owner.Task t)))
        (below (length system.now.tasks)) ≡ true }
{
    for number in 0..system.task_count() {
        if number >= MAX_TASKS {
            return false;
        }
        let owner = Owner::Task(TaskId::new(number as u8));
        if !covers_fresh(alloc, nodes, index, owner) {
            return false;
        }
    }
    true
}

/// Whether nodes cover each routine as it begins; at true they do.
fn covers_routines(alloc: Global, system: &System, nodes: &[Node], index: &Index) -> bool
    ensures { IsTrue result → list_all
        (λ i. is_covered (map node_by nodes.now) (fresh_node (Owner.Routine i)))
        (below (length system.now.routines)) ≡ true }
{
    for number in 0..system.routine_count() {
        if number >= MAX_ROUTINES {
            return false;
        }
        let owner = Owner::Routine(IsrId::new(number as u8));
        if !covers_fresh(alloc, nodes, index, owner) {
            return false;
        }
    }
    true
}

/// The graph of nodes, where they cover all that they are to cover.
fn linked(
    alloc: Global,
    system: &System,
    nodes: Vec<Node>,
    index: &Index,
) -> Result<Option<Graph>, AllocError>
    ensures { IfOk result (λ found. IfSome found (λ graph. IsGraph system.now graph)) }
{
    if !covers_tasks(alloc, system, &nodes, index) {
        return Ok(None);
    }
    if !covers_routines(alloc, system, &nodes, index) {
        return Ok(None);
    }
    match all_links(alloc, system, &nodes, index)? {
        None => Ok(None),
        Some(links) => Ok(Some(Graph { nodes, links })),
    }
}

/// A graph of the nodes to which runs of a system come: each task and each routine as it begins,
/// and all that may become of each. Where the nodes of a task or a routine are very many, those are
/// joined that are the same but for registers and used events. None where more than `most` nodes
/// would be needed, or where a count of suspensions would leave the range of 32 bits. An error is
/// want of memory.
pub fn graph_of(alloc: Global, system: &System, most: usize) -> Result<Option<Graph>, AllocError>
    ensures { IfOk result (λ found. IfSome found (λ graph. IsGraph system.now graph)) }
{
    let mut nodes = Vec::new(alloc);
    let mut index = Index::new(alloc)?;
    if !add_all(alloc, system, most, &mut nodes, &mut index)? {
        return Ok(None);
    }
    linked(alloc, system, nodes, &index)
}
