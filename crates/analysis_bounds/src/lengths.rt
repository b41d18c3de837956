//! OSEK/VDX OS: interrupt processing, category 2. How many instructions routines execute at least:
//! by the shortest ways to an end.

ghost use Rattle.std.specs.Prelude.{◌+◌, ◌≡◌, ◌<◌, IfOk, IsTrue, length, nat_le, true};
ghost use Rattle.osek_base.specs.declared.limits.TheConstants.{REGISTERS};
ghost use Rattle.law_windows.specs.Routines.{begun};
ghost use Rattle.law_costs.specs.Left.{on};
ghost use Rattle.law_nodes.specs.Nodes.{is_at, of_routine};
ghost use Rattle.law_analysis.specs.Lengths.{Lasts, is_of_task, lengths_hold};
ghost use Rattle.analysis_nodes.specs.Graph.{IsGraph};
ghost use Rattle.analysis_nodes.specs.Nodes.{node_by};
ghost use Rattle.analysis_bounds.specs.Levels.{numbered};
ghost use Rattle.analysis_bounds.specs.Lengths.{
  AllGoOn,
  AreFollowed,
  AreLasting,
  GoesOn,
  IsFresh,
  IsLong,
  NodeIsLong,
  longs_of,
};

use crate::beginning::begins;
use crate::pacing::count_at;
use crate::ways::node_count;
use analysis_nodes::{Graph, Node, Way, outcomes_are_all};
use law_analysis::lengths_last;
use osek_base::{Owner, REGISTERS, System};
use std::alloc::{AllocError, Global};

/// The length of a node of a routine from which no end is known.
const NO_END: u32 = u32::MAX;

// ---- whether lengths hold

/// Whether it is a task.
fn is_of_task(owner: &Owner) -> bool
    ensures { result ≡ is_of_task owner.now }
{
    match owner {
        Owner::Task(_) => true,
        Owner::Routine(_) => false,
    }
}

/// Whether the node of a number has one less at least.
fn is_followed(lengths: &[u32], count: u32, number: usize) -> bool
    ensures { result ≡ nat_le count (numbered lengths.now number + 1) }
{
    u64::from(count) <= u64::from(count_at(lengths, number)) + 1
}

/// .. of all of some numbers.
fn are_followed(lengths: &[u32], count: u32, numbers: &[usize]) -> bool
    ensures { IsTrue result → AreFollowed lengths.now count numbers.now (length numbers.now) }
{
    for place in 0..numbers.len() {
        if !is_followed(lengths, count, numbers[place]) {
            return false;
        }
    }
    true
}

/// Whether a way has steps, each to a node that has one less at least.
fn goes_on(lengths: &[u32], count: u32, way: &Way) -> bool
    ensures { IsTrue result → GoesOn lengths.now count way.now }
{
    if way.next.is_empty() {
        return false;
    }
    are_followed(lengths, count, &way.next)
}

/// .. all of some ways.
fn all_go_on(lengths: &[u32], count: u32, ways: &[Way]) -> bool
    ensures { IsTrue result → AllGoOn lengths.now count ways.now (length ways.now) }
{
    for place in 0..ways.len() {
        if !goes_on(lengths, count, &ways[place]) {
            return false;
        }
    }
    true
}

/// Whether a routine at a node with such ways executes so many.
fn is_long(lengths: &[u32], count: u32, node: &Node, ways: &[Way]) -> bool
    ensures { IsTrue result → IsLong lengths.now count (node_by node.now) ways.now }
{
    if count <= 1 || is_of_task(&node.owner) {
        return true;
    }
    all_go_on(lengths, count, ways)
}

/// .. at the node of a number.
fn node_is_long(graph: &Graph, lengths: &[u32], number: usize) -> bool
    ensures { IsTrue result → NodeIsLong graph.now lengths.now number }
{
    if number >= graph.nodes.len() || number >= graph.links.len() {
        return true;
    }
    let count = count_at(lengths, number);
    is_long(
        lengths,
        count,
        &graph.nodes[number],
        &graph.links[number].ways,
    )
}

/// Whether routines at nodes execute so many instructions each, by number; at true they do.
fn lengths_hold(system: &System, graph: &Graph, lengths: &[u32]) -> bool
    requires graph { IsGraph system.now graph.now }
    ensures { IsTrue result → lengths_hold system.now (longs_of graph.now lengths.now) ≡ true }
{
    outcomes_are_all();
    if lengths.len() != node_count(graph) {
        return false;
    }
    for number in 0..node_count(graph) {
        if !node_is_long(graph, lengths, number) {
            return false;
        }
    }
    true
}

// ---- of routines

/// Whether all registers are told.
fn are_all(registers: &[Option<u32>]) -> bool
    ensures { IsTrue result → length registers.now ≡ REGISTERS }
{
    registers.len() == REGISTERS
}

/// Whether one may begin at a node that tells of all registers.
fn is_fresh(node: &Node) -> bool
    ensures { IsTrue result → IsFresh (node_by node.now) }
{
    are_all(&node.registers) && begins(node)
}

/// Whether a routine that begins is at a node.
fn begins_at(node: &Node, routine: usize) -> bool
    ensures { IsTrue result → is_at (node_by node.now) (of_routine on (begun routine)) ≡ true }
{
    match &node.owner {
        Owner::Task(_) => false,
        Owner::Routine(own) => own.number() as usize == routine && is_fresh(node),
    }
}

/// How many a routine executes at least that begins at the node of a number, 0 where it doesn't.
fn length_at(system: &System, graph: &Graph, lengths: &[u32], routine: usize, number: usize) -> u32
    requires holds { lengths_hold system.now (longs_of graph.now lengths.now) ≡ true }
    ensures { Lasts system.now result on (begun routine) }
{
    lengths_last();
    if number >= node_count(graph) {
        return 0;
    }
    if begins_at(&graph.nodes[number], routine) {
        count_at(lengths, number)
    } else {
        0
    }
}

/// How many a routine executes at least.
fn length_of(system: &System, graph: &Graph, lengths: &[u32], routine: usize) -> u32
    requires holds { lengths_hold system.now (longs_of graph.now lengths.now) ≡ true }
    ensures { Lasts system.now result on (begun routine) }
{
    let mut longest = 0;
    for number in 0..graph.nodes.len() {
        let length = length_at(system, graph, lengths, routine, number);
        if length > longest {
            longest = length;
        }
    }
    longest
}

// ---- which lengths those are

/// The least length of some nodes.
fn least_of(lengths: &[u32], numbers: &[usize]) -> u32 {
    let mut least = NO_END;
    for number in numbers {
        least = least.min(count_at(lengths, *number));
    }
    least
}

/// One more than the least where ways lead; 1 where one ends.
fn length_by(lengths: &[u32], ways: &[Way]) -> u32 {
    let mut least = NO_END;
    for way in ways {
        let behind = if way.next.is_empty() {
            0
        } else {
            least_of(lengths, &way.next)
        };
        least = least.min(behind);
    }
    least.saturating_add(1)
}

/// Lowers the length of a number to what its ways come to; whether it was greater.
fn lower(lengths: &mut [u32], number: usize, ways: &[Way]) -> bool {
    let length = length_by(lengths, ways);
    if number < lengths.len() && length < lengths[number] {
        lengths[number] = length;
        true
    } else {
        false
    }
}

/// .. of all numbers, from the last to the first; whether one was.
fn lower_all(lengths: &mut [u32], graph: &Graph) -> bool {
    let mut lowered = false;
    let count = graph.links.len();
    for down in 0..count {
        let number = count - 1 - down;
        if lower(lengths, number, &graph.links[number].ways) {
            lowered = true;
        }
    }
    lowered
}

/// Of tasks 0, of routines no end is known.
fn no_lengths(alloc: Global, graph: &Graph) -> Result<Vec<u32>, AllocError> {
    let mut lengths = Vec::new(alloc);
    for node in &graph.nodes {
        lengths.push(if is_of_task(&node.owner) { 0 } else { NO_END })?;
    }
    Ok(lengths)
}

/// How many instructions are on the shortest way from each node of a routine to an end; of tasks 0.
fn lengths_of(alloc: Global, graph: &Graph) -> Result<Vec<u32>, AllocError> {
    let mut lengths = no_lengths(alloc, graph)?;
    for _ in 0..graph.nodes.len() {
        if !lower_all(&mut lengths, graph) {
            return Ok(lengths);
        }
    }
    Ok(lengths)
}

/// How many instructions each routine executes at least, by number. An error is want of memory.
pub(crate) fn routine_lengths(
    alloc: Global,
    system: &System,
    graph: &Graph,
) -> Result<Vec<u32>, AllocError>
    requires graph { IsGraph system.now graph.now }
    ensures { IfOk result (λ counts. AreLasting system.now counts.items) }
{
    let lengths = lengths_of(alloc, graph)?;
    let mut counts = Vec::new(alloc);
    if !lengths_hold(system, graph, &lengths) {
        return Ok(counts);
    }
    for routine in 0..system.routine_count() {
        counts.push(length_of(system, graph, &lengths, routine))?;
    }
    Ok(counts)
}
