//! OSEK/VDX OS: error handling. Services that may be answered other than E_OK.

ghost use Rattle.std.specs.Prelude.{◌≡◌, Contains, IfSome, IsTrue, length};
ghost use Rattle.law_analysis.specs.Told.{errors_of, failure_at};
ghost use Rattle.analysis_nodes.specs.Nodes.{node_by};
ghost use Rattle.analysis_bounds.specs.Told.{IsToldAt, NodeIsTold, NodesAreTold, WayIsTold};

use crate::told::told;
use crate::ways::node_count;
use analysis_nodes::{Graph, Node, Way};
use osek_base::{MAX_INSTRUCTIONS, MAX_ROUTINES, MAX_TASKS, Owner, Place, Status};
use search_peaks::Peaks;
use seen_ticks::Failure;
use std::alloc::{AllocError, Global};
use view_measures::{Figure, Measure};

/// How many statuses there are.
const STATUSES: usize = 10;

/// The refusal of a service at a node; None where no program has that place.
pub(crate) fn failure_at(node: &Node, status: Status) -> Option<Failure>
    ensures { IfSome result (λ x. x ≡ failure_at (node_by node.now) status) }
{
    if node.place >= MAX_INSTRUCTIONS as u32 {
        return None;
    }
    Some(Failure {
        owner: node.owner,
        place: Place::new(node.place as u16),
        status,
    })
}

/// A number for each refusal.
fn key_of(failure: &Failure) -> usize {
    let owner = match &failure.owner {
        Owner::Task(task) => task.number() as usize,
        Owner::Routine(routine) => MAX_TASKS + routine.number() as usize,
    };
    let status = (failure.status.number() as usize).min(STATUSES - 1);
    (owner * MAX_INSTRUCTIONS + failure.place.number() as usize) * STATUSES + status
}

/// Where each refusal stands among all of them, by its key.
pub(crate) fn keys_of(alloc: Global, failures: &[Failure]) -> Result<Vec<usize>, AllocError> {
    let mut keys = Vec::new(alloc);
    for _ in 0..(MAX_TASKS + MAX_ROUTINES) * MAX_INSTRUCTIONS * STATUSES {
        keys.push(usize::MAX)?;
    }
    for number in 0..failures.len() {
        let key = key_of(&failures[number]);
        if key < keys.len() {
            keys[key] = number;
        }
    }
    Ok(keys)
}

/// Whether a refusal stands among some, where that is said; at true it does.
fn is_among(failures: &[Failure], number: usize, failure: &Failure) -> bool
    ensures { IsTrue result → Contains failures.now failure.now }
{
    if number >= failures.len() {
        return false;
    }
    if failures[number] == *failure {
        return true;
    }
    false
}

/// The measure of the errors of whom, and the number of that.
fn errors_of(owner: &Owner, peaks: &Peaks) -> u32
    ensures { result ≡ errors_of owner.now peaks.now }
{
    match owner {
        Owner::Task(task) => told(peaks, Measure::Errors, task.number() as usize),
        Owner::Routine(routine) => {
            told(peaks, Measure::RoutineErrors, routine.number() as usize)
        }
    }
}

/// Whether the refusal of a way is told, if it is one.
fn way_is_told(peaks: &Peaks, keys: &[usize], node: &Node, way: &Way) -> bool
    ensures { IsTrue result → WayIsTold peaks.now (node_by node.now) way.now }
{
    match way.refusal {
        None => true,
        Some(status) => {
            let Some(failure) = failure_at(node, status) else {
                return false;
            };
            let key = key_of(&failure);
            if key >= keys.len() || errors_of(&node.owner, peaks) < 1 {
                return false;
            }
            is_among(peaks.failures(), keys[key], &failure)
        }
    }
}

/// Whether the refusals of all ways of a node are told.
fn node_is_told(peaks: &Peaks, keys: &[usize], node: &Node, ways: &[Way]) -> bool
    ensures { IsTrue result
        → NodeIsTold peaks.now (node_by node.now) ways.now (length ways.now) }
{
    for place in 0..ways.len() {
        if !way_is_told(peaks, keys, node, &ways[place]) {
            return false;
        }
    }
    true
}

/// Whether the refusals of the node of a number are told.
fn is_told_at(graph: &Graph, peaks: &Peaks, keys: &[usize], number: usize) -> bool
    ensures { IsTrue result → IsToldAt graph.now peaks.now number }
{
    if number >= graph.nodes.len() || number >= graph.links.len() {
        return false;
    }
    let links = &graph.links[number];
    node_is_told(peaks, keys, &graph.nodes[number], &links.ways)
}

/// Whether the refusals of all nodes are told.
pub(crate) fn nodes_are_told(graph: &Graph, peaks: &Peaks, keys: &[usize]) -> bool
    ensures { IsTrue result
        → NodesAreTold graph.now peaks.now (length graph.now.nodes.items) }
{
    for number in 0..node_count(graph) {
        if !is_told_at(graph, peaks, keys, number) {
            return false;
        }
    }
    true
}

// ---- how they are noted

/// Notes the refusal of a way.
fn note_way(
    peaks: &mut Peaks,
    seen: &mut [bool],
    node: &Node,
    way: &Way,
) -> Result<(), AllocError> {
    let Some(status) = way.refusal else {
        return Ok(());
    };
    let Some(failure) = failure_at(node, status) else {
        return Ok(());
    };
    let key = key_of(&failure);
    if key >= seen.len() || seen[key] {
        return Ok(());
    }
    seen[key] = true;
    match &node.owner {
        Owner::Task(task) => raise(peaks, Measure::Errors, task.number() as usize, 1),
        Owner::Routine(routine) => {
            raise(peaks, Measure::RoutineErrors, routine.number() as usize, 1);
        }
    }
    peaks.add_failure(failure)?;
    Ok(())
}

/// Raises the number of a figure.
pub(crate) fn raise(peaks: &mut Peaks, measure: Measure, number: usize, shown: u32) {
    peaks.raise(Figure { measure, number }, shown);
}

/// Notes the refusals that there may be at nodes. An error is want of memory.
pub(crate) fn note_refusals(
    alloc: Global,
    graph: &Graph,
    peaks: &mut Peaks,
) -> Result<(), AllocError> {
    let mut seen: Vec<bool> = Vec::new(alloc);
    for _ in 0..(MAX_TASKS + MAX_ROUTINES) * MAX_INSTRUCTIONS * STATUSES {
        seen.push(false)?;
    }
    for number in 0..graph.nodes.len().min(graph.links.len()) {
        let links = &graph.links[number];
        for way in &links.ways {
            note_way(peaks, &mut seen, &graph.nodes[number], way)?;
        }
    }
    Ok(())
}
