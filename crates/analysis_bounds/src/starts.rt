//! Whether all is so that is told of routines.

ghost use Rattle.std.specs.Prelude.{◌≡◌, IsTrue, false, length};
ghost use Rattle.law_analysis.specs.Told.{is_shutdown, may_end};
ghost use Rattle.analysis_nodes.specs.Graph.{table_of};
ghost use Rattle.analysis_nodes.specs.Nodes.{node_by};
ghost use Rattle.analysis_bounds.specs.Told.{
  AreKeptApart,
  IsSomeMost,
  KeepsRoutineApart,
  LatencyIsTold,
  LossIsTold,
  RoutineIsTold,
  RoutinesAreTold,
  ends,
};

use crate::levels::CAP;
use crate::pacing::count_at;
use crate::slowness::instruction_of;
use crate::standing::goes_at;
use crate::told::told;
use crate::ways::node_count;
use analysis_nodes::{Graph, Node};
use arrival_rules::ArrivalRule;
use osek_base::{Control, Instr, System};
use search_peaks::Peaks;
use view_measures::Measure;

/// The least of the numbers of ticks that bound windows of the levels of a routine, else the cap.
pub(crate) fn least_most(system: &System, mosts: &[u32], routine: usize) -> u32
    ensures { IsSomeMost system.now mosts.now routine result }
{
    let mut least = CAP;
    for level in 0..mosts.len() {
        let most = mosts[level];
        let goes = goes_at(system, level, routine);
        if goes && most < least {
            least = most;
        }
    }
    least
}

/// Whether an instruction ends the run.
fn is_shutdown(instr: &Instr) -> bool
    ensures { result ≡ is_shutdown instr.now }
{
    match instr {
        Instr::Control(control) => match control {
            Control::ShutdownOs(_) => true,
            _ => false,
        },
        _ => false,
    }
}

/// Whether who is at the node of a number may end the run.
fn ends(system: &System, node: &Node) -> bool
    ensures { result ≡ ends system.now (node_by node.now) }
{
    is_shutdown(&instruction_of(system, node))
}

/// Whether who is at a node may end the run; at false nobody does.
pub(crate) fn may_end(system: &System, graph: &Graph) -> bool
    ensures { result ≡ false → may_end system.now (table_of graph.now) ≡ false }
{
    for number in 0..node_count(graph) {
        if ends(system, &graph.nodes[number]) {
            return true;
        }
    }
    false
}

/// Whether all is so that is told of for how long an interrupt is pending, by how many instructions
/// its routine executes at least.
fn latency_is_told(peaks: &Peaks, most: u32, ends: bool, count: u32, routine: usize) -> bool
    ensures { IsTrue result → LatencyIsTold peaks.now most ends count routine }
{
    let latency = told(peaks, Measure::Latency, routine);
    if ends && latency < 1 {
        return false;
    }
    if latency >= CAP || most <= latency {
        return true;
    }
    most < CAP && !ends && most - latency <= count
}

/// Whether a rule keeps interrupts of a routine so many ticks apart.
fn keeps_apart(rule: &ArrivalRule, routine: usize, most: u32) -> bool
    ensures { IsTrue result → KeepsRoutineApart rule.now routine most }
{
    if rule.routine.number() as usize != routine {
        return false;
    }
    let ticks = u64::from(most) + u64::from(rule.slack);
    ticks.saturating_sub(1) <= u64::from(rule.period)
}

/// Whether one of the rules does.
pub(crate) fn are_kept_apart(rules: &[ArrivalRule], routine: usize, most: u32) -> bool
    ensures { IsTrue result → AreKeptApart rules.now routine most }
{
    for number in 0..rules.len() {
        if keeps_apart(&rules[number], routine, most) {
            return true;
        }
    }
    false
}

/// Whether all is so that is told of interrupts that are lost.
fn loss_is_told(peaks: &Peaks, rules: &[ArrivalRule], most: u32, routine: usize) -> bool
    ensures { IsTrue result → LossIsTold peaks.now rules.now most routine }
{
    if told(peaks, Measure::Loss, routine) >= 1 {
        return true;
    }
    most < CAP && are_kept_apart(rules, routine, most)
}

/// Whether all is so that is told of a routine, by how many instructions it executes at least.
fn routine_is_told(
    system: &System,
    rules: &[ArrivalRule],
    peaks: &Peaks,
    mosts: &[u32],
    ends: bool,
    count: u32,
    routine: usize,
) -> bool
    ensures { IsTrue result
        → RoutineIsTold system.now rules.now peaks.now mosts.now ends count routine }
{
    let most = least_most(system, mosts, routine);
    if !latency_is_told(peaks, most, ends, count, routine) {
        return false;
    }
    loss_is_told(peaks, rules, most, routine)
}

/// Whether all is so that is told of routines, by how many instructions each executes at least.
pub(crate) fn routines_are_told(
    system: &System,
    rules: &[ArrivalRule],
    peaks: &Peaks,
    mosts: &[u32],
    ends: bool,
    counts: &[u32],
) -> bool
    ensures { IsTrue result → RoutinesAreTold system.now rules.now peaks.now mosts.now ends
        counts.now (length system.now.routines) }
{
    for routine in 0..system.routine_count() {
        let count = count_at(counts, routine);
        if !routine_is_told(system, rules, peaks, mosts, ends, count, routine) {
            return false;
        }
    }
    true
}
