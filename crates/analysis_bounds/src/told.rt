//! Whether all is so that is told: figure by figure, as it is read.

ghost use Rattle.std.specs.Prelude.{◌≡◌, ◌<◌, ◌||◌, IfOk, IsTrue, length, nat_le, nat_lt, not};
ghost use Rattle.osek_base.specs.Service.{may_take};
ghost use Rattle.law_future.specs.Spans.{resource_of};
ghost use Rattle.view_figures.specs.FigureSums.{held_count};
ghost use Rattle.view_measures.specs.Measures.{figure};
ghost use Rattle.search_peaks.specs.Peaks.{told};
ghost use Rattle.law_analysis.specs.Told.{AreAnalysed};
ghost use Rattle.analysis_nodes.specs.Graph.{IsGraph, table_of};
ghost use Rattle.analysis_bounds.specs.declared.levels.TheConstants.{CAP};
ghost use Rattle.analysis_bounds.specs.Lengths.{AreLasting};
ghost use Rattle.analysis_bounds.specs.Told.{
  EndIsTold,
  HoldIsTold,
  HoldsAreTold,
  IsResponse,
  JobsAreTold,
  TasksAreTold,
  TimesAreTold,
};
ghost use Rattle.analysis_bounds.specs.Windows.{AreMosts};

use crate::levels::CAP;
use crate::refusals::{keys_of, nodes_are_told};
use crate::refusing::refusals_are_told;
use crate::standing::priority_of;
use crate::starts::{may_end, routines_are_told};
use analysis_nodes::{Graph, graphs_are_closed};
use arrival_rules::ArrivalRule;
use law_analysis::long_routines_start_early;
use osek_base::{ModeId, ResourceNumber, System};
use search_peaks::Peaks;
use std::alloc::{AllocError, Global};
use view_measures::{Figure, Measure, held_count};

/// The number of a figure.
pub(crate) fn told(peaks: &Peaks, measure: Measure, number: usize) -> u32
    ensures { result ≡ told peaks.now (figure measure number) }
{
    peaks.told(Figure { measure, number })
}

/// Whether a number isn't told, or is no less than another.
fn covers(number: u32, other: u32) -> bool
    ensures { result ≡ (not (nat_lt number CAP) || nat_le other number) }
{
    number >= CAP || other <= number
}

/// How many ticks the windows of a task's level have at most, the cap where that isn't known.
pub(crate) fn response_of(system: &System, mosts: &[u32], task: usize) -> u32
    ensures { IsResponse system.now mosts.now task result }
{
    let priority = usize::from(priority_of(system, task));
    if priority < mosts.len() {
        mosts[priority]
    } else {
        CAP
    }
}

/// Whether all is so that is told of the times of a task.
fn times_are_told(system: &System, peaks: &Peaks, mosts: &[u32], task: usize) -> bool
    ensures { IsTrue result → TimesAreTold system.now peaks.now mosts.now task }
{
    let response = told(peaks, Measure::Response, task);
    if !covers(response, response_of(system, mosts, task)) {
        return false;
    }
    covers(told(peaks, Measure::Blocked, task), response)
}

/// Whether all is so that is told of the jobs of a task.
fn jobs_are_told(system: &System, peaks: &Peaks, task: usize) -> bool
    requires { task < length system.now.tasks }
    ensures { IsTrue result → JobsAreTold system.now peaks.now task }
{
    let own = &system.parts().tasks[task];
    if u32::from(own.activation) > told(peaks, Measure::Jobs, task) {
        return false;
    }
    told(peaks, Measure::Blockers, task) >= 1
}

/// Whether all is so that is told of tasks.
fn tasks_are_told(system: &System, peaks: &Peaks, mosts: &[u32]) -> bool
    ensures { IsTrue result
        → TasksAreTold system.now peaks.now mosts.now (length system.now.tasks) }
{
    for task in 0..system.task_count() {
        if !times_are_told(system, peaks, mosts, task) {
            return false;
        }
        if !jobs_are_told(system, peaks, task) {
            return false;
        }
    }
    true
}

/// Whether a task may take a resource.
pub(crate) fn may_take(system: &System, task: usize, resource: usize) -> bool
    requires { task < length system.now.tasks }
    ensures { result ≡ may_take system.now task (resource_of system.now resource) }
{
    if resource < system.resource_count() {
        let own = &system.parts().tasks[task];
        own.lists(ResourceNumber::new(resource as u8))
    } else {
        true
    }
}

/// Whether all is so that is told of how long a resource is held.
fn hold_is_told(system: &System, peaks: &Peaks, resource: usize) -> bool
    ensures { IsTrue result
        → HoldIsTold system.now peaks.now resource (length system.now.tasks) }
{
    let hold = told(peaks, Measure::Hold, resource);
    for task in 0..system.task_count() {
        if may_take(system, task, resource) && !covers(hold, told(peaks, Measure::Response, task)) {
            return false;
        }
    }
    true
}

/// .. of all resources.
fn holds_are_told(system: &System, peaks: &Peaks) -> bool
    ensures { IsTrue result → HoldsAreTold system.now peaks.now (held_count system.now) }
{
    for resource in 0..held_count(system) {
        if !hold_is_told(system, peaks, resource) {
            return false;
        }
    }
    true
}

/// Whether it is told that who is at a node may end the run, if so.
fn end_is_told(peaks: &Peaks, ends: bool) -> bool
    ensures { IsTrue result → EndIsTold peaks.now ends }
{
    !ends || told(peaks, Measure::Shutdown, 0) >= 1
}

/// Whether all is so that is told, by the ticks of windows of levels by priority and by how many
/// instructions routines execute at least; at true it bounds the figures of every run. An error is
/// want of memory.
pub(crate) fn are_told(
    alloc: Global,
    system: &System,
    mode: ModeId,
    rules: &[ArrivalRule],
    graph: &Graph,
    mosts: &[u32],
    counts: &[u32],
    peaks: &Peaks,
) -> Result<bool, AllocError>
    requires graph { IsGraph system.now graph.now }
    requires mosts { AreMosts system.now mode rules.now CAP mosts.now }
    requires counts { AreLasting system.now counts.now }
    ensures { IfOk result (λ so. IsTrue so
        → AreAnalysed system.now mode rules.now CAP (table_of graph.now) peaks.now) }
{
    system.shows_proper();
    graphs_are_closed();
    long_routines_start_early();
    let ends = may_end(system, graph);
    let keys = keys_of(alloc, peaks.failures())?;
    if !tasks_are_told(system, peaks, mosts) {
        return Ok(false);
    }
    if !holds_are_told(system, peaks) {
        return Ok(false);
    }
    if !routines_are_told(system, rules, peaks, mosts, ends, counts) {
        return Ok(false);
    }
    if !refusals_are_told(system, mode, rules, mosts, peaks) {
        return Ok(false);
    }
    if !end_is_told(peaks, ends) {
        return Ok(false);
    }
    Ok(nodes_are_told(graph, peaks, &keys))
}
