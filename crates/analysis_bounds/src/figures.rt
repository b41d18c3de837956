//! What is told of each figure. That all of it is so is checked where it is read.

ghost use Rattle.std.specs.Prelude.{◌<◌, length};

use crate::levels::CAP;
use crate::pacing::count_at;
use crate::refusals::{note_refusals, raise};
use crate::refusing::{is_accepted, is_action_accepted};
use crate::starts::{are_kept_apart, least_most};
use crate::told::{may_take, response_of};
use analysis_nodes::Graph;
use arrival_rules::ArrivalRule;
use osek_base::{ModeId, System};
use search_peaks::Peaks;
use std::alloc::{AllocError, Global};
use view_measures::{Measure, held_count};

/// Of tasks: a job is READY or RUNNING for no longer than a window of its level, blocked for no
/// longer, and of what isn't looked at as much may be as always.
fn raise_tasks(system: &System, mosts: &[u32], peaks: &mut Peaks) {
    for task in 0..system.task_count() {
        let response = response_of(system, mosts, task);
        let own = &system.parts().tasks[task];
        let jobs = u32::from(own.activation);
        raise(peaks, Measure::Response, task, response);
        raise(peaks, Measure::Blocked, task, response);
        raise(peaks, Measure::Jobs, task, jobs);
        raise(peaks, Measure::Blockers, task, 1);
    }
}

/// Of refused activations, by tasks and by the alarms whose actions they are: one each where it
/// isn't known that none is.
fn raise_refusals(
    system: &System,
    mode: ModeId,
    rules: &[ArrivalRule],
    mosts: &[u32],
    peaks: &mut Peaks,
) {
    for task in 0..system.task_count() {
        if !is_accepted(system, mode, rules, mosts, task) {
            raise(peaks, Measure::Refusal, task, 1);
        }
    }
    for alarm in 0..system.alarm_count() {
        if !is_action_accepted(system, peaks, alarm) {
            raise(peaks, Measure::RefusedAction, alarm, 1);
        }
    }
}

/// Of a resource: a job holds it for no longer than it is READY or RUNNING.
fn longest_hold(system: &System, mosts: &[u32], resource: usize) -> u32 {
    let mut longest = 0;
    for task in 0..system.task_count() {
        if may_take(system, task, resource) {
            longest = longest.max(response_of(system, mosts, task));
        }
    }
    longest
}

fn raise_holds(system: &System, mosts: &[u32], peaks: &mut Peaks) {
    for resource in 0..held_count(system) {
        let longest = longest_hold(system, mosts, resource);
        raise(peaks, Measure::Hold, resource, longest);
    }
}

/// For how many ticks an interrupt is pending at most: where no run ends, the instructions that its
/// routine executes at least lie in the window too.
fn latency_of(most: u32, ends: bool, count: u32) -> u32 {
    if ends || most >= CAP {
        most
    } else {
        most.saturating_sub(count)
    }
}

/// Of routines: an interrupt is pending for no longer than the shortest window of the levels of its
/// routine.
fn raise_routines(
    system: &System,
    rules: &[ArrivalRule],
    mosts: &[u32],
    ends: bool,
    counts: &[u32],
    peaks: &mut Peaks,
) {
    for routine in 0..system.routine_count() {
        let most = least_most(system, mosts, routine);
        let latency = latency_of(most, ends, count_at(counts, routine));
        raise(peaks, Measure::Latency, routine, latency);
        if most >= CAP || !are_kept_apart(rules, routine, most) {
            raise(peaks, Measure::Loss, routine, 1);
        }
    }
}

/// All figures, by the ticks of windows of levels, whether who is at a node may end the run, and how
/// many instructions routines execute at least. An error is want of memory.
pub(crate) fn peaks_of(
    alloc: Global,
    system: &System,
    mode: ModeId,
    rules: &[ArrivalRule],
    graph: &Graph,
    mosts: &[u32],
    ends: bool,
    counts: &[u32],
) -> Result<Peaks, AllocError> {
    let mut peaks = Peaks::new(alloc);
    raise_tasks(system, mosts, &mut peaks);
    raise_holds(system, mosts, &mut peaks);
    raise_routines(system, rules, mosts, ends, counts, &mut peaks);
    raise_refusals(system, mode, rules, mosts, &mut peaks);
    if ends {
        raise(&mut peaks, Measure::Shutdown, 0, 1);
    }
    note_refusals(alloc, graph, &mut peaks)?;
    Ok(peaks)
}
