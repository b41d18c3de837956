//! What an analysis tells of all runs of a system.

ghost use Rattle.std.specs.Prelude.{IfOk, IfSome};
ghost use Rattle.analysis_nodes.specs.Graph.{IsGraph};
ghost use Rattle.law_bounds.specs.Bounds.{AreBounds};
ghost use Rattle.analysis_bounds.specs.declared.levels.TheConstants.{CAP};
ghost use Rattle.analysis_bounds.specs.Analysed.{BoundsAll};
ghost use Rattle.analysis_bounds.specs.Windows.{AreMosts};

use crate::expiring::{Alarms, alarms_of};
use crate::figures::peaks_of;
use crate::lengths::routine_lengths;
use crate::levels::{CAP, LevelWindow, levels_of};
use crate::starts::may_end;
use crate::told::are_told;
use analysis_nodes::{Graph, graph_of};
use arrival_rules::ArrivalRule;
use law_analysis::analyses_bound;
use osek_base::{ModeId, System};
use search_peaks::Peaks;
use std::alloc::{AllocError, Global};

/// No graph is made of more nodes.
pub const MAX_NODES: usize = 200_000;

/// What an analysis tells.
#[derive(Drop)]
pub struct Analysis {
    /// By falling numbers: levels among routines, the one just above all tasks, of which all
    /// routines are, and those of the tasks by their priorities.
    pub levels: Vec<LevelWindow>,
    /// Where runs come to.
    pub graph: Graph,
    /// What is known of alarms.
    pub alarms: Alarms,
    /// What no run exceeds, where a time is below the cap.
    pub peaks: Peaks,
    /// A time that reaches it isn't told, in ticks.
    pub cap: u32,
}

/// More nodes are needed than [`MAX_NODES`].
#[derive(Drop)]
pub struct TooMany;

/// The figures of all runs, by the ticks of windows of levels by priority; None, which isn't seen,
/// where they aren't so. An error is want of memory.
fn checked_peaks(
    alloc: Global,
    system: &System,
    mode: ModeId,
    rules: &[ArrivalRule],
    graph: &Graph,
    mosts: &[u32],
) -> Result<Option<Peaks>, AllocError>
    requires graph { IsGraph system.now graph.now }
    requires mosts { AreMosts system.now mode rules.now CAP mosts.now }
    ensures { IfOk result (λ found. IfSome found (AreBounds system.now mode rules.now CAP)) }
{
    system.shows_proper();
    analyses_bound();
    let ends = may_end(system, graph);
    let counts = routine_lengths(alloc, system, graph)?;
    let peaks = peaks_of(alloc, system, mode, rules, graph, mosts, ends, &counts)?;
    if !are_told(alloc, system, mode, rules, graph, mosts, &counts, &peaks)? {
        return Ok(None);
    }
    Ok(Some(peaks))
}

/// What is told of a graph; None where that isn't so.
fn analysis_of(
    alloc: Global,
    system: &System,
    mode: ModeId,
    rules: &[ArrivalRule],
    graph: Graph,
) -> Result<Option<Analysis>, AllocError>
    requires graph { IsGraph system.now graph }
    ensures { IfOk result (λ found. IfSome found (BoundsAll system.now mode rules.now)) }
{
    let Some(alarms) = alarms_of(alloc, system, mode, &graph)? else {
        return Ok(None);
    };
    let found = levels_of(alloc, system, mode, rules, &graph, &alarms)?;
    let Some(peaks) = checked_peaks(alloc, system, mode, rules, &graph, &found.mosts)? else {
        return Ok(None);
    };
    Ok(Some(Analysis {
        levels: found.levels,
        graph,
        alarms,
        peaks,
        cap: CAP,
    }))
}

/// Bounds the figures of every run of a system in a mode, whatever interrupts arrive whose rules
/// are kept, by counting. An error is want of memory.
pub fn analyse(
    alloc: Global,
    system: &System,
    mode: ModeId,
    rules: &[ArrivalRule],
) -> Result<Result<Analysis, TooMany>, AllocError>
    ensures { IfOk result (λ found. IfOk found (BoundsAll system.now mode rules.now)) }
{
    let Some(graph) = graph_of(alloc, system, MAX_NODES)? else {
        return Ok(Err(TooMany));
    };
    match analysis_of(alloc, system, mode, rules, graph)? {
        None => Ok(Err(TooMany)),
        Some(analysis) => Ok(Ok(analysis)),
    }
}
