//! OSEK/VDX OS: alarms, counters and alarm management. What is known of alarms in all levels.

ghost use Rattle.std.specs.Prelude.{◌≡◌, IfOk, IfSome};
ghost use Rattle.analysis_nodes.specs.Graph.{IsGraph};
ghost use Rattle.analysis_bounds.specs.Pacing.{AreKnown};

use crate::pacing::{Pace, paces_of};
use crate::paying::may_pay;
use crate::slowness::{are_slow, least_counts};
use crate::timing::{Timing, timings_of};
use analysis_nodes::Graph;
use osek_base::{ModeId, System};
use std::alloc::{AllocError, Global};

/// What is known of alarms, by number.
#[derive(Drop)]
pub struct Alarms {
    /// By how many counts each is set at least.
    pub least: Vec<u32>,
    /// How often each expires.
    pub paces: Vec<Pace>,
    /// When each expires.
    pub timings: Vec<Timing>,
    /// Whether each may pay when it is set: programs set it, and it never gets a cycle.
    pub once: Vec<bool>,
}

/// What is known of the alarms of a system in a mode; None, which isn't seen, where it isn't so. An
/// error is want of memory.
pub fn alarms_of(
    alloc: Global,
    system: &System,
    mode: ModeId,
    graph: &Graph,
) -> Result<Option<Alarms>, AllocError>
    ensures { IfOk result (λ found. IfSome found (AreKnown system.now mode graph.now)) }
{
    let least = least_counts(alloc, system, mode, graph)?;
    if !are_slow(system, mode, graph, &least) {
        return Ok(None);
    }
    let paces = paces_of(alloc, system, mode, &least)?;
    let timings = timings_of(alloc, system, mode, &least)?;
    let once = may_pay(alloc, system, mode, graph)?;
    Ok(Some(Alarms {
        least,
        paces,
        timings,
        once,
    }))
}
