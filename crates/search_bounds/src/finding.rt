//! The bounds of all runs of a system.

ghost use Rattle.std.specs.Prelude.{◌≡◌, IfOk};
ghost use Rattle.search_nodes.specs.Found.{
  AreFound,
  HoldsEnd,
  InterruptsStart,
  IsOfSearch,
  JobsEnd,
};

use crate::explorer::Explorer;
use arrival_rules::ArrivalRule;
use law_bounds::{
    bounded_holds_end, bounded_interrupts_start, bounded_jobs_end, levels_bound, searches_bound,
};
use osek_base::{ModeId, System};
use search::{Limits, search};
use search_needs::needed_data;
use search_nodes::{Bounds, Extent, Watch};
use std::alloc::{AllocError, Global};

/// Searches all states that a system comes to in a mode, whatever interrupts arrive that come at
/// least as many ticks apart as their routine's distance, 1 where none is given.
///
/// Where the search is decided, no run does worse than what it tells: after each number of ticks,
/// each figure of it is at most the peak, where that is below the cap, and nothing is lost or
/// refused that hasn't come. Where it isn't, this holds after as many ticks at most as the levels
/// that the search has done. Who watches is told how far it has come. An error is want of memory.
///
/// So where it is decided, each job of a task whose peak of responses is below the cap ends or
/// begins to wait within as many ticks of being ready, and each job that gets a resource whose peak
/// of holds is below it releases it within as many, unless the run ends before. A routine whose peak
/// of latencies is starts within as many ticks of each interrupt that isn't lost. And the outcome
/// tells how many nodes stand for all that can come, or why the search stopped.
pub fn find_bounds<W: Watch>(
    alloc: Global,
    system: &System,
    mode: ModeId,
    rules: &[ArrivalRule],
    extent: Extent,
    watch: &mut W,
) -> Result<Bounds, AllocError>
    ensures found { IfOk result (AreFound system.now mode rules.now) }
    ensures ends { IfOk result (JobsEnd system.now mode rules.now) }
    ensures starts { IfOk result (InterruptsStart system.now mode rules.now) }
    ensures releases { IfOk result (HoldsEnd system.now mode rules.now) }
    ensures searched { IfOk result (IsOfSearch system.now mode rules.now extent) }
    ensures cap { IfOk result (λ found. found.cap ≡ extent.cap) }
{
    system.shows_proper();
    searches_bound();
    levels_bound();
    bounded_jobs_end();
    bounded_interrupts_start();
    bounded_holds_end();
    searched_bounds(alloc, system, mode, rules, extent, watch)
}

/// What a search comes to, as [`find_bounds`] says of it.
fn searched_bounds<W: Watch>(
    alloc: Global,
    system: &System,
    mode: ModeId,
    rules: &[ArrivalRule],
    extent: Extent,
    watch: &mut W,
) -> Result<Bounds, AllocError>
    ensures searched { IfOk result (IsOfSearch system.now mode rules.now extent) }
    ensures cap { IfOk result (λ found. found.cap ≡ extent.cap) }
{
    system.shows_proper();
    let needs = needed_data(alloc, system)?;
    let mut explorer = Explorer::new(alloc, system, &needs, mode, rules, extent.cap, watch)?;
    let limits = Limits {
        nodes: extent.nodes,
        visits: extent.visits,
    };
    let searched = search(alloc, &mut explorer, limits);
    explorer.into_bounds(searched)
}
