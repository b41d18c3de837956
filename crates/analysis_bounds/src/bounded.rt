//! Bounds of a level by its windows one by one.

ghost use Rattle.std.specs.Prelude.{◌≡◌, IfSome};
ghost use Rattle.law_windows.specs.Analysis.{IsBoundOf};
ghost use Rattle.analysis_nodes.specs.Graph.{IsGraph};
ghost use Rattle.analysis_bounds.specs.Pacing.{AreKnown};

use crate::begins::Longest;
use crate::expiring::Alarms;
use crate::known_ticks::longest_of;
use crate::level::Level;
use crate::prices::prices_pay;
use analysis_nodes::{Graph, graphs_are_closed};
use arrival_rules::ArrivalRule;
use law_nodes::prices_bound_at_known_ticks;
use osek_base::{ModeId, System};

/// A bound of a level by the known ticks in which its alarms expire: where prices pay, and windows
/// that begin before the end of a round have so many ticks at most; None where that isn't known.
pub(crate) fn bound_at_known_ticks(
    system: &System,
    mode: ModeId,
    rules: &[ArrivalRule],
    graph: &Graph,
    alarms: &Alarms,
    level: &Level,
) -> Option<Longest>
    requires graph { IsGraph system.now graph.now }
    requires alarms { AreKnown system.now mode graph.now alarms.now }
    ensures { IfSome result
        (λ longest. IsBoundOf system.now mode rules.now level.now.priority longest.most) }
{
    system.shows_proper();
    graphs_are_closed();
    prices_bound_at_known_ticks();
    if !prices_pay(system, mode, graph, level) {
        return None;
    }
    longest_of(system, rules, &alarms.timings, level)
}
