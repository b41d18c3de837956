//! Windows of a level: how many ticks are enough.

ghost use Rattle.std.specs.Prelude.{◌≡◌, ◌≤◌, IfOk, IfSome, IsTrue};
ghost use Rattle.law_windows.specs.Analysis.{IsBoundOf};
ghost use Rattle.analysis_nodes.specs.Graph.{IsGraph};
ghost use Rattle.analysis_bounds.specs.Coming.{AreAllPeriodic};
ghost use Rattle.analysis_bounds.specs.Levels.{IsCounted};
ghost use Rattle.analysis_bounds.specs.Pacing.{AreKnown};
ghost use Rattle.analysis_bounds.specs.Windows.{IsWindowOf};

use crate::bounded::bound_at_known_ticks;
use crate::circles::NoBound;
use crate::coming::{are_enough, are_periodic, most_cost};
use crate::counting::count_level;
use crate::expiring::Alarms;
use crate::level::Level;
use crate::paying::{is_any, none_of, paying_at};
use crate::prices::prices_pay;
use analysis_nodes::{Graph, graphs_are_closed};
use arrival_rules::ArrivalRule;
use law_nodes::prices_bound_responses;
use osek_base::{ModeId, System};
use std::alloc::{AllocError, Global};

/// No window is tried of more ticks.
pub const MAX_WINDOW: u32 = 1_000_000;

/// What is known of the windows of a level.
#[derive(Drop)]
pub enum Window {
    /// None has more ticks than the most. One that has so many begins in that tick, if they were
    /// looked at one by one.
    Bounded {
        level: Level,
        most: u32,
        from: Option<u32>,
    },
    Unbounded(NoBound),
}

/// The most ticks of windows, and in which tick one that has so many begins, if that is known.
#[derive(Clone, Copy)]
struct Bound {
    most: u32,
    from: Option<u32>,
}

/// The ticks that are needed for what may be left where a window begins and for what comes in so
/// many; None above 2^64.
fn needed_ticks(
    system: &System,
    rules: &[ArrivalRule],
    alarms: &Alarms,
    level: &Level,
    count: u32,
) -> Option<u64>
    requires { AreAllPeriodic rules.now }
{
    let more = most_cost(system, rules, &alarms.paces, level, count)?;
    let left = level.at_boot.max(level.at_begin);
    left.checked_add(more)
}

/// The least number of ticks that are enough for themselves, if it is no more than the greatest one
/// that is tried.
fn least_ticks(
    system: &System,
    rules: &[ArrivalRule],
    alarms: &Alarms,
    level: &Level,
) -> Option<u32>
    requires { AreAllPeriodic rules.now }
{
    let mut ticks: u32 = 1;
    for _ in 0..MAX_WINDOW {
        let needed = needed_ticks(system, rules, alarms, level, ticks)?;
        if needed <= u64::from(ticks) {
            return Some(ticks);
        }
        if needed > u64::from(MAX_WINDOW) {
            return None;
        }
        ticks = needed as u32;
    }
    None
}

/// How many ticks are enough for the windows of a level, if so many are.
fn ticks_of(system: &System, rules: &[ArrivalRule], alarms: &Alarms, level: &Level) -> Option<u32> {
    if !are_periodic(rules) {
        return None;
    }
    least_ticks(system, rules, alarms, level)
}

/// Whether prices pay and so many ticks are enough; at true they bound what lies in windows.
fn is_bound(
    system: &System,
    mode: ModeId,
    rules: &[ArrivalRule],
    graph: &Graph,
    alarms: &Alarms,
    level: &Level,
    most: u32,
) -> bool
    requires graph { IsGraph system.now graph.now }
    requires alarms { AreKnown system.now mode graph.now alarms.now }
    ensures { IsTrue result → IsBoundOf system.now mode rules.now level.now.priority most }
{
    system.shows_proper();
    graphs_are_closed();
    prices_bound_responses();
    if !prices_pay(system, mode, graph, level) {
        return false;
    }
    are_enough(
        system,
        mode,
        rules,
        level,
        &alarms.least,
        &alarms.paces,
        most,
    )
}

/// A bound of a level by what may come anywhere in its windows, if there is one.
fn bound_anywhere(
    system: &System,
    mode: ModeId,
    rules: &[ArrivalRule],
    graph: &Graph,
    alarms: &Alarms,
    level: &Level,
) -> Option<Bound>
    requires graph { IsGraph system.now graph.now }
    requires alarms { AreKnown system.now mode graph.now alarms.now }
    ensures { IfSome result
        (λ bound. IsBoundOf system.now mode rules.now level.now.priority bound.most) }
{
    let most = ticks_of(system, rules, alarms, level)?;
    if !is_bound(system, mode, rules, graph, alarms, level, most) {
        return None;
    }
    Some(Bound { most, from: None })
}

/// A bound of a level: by its windows one by one, which is never worse, or by what may come
/// anywhere.
fn bound_of(
    system: &System,
    mode: ModeId,
    rules: &[ArrivalRule],
    graph: &Graph,
    alarms: &Alarms,
    level: &Level,
) -> Option<Bound>
    requires graph { IsGraph system.now graph.now }
    requires alarms { AreKnown system.now mode graph.now alarms.now }
    ensures { IfSome result
        (λ bound. IsBoundOf system.now mode rules.now level.now.priority bound.most) }
{
    match bound_at_known_ticks(system, mode, rules, graph, alarms, level) {
        Some(longest) => {
            Some(Bound {
                most: longest.most,
                from: Some(longest.begin),
            })
        }
        None => bound_anywhere(system, mode, rules, graph, alarms, level),
    }
}

/// What is known of the windows of a level that is counted.
fn window_by(
    system: &System,
    mode: ModeId,
    rules: &[ArrivalRule],
    graph: &Graph,
    alarms: &Alarms,
    priority: u8,
    level: Level,
) -> Window
    requires graph { IsGraph system.now graph.now }
    requires alarms { AreKnown system.now mode graph.now alarms.now }
    ensures { IsWindowOf system.now mode rules.now priority result }
{
    let Some(bound) = bound_of(system, mode, rules, graph, alarms, &level) else {
        return Window::Unbounded(NoBound::Overload { level });
    };
    if level.priority != priority {
        return Window::Unbounded(NoBound::Overload { level });
    }
    Window::Bounded {
        level,
        most: bound.most,
        from: bound.from,
    }
}

/// .. where some alarms pay when they are set.
fn window_with(
    alloc: Global,
    system: &System,
    mode: ModeId,
    rules: &[ArrivalRule],
    graph: &Graph,
    alarms: &Alarms,
    priority: u8,
    paying: &[bool],
) -> Result<Window, AllocError>
    requires graph { IsGraph system.now graph.now }
    requires alarms { AreKnown system.now mode graph.now alarms.now }
    ensures { IfOk result (IsWindowOf system.now mode rules.now priority) }
{
    match count_level(alloc, system, mode, graph, priority, paying)? {
        Ok(level) => Ok(window_by(system, mode, rules, graph, alarms, priority, level)),
        Err(why) => Ok(Window::Unbounded(why)),
    }
}

/// Whether a window is bounded, and the other one isn't shorter.
fn is_no_longer(one: &Window, other: &Window) -> bool {
    match one {
        Window::Unbounded(_) => false,
        Window::Bounded { most: few, .. } => match other {
            Window::Unbounded(_) => true,
            Window::Bounded { most, .. } => few <= most,
        },
    }
}

/// A bound of the windows of the level of a priority, whatever interrupts arrive that keep the
/// rules; or why there is none. Alarms pay when they are set, or for each expiry: by what is
/// shorter. An error is want of memory.
pub fn window_of(
    alloc: Global,
    system: &System,
    mode: ModeId,
    rules: &[ArrivalRule],
    graph: &Graph,
    alarms: &Alarms,
    priority: u8,
) -> Result<Window, AllocError>
    requires graph { IsGraph system.now graph.now }
    requires alarms { AreKnown system.now mode graph.now alarms.now }
    ensures { IfOk result (IsWindowOf system.now mode rules.now priority) }
{
    let paying = paying_at(alloc, system, graph, priority, &alarms.once)?;
    let when_set = window_with(alloc, system, mode, rules, graph, alarms, priority, &paying)?;
    if !is_any(&paying) {
        return Ok(when_set);
    }
    let none = none_of(alloc, paying.len())?;
    let each_time = window_with(alloc, system, mode, rules, graph, alarms, priority, &none)?;
    if is_no_longer(&each_time, &when_set) {
        Ok(each_time)
    } else {
        Ok(when_set)
    }
}
