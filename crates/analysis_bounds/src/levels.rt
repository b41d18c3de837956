//! Windows of all levels of a system.

ghost use Rattle.std.specs.Prelude.{◌≡◌, IfOk, slice_set};
ghost use Rattle.analysis_nodes.specs.Graph.{IsGraph};
ghost use Rattle.analysis_bounds.specs.Pacing.{AreKnown};
ghost use Rattle.analysis_bounds.specs.Windows.{AreMosts, AreUnknown, MostOf};
ghost use Rattle.analysis_bounds.specs.declared.levels.TheConstants.{CAP};

use crate::expiring::Alarms;
use crate::standing::{level_of_routine, priority_of};
use crate::window::{MAX_WINDOW, Window, window_of};
use analysis_nodes::Graph;
use arrival_rules::ArrivalRule;
use osek_base::{MAX_ROUTINE_PRIORITY, MAX_TASK_PRIORITY, ModeId, System};
use std::alloc::{AllocError, Global};

/// A time that reaches it isn't told, in ticks.
pub const CAP: u32 = MAX_WINDOW + 1;

/// How many numbers levels may have: the priorities of tasks, the next number above them, and as
/// many more as priorities of routines differ.
const LEVELS: u8 = MAX_TASK_PRIORITY + MAX_ROUTINE_PRIORITY + 2;

/// A level by its number: a static priority of tasks, or above them top + 1 + the PRIORITY of a
/// routine.
#[derive(Drop)]
pub struct LevelWindow {
    pub priority: u8,
    pub window: Window,
}

/// The levels of a system, and what they come to by number.
#[derive(Drop)]
pub(crate) struct Levels {
    pub(crate) levels: Vec<LevelWindow>,
    /// By number, how many ticks windows have at most; the cap where that isn't known.
    pub(crate) mosts: Vec<u32>,
}

/// The most of a window, the cap where there is none.
fn most_of(window: &Window) -> u32
    ensures { MostOf window.now result }
{
    match window {
        Window::Bounded { most, .. } => *most,
        Window::Unbounded(_) => CAP,
    }
}

/// Whether a task has a priority.
fn has_priority(system: &System, priority: u8) -> bool {
    for task in 0..system.task_count() {
        if priority_of(system, task) == priority {
            return true;
        }
    }
    false
}

/// Of no priority it is known.
fn no_mosts(alloc: Global) -> Result<Vec<u32>, AllocError>
    ensures { IfOk result (λ mosts. AreUnknown mosts.items) }
{
    let mut mosts = Vec::new(alloc);
    for _ in 0..LEVELS {
        mosts.push(CAP)?;
    }
    Ok(mosts)
}

/// Sets the most of a priority.
fn set_most(mosts: &mut Vec<u32>, priority: u8, most: u32)
    ensures { mosts.new.items ≡ slice_set mosts.old.items priority most }
{
    let number = usize::from(priority);
    if number < mosts.len() {
        mosts[number] = most;
    }
}

/// Whether a routine has a level, and another one is below it.
fn has_routine(system: &System, number: u8) -> bool {
    let mut has = false;
    let mut is_least = true;
    for routine in 0..system.routine_count() {
        let level = level_of_routine(system, routine);
        has = has || level == usize::from(number);
        is_least = is_least && level >= usize::from(number);
    }
    has && !is_least
}

/// Whether there is a level of a number: one that tasks have, the next one above all tasks, and
/// those among routines, of which the least is the one just above all tasks.
fn is_level(system: &System, number: u8) -> bool {
    let top = system.top_priority();
    number == top.saturating_add(1) || has_priority(system, number) || has_routine(system, number)
}

/// Adds the level of a number, if there is one.
fn add_level(
    alloc: Global,
    system: &System,
    mode: ModeId,
    rules: &[ArrivalRule],
    graph: &Graph,
    alarms: &Alarms,
    priority: u8,
    levels: &mut Vec<LevelWindow>,
    mosts: &mut Vec<u32>,
) -> Result<(), AllocError>
    requires graph { IsGraph system.now graph.now }
    requires alarms { AreKnown system.now mode graph.now alarms.now }
    ensures { IfOk result (λ _. AreMosts system.now mode rules.now CAP mosts.old.items
        → AreMosts system.now mode rules.now CAP mosts.new.items) }
{
    if !is_level(system, priority) {
        return Ok(());
    }
    let window = window_of(alloc, system, mode, rules, graph, alarms, priority)?;
    set_most(mosts, priority, most_of(&window));
    levels.push(LevelWindow { priority, window })?;
    Ok(())
}

/// All levels by falling numbers: those among routines, the one just above all tasks, and those of
/// the tasks. An error is want of memory.
pub(crate) fn levels_of(
    alloc: Global,
    system: &System,
    mode: ModeId,
    rules: &[ArrivalRule],
    graph: &Graph,
    alarms: &Alarms,
) -> Result<Levels, AllocError>
    requires graph { IsGraph system.now graph.now }
    requires alarms { AreKnown system.now mode graph.now alarms.now }
    ensures { IfOk result (λ found. AreMosts system.now mode rules.now CAP found.mosts.items) }
{
    let mut levels = Vec::new(alloc);
    let mut mosts = no_mosts(alloc)?;
    for down in 0..LEVELS {
        add_level(
            alloc,
            system,
            mode,
            rules,
            graph,
            alarms,
            LEVELS - 1 - down,
            &mut levels,
            &mut mosts,
        )?;
    }
    Ok(Levels { levels, mosts })
}
