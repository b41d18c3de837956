//! What figures take of a system.

ghost use Rattle.std.specs.Prelude.{◌≡◌, ◌≤◌};
ghost use Rattle.view_figures.specs.FigureSums.{levels_of, held_count};

use arrayvec::ArrayVec;
use osek_base::{MAX_TASKS, System, TaskId};
use seen_ticks::MAX_HELD;

/// The static priorities of a system's tasks.
pub fn levels_of(system: &System) -> ArrayVec<u8, MAX_TASKS>
    ensures { result.items ≡ levels_of system.now }
{
    let mut levels = ArrayVec::new();
    for number in 0..system.task_count() {
        levels.push(system.priority_of(TaskId::new(number as u8)));
    }
    levels
}

/// How many resources can be held.
pub fn held_count(system: &System) -> usize
    ensures count { result ≡ held_count system.now }
    ensures few { result ≤ MAX_HELD }
{
    let declared = system.resource_count();
    if system.has_res_scheduler() {
        declared + 1
    } else {
        declared
    }
}
