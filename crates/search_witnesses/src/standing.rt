//! OSEK/VDX OS: task management, task state model. Whether a job of a task stands, and stays.

ghost use Rattle.std.specs.Prelude.{IsTrue};
ghost use Rattle.search_labels.specs.Ticks.{task_tick};
ghost use Rattle.seen_ticks.specs.Seen.{seen_of};
ghost use Rattle.search_witnesses.specs.Walks.{IsStanding};

use search_labels::task_tick;
use seen_ticks::Observation;

/// Whether a job of a task stands ready or runs in a tick, and the oldest neither ends nor begins
/// to wait.
pub(crate) fn is_standing(seen: &Observation, task: usize) -> bool
    ensures { IsTrue result → IsStanding (task_tick (seen_of seen.now) task) }
{
    let tick = task_tick(seen, task);
    tick.standing() > 0 && !tick.leaves()
}
