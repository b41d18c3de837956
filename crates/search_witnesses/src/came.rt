//! OSEK/VDX OS: interrupt processing, category 2. Which arrivals have come.

ghost use Rattle.std.specs.Prelude.{◌≡◌, ◌≤◌, ◌+◌, map, slice_range};
ghost use Rattle.kernel.specs.Progress.{AreLeft};
ghost use Rattle.osek_base.specs.Trace.{arriving};

use osek_base::Arrival;

/// How many of a list have come by the end of a tick, where so many had before it.
pub(crate) fn came_by(list: &[Arrival], came: usize, tick: u32) -> usize
    requires { AreLeft list.now came tick }
    ensures these { arriving list.now tick
        ≡ slice_range (map (λ a. a.routine) list.now) came result }
    ensures left { AreLeft list.now result (tick + 1) }
    ensures forward { came ≤ result }
{
    let mut next = came;
    while next < list.len() && list[next].tick == tick {
        next += 1;
    }
    next
}
