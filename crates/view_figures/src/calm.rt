//! Ticks in which nothing comes to a thing, though it may do something: what the next such tick
//! adds is known.

ghost use Rattle.std.specs.Prelude.{◌≡◌};
ghost use Rattle.view_figures.specs.Calm.{is_calm_routine};

use crate::routine_figures::RoutineTick;

/// Whether in a tick no interrupt of a routine arrives, it isn't started, and it isn't answered an
/// error.
pub fn is_calm_routine(tick: &RoutineTick) -> bool
    ensures { result ≡ is_calm_routine tick.now }
{
    let is_left = !tick.seen.is_started && !tick.has_failed;
    is_left && tick.seen.arrived == 0 && tick.seen.lost == 0
}
