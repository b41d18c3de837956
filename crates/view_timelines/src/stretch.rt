//! Ticks that show the same, one after the other.

ghost use Rattle.std.specs.Prelude.{◌≡◌};
ghost use Rattle.view_timelines.specs.Stretches.{one_tick, longer};

use crate::moment::Moment;

/// A run of ticks in which a row shows the same.
#[derive(Clone, Copy)]
pub struct Stretch {
    pub moment: Moment,
    /// The number of its first tick.
    pub first: u32,
    /// The number of its last tick.
    pub last: u32,
}

impl Stretch {
    /// One tick.
    pub fn new(tick: u32, moment: Moment) -> Self
        ensures { result ≡ one_tick tick moment }
    {
        Stretch {
            moment,
            first: tick,
            last: tick,
        }
    }

    /// The stretch, on to a later tick.
    pub fn until(self, tick: u32) -> Self
        ensures { result ≡ longer tick self }
    {
        Stretch { last: tick, ..self }
    }
}
