//! OSEK/VDX OS: interrupt processing, category 2. Arrivals that come once more.

ghost use Rattle.std.specs.Prelude.{◌≡◌, ◌≤◌, ◌<◌, IfOk, IfSome, IsTrue};
ghost use Rattle.std.specs.List.{AllByRecursion};
ghost use Rattle.osek_base.specs.declared.arrivals.Arrival.{Arrival};
ghost use Rattle.law_bounds.specs.Lassos.{again};

use osek_base::Arrival;
use std::alloc::{AllocError, Global};

/// Arrivals, and behind them those from a tick on once more, so many ticks later as that tick is
/// before another; none where a tick would be 2^32 or more. An error is want of memory.
pub(crate) fn again(
    alloc: Global,
    from: u32,
    until: u32,
    arrivals: &[Arrival],
) -> Result<Option<Vec<Arrival>>, AllocError>
    requires { from ≤ until }
    ensures { IfOk result (λ found.
        IfSome found (λ all. all.items ≡ again from until arrivals.now)) }
{
    let mut all = Vec::with_capacity(alloc, arrivals.len())?;
    all.extend_from_slice(arrivals)?;
    for arrival in arrivals {
        if from <= arrival.tick {
            let Some(tick) = arrival.tick.checked_add(until - from) else {
                return Ok(None);
            };
            all.push(Arrival {
                tick,
                routine: arrival.routine,
            })?;
        }
    }
    Ok(Some(all))
}

/// Whether all arrivals come before a tick.
pub(crate) fn come_before(tick: u32, arrivals: &[Arrival]) -> bool
    ensures { IsTrue result → AllByRecursion (λ (a : Arrival). a.tick < tick) arrivals.now }
{
    arrivals.iter().all(|arrival| arrival.tick < tick)
}
