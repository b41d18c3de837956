//! OSEK/VDX OS: interrupt processing. What is told of a routine in a tick.

ghost use Rattle.std.specs.Prelude.{◌≡◌, ◌≤◌, length};
ghost use Rattle.seen_ticks.specs.Observed.{is_number, lost_of, times};

use osek_base::{IsrId, MAX_ARRIVALS};

/// Whether there is another routine, and it is that one.
pub fn is_routine(routine: IsrId, other: Option<IsrId>) -> bool
    ensures { result ≡ is_number routine other }
{
    match other {
        None => false,
        Some(other) => other.number() == routine.number(),
    }
}

/// How often a routine stands in a list of those whose interrupts arrive.
pub fn times(routine: IsrId, arrived: &[IsrId]) -> u32
    requires { length arrived.now ≤ MAX_ARRIVALS }
    ensures { result ≡ times routine arrived.now }
{
    let mut count = 0;
    for other in arrived {
        if other.number() == routine.number() {
            count += 1;
        }
    }
    count
}

/// How many of the interrupts of a routine are lost, all but the first, and that one too where one is pending.
pub fn lost_of(was_pending: bool, arrived: u32) -> u32
    ensures { result ≡ lost_of was_pending arrived }
{
    if was_pending {
        arrived
    } else {
        arrived.saturating_sub(1)
    }
}
