//! OSEK/VDX OS: interrupt processing, category 2. Arrivals of sets of routines.

ghost use Rattle.std.specs.Prelude.{◌≤◌};

use osek_base::{Arrival, IsrId, MAX_ROUTINES};
use std::alloc::{AllocError, Global};

/// Adds the arrivals of the routines of a set at a tick, of so many that there are.
fn push_set(
    arrivals: &mut Vec<Arrival>,
    tick: u32,
    set: u64,
    count: usize,
) -> Result<(), AllocError>
    requires { count ≤ MAX_ROUTINES }
{
    for number in 0..count {
        if (set >> number) % 2 == 1 {
            let routine = IsrId::new(number as u8);
            arrivals.push(Arrival { tick, routine })?;
        }
    }
    Ok(())
}

/// The arrivals of the sets of a path, the last tick first, of so many routines that there are. An
/// error is want of memory.
pub(crate) fn arrivals_of(
    alloc: Global,
    path: &[u64],
    count: usize,
) -> Result<Vec<Arrival>, AllocError>
    requires { count ≤ MAX_ROUTINES }
{
    let mut arrivals = Vec::new(alloc);
    let mut tick = 0u32;
    for set in path.iter().rev() {
        push_set(&mut arrivals, tick, *set, count)?;
        tick = tick.saturating_add(1);
    }
    Ok(arrivals)
}
