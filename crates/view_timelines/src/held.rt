//! OSEK/VDX OS: resource management. The resources that a task holds.

ghost use Rattle.std.specs.Prelude.{◌≡◌, ◌≤◌, ◌<◌, ◌^◌, length};
ghost use Rattle.view_timelines.specs.Rows.{held_bits, held_by, is_holder};

use seen_ticks::{Holder, MAX_HELD};

/// The resources that a task holds, by number; behind those that are declared stands
/// RES_SCHEDULER.
#[derive(Clone, Copy, Default, PartialEq, Eq)]
pub struct Held {
    /// A bit for each number, that of number 0 the lowest.
    bits: u64,
}

impl Held {
    /// Those of which the task of that number is the holder.
    pub fn of_task(holders: &[Holder], task: usize) -> Self
        requires { length holders.now ≤ MAX_HELD }
        ensures { result ≡ held_by holders.now task }
    {
        Held {
            bits: held_bits(holders, task),
        }
    }

    /// Whether it is none.
    pub fn is_none(self) -> bool {
        self.bits == 0
    }

    /// Whether the resource of that number is one of them.
    pub fn contains(self, number: usize) -> bool {
        number < MAX_HELD && (self.bits >> number) % 2 == 1
    }
}

fn is_holder(holder: Holder, task: usize) -> bool
    ensures { result ≡ is_holder holder task }
{
    match holder.task() {
        Some(holder) => holder.number() as usize == task,
        None => false,
    }
}

/// A bit for each of some holders, that of the first the lowest: 1 where it is the task.
fn held_bits(holders: &[Holder], task: usize) -> u64
    requires { length holders.now ≤ MAX_HELD }
    ensures value { result ≡ held_bits holders.now task }
    ensures fits { result < 2 ^ length holders.now }
{
    match holders.split_first() {
        Some((first, later)) => {
            let bit = u64::from(is_holder(*first, task));
            bit + 2 * held_bits(later, task)
        }
        None => 0,
    }
}
