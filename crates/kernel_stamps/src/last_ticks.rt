//! In which tick a job of each level last executed.

ghost use Rattle.std.specs.Prelude.{◌≡◌, ◌<◌, ◌≤◌, ◌+◌, nat_lt, replicate, slice_set, take, length};
ghost use Rattle.std.specs.List.{list_any};
ghost use Rattle.kernel_stamps.specs.Last.{latest, noted};

use osek_base::{MAX_TASK_PRIORITY, MAX_TICKS};
use std::marker::Model;

const LEVELS: usize = MAX_TASK_PRIORITY as usize + 1;

/// For each static priority the tick after the last one in which a job of it executed, 0 where none
/// has.
#[derive(Drop)]
pub struct LastTicks {
    after: [u32; LEVELS],
    /// The level of the job that executed last: no number is greater than its own.
    level: u8,
    /// No number of a lower level is greater.
    lower: u32,
}

impl Model for LastTicks {
    ghost use Rattle.kernel_stamps.specs.Last.{AreBounds, Last};

    ghost Value = { Last };

    ghost view = { λ l. record { after = l.after; level = l.level } };

    ghost invariant = { λ l. AreBounds l.after l.level l.lower };
}

impl LastTicks {
    /// No job has executed.
    pub fn new() -> Self
        ensures { result ≡ record { after = replicate LEVELS 0; level = 0 } }
    {
        LastTicks {
            after: [0; LEVELS],
            level: 0,
            lower: 0,
        }
    }

    /// The last tick of each level becomes that of others.
    pub fn copy_from(&mut self, other: &LastTicks)
        ensures { self.new ≡ other.now }
    {
        self.after.copy_from_slice(&other.after);
        self.level = other.level;
        self.lower = other.lower;
    }

    /// A job of a level executes in a tick, later than any before. So the level that is left has
    /// the greatest number.
    #[inline(always)]
    pub fn note(&mut self, level: u8, tick: u32)
        requires level { level ≤ MAX_TASK_PRIORITY }
        requires tick { tick < MAX_TICKS }
        requires order { latest self.old ≤ tick }
        ensures { self.new ≡ noted level tick self.old }
    {
        if self.level < level {
            self.lower = self.after[self.level as usize];
        }
        self.level = level;
        self.after[level as usize] = tick + 1;
    }

    /// A job of the level that executed last does so in a tick.
    #[inline(always)]
    pub fn note_again(&mut self, tick: u32)
        requires tick { tick < MAX_TICKS }
        requires order { latest self.old ≤ tick }
        ensures { self.new ≡ noted self.old.level tick self.old }
    {
        self.after[self.level as usize] = tick + 1;
    }

    /// Whether a job of a level below that which executed last has executed in a tick or since.
    #[inline(always)]
    pub fn is_lower_since(&self, tick: u32) -> bool
        ensures { result
            ≡ list_any (λ after. nat_lt tick after) (take self.now.level self.now.after) }
    {
        if self.lower <= tick {
            return false;
        }
        is_one_since(&self.after[..self.level as usize], tick)
    }
}

/// Whether one of some levels has executed in a tick or since.
#[inline(never)]
fn is_one_since(after: &[u32], tick: u32) -> bool
    ensures { result ≡ list_any (λ after. nat_lt tick after) after.now }
{
    after.iter().any(|after| tick < *after)
}
