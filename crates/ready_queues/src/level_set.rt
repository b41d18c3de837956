//! A set of levels in one word.

ghost use Rattle.std.specs.Prelude.{◌≡◌, ◌<◌, IfNone, IfSome};
ghost use Rattle.ready_queues.specs.LevelSet.{IsWithBit, IsHighest};

use crate::ready_queues::LEVELS;
use std::marker::Model;

const _: () = prove!(LEVELS as u32 == u64::BITS);

/// A set of levels: a word whose bit k is set exactly where level k is in it. Contracts see the
/// word.
#[derive(Drop)]
pub struct LevelSet {
    word: u64,
}

impl Model for LevelSet {
    ghost use Rattle.std.specs.Prelude.{ℕ};

    ghost Value = { ℕ };

    ghost view = { λ s. s.word };
}

impl LevelSet {
    /// No level.
    pub fn new() -> Self
        ensures { result ≡ 0 }
    {
        LevelSet { word: 0 }
    }

    /// Adds a level.
    #[inline(always)]
    pub fn insert(&mut self, level: u8)
        requires { level < LEVELS }
        ensures { IsWithBit level 1 self.old self.new }
    {
        self.word |= 1 << level;
    }

    /// Removes a level.
    #[inline(always)]
    pub fn remove(&mut self, level: u8)
        requires { level < LEVELS }
        ensures { IsWithBit level 0 self.old self.new }
    {
        self.word &= !(1 << level);
    }

    /// The highest level of the set.
    #[inline(always)]
    pub fn highest(&self) -> Option<u8>
        ensures none { IfNone result (self.now ≡ 0) }
        ensures some { IfSome result (λ level. IsHighest level self.now) }
    {
        let level = self.word.checked_ilog2()?;
        Some(level as u8)
    }
}
