//! The alarms that are due in a tick.

ghost use Rattle.std.specs.Prelude.{◌≡◌, ◌≤◌, ◌||◌, ◌==◌, ℕ, [], MatchOption, false, true};
ghost use Rattle.std.specs.List.{filter};
ghost use Rattle.osek_base.specs.Lists.{below};
ghost use Rattle.alarms.specs.Waits.{AreNoneRaised, IsFirstRaised, is_raised};

use crate::due_list::DueList;
use osek_base::{AlarmId, MAX_ALARMS};
use std::marker::Model;

const _: () = prove!(MAX_ALARMS as u32 == u64::BITS);

/// A set of alarms that are due: a word whose bit k is set exactly where alarm k is due. Contracts see the word.
#[derive(Drop)]
pub struct DueAlarms {
    word: u64,
}

impl Model for DueAlarms {
    ghost use Rattle.std.specs.Prelude.{ℕ};

    ghost Value = { ℕ };

    ghost view = { λ d. d.word };
}

impl DueAlarms {
    /// No alarm is due.
    #[inline(always)]
    pub fn none() -> Self
        ensures { (a : ℕ) → is_raised a result ≡ false }
    {
        DueAlarms { word: 0 }
    }

    /// The same alarms once more.
    #[inline(always)]
    pub fn copied(&self) -> Self
        ensures { result ≡ self.now }
    {
        DueAlarms { word: self.word }
    }

    /// An alarm is due.
    #[inline(always)]
    pub fn raise(&mut self, alarm: AlarmId)
        ensures { (a : ℕ) → is_raised a self.new ≡ (is_raised a self.old || alarm == a) }
    {
        self.word |= 1 << alarm.number();
    }

    /// Whether no alarm is due.
    #[inline(always)]
    pub fn is_none(&self) -> bool
        ensures { result ≡ true → (count : ℕ)
            → filter (λ a. is_raised a self.now) (below count) ≡ [] }
    {
        self.word == 0
    }

    /// The content of `due` becomes the alarms that are due, of the first `count`, in declaration order.
    #[inline(always)]
    pub fn list(&self, count: usize, due: &mut DueList)
        requires { count ≤ MAX_ALARMS }
        ensures { due.new ≡ filter (λ a. is_raised a self.now) (below count) }
    {
        due.clear();
        list_set(self.word, count, due);
    }
}

/// Adds the alarms whose bits are set, of the first `count`, in declaration order.
#[inline(always)]
fn list_set(word: u64, count: usize, due: &mut DueList)
    requires count { count ≤ MAX_ALARMS }
    requires none { due.old ≡ [] }
    ensures { due.new ≡ filter (λ a. is_raised a word) (below count) }
{
    let mut next = next_raised(word, 0, count);
    while let Some(number) = next {
        due.push(AlarmId::new(number as u8));
        next = next_raised(word, number + 1, count);
    }
}

/// The first number from `from` on and below `count` whose bit is set, if there is one.
#[inline(always)]
fn next_raised(word: u64, from: usize, count: usize) -> Option<usize>
    requires { count ≤ MAX_ALARMS }
    ensures { MatchOption result (AreNoneRaised word from count) (IsFirstRaised word from count) }
{
    if from >= count {
        return None;
    }
    let left = word >> from;
    if left == 0 {
        return None;
    }
    let number = from + left.trailing_zeros() as usize;
    if number < count { Some(number) } else { None }
}
