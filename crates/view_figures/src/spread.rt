//! Least, mean and greatest of numbers of ticks.

ghost use Rattle.std.specs.Prelude.{List, [], ◌∷◌, ◌≡◌};
ghost use Rattle.view_figures.specs.declared.reached.Reached.{Reached};
ghost use Rattle.view_figures.specs.ResponseSums.{spread};
ghost use Rattle.view_figures.specs.Reaching.{put};

use crate::counts::added;
use crate::reached::{Reached, raise};

/// How some numbers of ticks lie.
#[derive(Clone, Copy)]
pub struct Spread {
    /// How many there are.
    pub count: u32,
    /// Their sum.
    pub sum: u64,
    /// The least, 4,294,967,295 where there is none.
    pub least: u32,
    /// The greatest, where it was reached first.
    pub greatest: Option<Reached>,
}

impl Spread {
    /// No number.
    #[tactic(auto, unfolding(crate::specs::ResponseSums::spread))]
    pub fn new() -> Self
        ensures { result ≡ spread [] }
    {
        Spread {
            count: 0,
            sum: 0,
            least: u32::MAX,
            greatest: None,
        }
    }

    /// A number more.
    pub fn add(&mut self, reached: Reached)
        ensures { (before : List Reached) → self.old ≡ spread before
            → self.new ≡ spread (reached ∷ before) }
    {
        self.count = added(self.count, 1);
        self.sum = self.sum.saturating_add(u64::from(reached.ticks));
        self.least = self.least.min(reached.ticks);
        raise(&mut self.greatest, Some(reached));
    }

    /// A number more, if there is one.
    pub fn note(&mut self, reached: Option<Reached>)
        ensures { (before : List Reached) → self.old ≡ spread before
            → self.new ≡ spread (put reached before) }
    {
        if let Some(reached) = reached {
            self.add(reached);
        }
    }
}
