//! Laws of stretches, one function each. Each function is empty: its clause is the law.

ghost use Rattle.view_timelines.specs.Tiling.{DifferFromTheNext, TileTheTicks};

/// The stretches of some ticks stand one behind the other, from the first tick on, and what their ticks show is what the
/// ticks show.
pub fn tile_the_ticks()
    ensures { TileTheTicks }
{}

/// A stretch and the one behind it show something else: so no stretch could be longer.
#[tactic(auto, using(crate::proofs::TilingLemmas::differs))]
pub fn differ_from_the_next()
    ensures { DifferFromTheNext }
{}
