//! The laws, one function each. The functions are empty: the clause is the law.

ghost use Rattle.law_future.specs.AlikeIn.{AlikeInTicks};
ghost use Rattle.law_future.specs.Relative.{AlwaysAhead, SameIsAlike};

/// Between the ticks of a run no alarm has passed its count.
pub fn always_ahead()
    ensures { AlwaysAhead }
{}

/// Where none has, states are alike exactly where they are the same with times relative to their
/// ticks.
pub fn same_is_alike()
    ensures { SameIsAlike }
{}

/// Where a need suffices, a tick records the same but for values in states that are alike in what
/// is needed, under the same arrivals, and leaves such states.
pub fn alike_in_ticks()
    ensures { AlikeInTicks }
{}
