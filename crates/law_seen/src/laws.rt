//! The laws, one function each. The functions are empty: the clause is the law.

ghost use Rattle.law_seen.specs.Shown.{RunsShow, SeenIsShown};
ghost use Rattle.law_seen.specs.ShownAlike.{AlikeShow, SameNeededShow};

/// In each tick of a run the definitions' states show what is kept of the state before it and the
/// routines that arrive show.
pub fn runs_show()
    ensures { RunsShow }
{}

/// An observation of such a tick is of what is kept and of the arrivals alone.
pub fn seen_is_shown()
    ensures { SeenIsShown }
{}

/// States between which only absolute time differs, and values of counters that no program asks
/// for, show the same, where the same routines arrive.
pub fn alike_show()
    ensures { AlikeShow }
{}

/// So do states that have the same needed data, and registers with indices that they may have.
pub fn same_needed_show()
    ensures { SameNeededShow }
{}
