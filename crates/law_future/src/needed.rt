//! The laws, one function each. The functions are empty: the clause is the law.

ghost use Rattle.law_future.specs.Laws.{RunsKeepIndices, TicksKeepSame};
ghost use Rattle.law_future.specs.Meaning.{SameMeans};

/// Under the same arrivals, ticks of states that have the same needed data record the same but for
/// values, and leave states that have it.
pub fn ticks_keep_same()
    ensures { TicksKeepSame }
{}

/// In each state of a run registers have only indices that they may have.
pub fn runs_keep_indices()
    ensures { RunsKeepIndices }
{}

/// States have the same needed data exactly where each register, word and window that is needed is
/// equal, and so is all that is no data.
pub fn same_means()
    ensures { SameMeans }
{}
