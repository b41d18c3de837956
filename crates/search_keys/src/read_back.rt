//! The law. The function is empty: the clause is the law.

ghost use Rattle.search_keys.specs.Taken.{NumbersAreReadBack};

/// A number that was written is the one that is read, whatever follows it.
#[tactic(auto, using(crate::proofs::ReadingLemmas::numbers_read))]
pub fn numbers_are_read_back()
    ensures { NumbersAreReadBack }
{}
