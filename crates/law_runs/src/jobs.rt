//! The law of jobs, one function. The function is empty: the clause is the law.

ghost use Rattle.law_runs.specs.Jobs.{AlwaysBalanced};

/// In each tick of every run of a proper system, as many jobs of a task are made as are left more
/// behind it, and one more where one ends.
pub fn always_balanced()
    ensures { AlwaysBalanced }
{}
