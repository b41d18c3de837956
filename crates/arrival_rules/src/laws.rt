//! The laws, one function each. The functions are empty: the clause is the law.

ghost use Rattle.arrival_rules.specs.Laws.{DebtsAreBelow};

/// Where a rule is kept, an interrupt comes only where the debt is below the slack.
pub fn debts_are_below()
    ensures { DebtsAreBelow }
{}
