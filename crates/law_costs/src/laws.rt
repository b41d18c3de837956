//! The laws, one function each. The functions are empty: the clause is the law.

ghost use Rattle.law_costs.specs.KnownTicks.{CostsBoundAtExpiries, CostsBoundAtKnownTicks};
ghost use Rattle.law_costs.specs.Laws.{CostsBoundResponses, CostsFallByPhases, RunsAreKnown};

/// Where what is known of jobs and routines stays known, who executes in each run is known.
pub fn runs_are_known()
    ensures { RunsAreKnown }
{}

/// Where costs pay for all that comes besides, and for the instructions of known jobs and routines,
/// what is left of the work of a level falls phase by phase, in each run.
pub fn costs_fall_by_phases()
    ensures { CostsFallByPhases }
{}

/// So where who is known sets alarms no sooner than is said, as many ticks as are enough for all
/// that can come bound each window, and what lies in it, of each run whose interrupts keep their
/// rules.
pub fn costs_bound_responses()
    ensures { CostsBoundResponses }
{}

/// The same where expiries of alarms that only boot starts are counted by the known ticks that lie
/// in a window, for each first tick before the end of the first round in which they come again; and
/// where each such window has a number of ticks of its own, from known ticks alone.
pub fn costs_bound_at_known_ticks()
    ensures together { CostsBoundAtKnownTicks }
    ensures one_by_one { CostsBoundAtExpiries }
{}
