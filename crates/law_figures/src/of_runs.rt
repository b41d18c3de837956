//! The laws, one function each. The functions are empty: the clause is the law.

ghost use Rattle.law_figures.specs.RunFigures.{RunsHaveNone, RunsStayWithin};

/// The longest response of a task, the greatest latency of a routine and the longest hold of a
/// resource in a run are within a bound where in none of its ticks a label shows more; so are the
/// times of jobs and interrupts that are left.
pub fn runs_stay_within()
    ensures { RunsStayWithin }
{}

/// In a run no interrupt is lost, no activation and no alarm's action is refused, and no service is
/// answered other than E_OK, where in none of its ticks one is.
pub fn runs_have_none()
    ensures { RunsHaveNone }
{}
