//! What holds of the figures of whole runs.

ghost use Rattle.view_runs.specs.Law.{CountedAreRunFigures};

/// What [`counted_figures`](crate::counted_figures) counts from tick 0 on are the figures of a run
/// of which the laws speak: those that stay within the bounds of all runs, and those that are the
/// same whatever stands below a separable upper part. They are of as many ticks as the run has, no
/// more than were asked for, and tell the numbers of blockers.
pub fn counted_are_run_figures()
    ensures { CountedAreRunFigures }
{}
