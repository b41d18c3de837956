//! The laws, one function each. The functions are empty: the clause is the law.

ghost use Rattle.law_figures.specs.Ages.{AgesKeepOrder, OldestIsAge, ResponsesAreAges};
ghost use Rattle.law_figures.specs.Blocking.{BlockedIsCounted, BlockingKeepsOrder};
ghost use Rattle.law_figures.specs.Counts.{CountsTell};
ghost use Rattle.law_figures.specs.Holding.{HoldingKeepsOrder, HoldsAreLabels};
ghost use Rattle.law_figures.specs.Merging.{LabelsMerge};
ghost use Rattle.law_figures.specs.Pending.{LatenciesAreAges, PendingIsAge, PendingKeepsOrder};
ghost use Rattle.law_figures.specs.Seen.{LabelsGoBySeen};
ghost use Rattle.law_figures.specs.Times.{RoutineTimesAreAges, TaskTimesAreAges};

/// The longest response is the greatest age with which a job ends or begins to wait.
pub fn responses_are_ages()
    ensures { ResponsesAreAges }
{}

/// The oldest job that is left is as old as its label.
pub fn oldest_is_age()
    ensures { OldestIsAge }
{}

/// Where ages are at least as many and at least as old, they stay so, and show no less.
pub fn ages_keep_order()
    ensures { AgesKeepOrder }
{}

/// The greatest latency is the greatest that labels show.
pub fn latencies_are_ages()
    ensures { LatenciesAreAges }
{}

/// An interrupt that pends is as old as its label.
pub fn pending_is_age()
    ensures { PendingIsAge }
{}

/// An older age of a pending interrupt stays older, and shows no less.
pub fn pending_keeps_order()
    ensures { PendingKeepsOrder }
{}

/// The longest hold is the longest that labels show.
pub fn holds_are_labels()
    ensures { HoldsAreLabels }
{}

/// A longer hold stays longer, and shows no less.
pub fn holding_keeps_order()
    ensures { HoldingKeepsOrder }
{}

/// The ticks in which a task is READY while a lower one executes are those that figures count as
/// blocked.
pub fn blocked_is_counted()
    ensures { BlockedIsCounted }
{}

/// Where a job has been blocked for at least as many ticks, it stays so, and shows no fewer.
pub fn blocking_keeps_order()
    ensures { BlockingKeepsOrder }
{}

/// Refusals, losses and errors are 0, and no first one is told, exactly where none is seen in any
/// tick; the greatest number of blockers is within a bound exactly where each that is told is.
pub fn counts_tell()
    ensures { CountsTell }
{}

/// The longest time of a task, ended or not, goes by the ages of its oldest jobs.
pub fn task_times_are_ages()
    ensures { TaskTimesAreAges }
{}

/// The longest time of a routine, started or not, goes by what its interrupts have waited.
pub fn routine_times_are_ages()
    ensures { RoutineTimesAreAges }
{}

/// A merged label is the least that is at least two, and of a hold no more counts than that of the
/// task that holds the resource in the next tick.
pub fn labels_merge()
    ensures { LabelsMerge }
{}

/// Labels go by what is seen of a thing in a tick, whatever the tick's number and what else is
/// seen.
pub fn labels_go_by_seen()
    ensures { LabelsGoBySeen }
{}
