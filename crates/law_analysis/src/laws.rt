//! The laws, one function each. The functions are empty: the clause is the law.

ghost use Rattle.law_analysis.specs.Late.{LongRoutinesStartEarly};
ghost use Rattle.law_analysis.specs.Laws.{AnalysesBound};
ghost use Rattle.law_analysis.specs.Refusing.{AcceptedActions, AlarmsRefuseNone, NobodyRefuses};
ghost use Rattle.law_analysis.specs.RefusingByRoutine.{RoutinesRefuseNone};
ghost use Rattle.law_analysis.specs.Lengths.{LengthsLast};
ghost use Rattle.law_analysis.specs.WorkedLengths.{WorkedLengths};

/// Where all is so that an analysis tells, it bounds the figures and each tick of every run whose
/// interrupts keep their rules, after every number of ticks.
pub fn analyses_bound()
    ensures { AnalysesBound }
{}

/// Where one alarm alone activates a basic task, boot alone sets that alarm, and each job of the
/// task ends before the alarm expires again, no activation of the task is refused in any run whose
/// interrupts keep their rules, and no action of the alarm.
pub fn alarms_refuse_none()
    ensures { AlarmsRefuseNone }
{}

/// Where a routine alone activates a basic task, at a place that its program comes to once, and its
/// interrupts come as many ticks apart as it takes to start and come there, and as jobs of the task
/// take to end, no activation of the task is refused in any run whose interrupts keep their rules.
pub fn routines_refuse_none()
    ensures { RoutinesRefuseNone }
{}

/// Where no program and no alarm activates a task, no activation of it is refused in any run.
pub fn nobody_refuses()
    ensures { NobodyRefuses }
{}

/// Where no activation of a task is refused, no action of an alarm that activates it is.
pub fn accepted_actions()
    ensures { AcceptedActions }
{}

/// Where each count of a list of nodes is 1 or less, or whatever becomes of a routine there is
/// covered by a node whose count is one less at least, a routine that begins at a node of the list
/// executes as many instructions as its count, or more.
pub fn lengths_last()
    ensures { LengthsLast }
{}

/// Where no window of a level has more than so many ticks, and no node of a closed table ends the
/// run, a routine that executes so many instructions or more starts at most as many ticks behind
/// its interrupt as the first number is greater.
pub fn long_routines_start_early()
    ensures { LongRoutinesStartEarly }
{}

/// Lengths of the nodes of two small routines come to what was worked by hand.
pub fn worked_lengths()
    ensures { WorkedLengths }
{}
