//! What is told of the things of a system.

ghost use Rattle.std.specs.Prelude.{◌≡◌};
ghost use Rattle.view_measures.specs.Measures.{kind_of, place_of, sort_of};

use crate::kind::Kind;

/// What the numbers of a measure tell.
#[derive(Clone, Copy)]
pub enum Sort {
    /// Ticks. Bounds tell them up to a cap.
    Time,
    /// How many there are at most.
    Count,
    /// 1 where something comes, 0 where it doesn't.
    Coming,
}

/// What is told of each thing of a kind, of one run and of every run.
#[derive(Clone, Copy)]
pub enum Measure {
    /// The greatest response of a task.
    Response,
    /// The most ticks for which a task's oldest job is blocked.
    Blocked,
    /// The most blockers of a job of a task.
    Blockers,
    /// The most jobs of a task at once.
    Jobs,
    /// Whether an activation of a task is refused.
    Refusal,
    /// Whether a service of a task is answered other than E_OK.
    Errors,
    /// The greatest latency of a routine.
    Latency,
    /// Whether an interrupt of a routine is lost.
    Loss,
    /// Whether a service of a routine is answered other than E_OK.
    RoutineErrors,
    /// The longest hold of a resource.
    Hold,
    /// Whether the action of an alarm is refused.
    RefusedAction,
    /// Whether a ShutdownOS ends a run.
    Shutdown,
}

impl Measure {
    /// The kind of things of which it is told.
    pub fn kind(self) -> Kind
        ensures { result ≡ kind_of self }
    {
        match self {
            Measure::Response
            | Measure::Blocked
            | Measure::Blockers
            | Measure::Jobs
            | Measure::Refusal
            | Measure::Errors => Kind::Task,
            Measure::Latency | Measure::Loss | Measure::RoutineErrors => Kind::Routine,
            Measure::Hold => Kind::Resource,
            Measure::RefusedAction => Kind::Alarm,
            Measure::Shutdown => Kind::System,
        }
    }

    /// What its numbers tell.
    pub fn sort(self) -> Sort
        ensures { result ≡ sort_of self }
    {
        match self {
            Measure::Response | Measure::Blocked | Measure::Latency | Measure::Hold => Sort::Time,
            Measure::Blockers | Measure::Jobs => Sort::Count,
            Measure::Refusal
            | Measure::Errors
            | Measure::Loss
            | Measure::RoutineErrors
            | Measure::RefusedAction
            | Measure::Shutdown => Sort::Coming,
        }
    }

    /// Its place among all measures, from 0 on.
    pub fn place(self) -> usize
        ensures { result ≡ place_of self }
    {
        match self {
            Measure::Response => 0,
            Measure::Blocked => 1,
            Measure::Blockers => 2,
            Measure::Jobs => 3,
            Measure::Refusal => 4,
            Measure::Errors => 5,
            Measure::Latency => 6,
            Measure::Loss => 7,
            Measure::RoutineErrors => 8,
            Measure::Hold => 9,
            Measure::RefusedAction => 10,
            Measure::Shutdown => 11,
        }
    }
}
