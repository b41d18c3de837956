//! The laws, one function each. The functions are empty: the clause is the law.

ghost use Rattle.law_jobs.specs.Ending.{JobsEndWithin, OldestIsJob, ResponsesAreOfJobs};
ghost use Rattle.law_jobs.specs.HeldSince.{HoldsAreOfJobs};
ghost use Rattle.law_jobs.specs.PendingSince.{LatenciesAreOfInterrupts};
ghost use Rattle.law_jobs.specs.ReadySince.{AgesAreOfJobs};
ghost use Rattle.law_jobs.specs.Starting.{InterruptsStartWithin};

/// In each tick of a run the ages that a task's label has are those of its jobs that are READY or
/// RUNNING, oldest first: for how many ticks each has been so without a break.
pub fn ages_are_of_jobs()
    ensures { AgesAreOfJobs }
{}

/// The oldest age is that of the oldest of these jobs.
pub fn oldest_is_job()
    ensures { OldestIsJob }
{}

/// A response that the figures count in a tick is that of the job that executes its instruction:
/// the oldest of its task, which ends by the instruction or begins to wait.
pub fn responses_are_of_jobs()
    ensures { ResponsesAreOfJobs }
{}

/// Where the longest time of a task in some ticks of a run is within a bound, ended or not, no job
/// of the task that is ready since a tick is READY or RUNNING in one of them so many ticks later.
pub fn jobs_end_within()
    ensures { JobsEndWithin }
{}

/// In each tick of a run in which figures find a resource held for so many ticks, one job, of the
/// task that is seen as the holder, has held it at the instruction of just so many ticks without a
/// break; and a job that has is that one.
pub fn holds_are_of_jobs()
    ensures { HoldsAreOfJobs }
{}

/// What figures go by of a routine in a tick is for how many ticks one of its interrupts has
/// waited, and each that is pending has waited for as many. A latency that they count is that of
/// the interrupt whose routine starts.
pub fn latencies_are_of_interrupts()
    ensures { LatenciesAreOfInterrupts }
{}

/// Where the longest time of a routine in some ticks of a run is within a bound, started or not,
/// each interrupt of it that isn't lost has the routine started so many ticks later at the latest,
/// if that is one of these ticks.
pub fn interrupts_start_within()
    ensures { InterruptsStartWithin }
{}
