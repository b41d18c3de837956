//! The laws of jobs that end and release what they hold, of interrupts whose routines start, and of
//! jobs that can be kept from it. They do nothing: the clause is the law.

ghost use Rattle.law_bounds.specs.Ending.{BoundedJobsEnd};
ghost use Rattle.law_bounds.specs.Lassos.{LassosAreEndless};
ghost use Rattle.law_bounds.specs.Releasing.{BoundedHoldsEnd};
ghost use Rattle.law_bounds.specs.Starting.{BoundedInterruptsStart};

use crate::laws::keys_tell_futures;

/// Where the greatest response of a task is bounded by so many ticks below the cap, no job of it
/// that is ready since a tick is READY or RUNNING as many ticks later: it has ended or begun to
/// wait by then, unless the run has ended.
pub fn bounded_jobs_end()
    ensures { BoundedJobsEnd }
{}

/// Where the longest hold of a resource is bounded by so many ticks below the cap, no job that
/// holds it since a tick still does as many ticks later: it has released it by then, unless the run
/// has ended.
pub fn bounded_holds_end()
    ensures { BoundedHoldsEnd }
{}

/// Where the greatest latency of a routine is bounded by so many ticks below the cap, each
/// interrupt of it that isn't lost has the routine started within as many ticks, unless the run is
/// over by then.
pub fn bounded_interrupts_start()
    ensures { BoundedInterruptsStart }
{}

/// A run that comes twice to states of one key while a job of a task stands, and whose arrivals
/// between can come once more and add no more by any rule than their ticks take off, can be gone on
/// so for as many ticks as one likes: they may come again and again.
pub fn lassos_are_endless()
    ensures { LassosAreEndless }
{
    keys_tell_futures();
}
