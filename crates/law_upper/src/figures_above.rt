//! The laws, one function each. The functions are empty: the clause is the law.

ghost use Rattle.law_upper.specs.FiguresAbove.{
  BoundedUpperHoldsEnd,
  BoundedUpperJobsEnd,
  BoundsOfThePartHold,
};
ghost use Rattle.law_upper.specs.ShownAbove.{UpperPartsShowTheSame};
ghost use Rattle.law_upper.specs.StartingAbove.{BoundedInterruptsStartAbove};

/// Each tick shows the same of upper tasks, of routines, of upper resources and alarms, and of the
/// services of upper tasks and routines that fail, and blocks the same upper tasks, in each system
/// that agrees with a proper and separable one, and in its upper part by itself.
pub fn upper_parts_show_the_same()
    ensures { UpperPartsShowTheSame }
{}

/// Peaks that bound the figures of every run of the upper part by itself whose interrupts keep
/// their rules bound the same figures in every such run of the whole system, and of each that
/// agrees with it from that priority upward: numbers of blockers where observations tell them.
/// Those of runs of so many ticks bound those of as many.
pub fn bounds_of_the_part_hold()
    ensures { BoundsOfThePartHold }
{}

/// Where the greatest response of an upper task is bounded by so many ticks below the cap, no job
/// of it that is ready since a tick is READY or RUNNING as many ticks later, unless the run has
/// ended.
pub fn bounded_upper_jobs_end()
    ensures { BoundedUpperJobsEnd }
{}

/// Where the longest hold of an upper resource, or of RES_SCHEDULER, is bounded by so many ticks
/// below the cap, no job that holds it since a tick still does as many ticks later, unless the run
/// has ended.
pub fn bounded_upper_holds_end()
    ensures { BoundedUpperHoldsEnd }
{}

/// Where the greatest latency of a routine is bounded by so many ticks below the cap, each
/// interrupt of it that isn't lost has the routine started within as many ticks, unless the run is
/// over by then.
pub fn bounded_interrupts_start_above()
    ensures { BoundedInterruptsStartAbove }
{}
