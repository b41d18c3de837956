//! The laws, one function each.

ghost use Rattle.osek_base.specs.Laws.{StaysGood};
ghost use Rattle.law_runs.specs.Runs.{AlwaysBlocksOnce, AlwaysExcludes, AlwaysProtects, AlwaysStartsSingly, DependsOnThePast, GoesOnByAny, TakesAnyArrivals};

/// Of one task no job but the oldest is begun, in every state of every run of a proper system.
pub fn starts_singly()
    ensures { AlwaysStartsSingly }
{}

/// Every state of every run of a proper system is good, and has its shape.
pub fn stays_good()
    ensures { StaysGood }
{}

/// A `GetResource` by a job that may take the resource is answered E_OS_ACCESS only where that job itself holds it, in every
/// run of a proper system.
pub fn excludes()
    ensures { AlwaysExcludes }
{}

/// Each time that a job becomes ready, it has at most one blocker, in every run of a proper system.
pub fn blocks_once()
    ensures { AlwaysBlocksOnce }
{}

/// From a job's `GetResource` until its `ReleaseResource`, each answered E_OK, the words of the
/// resource change only by that job's own `StoreShared`, in every run of a proper system.
pub fn protects()
    ensures { AlwaysProtects }
{}

/// A run depends on the interrupts alone that arrive in its ticks.
pub fn depends_on_the_past()
    ensures { DependsOnThePast }
{}

/// Whatever arrives in the next tick, the run goes on by it.
pub fn goes_on_by_any()
    ensures { GoesOnByAny }
{}

/// Any routines of the system may arrive in a tick, behind the arrivals before it.
pub fn takes_any_arrivals()
    ensures { TakesAnyArrivals }
{}
