//! The laws, one function each. The functions are empty: the clause is the law.

ghost use Rattle.law_windows.specs.Analysis.{AnalysisBoundsResponses, ArrivalsAreFew, LittleComes};
ghost use Rattle.law_windows.specs.Expiring.{ExpiriesAreFew, GapsBoundResponses};
ghost use Rattle.law_windows.specs.KnownTicks.{ExpiriesBoundResponses, KnownTicksBoundResponses};
ghost use Rattle.law_windows.specs.Losses.{SoonStartedAreNotLost};
ghost use Rattle.law_windows.specs.Phases.{PhasesMakeAPotential};
ghost use Rattle.law_windows.specs.Potential.{WindowsAreShort};
ghost use Rattle.law_windows.specs.Responses.{ResponsesLieInWindows};
ghost use Rattle.law_windows.specs.Routines.{RoutinesEndInTime};
ghost use Rattle.law_windows.specs.Windows.{BusyTicksLieInWindows};
ghost use Rattle.law_windows.specs.Work.{WorkStays};

/// A tick before which work of the level stands is busy.
pub fn work_stays()
    ensures { WorkStays }
{}

/// A row of busy ticks between which work of the level stands lies in one window.
pub fn busy_ticks_lie_in_windows()
    ensures { BusyTicksLieInWindows }
{}

/// Where a run has a potential, a window has no more ticks than are enough for what may be left
/// where it begins and for what comes in them.
pub fn windows_are_short()
    ensures { WindowsAreShort }
{}

/// What stays low up to a tick's instruction, but for what comes, and falls by it, is a potential.
pub fn phases_make_a_potential()
    ensures { PhasesMakeAPotential }
{}

/// Of a routine whose interrupts keep a rule at most (count + slack - 2) / period + 1 arrive in so
/// many ticks in a row, with its jitter and its bursts: none with a slack of 0, and no more than
/// one a tick.
pub fn arrivals_are_few()
    ensures { ArrivalsAreFew }
{}

/// So what comes in them costs no more than so many of each routine, and as many expiries of each
/// alarm as there are at most.
pub fn little_comes()
    ensures { LittleComes }
{}

/// Where no window of a level has more than so many ticks, no job of the level is READY or RUNNING
/// so many ticks after it became ready, and no routine of the level is pending so long.
pub fn responses_lie_in_windows()
    ensures { ResponsesLieInWindows }
{}

/// Where a routine of a level starts before as many ticks have passed as a rule keeps its
/// interrupts apart, period + 1 - slack, none of them is lost.
pub fn soon_started_are_not_lost()
    ensures { SoonStartedAreNotLost }
{}

/// Where all runs whose interrupts keep their rules have potentials of the same costs, as many
/// ticks as are enough for all that can come bound each window, and what lies in it.
pub fn analysis_bounds_responses()
    ensures { AnalysisBoundsResponses }
{}

/// An alarm that no program sets expires in so many ticks as often as its cycle fits, once without
/// one, never where it doesn't start; any other as often as what programs set fits, at least a
/// count.
pub fn expiries_are_few()
    ensures { ExpiriesAreFew }
{}

/// So costs, rules of interrupts and gaps between expiries bound each window, where all such
/// runs have potentials of these costs.
pub fn gaps_bound_responses()
    ensures { GapsBoundResponses }
{}

/// An alarm that only boot starts expires in known ticks alone. So it's enough to count those that
/// lie in each window that may begin before the end of the first round in which they come again.
pub fn known_ticks_bound_responses()
    ensures { KnownTicksBoundResponses }
{}

/// Each such window by itself has as many ticks at most as are enough for it; and it's enough to
/// look at those that begin with the run, with the round, or in a known tick.
pub fn expiries_bound_responses()
    ensures { ExpiriesBoundResponses }
{}

/// A routine that ends within so many instructions isn't active for so many ticks.
pub fn routines_end_in_time()
    ensures { RoutinesEndInTime }
{}
