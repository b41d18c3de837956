//! The law, as an empty function: the clause is the law.

ghost use Rattle.law_upper.specs.RunsAbove.{RunsShowWhatThePartShows};

/// What a run of the upper part by itself shows, the run of the whole system under the same
/// arrivals shows, and that of each system that agrees with it from that priority upward: figures
/// of the upper part with their blockers, for how many ticks its tasks are blocked, how many jobs
/// they have, the service that fails in a tick, and whether the run is over. A task that can be
/// kept from ending in the part can be kept from it there.
pub fn runs_show_what_the_part_shows()
    ensures { RunsShowWhatThePartShows }
{}
