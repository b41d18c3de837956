//! The law, as an empty function: the clause is the law.

ghost use Rattle.search_witnesses.specs.AboveCuts.{WhatThePartShowsHolds};

/// What a run of the upper part by itself shows of a figure, the run of the whole system under the
/// same arrivals shows, and that of each system that agrees with it from that priority upward. So
/// what `reached_figures`, `failing_services` and `endless_tasks` answer of the upper part holds in
/// all of them, upper resources and alarms at their numbers there.
pub fn what_the_part_shows_holds()
    ensures { WhatThePartShowsHolds }
{}
