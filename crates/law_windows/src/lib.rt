//! No code: the frame of a response-time analysis. One inequality bounds every response of a
//! level, whatever interrupts come that keep their rules, where the work of the level can be
//! counted.
//!
//! A *level* is a number: a static priority of tasks, or above all of them that of a routine, top +
//! 1 + its PRIORITY. Its *work* is of the tasks of that priority or more, and of the routines of
//! that level or more, which all are up to top + 1. A tick is *busy* where work stands at its
//! instruction: such a routine is active or pending, or such a job is READY or RUNNING. A *window*
//! is a longest row of busy ticks behind each of which, but the last, work stands.
//!
//! - A tick before which work stands is busy (`work_stays`). A response lies in one window
//!   (`busy_ticks_lie_in_windows`, `responses_lie_in_windows`), and so does the time for which an
//!   interrupt of a routine of the level is pending. So none is lost where windows are shorter than
//!   a rule keeps its interrupts apart (`soon_started_are_not_lost`).
//! - A *potential* of a run is a number between two ticks, at least 1 where work stands, that
//!   falls in each busy tick but for what comes in it: costs of interrupts and of expiries of
//!   alarms. A window that begins with so much and in which so much comes has no more ticks than
//!   that (`windows_are_short`). It is enough to know it phase by phase
//!   (`phases_make_a_potential`).
//! - How often interrupts come in a row of ticks is bounded by the periods and slacks of their
//!   rules, so with jitter and bursts (`arrivals_are_few`, `little_comes`), and how often alarms
//!   expire by their cycles (`expiries_are_few`): of one that programs set by the least increment
//!   or cycle to which they set it, a count where nothing else is known.
//! - So a number of ticks that is no less than what may be left where a window begins and all that
//!   can come in as many ticks bounds each window, and each response
//!   (`analysis_bounds_responses`, `gaps_bound_responses`).
//! - An alarm that only boot starts expires in known ticks, so a window has of these alone those
//!   that lie in it, and how alarms lie to each other counts. As known ticks come again after a
//!   round, windows are looked at that begin before the end of the first one
//!   (`known_ticks_bound_responses`); each by itself, and only those that begin with the run, with
//!   the round, or in a known tick (`expiries_bound_responses`).
//!
//! That a system has a potential is a premise. Of costs of programs it has the first alone: a
//! routine that ends within so many instructions isn't active longer (`routines_end_in_time`).
#![tactic(auto)]

mod laws;

pub use laws::{
    analysis_bounds_responses, arrivals_are_few, busy_ticks_lie_in_windows, expiries_are_few,
    expiries_bound_responses, gaps_bound_responses, known_ticks_bound_responses, little_comes,
    phases_make_a_potential, responses_lie_in_windows, routines_end_in_time,
    soon_started_are_not_lost, windows_are_short, work_stays,
};
