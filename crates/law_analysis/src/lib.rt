//! No code: from bounds of windows to figures. Where responses, starts of routines and losses are
//! bounded as an analysis tells, and a closed table of nodes tells which services may be answered
//! other than E_OK, what is told bounds every figure of every run, as the bounds of a search do.
//!
//! - Told are times up to a cap: of jobs, of pending interrupts, of blocked jobs and holds by those
//!   of the jobs. Of what isn't looked at, as much as there may always be. An interrupt that comes
//!   in the last tick of a run may be pending in it, so where a run may end its latency is at least 1.
//! - What is told so (`AreAnalysed`) bounds the figures of every run whose interrupts keep their
//!   rules, and each of its ticks, after every number of ticks (`analyses_bound`).
//! - A basic task that one alarm alone activates has none of its activations refused where its
//!   jobs end before the alarm expires again (`alarms_refuse_none`); so it is where a routine alone
//!   does, at a place that its program comes to once (`routines_refuse_none`), and where nobody
//!   does (`nobody_refuses`). Then no action of an alarm that activates it is refused either
//!   (`accepted_actions`).
//!
//! A latency is told less the routine itself, as the routine's own instructions lie in the window
//! in which its interrupt is pending:
//!
//! - A routine *lasts* so many instructions (`Lasts`) if behind each of them but the last it is
//!   still active, whatever good state it finds.
//! - A list of nodes with lengths (`Long`) holds (`lengths_hold`) if each length of a routine's
//!   node is 1 or less, or each outcome there has steps, and each of these is covered by a node
//!   whose length is one less at least. Then a routine that begins at a node of the list lasts so
//!   long (`lengths_last`). The test is finite; the greatest lengths are those of the shortest ways
//!   to an end, and a few are worked by hand (`worked_lengths`).
//! - Where no window of a level has more than L ticks, no node ends the run, and a routine lasts s
//!   instructions, it starts at most L - s ticks behind its interrupt
//!   (`long_routines_start_early`).
#![tactic(auto)]

mod laws;

pub use laws::{
    accepted_actions, alarms_refuse_none, analyses_bound, lengths_last, long_routines_start_early,
    nobody_refuses, routines_refuse_none, worked_lengths,
};
