//! Bounds of every run, by counting in place of a search. What an analysis tells, no run exceeds
//! whose interrupts keep their rules. It ends for each system whose graph of nodes isn't too large.
//! `analyse_upper` says this of an upper part inside every accepted system.
//!
//! - Of each level, a static priority or above them one of a routine, is worked out what
//!   activations, events, interrupts, expiries and nodes cost, by longest ways through the graph,
//!   and how many ticks are enough for its windows. Nothing is proved of that but safety. What it
//!   comes to is checked, and what is proved of the checks is all that counts. Alarms that
//!   programs set, and never to a cycle, may pay when they are set and not each time that they
//!   expire: each level is counted both ways.
//! - `prices_pay`: at true prices pay as the laws ask, and each node has one. `alarms_of`,
//!   `are_slow`: where that is known, alarms are set and expire no sooner. `are_enough`: at true so
//!   many ticks are enough for all that can come.
//! - `window_of`: where a window is bounded, no window of the level has more ticks, jobs of the
//!   level end and routines start within as many, and no interrupt is lost of a routine whose
//!   interrupts a rule keeps as many apart. Why one isn't bounded is told to people (`NoBound`).
//! - `analyse`: its peaks bound the figures of every run, and of each tick, where a time is below
//!   the cap (`BoundsAll`). An error is want of memory. Where more than `MAX_NODES` nodes are
//!   needed it tells nothing.
//! - `analyse_upper`, which asks for a separable system, analyses the upper part by itself. The part
//!   is exactly the upper part. Its peaks bound every run of the system and of every one that is
//!   separable at p and agrees from p upward (`BoundsAllAbove`). Jobs of upper tasks end, and
//!   routines start, in all of them within their bounds (`JobsEndAbove`, `InterruptsStartAbove`),
//!   and jobs release upper resources within theirs (`HoldsEndAbove`).
//! - `routine_share`, `alarm_share`: for people, how often something comes and what it costs.
//!
//! Jobs are bounded by windows of their level, so are blocked ticks and holds; latencies by the
//! shortest window of the levels of a routine: its own, where only routines before it count, and of
//! others one that is active already. No activation of a task is refused that nobody activates but
//! boot, nor of a basic one that an alarm alone activates, or a routine at one place, where each
//! job ends before the next one is made. All other figures are as great as they may always be.
#![tactic(auto)]

mod above;
mod activating;
mod analysis;
mod beginning;
mod begins;
mod bounded;
mod circles;
mod coming;
mod counting;
mod events;
mod expiring;
mod figures;
mod known_ticks;
mod lengths;
mod level;
mod levels;
mod needs;
mod pacing;
mod paying;
mod prices;
mod refusals;
mod refusing;
mod rounds;
mod shares;
mod slowness;
mod standing;
mod started;
mod starts;
mod timing;
mod told;
mod waits;
mod ways;
mod window;

pub use above::{UpperAnalysis, analyse_upper};
pub use analysis::{Analysis, MAX_NODES, TooMany, analyse};
pub use circles::NoBound;
pub use coming::are_enough;
pub use counting::count_level;
pub use expiring::{Alarms, alarms_of};
pub use level::Level;
pub use levels::{CAP, LevelWindow};
pub use pacing::Pace;
pub use prices::prices_pay;
pub use rounds::{MOST_BEGINS, MOST_TICKS};
pub use shares::{alarm_share, routine_share};
pub use slowness::are_slow;
pub use timing::Timing;
pub use window::{MAX_WINDOW, Window, window_of};
