//! Runs a system and answers what is seen of each tick, at its instruction. That is exactly what
//! the definitions say is seen of that tick of the run.
//!
//! - `boot`: as `Kernel::boot`.
//! - `advance`: a tick more. False, and nothing changed, exactly where the run is over. Else
//!   `observation` is exactly what is seen of that tick, with the number of blockers in a run
//!   that counts them, and `records_into` leaves its records. An alarm is seen to expire where it
//!   is due, and to be refused where its action is.
//! - `pass_alike`: of the ticks that it answers, before each the run goes on, no interrupt
//!   arrives and no alarm is due in it, and its records have no answer of a service. What is seen
//!   of the last is, but for the number, exactly what is seen of each.
#![tactic(auto)]

mod alarms_seen;
mod before;
mod observed_run;
mod readers;
mod routines_seen;
mod tasks_seen;
mod tick_seen;
mod told_run;

pub use observed_run::ObservedRun;
