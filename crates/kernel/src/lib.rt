//! Boots a system in an application mode and runs it tick by tick, with a list of all interrupts
//! (`Kernel`) or with those of each tick as it comes (`Machine`). Each tick gives exactly its
//! records of the run that the definitions give. The laws of `law_runs` hold of that run.
//!
//! A `Machine` is a booted system between two ticks, seen as what is kept of a state of a run, at
//! the next tick.
//!
//! - `Machine::boot`: each run of the system in the mode begins with it.
//! - `Machine::tick`, lent the routines whose interrupts arrive in that tick: the picture and the
//!   records after it are exactly those of the definitions' tick with these arrivals. Each run
//!   that had come to the machine, and in whose next tick they arrive, has come to what it
//!   leaves. It asks only that the run isn't over, that ticks are left, and that the routines
//!   exist.
//! - `Machine::copy_from`: it becomes exactly another one of its system. `objects` and `core`
//!   lend all that is kept of its state. `word`, `shared_word`: exactly the word of its state.
//!   `queues`: for each level exactly the tasks that are ready there and don't run.
//! - `last_due`, `last_refused`: exactly the alarms that were due in the tick done last, and
//!   those of them whose action was refused.
//!
//! A `Kernel` is a machine with its mode and a list of all arrivals, and is seen as its system,
//! mode, arrivals and ticks done.
//!
//! - `boot`: `UnknownMode` exactly where the system has no mode of that name. `boot` and each
//!   tick say that the laws of `law_runs` hold up to every tick of the run.
//! - Its ticks leave exactly the records of that tick of the run. They take no memory and have no
//!   refusal; 72 places for records are enough. `tick_parts` answers what was executed, and
//!   leaves the records before and behind it. `tick_seen` also leaves exactly what each task is
//!   in the state in which the instruction is executed.
//! - `is_over`: exactly after a ShutdownOS (`is_shut_down`) or at the last tick.
//! - `blockers`: exactly the number of blockers of the tick done last, in a kernel that counts
//!   them (`Counted`, the usual one). One that doesn't (`NotCounted`) answers none.
//! - `word`, `shared_word`: exactly the word that the run's state has. `queues`: for each level
//!   exactly the tasks that are ready there in it and don't run.
//! - `task_at`, `job_count`, `holder`, `active_routine`, `is_pending`: exactly what the run's
//!   state has. `see_holders`: exactly who holds each resource, the first task whose oldest job
//!   does, in one pass over the tasks. `last_arrived`: the routines whose interrupts arrived in
//!   the tick done last. `machine` lends the machine, to which exactly so much of the run has
//!   come.
//!
//! Shorter ways to the same tick:
//!
//! - `tick_steady`, of a machine and of a kernel: at Some it is `tick` with no arrival, in a tick
//!   in which nothing comes before the running task's instruction. A kernel says besides that a
//!   task executes, that no alarm is due, and that what is kept of the state is the same before
//!   the tick and at its instruction. At None nothing changed.
//! - `go_on`, of a kernel: it tells whether a ShutdownOS ended the run, and then nothing changed.
//!   Else a tick of the run is done. What it executed is the answer where its record is the
//!   first; else it is left beside the records before and behind it.
//! - `pass_plain`, of a kernel: in each tick that it answers no interrupt arrives, no alarm is
//!   due, no number of blockers is told, and the running task executes a plain instruction, which
//!   is the only record. What is kept of the state is the same before, at and behind the
//!   instruction, but for the clock, words, and the registers and places of tasks. It leaves what
//!   the last of these ticks executed.
//! - `pass_idle`, of a machine and of a kernel: each tick that it answers is exactly the
//!   definitions' tick without arrivals, which records that nobody executes and leaves all else
//!   as it was; runs go on by them. A kernel says besides that no alarm is due in them, and that
//!   what is kept of the state is the same before each, at its instruction and, but for the tick,
//!   behind it.
#![tactic(auto)]

mod acted;
mod alarm_phase;
mod at_instruction;
mod begun;
mod blockers;
mod blocking;
mod boot;
mod copying;
mod execute_phase;
mod executing;
mod holders;
mod kept_state;
mod kernel;
mod last_tick;
mod looker;
mod looking;
mod next;
mod places;
mod processor;
mod seen;
mod stamping;
mod ticked;
mod ticking;
mod watched;
mod working;

pub use at_instruction::AtInstruction;
pub use blockers::{Blockers, Counted, NotCounted};
pub use boot::BootFault;
pub use holders::see_holders;
pub use kernel::{Kernel, push_all};
pub use places::give_places;
pub use ticked::Ticked;
pub use ticking::Machine;
