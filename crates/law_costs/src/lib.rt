//! No code: from costs to bounds. What is left of a level's work is counted in each state, by
//! costs of who executes as it stands. Costs that pay for what comes, and for each instruction of
//! a known job or routine by what it leaves of that, bound each window and each response.
//!
//! The costs are any functions (`Weights`): of the active routine as it stands, of a job as it
//! stands and by the events that are set for its task, of an activation, of events that are set,
//! of an alarm that is set, of an interrupt and of an expiry. *Left* in a state is that of the
//! active routine, of each pending one of the level, of each alarm that is set, and of each job
//! that *counts*: it doesn't wait, and is of the level, or a lower one in a section, by its
//! dynamic priority or with interrupts off. Where none counts, the greatest section that a
//! dispatch may begin stands for them.
//!
//! - A job or a routine is *known* that passes a test, with the switch that it finds (`Known`).
//!   What is known *stays known* (`StaysKnown`) where all that begins passes, and what passed does
//!   behind its instruction too, whatever good state that finds. Then who executes in a run is
//!   known (`runs_are_known`). With interrupts on nobody but who executes holds a resource that it
//!   may take, a job that executes has taken its internal resource, and no event is set for a task
//!   but those that programs and alarms may set for it (`Executes`, `settable`).
//! - Costs *pay* (`Pay`) where an interrupt of a routine of the level costs at least that routine
//!   as it starts, an activation a new job, an expiry what its alarm starts, a dispatch nothing
//!   or the section that it begins, boot what starts with the mode; and events at least the known
//!   job that they release, or what more is left by them of one that doesn't wait. Of a task
//!   below the level, events that are set change nothing. Then alarms, arrivals, dispatches and
//!   starts of routines add no more than what comes costs.
//! - An alarm may *pay when it is set*: who sets it pays for what its expiry starts, that is left
//!   as long as it is set, and the expiry costs so much less. It may only where boot and who is
//!   known set it without a cycle (`AreKnownOnce`), as then it goes off where it expires. Where a
//!   window begins, any of them may be set.
//! - Of known routines that is one inequality for each instruction, whatever good state it finds:
//!   what it leaves of the routine, and what it starts and sets where it isn't refused, is one less
//!   at least (`PayForRoutines`). A routine below the level is a section of those of it, as
//!   routines don't nest: what it leaves, with the section of a dispatch and all alarms, is no more
//!   than may be where a window begins. It starts where none of the level is pending, so its first
//!   instruction is in no window.
//! - Of known jobs it is the same, where the job counts: so whatever it does with its events, which
//!   it may clear, or go on by where it would wait. And of a task below the level, in a section or
//!   not, what it leaves and starts, and all alarms, are no more than may be where a window begins
//!   (`PayForJobs`). Nothing is asked of other jobs.
//! - So what is left falls phase by phase in each run (`costs_fall_by_phases`). Where who is known
//!   sets alarms no sooner than is said (`AreKnownNoSooner`), such costs bound each window and each
//!   response (`costs_bound_responses`).
//! - So they do where expiries of alarms that only boot starts are counted by the known ticks that
//!   lie in a window (`costs_bound_at_known_ticks`).
//!
//! Nothing is asked of runs. `law_nodes` tells by finite tables what is known, and what pays.
#![tactic(auto)]

mod laws;

pub use laws::{
    costs_bound_at_known_ticks, costs_bound_responses, costs_fall_by_phases, runs_are_known,
};
