//! No code: a response and a hold belong to a job, a latency to an interrupt. The ages by which
//! figures go are those of a task's jobs that are READY or RUNNING, oldest first, and of a routine's
//! pending interrupt, so none is older than the longest time of its task or routine.
//!
//! A job is *ready since* a tick where it has been READY or RUNNING from that tick's instruction
//! on, and neither waited nor was gone between. Its age counts both ticks.
//!
//! - In each tick of every run the ages that a task's label has are those of its jobs
//!   (`ages_are_of_jobs`), so the oldest by the figures is the oldest job (`oldest_is_job`).
//! - A response that the figures count in a tick is that of the job that executes: the oldest of
//!   its task, which ends by the instruction or begins to wait (`responses_are_of_jobs`).
//! - Where the longest time of a task, ended or not, is within a bound, no job of it that is ready
//!   since a tick is READY or RUNNING so many ticks later (`jobs_end_within`).
//! - A hold of a resource is that of one job of the task that is seen as the holder: it holds it at
//!   the instruction of just as many ticks (`holds_are_of_jobs`).
//!
//! An interrupt is *pending since* a tick where it arrived in that tick and its routine's flag was
//! off before it, and hasn't been off since. One that arrives while the flag is on is lost.
//!
//! - In each tick of every run what a routine's label shows is for how many ticks the interrupt that
//!   is pending has waited: up to the tick in which the routine starts, or so far. A latency that the
//!   figures count is that of the one whose routine starts (`latencies_are_of_interrupts`).
//! - Where the longest time of a routine, started or not, is within a bound, each interrupt that
//!   isn't lost has it started so many ticks later at the latest (`interrupts_start_within`).
#![tactic(auto)]

mod laws;

pub use laws::{
    ages_are_of_jobs, holds_are_of_jobs, interrupts_start_within, jobs_end_within,
    latencies_are_of_interrupts, oldest_is_job, responses_are_of_jobs,
};
