//! What a body costs: its ticks, and how often it makes a job of a task.

use crate::description::{Body, Does, LIMITED_WAIT};
use std::alloc::{AllocError, Global};

/// How many ticks a body executes from its first step to its end; of one that is repeated for ever,
/// a round. More than `u64` holds is told as its greatest number.
pub fn ticks_of(alloc: Global, body: &Body<'_>) -> Result<u64, AllocError> {
    let mut open: Vec<(u32, u64)> = Vec::new(alloc);
    let mut ticks: u64 = 0;
    let mut end: u64 = 1;
    for step in &body.steps {
        end = 1;
        match step.does {
            Does::Work(more) => ticks = ticks.saturating_add(more as u64),
            Does::Repeat(rounds) => {
                open.push((rounds, ticks))?;
                ticks = 0;
            }
            Does::End => {
                let (rounds, before) = open.pop().unwrap_or((1, 0));
                let round = ticks.saturating_add(2);
                let all = round.saturating_mul(rounds as u64).saturating_add(2);
                ticks = before.saturating_add(all);
            }
            Does::Chain(_) => {
                ticks = ticks.saturating_add(1);
                end = 0;
            }
            does if does.is_limited_wait() => ticks = ticks.saturating_add(LIMITED_WAIT as u64),
            _ => ticks = ticks.saturating_add(1),
        }
    }
    Ok(ticks.saturating_add(end))
}

/// How many jobs of a task a body makes from its first step to its end.
pub fn jobs_made(alloc: Global, body: &Body<'_>, task: &str) -> Result<u64, AllocError> {
    let mut open: Vec<u64> = Vec::new(alloc);
    let mut times: u64 = 1;
    let mut jobs: u64 = 0;
    for step in &body.steps {
        match step.does {
            Does::Repeat(rounds) => {
                open.push(times)?;
                times = times.saturating_mul(rounds as u64);
            }
            Does::End => times = open.pop().unwrap_or(1),
            Does::Activate(name) | Does::Chain(name) if name == task => {
                jobs = jobs.saturating_add(times);
            }
            _ => {}
        }
    }
    Ok(jobs)
}
