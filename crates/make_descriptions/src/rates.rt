//! How often interrupts arrive and jobs are made at most, as far as a description tells it.

use crate::costs::jobs_made;
use crate::description::{Action, Arriving, Described, Release, Task};
use std::alloc::{AllocError, Global};

/// What a rate is counted in: so many are one in each tick.
pub const ONE: u64 = 1_000_000_000_000;

/// How often something comes about. What is told is less than that where it isn't whole.
#[derive(Clone, Copy, PartialEq, Eq)]
pub struct Rate {
    /// In units of [`ONE`].
    pub told: u64,
    /// Whether each way in which it comes about has a rate that is told.
    pub is_whole: bool,
}

const NONE: Rate = Rate {
    told: 0,
    is_whole: true,
};

impl Rate {
    /// How often an interrupt arrives. A jitter moves arrivals, and makes none.
    pub fn of_arrivals(arriving: Arriving) -> Rate {
        Rate::once_in(arriving.distance())
    }

    /// Once in so many ticks; less than all, where no distance is told.
    fn once_in(distance: Option<u32>) -> Rate {
        Rate {
            told: match distance {
                Some(ticks) => ONE.checked_div(ticks as u64).unwrap_or(0),
                None => 0,
            },
            is_whole: distance.is_some(),
        }
    }

    /// Together with what comes about so many times at each of another.
    fn with(self, times: u64, other: Rate) -> Rate {
        if times == 0 {
            return self;
        }
        Rate {
            told: self.told.saturating_add(times.saturating_mul(other.told)),
            is_whole: self.is_whole && other.is_whole,
        }
    }
}

/// How often jobs of a task are made by its own period or interrupt, by alarms and by interrupts. A
/// job that is there from the beginning counts as one in so long a time that it costs nothing: a
/// task that makes its own next job is told apart by that.
fn from_outside(
    alloc: Global,
    described: &Described<'_>,
    task: &Task<'_>,
) -> Result<Rate, AllocError> {
    let mut rate = Rate {
        told: task.starts as u64,
        is_whole: true,
    };
    match task.release {
        Release::Periodic { period, .. } => rate = rate.with(1, Rate::once_in(Some(period))),
        Release::Sporadic(arriving) => rate = rate.with(1, Rate::of_arrivals(arriving)),
        Release::Others => {}
    }
    for alarm in &described.alarms {
        match alarm.action {
            Action::Activate(name) if name == task.name => {
                rate = rate.with(1, Rate::once_in(Some(alarm.period)));
            }
            _ => {}
        }
    }
    for interrupt in &described.interrupts {
        let jobs = jobs_made(alloc, &interrupt.body, task.name)?;
        rate = rate.with(jobs, Rate::of_arrivals(interrupt.arriving));
    }
    Ok(rate)
}

/// How many jobs of each task a job of each makes.
fn jobs_of_jobs(alloc: Global, described: &Described<'_>) -> Result<Vec<Vec<u64>>, AllocError> {
    let mut rows = Vec::new(alloc);
    for task in &described.tasks {
        let mut row = Vec::new(alloc);
        for maker in &described.tasks {
            row.push(jobs_made(alloc, &maker.body, task.name)?)?;
        }
        rows.push(row)?;
    }
    Ok(rows)
}

/// What is known of the tasks before their rates are.
#[derive(Drop)]
struct Sources<'d, 'a> {
    tasks: &'d [Task<'a>],
    outside: Vec<Rate>,
    jobs: Vec<Vec<u64>>,
}

impl Sources<'_, '_> {
    /// The rates of all tasks, where those of the tasks that make their jobs are as given.
    fn next(&self, alloc: Global, rates: &[Rate]) -> Result<Vec<Rate>, AllocError> {
        let mut next = Vec::new(alloc);
        for (number, task) in self.tasks.iter().enumerate() {
            let mut rate = self.outside.get(number).copied().unwrap_or(NONE);
            if let Some(row) = self.jobs.get(number) {
                for (jobs, maker) in row.iter().zip(rates.iter()) {
                    rate = rate.with(*jobs, *maker);
                }
            }
            rate.is_whole = rate.is_whole && !task.body.is_looped;
            next.push(rate)?;
        }
        Ok(next)
    }

    /// The rates behind as many steps as there are tasks.
    fn go_on(&self, alloc: Global, rates: Vec<Rate>) -> Result<Vec<Rate>, AllocError> {
        let mut rates = rates;
        for _task in self.tasks {
            rates = self.next(alloc, rates.as_slice())?;
        }
        Ok(rates)
    }
}

/// How often jobs of each task are made. It isn't whole of a task that is repeated for ever, or
/// that makes its own next job, also by others; nor of those whose jobs such a task makes.
pub fn task_rates(alloc: Global, described: &Described<'_>) -> Result<Vec<Rate>, AllocError> {
    let mut outside = Vec::new(alloc);
    for task in &described.tasks {
        outside.push(from_outside(alloc, described, task)?)?;
    }
    let sources = Sources {
        tasks: described.tasks.as_slice(),
        outside,
        jobs: jobs_of_jobs(alloc, described)?,
    };
    let rates = sources.go_on(alloc, Vec::new(alloc))?;
    let mut found = Vec::new(alloc);
    for rate in &rates {
        found.push(*rate)?;
    }
    // Where jobs of no task lead to others of it, nothing changes any more.
    let more = sources.go_on(alloc, rates)?;
    for ((rate, next), own) in found
        .iter_mut()
        .zip(more.iter())
        .zip(sources.outside.iter())
    {
        if *rate != *next {
            *rate = Rate {
                told: own.told,
                is_whole: false,
            };
        }
    }
    Ok(found)
}
