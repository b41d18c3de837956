//! The load of a description: the ticks that routines and jobs execute, by the ticks in which they
//! come about, of each priority and in all.

use make_descriptions::costs::ticks_of;
use make_descriptions::description::{Described, Release};
use make_descriptions::rates::{ONE, Rate, task_rates};
use osek_base::MAX_TASK_PRIORITY;
use std::alloc::{AllocError, Global};
use std::fmt::{self, Display, Formatter, Write};

/// A load in tenths of a percent.
#[derive(Clone, Copy)]
struct Percent(u64);

/// A tenth of a percent, in the units of [`ONE`].
const TENTH: u64 = ONE / 1000;

/// 100 %, in tenths of a percent.
const FULL: u64 = 1000;

impl Percent {
    /// The nearest to a load in units of [`ONE`].
    fn of(load: u64) -> Percent {
        Percent(load.saturating_add(TENTH / 2) / TENTH)
    }
}

impl Display for Percent {
    fn fmt<W: Write>(&self, f: &mut Formatter<W>) -> fmt::Result {
        write!(f, "{}.{} %", self.0 / 10, self.0 % 10)
    }
}

/// The ticks of the routine of a task that is released by arrivals: ACT and RETI.
const TICKS_OF_RELEASE: u64 = 2;

/// The load of all routines, in units of [`ONE`].
fn of_routines(alloc: Global, described: &Described<'_>) -> Result<u64, AllocError> {
    let mut load: u64 = 0;
    for interrupt in &described.interrupts {
        let rate = Rate::of_arrivals(interrupt.arriving);
        let ticks = ticks_of(alloc, &interrupt.body)?;
        load = load.saturating_add(ticks.saturating_mul(rate.told));
    }
    for task in &described.tasks {
        if let Release::Sporadic(arriving) = task.release {
            let rate = Rate::of_arrivals(arriving);
            load = load.saturating_add(TICKS_OF_RELEASE.saturating_mul(rate.told));
        }
    }
    Ok(load)
}

/// The load of the tasks of a priority, in units of [`ONE`]. What is repeated for ever isn't
/// counted.
fn of_priority(
    alloc: Global,
    described: &Described<'_>,
    rates: &[Rate],
    priority: u32,
) -> Result<u64, AllocError> {
    let mut load: u64 = 0;
    for (task, rate) in described.tasks.iter().zip(rates.iter()) {
        if task.priority == priority && !task.body.is_looped {
            let ticks = ticks_of(alloc, &task.body)?;
            load = load.saturating_add(ticks.saturating_mul(rate.told));
        }
    }
    Ok(load)
}

/// The interrupts and tasks of which not all is counted, a line where there is one.
fn uncounted(
    alloc: Global,
    described: &Described<'_>,
    rates: &[Rate],
) -> Result<Option<String>, AllocError> {
    let mut names = Vec::new(alloc);
    for interrupt in &described.interrupts {
        if !Rate::of_arrivals(interrupt.arriving).is_whole {
            names.push(interrupt.name)?;
        }
    }
    for (task, rate) in described.tasks.iter().zip(rates.iter()) {
        if !rate.is_whole {
            names.push(task.name)?;
        }
    }
    if names.is_empty() {
        return Ok(None);
    }
    let mut line = String::new(alloc);
    line.push_str("load: besides, as nothing tells how often they run:")?;
    for name in names {
        line.push(' ')?;
        line.push_str(name)?;
    }
    Ok(Some(line))
}

/// Adds a line for each priority of which there is a load, and gives the load in all.
fn add_levels(
    alloc: Global,
    described: &Described<'_>,
    rates: &[Rate],
    lines: &mut Vec<String>,
) -> Result<u64, AllocError> {
    let mut all = of_routines(alloc, described)?;
    if all > 0 {
        lines.push(format!(in alloc; "load: interrupts: {}", Percent::of(all))?)?;
    }
    for below in 0..=MAX_TASK_PRIORITY as u32 {
        let priority = (MAX_TASK_PRIORITY as u32).saturating_sub(below);
        let load = of_priority(alloc, described, rates, priority)?;
        if Percent::of(load).0 > 0 {
            all = all.saturating_add(load);
            let (own, sum) = (Percent::of(load), Percent::of(all));
            lines.push(format!(in alloc;
                "load: priority {priority}: {own}, with all above {sum}"
            )?)?;
        }
    }
    Ok(all)
}

/// What is told of the load, a line without its end each: of the routines, of each priority, in
/// all, of what isn't counted, and a warning where there is more than the processor does.
pub fn load_lines(alloc: Global, described: &Described<'_>) -> Result<Vec<String>, AllocError> {
    let mut lines = Vec::new(alloc);
    if described.tasks.is_empty() && described.interrupts.is_empty() {
        return Ok(lines);
    }
    let rates = task_rates(alloc, described)?;
    let all = Percent::of(add_levels(alloc, described, rates.as_slice(), &mut lines)?);
    lines.push(format!(in alloc; "load: in all: {all}")?)?;
    if let Some(line) = uncounted(alloc, described, rates.as_slice())? {
        lines.push(line)?;
    }
    if all.0 > FULL {
        lines.push(format!(in alloc;
            "warning: load: more than 100 %: if that lasts, jobs or interrupts are lost"
        )?)?;
    }
    Ok(lines)
}
