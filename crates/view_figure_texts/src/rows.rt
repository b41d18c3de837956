//! What is told of each object of a section.

ghost use Rattle.std.specs.Prelude.{◌≡◌};
ghost use Rattle.view_figure_texts.specs.Sections.{
  alarm_entries as alarm_row,
  at_cell as reached_at,
  count_cell as some_count,
  job_entries as job_row,
  least_cell as least_of,
  load as share_of,
  resource_entries as resource_row,
  response_entries as response_row,
  routine_entries as routine_row,
  run_entries as run_row,
  ticks_cell as reached_ticks,
  time_entries as time_row,
};

use crate::cells::{Cell, quotient};
use crate::entry::Entry;
use crate::words::Word;
use view_figures::{AlarmFigures, Figures, Reached, ResourceFigures, RoutineFigures, TaskFigures};

// A share of the ticks, in percent.
fn load(executed: u32, ticks: u32) -> Cell
    ensures { result ≡ share_of executed ticks }
{
    quotient(100 * u64::from(executed), ticks)
}

// A count, if there is one.
fn count_cell(count: Option<u32>) -> Cell
    ensures { result ≡ some_count count }
{
    match count {
        Some(count) => Cell::Count(count),
        None => Cell::Nothing,
    }
}

// How many ticks were reached, if any were.
fn ticks_cell(reached: Option<Reached>) -> Cell
    ensures { result ≡ reached_ticks reached }
{
    match reached {
        Some(reached) => Cell::Count(reached.ticks),
        None => Cell::Nothing,
    }
}

// When they were reached.
fn at_cell(reached: Option<Reached>) -> Cell
    ensures { result ≡ reached_at reached }
{
    match reached {
        Some(reached) => Cell::Count(reached.at),
        None => Cell::Nothing,
    }
}

// The least of so many numbers.
fn least_cell(count: u32, least: u32) -> Cell
    ensures { result ≡ least_of count least }
{
    if count == 0 {
        Cell::Nothing
    } else {
        Cell::Count(least)
    }
}

/// The whole run: its ticks, those in which nobody executes, and the share of the others.
pub fn run_entries(figures: &Figures) -> [Entry; 3]
    ensures { result ≡ run_row figures.now }
{
    let (ticks, idle) = (figures.ticks(), figures.idle());
    [
        Entry::count(Word::Ticks, ticks),
        Entry::count(Word::Idle, idle),
        Entry::new(Word::Load, load(ticks.saturating_sub(idle), ticks)),
    ]
}

/// What became of a task's jobs.
pub fn job_entries(task: &TaskFigures) -> [Entry; 6]
    ensures { result ≡ job_row task.now }
{
    let counts = &task.counts;
    [
        Entry::count(Word::Activations, counts.activations),
        Entry::count(Word::Refused, counts.refused),
        Entry::count(Word::Ended, counts.ended),
        Entry::count(Word::Unfinished, counts.unfinished),
        Entry::count(Word::Errors, counts.errors),
        Entry::new(Word::Blockers, count_cell(counts.blockers)),
    ]
}

/// The responses of a task's jobs, behind a last tick.
pub fn response_entries(task: &TaskFigures, last: u32) -> [Entry; 6]
    ensures { result ≡ response_row last task.now }
{
    let responses = &task.responses;
    let spread = responses.spread();
    [
        Entry::count(Word::Responses, spread.count),
        Entry::new(Word::Least, least_cell(spread.count, spread.least)),
        Entry::new(Word::Mean, quotient(spread.sum, spread.count)),
        Entry::new(Word::Greatest, ticks_cell(spread.greatest)),
        Entry::new(Word::GreatestAt, at_cell(spread.greatest)),
        Entry::new(Word::Oldest, ticks_cell(responses.oldest(last))),
    ]
}

/// What so many ticks were for a task.
pub fn time_entries(task: &TaskFigures, ticks: u32) -> [Entry; 6]
    ensures { result ≡ time_row ticks task.now }
{
    let times = &task.times;
    [
        Entry::count(Word::Executed, times.executed),
        Entry::count(Word::Ready, times.ready),
        Entry::count(Word::Preempted, times.preempted),
        Entry::count(Word::Blocked, times.blocked),
        Entry::count(Word::Waiting, times.waiting),
        Entry::new(Word::Load, load(times.executed, ticks)),
    ]
}

/// A routine: its interrupts, its starts and its latency.
pub fn routine_entries(routine: &RoutineFigures) -> [Entry; 7]
    ensures { result ≡ routine_row routine.now }
{
    [
        Entry::count(Word::Arrivals, routine.arrivals),
        Entry::count(Word::Starts, routine.starts),
        Entry::count(Word::Losses, routine.losses),
        Entry::count(Word::Errors, routine.errors),
        Entry::new(Word::Latency, ticks_cell(routine.latency)),
        Entry::new(Word::LatencyAt, at_cell(routine.latency)),
        Entry::new(Word::Pending, count_cell(routine.pending_since)),
    ]
}

/// The holds of a resource.
pub fn resource_entries(resource: &ResourceFigures) -> [Entry; 3]
    ensures { result ≡ resource_row resource.now }
{
    [
        Entry::count(Word::Gets, resource.gets),
        Entry::new(Word::Longest, ticks_cell(resource.longest)),
        Entry::new(Word::LongestAt, at_cell(resource.longest)),
    ]
}

/// The expiries of an alarm.
pub fn alarm_entries(alarm: &AlarmFigures) -> [Entry; 2]
    ensures { result ≡ alarm_row alarm.now }
{
    [
        Entry::count(Word::Expiries, alarm.expiries),
        Entry::count(Word::Refused, alarm.refused),
    ]
}
