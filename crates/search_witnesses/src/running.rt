//! What a run shows of a figure.

ghost use Rattle.std.specs.Prelude.{ℕ, ◌≡◌, ◌+◌, IfOk, IfSome, IsTrue, Some};
ghost use Rattle.kernel.specs.Progress.{AreKnown, Progress, run_of};
ghost use Rattle.osek_base.specs.Names.{number_of as number_of_name};
ghost use Rattle.law_bounds.specs.Showing.{Shows};
ghost use Rattle.search_witnesses.specs.Running.{IsWatched, Watches};

use crate::watched::Watched;
use kernel::{BootFault, Counted};
use osek_base::{Arrivals, MAX_TICKS, ModeId, System};
use seen_runs::ObservedRun;
use std::alloc::{AllocError, Global};
use view_measures::{Figure, Measure};

/// For how many ticks at most a run goes on behind those that lead to a blocked job, until the
/// job's blockers are told: that is when it executes again.
const MOST_BEHIND: u32 = 4096;

/// For how many ticks at most a run goes on until it shows what is told of a figure.
fn most_behind(figure: Figure) -> u32 {
    match figure.measure {
        Measure::Blockers => MOST_BEHIND,
        _ => 0,
    }
}

/// Whether a run is over by a ShutdownOS, which one tick more tells; not where it can't be done.
fn is_shut_down(run: &mut ObservedRun<'_, Counted>) -> Option<bool>
    ensures { IfSome result (λ over. over ≡ (run_of run.old).state.over) }
{
    if run.ticks_done() < MAX_TICKS {
        Some(!run.advance())
    } else {
        None
    }
}

/// Does a tick more of a run, and watches the things of a number; at false the run is over.
fn see_tick(
    system: &System,
    run: &mut ObservedRun<'_, Counted>,
    number: usize,
    watched: &mut Watched,
) -> bool
    ensures { IsTrue result → (first : Progress) (n : ℕ) → first.system ≡ system.now
        → IsWatched first run.old n number watched.old
        → IsWatched first run.new (n + 1) number watched.new }
{
    if !run.advance() {
        return false;
    }
    watched.observe(system, number, run.observation());
    true
}

/// Runs so many ticks, and watches the things of a number; not where the run is over before.
fn watch_ticks(
    system: &System,
    run: &mut ObservedRun<'_, Counted>,
    number: usize,
    ticks: u32,
) -> Option<Watched>
    requires begun { run.old.ticks ≡ 0 }
    requires of { run.old.system ≡ system.now }
    ensures { IfSome result (IsWatched run.old run.new ticks number) }
{
    let mut watched = Watched::new();
    for _tick in 0..ticks {
        if !see_tick(system, run, number, &mut watched) {
            return None;
        }
    }
    Some(watched)
}

/// As [`watch_ticks`], and watches whether the run is over behind them.
pub(crate) fn watch(
    system: &System,
    run: &mut ObservedRun<'_, Counted>,
    number: usize,
    ticks: u32,
) -> Option<Watched>
    requires begun { run.old.ticks ≡ 0 }
    requires of { run.old.system ≡ system.now }
    ensures { IfSome result
        (Watches run.old.system run.old.mode run.old.arrivals ticks number) }
{
    let mut watched = watch_ticks(system, run, number, ticks)?;
    watched.is_over = is_shut_down(run)?;
    Some(watched)
}

/// Goes on with a watched run until it shows so much of a figure, for so many ticks at most.
/// Answers how many ticks more it has done, also where it doesn't show it; nothing where it is over
/// before.
fn go_on_until(
    system: &System,
    run: &mut ObservedRun<'_, Counted>,
    watched: &mut Watched,
    figure: Figure,
    value: u32,
    most: u32,
) -> Option<u32>
    ensures { IfSome result (λ more. (first : Progress) (n : ℕ) → first.system ≡ system.now
        → IsWatched first run.old n figure.number watched.old
        → IsWatched first run.new (n + more) figure.number watched.new) }
{
    for more in 0..most {
        if watched.shown(figure.measure) == value {
            return Some(more);
        }
        if !see_tick(system, run, figure.number, watched) {
            return None;
        }
    }
    Some(most)
}

/// Runs so many ticks, goes on behind them until a figure shows so much, where that may be told
/// later, and watches the figure's thing. Answers how many ticks it has done, and what was watched.
fn watch_until(
    system: &System,
    run: &mut ObservedRun<'_, Counted>,
    ticks: u32,
    figure: Figure,
    value: u32,
) -> Option<(u32, Watched)>
    requires begun { run.old.ticks ≡ 0 }
    requires of { run.old.system ≡ system.now }
    ensures { IfSome result (λ done.
        Watches run.old.system run.old.mode run.old.arrivals done.0 figure.number done.1) }
{
    let mut watched = watch_ticks(system, run, figure.number, ticks)?;
    let most = most_behind(figure);
    let more = go_on_until(system, run, &mut watched, figure, value, most)?;
    let done = ticks.checked_add(more)?;
    watched.is_over = is_shut_down(run)?;
    Some((done, watched))
}

/// Whether a name is that of a mode.
fn is_name_of(system: &System, mode: ModeId, name: &str) -> bool
    ensures { IsTrue result → number_of_name name.now system.now.names.modes ≡ Some mode }
{
    match system.names().mode(name) {
        Some(known) => known.number() == mode.number(),
        None => false,
    }
}

/// A run with arrivals in a mode; not where the system has none of the mode's name.
pub(crate) fn begin<'s>(
    alloc: Global,
    system: &'s System,
    mode: ModeId,
    arrivals: Arrivals,
) -> Result<Option<ObservedRun<'s, Counted>>, AllocError>
    requires { AreKnown system.now arrivals }
    ensures { IfOk result (λ begun. IfSome begun (λ r. (r.system ≡ system.now)
        × (r.mode ≡ mode) × (r.arrivals ≡ arrivals) × (r.ticks ≡ 0))) }
{
    let Some(name) = system.names().modes.get(usize::from(mode.number())) else {
        return Ok(None);
    };
    if !is_name_of(system, mode, name.as_str()) {
        return Ok(None);
    }
    match ObservedRun::boot(alloc, system, name.as_str(), arrivals) {
        Ok(run) => Ok(Some(run)),
        Err(BootFault::UnknownMode) => Ok(None),
        Err(BootFault::Memory) => Err(AllocError),
    }
}

/// How many ticks of a run are watched, and what these show of a figure: so many ticks, or more,
/// where they don't show so much and it may be told later. Nothing where the run is over before, or
/// there is no such thing.
pub(crate) fn shown_in_run(
    alloc: Global,
    system: &System,
    mode: ModeId,
    arrivals: Arrivals,
    ticks: u32,
    figure: Figure,
    value: u32,
) -> Result<Option<(u32, u32)>, AllocError>
    requires { AreKnown system.now arrivals }
    ensures { IfOk result (λ found. IfSome found
        (λ shown. Shows system.now mode arrivals shown.0 figure shown.1)) }
{
    system.shows_proper();
    if !figure.is_of(system) {
        return Ok(None);
    }
    let Some(mut run) = begin(alloc, system, mode, arrivals)? else {
        return Ok(None);
    };
    let Some((done, watched)) = watch_until(system, &mut run, ticks, figure, value) else {
        return Ok(None);
    };
    prove!(done <= u32::MAX);
    Ok(Some((done, watched.shown(figure.measure))))
}
