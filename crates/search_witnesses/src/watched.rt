//! Figures of the things of one number, over the ticks that were seen.

ghost use Rattle.std.specs.Prelude.{ℕ, List, [], ◌∷◌, ◌≡◌, None, cond};
ghost use Rattle.seen_ticks.specs.Seen.{task_seen};
ghost use Rattle.view_figures.specs.FigureSums.{alarm_tick, holder_tick, is_error, is_routine, is_task, levels_of, routine_tick};
ghost use Rattle.view_figures.specs.declared.reached.Reached.{Reached};
ghost use Rattle.seen_ticks.specs.declared.observation.Observation.{Observation};
ghost use Rattle.law_bounds.specs.Showing.{has_come, number_or_none, ticks_of};
ghost use Rattle.search_witnesses.specs.Watched.{AreWatched, bare_task_tick, shown_of};

use crate::blocked::BlockedTicks;
use osek_base::System;
use search_labels::blocked_tick;
use seen_ticks::{Failure, Observation};
use view_figures::{
    AlarmFigures, AlarmTick, HolderTick, Reached, ResourceFigures, RoutineFigures, RoutineTick,
    TaskFigures, TaskTick, is_error, is_routine, is_task,
};
use view_measures::Measure;

/// The number of blockers that a tick tells of a task, where one is told and it executes.
fn blockers_told(seen: &Observation, number: usize) -> Option<u32>
    ensures { result ≡ cond (is_task seen.now.executor number) seen.now.blockers None }
{
    if is_task(&seen.executor, number) {
        seen.blockers
    } else {
        None
    }
}

/// A task in a tick, without whether a lower task executes.
fn task_tick(seen: &Observation, number: usize) -> TaskTick
    ensures { result ≡ bare_task_tick seen.now number }
{
    TaskTick {
        tick: seen.tick,
        seen: seen.task(number),
        lower_executes: false,
        has_failed: is_task(&seen.executor, number) && is_error(&seen.answered),
        blockers: blockers_told(seen, number),
    }
}

/// How many jobs a task has in a tick.
fn jobs_seen(seen: &Observation, number: usize) -> u32
    ensures { result ≡ (task_seen seen.now number).jobs }
{
    u32::from(seen.task(number).jobs)
}

/// A routine in a tick.
fn routine_tick(seen: &Observation, number: usize) -> RoutineTick
    ensures { result ≡ routine_tick seen.now number }
{
    RoutineTick {
        tick: seen.tick,
        seen: seen.routine(number),
        has_failed: is_routine(&seen.executor, number) && is_error(&seen.answered),
    }
}

fn holder_tick(seen: &Observation, number: usize) -> HolderTick
    ensures { result ≡ holder_tick seen.now number }
{
    HolderTick {
        tick: seen.tick,
        holder: seen.holder(number),
    }
}

fn alarm_tick(seen: &Observation, number: usize) -> AlarmTick
    ensures { result ≡ alarm_tick seen.now number }
{
    AlarmTick {
        tick: seen.tick,
        seen: seen.alarm(number),
    }
}

/// Figures of the task, the routine, the resource and the alarm of one number, as far as such a
/// thing was seen, the last tick, the most jobs of the task at once, for how long its oldest job
/// was blocked, the service that the last tick answers other than E_OK, if one, and whether a
/// ShutdownOS has ended the run. The figures of the task don't count ticks in which a lower task
/// executes.
#[derive(Drop)]
pub(crate) struct Watched {
    pub(crate) task: TaskFigures,
    pub(crate) routine: RoutineFigures,
    pub(crate) resource: ResourceFigures,
    pub(crate) alarm: AlarmFigures,
    pub(crate) last: u32,
    pub(crate) jobs: u32,
    pub(crate) blocked: BlockedTicks,
    pub(crate) failure: Option<Failure>,
    pub(crate) is_over: bool,
}

/// The ticks of a figure, 0 where there is none.
fn ticks_of(reached: Option<Reached>) -> u32
    ensures { result ≡ ticks_of reached }
{
    match reached {
        Some(reached) => reached.ticks,
        None => 0,
    }
}

/// The number of a count, 0 where there is none.
fn number_or_none(count: Option<u32>) -> u32
    ensures { result ≡ number_or_none count }
{
    match count {
        Some(number) => number,
        None => 0,
    }
}

/// What is told of something that has come so often.
fn coming(count: u32) -> u32
    ensures { result ≡ has_come count }
{
    if count > 0 { 1 } else { 0 }
}

impl Watched {
    /// Nothing was seen.
    pub(crate) fn new() -> Self
        ensures { (levels : List ℕ) (number : ℕ) → AreWatched levels number [] result }
    {
        Watched {
            task: TaskFigures::new(),
            routine: RoutineFigures::new(),
            resource: ResourceFigures::new(),
            alarm: AlarmFigures::new(),
            last: 0,
            jobs: 0,
            blocked: BlockedTicks::new(),
            failure: None,
            is_over: false,
        }
    }

    /// A tick more is seen.
    pub(crate) fn observe(&mut self, system: &System, number: usize, seen: &Observation)
        ensures { (before : List Observation)
            → AreWatched (levels_of system.now) number before self.old
            → AreWatched (levels_of system.now) number (seen.now ∷ before) self.new }
    {
        self.task.observe(&task_tick(seen, number));
        self.routine.observe(&routine_tick(seen, number));
        self.resource.observe(&holder_tick(seen, number));
        self.alarm.observe(&alarm_tick(seen, number));
        self.last = seen.tick;
        self.jobs = jobs_seen(seen, number).max(self.jobs);
        self.blocked.observe(&blocked_tick(system, seen, number));
        self.failure = seen.failure;
    }

    /// What is shown of a measure: ticks of a time; a number of jobs or of blockers; of what comes
    /// or not 1 where it has come.
    pub(crate) fn shown(&self, measure: Measure) -> u32
        ensures { result ≡ shown_of self.now measure }
    {
        match measure {
            Measure::Response => ticks_of(self.task.worst(self.last)),
            Measure::Blocked => self.blocked.most(),
            Measure::Blockers => number_or_none(self.task.counts.blockers),
            Measure::Jobs => self.jobs,
            Measure::Refusal => coming(self.task.counts.refused),
            Measure::Errors => coming(self.task.counts.errors),
            Measure::Latency => ticks_of(self.routine.worst(self.last)),
            Measure::Loss => coming(self.routine.losses),
            Measure::RoutineErrors => coming(self.routine.errors),
            Measure::Hold => ticks_of(self.resource.longest),
            Measure::RefusedAction => coming(self.alarm.refused),
            Measure::Shutdown => coming(u32::from(self.is_over)),
        }
    }
}
