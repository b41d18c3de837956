//! What an observation has of each thing, by number.

ghost use Rattle.std.specs.Prelude.{◌≡◌, ◌<◌, length};
ghost use Rattle.seen_ticks.specs.Seen.{numbered, task_seen};
ghost use Rattle.view_figures.specs.FigureSums.{lower_executes, task_tick, executing_tick, routine_tick, holder_tick, alarm_tick, is_idle, is_error, is_task, is_routine};
ghost use Rattle.view_figures.specs.Quiet.{executing_number, tells, is_untold};

use crate::alarm_figures::AlarmTick;
use crate::resource_figures::HolderTick;
use crate::routine_figures::RoutineTick;
use crate::scene::Scene;
use crate::task_tick::TaskTick;
use osek_base::{Owner, Status, TaskState};
use seen_ticks::{AlarmSeen, Holder, Observation, TaskSeen};

/// Who holds a resource in a tick of that number.
pub fn holder_tick(tick: u32, observation: &Observation, number: usize) -> HolderTick
    ensures { result ≡ holder_tick (numbered tick observation.now) number }
{
    HolderTick {
        tick,
        holder: observation.holder(number),
    }
}

/// Who holds a resource in a tick of that number.
#[inline(always)]
pub fn held_tick(tick: u32, scene: &Scene, number: usize) -> HolderTick
    ensures { result ≡ holder_tick (numbered tick scene.now.observation.now) number }
{
    let holder = match scene.holders.get(number) {
        Some(holder) => *holder,
        None => Holder::default(),
    };
    HolderTick { tick, holder }
}

/// What is seen of a task.
#[inline(always)]
pub fn seen_of_task(scene: &Scene, number: usize) -> TaskSeen
    ensures { result ≡ task_seen scene.now.observation.now number }
{
    match scene.tasks.get(number) {
        Some(seen) => *seen,
        None => TaskSeen::default(),
    }
}

/// What an observation has of an alarm, as of a tick of that number.
#[inline(always)]
pub fn alarm_tick(tick: u32, scene: &Scene, number: usize) -> AlarmTick
    ensures { result ≡ alarm_tick (numbered tick scene.now.observation.now) number }
{
    let seen = match scene.alarms.get(number) {
        Some(seen) => *seen,
        None => AlarmSeen::default(),
    };
    AlarmTick { tick, seen }
}

/// Whether a status is told, other than E_OK.
pub fn is_error(answered: &Option<Status>) -> bool
    ensures { result ≡ is_error answered.now }
{
    match answered {
        Some(status) => status.number() > 0,
        None => false,
    }
}

/// Whether a task executes.
#[inline(always)]
pub fn is_task(executor: &Option<Owner>, number: usize) -> bool
    ensures { result ≡ is_task executor.now number }
{
    match executor {
        Some(Owner::Task(task)) => task.number() as usize == number,
        _ => false,
    }
}

/// Whether a routine executes.
#[inline(always)]
pub fn is_routine(executor: &Option<Owner>, number: usize) -> bool
    ensures { result ≡ is_routine executor.now number }
{
    match executor {
        Some(Owner::Routine(routine)) => routine.number() as usize == number,
        _ => false,
    }
}

/// The number of the task that executes; where none does, one that no task has.
#[inline(always)]
pub fn executing(executor: &Option<Owner>) -> usize
    ensures { result ≡ executing_number executor.now }
{
    match executor {
        Some(Owner::Task(task)) => task.number() as usize,
        _ => usize::MAX,
    }
}

/// Whether a task executes.
#[inline(always)]
pub fn executes(scene: &Scene, number: usize) -> bool
    requires { number < length scene.now.levels.now }
    ensures { result ≡ is_task scene.now.observation.now.executor number }
{
    scene.executing == number
}

// Whether an error is answered, or blockers are told.
#[inline(always)]
fn tells(observation: &Observation) -> bool
    ensures { result ≡ tells observation.now }
{
    is_error(&observation.answered) || observation.blockers.is_some()
}

/// Whether of a task in a state no error and no blockers are told. One that is RUNNING executes.
#[inline(always)]
pub fn is_untold(scene: &Scene, state: TaskState, number: usize) -> bool
    requires { number < length scene.now.levels.now }
    ensures { result ≡ is_untold scene.now.observation.now state number }
{
    match state {
        TaskState::Running => executes(scene, number) && !tells(scene.observation),
        _ => !executes(scene, number),
    }
}

/// Whether a task executes whose static priority is lower than a task's.
#[inline(always)]
pub fn lower_executes(scene: &Scene, number: usize) -> bool
    requires { number < length scene.now.levels.now }
    ensures { result
        ≡ lower_executes scene.now.levels.now scene.now.observation.now.executor number }
{
    let levels = scene.levels;
    scene.executing < levels.len() && levels[scene.executing] < levels[number]
}

/// What an observation has of a task that executes, as of a tick of that number.
#[inline(always)]
pub fn executing_tick(tick: u32, observation: &Observation, number: usize) -> TaskTick
    ensures { result ≡ executing_tick observation.now tick number }
{
    TaskTick {
        tick,
        seen: observation.task(number),
        lower_executes: false,
        has_failed: is_error(&observation.answered),
        blockers: observation.blockers,
    }
}

/// What an observation has of a task, as of a tick of that number.
#[inline(always)]
pub fn task_tick(tick: u32, scene: &Scene, number: usize) -> TaskTick
    requires { number < length scene.now.levels.now }
    ensures { result
        ≡ task_tick scene.now.levels.now (numbered tick scene.now.observation.now) number }
{
    let observation = scene.observation;
    let executes = executes(scene, number);
    TaskTick {
        tick,
        seen: observation.task(number),
        lower_executes: lower_executes(scene, number),
        has_failed: executes && is_error(&observation.answered),
        blockers: if executes { observation.blockers } else { None },
    }
}

/// Whether nobody executes the tick's instruction.
pub fn is_idle(observation: &Observation) -> bool
    ensures { result ≡ is_idle observation.now }
{
    match observation.executor {
        Some(_) => false,
        None => true,
    }
}

/// What an observation has of a routine, as of a tick of that number.
pub fn routine_tick(tick: u32, observation: &Observation, number: usize) -> RoutineTick
    ensures { result ≡ routine_tick (numbered tick observation.now) number }
{
    RoutineTick {
        tick,
        seen: observation.routine(number),
        has_failed: is_routine(&observation.executor, number) && is_error(&observation.answered),
    }
}
