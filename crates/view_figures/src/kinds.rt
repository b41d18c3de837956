//! What ticks add to the figures of each kind of thing. In most there is nothing to count; what is
//! rare is a call.

ghost use Rattle.std.specs.Prelude.{
  List,
  [],
  ◌∷◌,
  ◌≡◌,
  ◌<◌,
  ◌≤◌,
  length,
};
ghost use Rattle.view_figures.specs.Counting.{
  Counts,
  CountsOne,
  task_figures_of,
  routine_figures_of,
  resource_figures_of,
  alarm_figures_of,
};
ghost use Rattle.seen_ticks.specs.Seen.{numbered};
ghost use Rattle.view_figures.specs.FigureSums.{executing_tick, task_figures};
ghost use Rattle.view_figures.specs.declared.task_tick.TaskTick.{TaskTick};
ghost use Rattle.view_figures.specs.RoutineSums.{routine_figures};
ghost use Rattle.view_figures.specs.ResourceSums.{resource_figures};
ghost use Rattle.view_figures.specs.AlarmSums.{alarm_figures};

use crate::alarm_figures::AlarmFigures;
use crate::calm::is_calm_routine;
use crate::counted::Counted;
use crate::quiet::{gets_nothing, is_free, is_quiet_alarm, is_quiet_routine, rests};
use crate::resource_figures::ResourceFigures;
use crate::routine_figures::RoutineFigures;
use crate::scene::Scene;
use crate::seen::{
    alarm_tick, executes, executing_tick, held_tick, holder_tick, is_untold, routine_tick,
    seen_of_task, task_tick,
};
use crate::task_figures::TaskFigures;
use seen_ticks::Observation;

impl Counted for TaskFigures {
    ghost unseen = { task_figures [] };

    ghost IsKnown = { λ levels k. k < length levels };

    ghost figures = { task_figures_of };

    fn unseen() -> Self {
        TaskFigures::new()
    }

    #[inline(always)]
    fn count_in(scene: &Scene) -> usize {
        scene.tasks.len()
    }

    // Where nothing comes to a task, its times alone grow.
    #[inline(always)]
    fn observe_some(&mut self, scene: &Scene, first: u32, count: u32, number: usize) -> u32 {
        let seen = seen_of_task(scene, number);
        if rests(seen) {
            if !executes(scene, number) {
                self.pass();
                return count;
            }
        } else if gets_nothing(seen)
            && is_untold(scene, seen.state, number)
            && self.responses.has_followed(seen)
        {
            self.stay(scene, number, seen, count);
            return count;
        }
        observe_one(self, scene, first, number);
        1
    }
}

// A tick more of a task.
#[inline(always)]
fn observe_one(figures: &mut TaskFigures, scene: &Scene, tick: u32, number: usize)
    requires { number < length scene.now.levels.now }
    ensures { CountsOne (task_figures_of scene.now.levels.now number)
        (numbered tick scene.now.observation.now) figures.old figures.new }
{
    if executes(scene, number) {
        observe_executing(figures, scene.observation, tick, number);
    } else {
        observe_task(figures, scene.levels, scene.observation, tick, number);
    }
}

// A tick more of a task that executes, where something comes to it or is told of it, or a job of it
// wasn't followed before.
#[inline(never)]
fn observe_executing(figures: &mut TaskFigures, observation: &Observation, tick: u32, number: usize)
    ensures { (before : List TaskTick) → figures.old ≡ task_figures before
        → figures.new ≡ task_figures (executing_tick observation.now tick number ∷ before) }
{
    figures.observe(&executing_tick(tick, observation, number));
}

// A tick more of a task to which something comes, or a job of which wasn't followed before.
#[inline(never)]
fn observe_task(
    figures: &mut TaskFigures,
    levels: &[u8],
    observation: &Observation,
    tick: u32,
    number: usize,
)
    requires { number < length levels.now }
    ensures { CountsOne (task_figures_of levels.now number) (numbered tick observation.now)
        figures.old figures.new }
{
    let scene = Scene::new(levels, observation);
    figures.observe(&task_tick(tick, &scene, number));
}

impl Counted for RoutineFigures {
    ghost unseen = { routine_figures [] };

    ghost figures = { λ levels. routine_figures_of };

    fn unseen() -> Self {
        RoutineFigures::new()
    }

    #[inline(always)]
    fn count_in(scene: &Scene) -> usize {
        scene.routines.len()
    }

    #[inline(always)]
    fn observe_some(&mut self, scene: &Scene, first: u32, count: u32, number: usize) -> u32 {
        if is_quiet_routine(scene, number) {
            return count;
        }
        observe_asked(self, scene.observation, first, count, number)
    }
}

// The ticks of a routine that is asked for. Where it is only pending, the first one alone adds
// something.
#[inline(never)]
fn observe_asked(
    figures: &mut RoutineFigures,
    observation: &Observation,
    first: u32,
    count: u32,
    number: usize,
) -> u32
    requires { 0 < count }
    ensures counted { Counts (routine_figures_of number) observation.now
        first result figures.old figures.new }
    ensures some { 0 < result }
    ensures few { result ≤ count }
{
    let tick = routine_tick(first, observation, number);
    figures.observe(&tick);
    if is_calm_routine(&tick) { count } else { 1 }
}

impl Counted for ResourceFigures {
    ghost unseen = { resource_figures [] };

    ghost figures = { λ levels. resource_figures_of };

    fn unseen() -> Self {
        ResourceFigures::new()
    }

    #[inline(always)]
    fn count_in(scene: &Scene) -> usize {
        scene.holders.len()
    }

    // While one task holds it, its hold grows.
    #[inline(always)]
    fn observe_some(&mut self, scene: &Scene, first: u32, count: u32, number: usize) -> u32 {
        if is_free(scene, number) {
            self.pass();
            return count;
        }
        let tick = held_tick(first, scene, number);
        let more = count - 1;
        if !self.has_before(&tick) {
            self.get(&tick, more);
            return count;
        }
        if self.held <= u32::MAX - count {
            self.go_on(&tick, more);
            return count;
        }
        observe_holder(self, scene.observation, first, number);
        1
    }
}

// A tick more of a resource whose hold is longer than can be counted.
#[inline(never)]
fn observe_holder(
    figures: &mut ResourceFigures,
    observation: &Observation,
    tick: u32,
    number: usize,
)
    ensures { CountsOne (resource_figures_of number) (numbered tick observation.now)
        figures.old figures.new }
{
    figures.observe(&holder_tick(tick, observation, number));
}

impl Counted for AlarmFigures {
    ghost unseen = { alarm_figures [] };

    ghost figures = { λ levels. alarm_figures_of };

    fn unseen() -> Self {
        AlarmFigures::new()
    }

    #[inline(always)]
    fn count_in(scene: &Scene) -> usize {
        scene.alarms.len()
    }

    #[inline(always)]
    fn observe_some(&mut self, scene: &Scene, first: u32, count: u32, number: usize) -> u32 {
        if is_quiet_alarm(scene, number) {
            return count;
        }
        self.observe(&alarm_tick(first, scene, number));
        1
    }
}
