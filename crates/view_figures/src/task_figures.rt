//! OSEK/VDX OS: task management. Figures of a task.

ghost use Rattle.std.specs.Prelude.{List, [], ◌∷◌, ◌≡◌, ◌<◌, length, true};
ghost use Rattle.view_figures.specs.declared.task_tick.TaskTick.{TaskTick};
ghost use Rattle.view_figures.specs.FigureSums.{lower_executes, task_figures};
ghost use Rattle.view_figures.specs.ResponseSums.{oldest_response};
ghost use Rattle.view_figures.specs.Reaching.{worse_of};
ghost use Rattle.view_figures.specs.Calm.{went_on};
ghost use Rattle.view_figures.specs.Quiet.{is_untold};

use crate::reached::{Reached, worse_of};
use crate::response_figures::ResponseFigures;
use crate::scene::Scene;
use crate::task_counts::TaskCounts;
use crate::task_tick::TaskTick;
use crate::task_times::TaskTimes;
use seen_ticks::TaskSeen;

/// Figures of a task.
#[derive(Drop)]
pub struct TaskFigures {
    /// What is counted of it.
    pub counts: TaskCounts,
    /// Its ticks by what they are for it.
    pub times: TaskTimes,
    /// The responses of its jobs.
    pub responses: ResponseFigures,
}

impl Default for TaskFigures {
    fn default() -> Self
        ensures { result ≡ task_figures [] }
    {
        TaskFigures::new()
    }
}

impl TaskFigures {
    /// Nothing was seen.
    #[tactic(auto, unfolding(crate::specs::FigureSums::task_figures))]
    pub fn new() -> Self
        ensures { result ≡ task_figures [] }
    {
        TaskFigures {
            counts: TaskCounts::new(),
            times: TaskTimes::new(),
            responses: ResponseFigures::new(),
        }
    }

    /// A tick more is seen, in which the task has no job, doesn't execute, and nothing comes to it.
    #[inline(always)]
    pub(crate) fn pass(&mut self)
        ensures { self.new
            ≡ record self.old { counts = record self.old.counts { unfinished = 0 } } }
    {
        self.counts.unfinished = 0;
    }

    /// A tick more is seen.
    #[inline(always)]
    pub fn observe(&mut self, tick: &TaskTick)
        ensures { (before : List TaskTick) → self.old ≡ task_figures before
            → self.new ≡ task_figures (tick.now ∷ before) }
    {
        self.counts.observe(tick);
        self.times.observe(tick);
        self.responses.observe(tick);
    }

    /// Some ticks more are seen, in each of which nothing comes to the task, and its jobs that
    /// stand were followed before: its times alone grow.
    #[inline(always)]
    pub(crate) fn stay(&mut self, scene: &Scene, number: usize, seen: TaskSeen, more: u32)
        requires known { number < length scene.now.levels.now }
        requires untold { is_untold scene.now.observation.now seen.state number ≡ true }
        ensures { self.new ≡ record self.old {
          counts = record self.old.counts { unfinished = seen.jobs };
          times = went_on seen.state
              (lower_executes scene.now.levels.now scene.now.observation.now.executor number)
              more self.old.times;
        } }
    {
        self.counts.unfinished = u32::from(seen.jobs);
        self.times.go_on(scene, number, seen.state, more);
    }

    /// The greatest response, or the age of the oldest job behind a last tick, if that is greater.
    pub fn worst(&self, last: u32) -> Option<Reached>
        ensures { result
            ≡ worse_of self.now.responses.spread.greatest
            (oldest_response last self.now.responses.ready_since) }
    {
        worse_of(
            self.responses.spread().greatest,
            self.responses.oldest(last),
        )
    }
}
