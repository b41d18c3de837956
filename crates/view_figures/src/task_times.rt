//! OSEK/VDX OS: task management, task state model. The ticks of a task by what they are for it.

ghost use Rattle.std.specs.Prelude.{List, [], ◌∷◌, ◌≡◌, ◌<◌, length, true, false};
ghost use Rattle.view_figures.specs.declared.task_tick.TaskTick.{TaskTick};
ghost use Rattle.view_figures.specs.StateSums.{task_times};
ghost use Rattle.osek_base.specs.declared.status.TaskState.{TaskState};
ghost use Rattle.view_figures.specs.FigureSums.{lower_executes};
ghost use Rattle.view_figures.specs.Quiet.{is_untold};
ghost use Rattle.view_figures.specs.Calm.{time_on, went_on};

use crate::counts::added;
use crate::scene::Scene;
use crate::seen::{executes, lower_executes};
use crate::task_tick::TaskTick;
use crate::task_time::TaskTime;
use osek_base::TaskState;

/// The ticks of a task by what they are for it.
#[derive(Clone, Copy, Default)]
pub struct TaskTimes {
    /// In how many ticks the task executed.
    pub executed: u32,
    /// In how many ticks it was READY, not blocked, and its oldest job hadn't executed since it
    /// became ready.
    pub ready: u32,
    /// In how many ticks it was READY, not blocked, and its oldest job had executed since it became
    /// ready.
    pub preempted: u32,
    /// In how many ticks it was READY while a task of lower static priority executed.
    pub blocked: u32,
    /// In how many ticks it was WAITING.
    pub waiting: u32,
    /// Whether its oldest job has executed since it became ready.
    pub has_begun: bool,
}

impl TaskTimes {
    /// Nothing was seen.
    #[tactic(auto, unfolding(crate::specs::StateSums::task_times))]
    pub fn new() -> Self
        ensures { result ≡ task_times [] }
    {
        TaskTimes {
            executed: 0,
            ready: 0,
            preempted: 0,
            blocked: 0,
            waiting: 0,
            has_begun: false,
        }
    }

    // Some ticks more, by what they are for the task.
    #[inline(always)]
    fn note(&mut self, time: TaskTime, more: u32)
        ensures { self.new ≡ time_on time more self.old }
    {
        match time {
            TaskTime::Executed => self.executed = added(self.executed, more),
            TaskTime::StandsReady => self.ready = added(self.ready, more),
            TaskTime::Preempted => self.preempted = added(self.preempted, more),
            TaskTime::Blocked => self.blocked = added(self.blocked, more),
            TaskTime::Waits => self.waiting = added(self.waiting, more),
            TaskTime::HasNoJob => {}
        }
    }

    // Some ticks more in which the task is RUNNING.
    #[inline(always)]
    fn run(&mut self, more: u32)
        ensures { self.new ≡ went_on TaskState.Running false more self.old }
    {
        self.executed = added(self.executed, more);
        self.has_begun = true;
    }

    // Some ticks more in which the task is READY.
    #[inline(always)]
    fn stand(&mut self, lower_executes: bool, more: u32)
        ensures { self.new ≡ went_on TaskState.Ready lower_executes more self.old }
    {
        if lower_executes {
            self.blocked = added(self.blocked, more);
        } else if self.has_begun {
            self.preempted = added(self.preempted, more);
        } else {
            self.ready = added(self.ready, more);
        }
    }

    /// Some ticks more of a task in a state, to which nothing comes.
    #[inline(always)]
    pub(crate) fn go_on(&mut self, scene: &Scene, number: usize, state: TaskState, more: u32)
        requires known { number < length scene.now.levels.now }
        requires untold { is_untold scene.now.observation.now state number ≡ true }
        ensures { self.new ≡ went_on state
            (lower_executes scene.now.levels.now scene.now.observation.now.executor number)
            more self.old }
    {
        if executes(scene, number) {
            return self.run(more);
        }
        match state {
            TaskState::Ready => self.stand(lower_executes(scene, number), more),
            TaskState::Waiting => self.waiting = added(self.waiting, more),
            _ => {}
        }
    }

    /// A tick more is seen.
    #[inline(always)]
    pub fn observe(&mut self, tick: &TaskTick)
        ensures { (before : List TaskTick) → self.old ≡ task_times before
            → self.new ≡ task_times (tick.now ∷ before) }
    {
        if tick.is_running() {
            self.executed = added(self.executed, 1);
            self.has_begun = !tick.leaves();
            return;
        }
        self.note(tick.time(self.has_begun), 1);
        self.has_begun = tick.begun(self.has_begun);
    }
}
