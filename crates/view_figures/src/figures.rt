//! Figures of a run.

ghost use Rattle.std.specs.Prelude.{List, [], ◌∷◌, ◌≡◌, ◌+◌, ◌-◌, ◌<◌, ◌≤◌, ◌^◌};
ghost use Rattle.osek_base.specs.System.{System};
ghost use Rattle.seen_ticks.specs.declared.observation.Observation.{Observation};
ghost use Rattle.view_figures.specs.FigureSums.{AreFigures, alike};

use crate::alarm_figures::AlarmFigures;
use crate::counted::{observe_each, unseen};
use crate::counts::{add_where, added};
use crate::of_system::{held_count, levels_of};
use crate::resource_figures::ResourceFigures;
use crate::routine_figures::RoutineFigures;
use crate::seen::is_idle;
use crate::task_figures::TaskFigures;
use arrayvec::ArrayVec;
use osek_base::{MAX_ALARMS, MAX_ROUTINES, MAX_TASKS, System};
use seen_ticks::{MAX_HELD, Observation};
use std::marker::Model;

/// Figures of a run over the ticks that were observed. They take no memory but their own.
#[derive(Drop)]
pub struct Figures {
    ticks: u32,
    last: u32,
    idle: u32,
    levels: ArrayVec<u8, MAX_TASKS>,
    tasks: ArrayVec<TaskFigures, MAX_TASKS>,
    routines: ArrayVec<RoutineFigures, MAX_ROUTINES>,
    resources: ArrayVec<ResourceFigures, MAX_HELD>,
    alarms: ArrayVec<AlarmFigures, MAX_ALARMS>,
}

impl Model for Figures {
    ghost use Rattle.std.specs.Prelude.{◌≤◌, length};
    ghost use Rattle.view_figures.specs.FigureSums.{RunFigures};

    ghost Value = { RunFigures };

    ghost view = { λ f. record {
      ticks = f.ticks;
      last = f.last;
      idle = f.idle;
      levels = f.levels.items;
      tasks = f.tasks.items;
      routines = f.routines.items;
      resources = f.resources.items;
      alarms = f.alarms.items;
    } };

    ghost invariant = { λ f. length f.tasks.items ≤ length f.levels.items };
}

impl Figures {
    /// The figures of a system before its first tick.
    pub fn new(system: &System) -> Self
        ensures { AreFigures system.now [] result }
    {
        Figures {
            ticks: 0,
            last: 0,
            idle: 0,
            levels: levels_of(system),
            tasks: unseen(system.task_count()),
            routines: unseen(system.routine_count()),
            resources: unseen(held_count(system)),
            alarms: unseen(system.alarm_count()),
        }
    }

    /// A tick more is seen.
    pub fn observe(&mut self, observation: &Observation)
        ensures { (S : System) (before : List Observation) → AreFigures S before self.old
            → AreFigures S (observation.now ∷ before) self.new }
    {
        self.observe_row(observation, observation.tick, 1);
    }

    /// The ticks from one on and before another are seen, in each of which all but the number is as
    /// in an observation.
    pub fn observe_alike(&mut self, observation: &Observation, first: u32, end: u32)
        ensures { (S : System) (before : List Observation) → AreFigures S before self.old
            → AreFigures S (alike observation.now first (end - first) before) self.new }
    {
        if first < end {
            self.observe_row(observation, first, end - first);
        }
    }

    // So many ticks from one on are seen at once.
    #[inline(always)]
    fn observe_row(&mut self, seen: &Observation, first: u32, count: u32)
        requires some { 0 < count }
        requires ends { first + count ≤ 2 ^ 32 }
        ensures { (S : System) (before : List Observation) → AreFigures S before self.old
            → AreFigures S (alike seen.now first count before) self.new }
    {
        self.ticks = added(self.ticks, count);
        self.last = first + (count - 1);
        add_where(&mut self.idle, count, is_idle(seen));
        let levels = self.levels.as_slice();
        observe_each(self.tasks.as_mut_slice(), levels, seen, first, count);
        observe_each(self.routines.as_mut_slice(), levels, seen, first, count);
        observe_each(self.resources.as_mut_slice(), levels, seen, first, count);
        observe_each(self.alarms.as_mut_slice(), levels, seen, first, count);
    }

    /// How many ticks were seen.
    pub fn ticks(&self) -> u32
        ensures { result ≡ self.now.ticks }
    {
        self.ticks
    }

    /// The number of the last tick that was seen, 0 where none was.
    pub fn last(&self) -> u32
        ensures { result ≡ self.now.last }
    {
        self.last
    }

    /// In how many of the ticks nobody executed.
    pub fn idle(&self) -> u32
        ensures { result ≡ self.now.idle }
    {
        self.idle
    }

    /// The figures of each task, by number.
    pub fn tasks(&self) -> &[TaskFigures]
        ensures { result.now ≡ self.now.tasks }
    {
        self.tasks.as_slice()
    }

    /// The figures of each routine, by number.
    pub fn routines(&self) -> &[RoutineFigures]
        ensures { result.now ≡ self.now.routines }
    {
        self.routines.as_slice()
    }

    /// The figures of each resource that can be held, by number; behind the declared ones
    /// RES_SCHEDULER, where the system has it.
    pub fn resources(&self) -> &[ResourceFigures]
        ensures { result.now ≡ self.now.resources }
    {
        self.resources.as_slice()
    }

    /// The figures of each alarm, by number.
    pub fn alarms(&self) -> &[AlarmFigures]
        ensures { result.now ≡ self.now.alarms }
    {
        self.alarms.as_slice()
    }
}
