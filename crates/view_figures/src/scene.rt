//! What the figures of a tick are made of.

ghost use Rattle.std.specs.Prelude.{◌≡◌};
ghost use Rattle.view_figures.specs.Quiet.{executing_number};

use crate::seen::executing;
use seen_ticks::{AlarmSeen, Holder, Observation, RoutineSeen, TaskSeen};

/// An observation, beside the static priorities of all tasks.
#[derive(Clone, Copy)]
pub struct Scene<'a> {
    pub levels: &'a [u8],
    pub observation: &'a Observation,
    /// The number of the task that executes; where none does, one that no task has.
    pub executing: usize,
    /// What is seen of each task, routine, resource and alarm.
    pub tasks: &'a [TaskSeen],
    pub routines: &'a [RoutineSeen],
    pub holders: &'a [Holder],
    pub alarms: &'a [AlarmSeen],
    ghost one: { executing ≡ executing_number observation.now.executor },
    ghost of_tasks: { tasks.now ≡ observation.now.tasks.items },
    ghost of_routines: { routines.now ≡ observation.now.routines.items },
    ghost of_holders: { holders.now ≡ observation.now.holders.items },
    ghost of_alarms: { alarms.now ≡ observation.now.alarms.items },
}

impl<'a> Scene<'a> {
    /// An observation by these levels.
    #[inline(always)]
    pub fn new(levels: &'a [u8], observation: &'a Observation) -> Self
        ensures levels { result.levels.now ≡ levels.entry.now }
        ensures observation { result.observation.now ≡ observation.entry.now }
    {
        Scene {
            levels,
            observation,
            executing: executing(&observation.executor),
            tasks: observation.tasks.as_slice(),
            routines: observation.routines.as_slice(),
            holders: observation.holders.as_slice(),
            alarms: observation.alarms.as_slice(),
        }
    }
}
