//! What is seen of one tick.

ghost use Rattle.std.specs.Prelude.{◌≡◌};
ghost use Rattle.seen_ticks.specs.Seen.{alarm_seen, holder_seen, routine_seen, task_seen};

use crate::alarm_seen::AlarmSeen;
use crate::failures::Failure;
use crate::holder::Holder;
use crate::routine_seen::RoutineSeen;
use crate::task_seen::TaskSeen;
use arrayvec::ArrayVec;
use osek_base::{MAX_ALARMS, MAX_RESOURCES, MAX_ROUTINES, MAX_TASKS, Owner, Status};

/// How many resources can be held: those that are declared, and RES_SCHEDULER.
pub const MAX_HELD: usize = MAX_RESOURCES + 1;

/// What is seen of one tick, at its instruction: of each task, routine, resource and alarm by number, behind the declared
/// resources RES_SCHEDULER, where the system has it.
#[derive(Drop)]
pub struct Observation {
    /// The number of the tick, from 0.
    pub tick: u32,
    /// Who executes the tick's instruction; None in an idle tick.
    pub executor: Option<Owner>,
    /// What the instruction is answered, if it is a service with a status.
    pub answered: Option<Status>,
    /// The instruction itself, if it is a service that is answered other than E_OK.
    pub failure: Option<Failure>,
    /// The number of blockers of the job that executes, where this is its first instruction since it became ready; None
    /// also where blockers aren't counted.
    pub blockers: Option<u32>,
    pub tasks: ArrayVec<TaskSeen, MAX_TASKS>,
    pub routines: ArrayVec<RoutineSeen, MAX_ROUTINES>,
    /// Who holds each resource when the instruction is executed.
    pub holders: ArrayVec<Holder, MAX_HELD>,
    pub alarms: ArrayVec<AlarmSeen, MAX_ALARMS>,
}

impl Observation {
    /// Nothing yet: no tick, and no task.
    pub fn new() -> Self {
        Observation {
            tick: 0,
            executor: None,
            answered: None,
            failure: None,
            blockers: None,
            tasks: ArrayVec::new(),
            routines: ArrayVec::new(),
            holders: ArrayVec::new(),
            alarms: ArrayVec::new(),
        }
    }

    /// What is seen of the task of that number; nothing where there is none.
    #[inline(always)]
    pub fn task(&self, number: usize) -> TaskSeen
        ensures { result ≡ task_seen self.now number }
    {
        match self.tasks.as_slice().get(number) {
            Some(seen) => *seen,
            None => TaskSeen::default(),
        }
    }

    /// What is seen of the routine of that number; nothing where there is none.
    #[inline(always)]
    pub fn routine(&self, number: usize) -> RoutineSeen
        ensures { result ≡ routine_seen self.now number }
    {
        match self.routines.as_slice().get(number) {
            Some(seen) => *seen,
            None => RoutineSeen::default(),
        }
    }

    /// What is seen of the alarm of that number; nothing where there is none.
    #[inline(always)]
    pub fn alarm(&self, number: usize) -> AlarmSeen
        ensures { result ≡ alarm_seen self.now number }
    {
        match self.alarms.as_slice().get(number) {
            Some(seen) => *seen,
            None => AlarmSeen::default(),
        }
    }

    /// Who holds the resource of that number; nobody where there is none.
    #[inline(always)]
    pub fn holder(&self, number: usize) -> Holder
        ensures { result ≡ holder_seen self.now number }
    {
        match self.holders.as_slice().get(number) {
            Some(holder) => *holder,
            None => Holder::default(),
        }
    }
}
