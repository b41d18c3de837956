//! OSEK/VDX OS: task management. What is seen of a task in a tick, and of the tick.

ghost use Rattle.std.specs.Prelude.{◌≡◌};
ghost use Rattle.view_figures.specs.StateSums.{begun, is_running, is_waiting, leaves, ready_time, time_of};
ghost use Rattle.view_figures.specs.ResponseSums.{standing};
ghost use Rattle.view_figures.specs.TaskSums.{left_jobs};

use crate::task_time::TaskTime;
use osek_base::TaskState;
use seen_ticks::TaskSeen;

/// What is seen of a task in a tick, and what of the tick counts for it.
#[derive(Clone, Copy)]
pub struct TaskTick {
    /// The number of the tick, from 0.
    pub tick: u32,
    /// What is seen of the task.
    pub seen: TaskSeen,
    /// Whether a task of lower static priority executes the tick's instruction.
    pub lower_executes: bool,
    /// Whether the task executes it, and it is a service answered other than E_OK.
    pub has_failed: bool,
    /// The number of blockers, where the task executes and one is told.
    pub blockers: Option<u32>,
}

// What a tick is for a task that is READY.
fn ready_time(lower_executes: bool, has_begun: bool) -> TaskTime
    ensures { result ≡ ready_time lower_executes has_begun }
{
    if lower_executes {
        TaskTime::Blocked
    } else if has_begun {
        TaskTime::Preempted
    } else {
        TaskTime::StandsReady
    }
}

impl TaskTick {
    /// Whether the task executes the tick's instruction.
    pub fn is_running(&self) -> bool
        ensures { result ≡ is_running self.now }
    {
        matches!(self.seen.state, TaskState::Running)
    }

    /// Whether the task waits for an event.
    pub fn is_waiting(&self) -> bool
        ensures { result ≡ is_waiting self.now }
    {
        matches!(self.seen.state, TaskState::Waiting)
    }

    /// Whether the instruction ends its oldest job, or puts it to wait.
    pub fn leaves(&self) -> bool
        ensures { result ≡ leaves self.now }
    {
        self.seen.ended || self.seen.waits
    }

    /// How many of its jobs stand ready or run.
    pub fn standing(&self) -> u8
        ensures { result ≡ standing self.now }
    {
        if self.is_waiting() {
            self.seen.jobs.saturating_sub(1)
        } else {
            self.seen.jobs
        }
    }

    /// How many jobs it has that the instruction doesn't end.
    pub fn left_jobs(&self) -> u8
        ensures { result ≡ left_jobs self.now }
    {
        if self.seen.ended {
            self.seen.jobs.saturating_sub(1)
        } else {
            self.seen.jobs
        }
    }

    /// Whether its oldest job has executed since it became ready, behind the tick, where it had or
    /// hadn't before.
    pub fn begun(&self, has_begun: bool) -> bool
        ensures { result ≡ begun self.now has_begun }
    {
        !self.leaves() && (self.is_running() || has_begun)
    }

    /// What the tick is for the task, whose oldest job had or hadn't executed before since it
    /// became ready.
    pub fn time(&self, has_begun: bool) -> TaskTime
        ensures { result ≡ time_of self.now has_begun }
    {
        match self.seen.state {
            TaskState::Running => TaskTime::Executed,
            TaskState::Waiting => TaskTime::Waits,
            TaskState::Ready => ready_time(self.lower_executes, has_begun),
            TaskState::Suspended => TaskTime::HasNoJob,
        }
    }
}
