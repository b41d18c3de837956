//! What a row of a picture shows of one tick.

ghost use Rattle.std.specs.Prelude.{◌≡◌};
ghost use Rattle.view_timelines.specs.Stretches.{same};
ghost use Rattle.view_timelines.specs.Moments.{ready_activity, task_moment, routine_moment};

use crate::activity::Activity;
use crate::held::Held;
use crate::processor::Processor;
use osek_base::TaskState;
use seen_ticks::{RoutineSeen, TaskSeen};

/// What a row shows of one tick.
#[derive(Clone, Copy)]
pub struct Moment {
    pub activity: Activity,
    /// The dynamic priority of a task's oldest job, 0 the lowest; the static one where it has no job. Of a routine its
    /// PRIORITY.
    pub priority: u8,
    /// How many jobs a task has; 0 of a routine.
    pub jobs: u8,
    /// What a task holds; nothing of a routine.
    pub held: Held,
}

/// What a task that is READY does, of that static priority, whose oldest job has or hasn't executed since it became ready.
fn ready_activity(processor: Processor, static_priority: u8, has_begun: bool) -> Activity
    ensures { result ≡ ready_activity processor static_priority has_begun }
{
    match processor {
        Processor::Task(executor) if executor < static_priority => Activity::Blocked,
        Processor::Routine if has_begun => Activity::Interrupted,
        _ if has_begun => Activity::Preempted,
        _ => Activity::Ready,
    }
}

impl Moment {
    /// What is seen of a task of that static priority while somebody has the processor: `has_begun` says whether its oldest job
    /// has executed since it became ready, `held` what the task holds.
    pub fn of_task(
        seen: TaskSeen,
        processor: Processor,
        static_priority: u8,
        has_begun: bool,
        held: Held,
    ) -> Self
        ensures { result ≡ task_moment seen processor static_priority has_begun held }
    {
        let activity = match seen.state {
            TaskState::Running => Activity::Executing,
            TaskState::Ready => ready_activity(processor, static_priority, has_begun),
            TaskState::Waiting => Activity::Waiting,
            TaskState::Suspended => Activity::Nothing,
        };
        Moment {
            activity,
            priority: seen.priority.unwrap_or(static_priority),
            jobs: seen.jobs,
            held,
        }
    }

    /// What is seen of a routine with that PRIORITY. One that executes and is pending again shows that it executes.
    pub fn of_routine(seen: RoutineSeen, priority: u8) -> Self
        ensures { result ≡ routine_moment seen priority }
    {
        let activity = if seen.executes {
            Activity::Executing
        } else if seen.is_pending {
            Activity::Ready
        } else {
            Activity::Nothing
        };
        Moment {
            activity,
            priority,
            jobs: 0,
            held: Held::default(),
        }
    }

    /// Whether two moments show the same.
    pub fn is_same(self, other: Moment) -> bool
        ensures { result ≡ same self other }
    {
        self.activity == other.activity
            && self.priority == other.priority
            && self.jobs == other.jobs
            && self.held == other.held
    }
}
