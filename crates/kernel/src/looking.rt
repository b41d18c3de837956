//! What is seen of a system in the midst of a tick: who executes, and how tasks stand.

ghost use Rattle.std.specs.Prelude.{◌≡◌, ◌<◌, true, IfSome, MatchOption, length};
ghost use Rattle.law_kept.specs.KeptService.{ByNobody, caller_in};
ghost use Rattle.law_kept.specs.KeptTick.{silent_in};
ghost use Rattle.law_kept.specs.Moves.{rescheduled};
ghost use Rattle.services.specs.Calls.{calling_task};
ghost use Rattle.kernel.specs.Answered.{Activates};
ghost use Rattle.kernel.specs.Stamping.{IsActedOn, IsLevel, IsLook, IsStand, IsTask, IsTaskCount};
ghost use Rattle.kernel.specs.Processor.{MayFetch, picture, system_of};
ghost use Rattle.seen_ticks.specs.Told.{task_at_in};

use crate::processor::Processor;
use crate::stamping::{Look, Stand};
use osek_base::{Action, AlarmId, Owner, TaskId};
use ready_queues::ReadyQueues;
use seen_ticks::TaskAt;

impl<'s, Q: ReadyQueues> Processor<'s, Q> {
    /// The task on which an alarm acts.
    #[inline(always)]
    pub fn acted_on(&self, alarm: AlarmId) -> TaskId
        requires { alarm < length (system_of self.now).alarms }
        ensures { IsActedOn (system_of self.now) alarm result }
    {
        match self.system.action_of(alarm) {
            Action::ActivateTask(task) => task,
            Action::SetEvent(task, _) => task,
        }
    }

    /// The task that an alarm activates, if it activates one.
    #[inline(always)]
    pub fn activated_by(&self, alarm: AlarmId) -> Option<TaskId>
        requires { alarm < length (system_of self.now).alarms }
        ensures { IfSome result (Activates (system_of self.now) alarm) }
    {
        match self.system.action_of(alarm) {
            Action::ActivateTask(task) => Some(task),
            Action::SetEvent(..) => None,
        }
    }

    /// How many tasks there are.
    pub fn task_count(&self) -> usize
        ensures { IsTaskCount (system_of self.now) result }
    {
        self.system.task_count()
    }

    /// What a task is: its state, the dynamic priority of its oldest job, and how many jobs it has.
    pub fn task_at(&self, task: TaskId) -> TaskAt
        requires { task < length (system_of self.now).tasks }
        ensures { result ≡ task_at_in (system_of self.now) (picture self.now) task }
    {
        TaskAt {
            state: self.core.objects().task_state(task),
            priority: self.core.objects().dynamic_priority(task),
            jobs: self.core.job_count(task),
        }
    }

    /// How a task stands.
    #[inline(always)]
    pub fn look(&self, task: TaskId) -> Look
        requires { task < length (system_of self.now).tasks }
        ensures { IsLook (picture self.now) task result }
    {
        Look {
            task,
            count: self.core.job_count(task),
            waits: self.core.objects().slot(task).waits(),
        }
    }

    /// How a task stands, where there is one, beside the running task.
    #[inline(always)]
    pub fn stand(&self, task: &Option<TaskId>) -> Stand
        requires { IfSome task.now (λ t. t < length (system_of self.now).tasks) }
        ensures { IsStand (length (system_of self.now).tasks) (picture self.now) task.now result }
    {
        let named = match task {
            None => None,
            Some(task) => Some(self.look(*task)),
        };
        Stand {
            named,
            running: self.core.objects().running(),
            gone: self.core.objects().is_gone(),
        }
    }

    /// The running task, also where its job has ended.
    #[inline(always)]
    pub fn running(&self) -> Option<TaskId>
        ensures { IsTask (length (system_of self.now).tasks) (picture self.now).running result }
    {
        self.core.objects().running()
    }

    /// The static priority of a task.
    #[inline(always)]
    pub fn level_of(&self, task: TaskId) -> u8
        requires { task < length (system_of self.now).tasks }
        ensures { IsLevel (system_of self.now) task result }
    {
        self.system.priority_of(task)
    }

    /// Who executes: the active routine, else the running task.
    #[inline(always)]
    pub fn executor(&self) -> Option<Owner>
        ensures { MatchOption result (caller_in (picture self.now) ≡ ByNobody)
            (MayFetch self.now) }
    {
        self.core.executor()
    }

    /// The task that executes, if no routine does.
    #[inline(always)]
    pub fn executing_task(&self) -> Option<TaskId>
        ensures { IsTask (length (system_of self.now).tasks)
            (calling_task (caller_in (picture self.now))) result }
    {
        self.core.objects().calling_task()
    }

    /// Whether a reschedule is known to change nothing.
    #[inline(always)]
    pub fn is_dispatched(&self) -> bool
        ensures { result ≡ true
            → rescheduled (system_of self.now) (picture self.now) ≡ silent_in (picture self.now) }
    {
        self.core.is_dispatched()
    }

    /// Whether a ShutdownOS ended the run.
    #[inline(always)]
    pub fn is_over(&self) -> bool
        ensures { result ≡ (picture self.now).over }
    {
        self.core.objects().is_over()
    }
}
