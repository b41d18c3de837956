//! OSEK/VDX OS: task management. ActivateTask, TerminateTask, ChainTask, Schedule, GetTaskState.

ghost use Rattle.std.specs.Prelude.{◌≡◌, ◌<◌, ◌&&◌, not, Some, length};
ghost use Rattle.osek_base.specs.declared.instr.Service.{Service};
ghost use Rattle.law_kept.specs.KeptService.{caller_in, unasked_in, is_own_in, is_full_in, task_state_in};
ghost use Rattle.services.specs.Objects.{kept_in, AreFit};
ghost use Rattle.services.specs.Calls.{IsTaskOperand};
ghost use Rattle.services.specs.Steps.{Acts, Serves};

use crate::objects::Objects;
use osek_base::{Status, TaskId, TaskState};
use ready_queues::ReadyQueues;

impl<'s, Q: ReadyQueues> Objects<'s, Q> {
    /// A new job of a task is the newest. E_OS_LIMIT where the task has as many as its ACTIVATION allows.
    #[tactic(auto, unfolding(law_kept::specs::KeptService::unasked_in))]
    #[inline(always)]
    pub fn activate(&mut self, task: TaskId) -> Status
        requires fit { AreFit self.old }
        requires task { task < length self.old.system.tasks }
        ensures { Acts (Service.ActivateTask (Some task)) self.old self.new result }
    {
        if self.is_full(task) {
            return Status::Limit;
        }
        self.add(task);
        Status::Ok
    }

    /// The calling job ends. E_OS_CALLEVEL in a routine, E_OS_RESOURCE where the job holds a resource.
    #[tactic(auto, unfolding(law_kept::specs::KeptService::unasked_in))]
    #[inline(always)]
    pub fn terminate(&mut self) -> Status
        requires { AreFit self.old }
        ensures { Serves Service.TerminateTask self.old self.new result }
    {
        if self.by_routine() {
            return Status::CallLevel;
        }
        if let Some(task) = self.calling_task() {
            let slot = &mut self.slots[task.number() as usize];
            if !slot.holds_none() {
                return Status::Resource;
            }
            slot.end();
            self.gone = true;
        }
        Status::Ok
    }

    /// The calling job ends, and then a new job of a task is the newest. E_OS_CALLEVEL in a routine, E_OS_ID for INVALID,
    /// E_OS_RESOURCE where the job holds a resource, E_OS_LIMIT where the task is another one and has as many jobs as its
    /// ACTIVATION allows.
    #[tactic(auto, unfolding(law_kept::specs::KeptService::unasked_in))]
    #[inline(never)]
    pub fn chain(&mut self, task: Option<TaskId>) -> Status
        requires fit { AreFit self.old }
        requires known { IsTaskOperand self.old.system task }
        ensures { Serves (Service.ChainTask task) self.old self.new result }
    {
        if self.by_routine() {
            return Status::CallLevel;
        }
        let Some(task) = task else {
            return Status::Id;
        };
        if self.holds_any() {
            return Status::Resource;
        }
        if self.is_chain_full(task) {
            return Status::Limit;
        }
        self.end_caller();
        self.add(task);
        Status::Ok
    }

    /// Whether a task isn't the caller's own and has as many jobs as its ACTIVATION allows.
    fn is_chain_full(&self, task: TaskId) -> bool
        requires task { task < length self.now.system.tasks }
        ensures { result
            ≡ (not (is_own_in (caller_in (kept_in self.now)) task)
            && is_full_in self.now.system (kept_in self.now) task) }
    {
        let other = !self.is_own_task(task);
        other && self.is_full(task)
    }

    /// Where a task is ready above the caller's static priority, the caller gives up its internal resource.
    /// E_OS_CALLEVEL in a routine, E_OS_RESOURCE where the job holds a resource.
    #[tactic(auto, unfolding(law_kept::specs::KeptService::unasked_in))]
    #[inline(never)]
    pub fn schedule(&mut self) -> Status
        requires { AreFit self.old }
        ensures { Serves Service.Schedule self.old self.new result }
    {
        if self.by_routine() {
            return Status::CallLevel;
        }
        if self.holds_any() {
            return Status::Resource;
        }
        if self.is_outranked() {
            self.give_up();
        }
        Status::Ok
    }

    /// The state of a task.
    pub fn task_state(&self, task: TaskId) -> TaskState
        requires { task < length self.now.system.tasks }
        ensures { result ≡ task_state_in (kept_in self.now) task }
    {
        let slot = &self.slots[task.number() as usize];
        if self.running_task() == task.number() as u32 {
            TaskState::Running
        } else if slot.waits() {
            TaskState::Waiting
        } else if slot.count() == 0 {
            TaskState::Suspended
        } else {
            TaskState::Ready
        }
    }
}
