//! OSEK/VDX OS: system services. Who calls: the active routine, or else the running task.

ghost use Rattle.std.specs.Prelude.{◌≡◌, ◌<◌, MatchOption, IfSome, length};
ghost use Rattle.law_runs.proofs.Formed.{IsPlaced};
ghost use Rattle.law_kept.specs.KeptService.{ByNobody, by_routine_in, caller_in, holds_any_in, is_above_ceiling_in, is_basic_in, is_outranked_in, is_own_in, may_take_in, caller_holds_in, running_number, with_caller_in, caller_ended_in, slot_given_up};
ghost use Rattle.services.specs.Objects.{kept_in, AreFit};
ghost use Rattle.services.specs.Calls.{calling_task, context_in, IsExecuting};
ghost use Rattle.services.specs.Steps.{Becomes};

use crate::objects::Objects;
use osek_base::{Owner, ResId, TaskId};
use ready_queues::ReadyQueues;

/// What GetTaskID answers where no task is running.
const INVALID_TASK: u32 = u32::MAX;

impl<'s, Q: ReadyQueues> Objects<'s, Q> {
    /// Whether a routine calls.
    #[inline(always)]
    pub fn by_routine(&self) -> bool
        ensures { result ≡ by_routine_in (caller_in (kept_in self.now)) }
    {
        self.active.is_some()
    }

    /// The task that calls, if no routine does.
    #[inline(always)]
    pub fn calling_task(&self) -> Option<TaskId>
        ensures value { result ≡ calling_task (caller_in (kept_in self.now)) }
        ensures known { IfSome result (λ t. t < length self.now.system.tasks) }
    {
        if self.active.is_some() || self.gone {
            return None;
        }
        match &self.running {
            None => None,
            Some(task) => Some(*task),
        }
    }

    /// Whether the caller holds a resource, the internal one aside.
    #[inline(always)]
    pub fn holds_any(&self) -> bool
        ensures { result ≡ holds_any_in (kept_in self.now) (caller_in (kept_in self.now)) }
    {
        match self.calling_task() {
            None => false,
            Some(task) => {
                let slot = &self.slots[task.number() as usize];
                !slot.holds_none()
            }
        }
    }

    /// Whether the caller is a job of the task.
    pub fn is_own_task(&self, task: TaskId) -> bool
        ensures { result ≡ is_own_in (caller_in (kept_in self.now)) task }
    {
        match self.calling_task() {
            None => false,
            Some(own) => own.number() == task.number(),
        }
    }

    /// Whether the caller is a job of a basic task.
    pub fn is_basic_caller(&self) -> bool
        ensures { result ≡ is_basic_in self.now.system (caller_in (kept_in self.now)) }
    {
        match self.calling_task() {
            None => false,
            Some(task) => !self.system.is_extended(task),
        }
    }

    /// Whether the caller is a job whose task may take a resource.
    #[inline(always)]
    pub fn may_take(&self, resource: &ResId) -> bool
        ensures { result ≡ may_take_in self.now.system (caller_in (kept_in self.now)) resource.now }
    {
        match self.calling_task() {
            None => false,
            Some(task) => match resource {
                ResId::Declared(number) => self.system.lists(task, *number),
                ResId::Scheduler => true,
            },
        }
    }

    /// Whether a resource's ceiling is below the caller's static priority.
    #[inline(always)]
    pub fn is_above_ceiling(&self, resource: &ResId) -> bool
        ensures { result
            ≡ is_above_ceiling_in self.now.system (caller_in (kept_in self.now)) resource.now }
    {
        match self.calling_task() {
            None => false,
            Some(task) => self.system.ceiling(*resource) < self.system.priority_of(task),
        }
    }

    /// Whether the caller is a job that holds a resource.
    pub fn caller_holds(&self, resource: &ResId) -> bool
        ensures { result
            ≡ caller_holds_in (kept_in self.now) (caller_in (kept_in self.now)) resource.now }
    {
        match self.calling_task() {
            None => false,
            Some(task) => {
                let slot = &self.slots[task.number() as usize];
                slot.holds(resource)
            }
        }
    }

    /// Whether a task is ready above the caller's static priority.
    pub fn is_outranked(&self) -> bool
        requires { AreFit self.now }
        ensures { result
            ≡ is_outranked_in self.now.system (kept_in self.now) (caller_in (kept_in self.now)) }
    {
        match self.calling_task() {
            None => false,
            Some(task) => match self.highest() {
                None => false,
                Some(level) => self.system.priority_of(task) < level,
            },
        }
    }

    /// The running task, also where its job has ended.
    #[inline(always)]
    pub fn running(&self) -> Option<TaskId>
        ensures value { result ≡ self.now.running }
        ensures known { IfSome result (λ t. t < length self.now.system.tasks) }
    {
        self.running
    }

    /// The running task's number, as GetTaskID answers it.
    pub fn running_task(&self) -> u32
        ensures { result ≡ running_number self.now.running }
    {
        match &self.running {
            None => INVALID_TASK,
            Some(task) => task.number() as u32,
        }
    }

    /// The calling job ends.
    #[inline(always)]
    pub fn end_caller(&mut self)
        requires { AreFit self.old }
        ensures { Becomes (λ _S o. caller_ended_in (caller_in o) o) self.old self.new }
    {
        if let Some(task) = self.calling_task() {
            let slot = &mut self.slots[task.number() as usize];
            slot.end();
            self.gone = true;
        }
    }

    /// The calling job gives up its internal resource.
    pub fn give_up(&mut self)
        ensures { Becomes (λ _S o. with_caller_in (caller_in o) slot_given_up o) self.old self.new }
    {
        if let Some(task) = self.calling_task() {
            let slot = &mut self.slots[task.number() as usize];
            slot.give_up();
        }
    }

    /// Who executes: the active routine, else the running task.
    #[inline(always)]
    pub fn executor(&self) -> Option<Owner>
        requires { AreFit self.now }
        ensures value { MatchOption result (caller_in (kept_in self.now) ≡ ByNobody)
            (IsExecuting (kept_in self.now)) }
        ensures placed { IfSome result
            (λ w. IsPlaced self.now.system w (context_in (kept_in self.now) w)) }
    {
        if let Some(active) = &self.active {
            return Some(Owner::Routine(active.routine));
        }
        match self.calling_task() {
            None => None,
            Some(task) => Some(Owner::Task(task)),
        }
    }
}
