//! OSEK/VDX OS: event control. SetEvent, ClearEvent, GetEvent and WaitEvent.

ghost use Rattle.std.specs.Prelude.{◌≡◌, ◌<◌, Some, length};
ghost use Rattle.osek_base.specs.declared.instr.Service.{Service};
ghost use Rattle.law_kept.specs.KeptService.{caller_in, unasked_in, event_awaited_in};
ghost use Rattle.services.specs.Objects.{AreFit};
ghost use Rattle.services.specs.Steps.{Acts, Becomes, Serves, Tells};

use crate::calls::Answer;
use crate::objects::Objects;
use osek_base::{Status, TaskId};
use ready_queues::ReadyQueues;

impl<'s, Q: ReadyQueues> Objects<'s, Q> {
    /// A task's events gain a mask, and a job that waits for one of them is released as the newest. E_OS_ACCESS where the
    /// task is basic, E_OS_STATE where it is suspended.
    #[tactic(auto, unfolding(law_kept::specs::KeptService::unasked_in))]
    pub fn set_event(&mut self, task: TaskId, mask: u32) -> Status
        requires fit { AreFit self.old }
        requires task { task < length self.old.system.tasks }
        ensures { Acts (Service.SetEvent (Some task) mask) self.old self.new result }
    {
        if !self.system.is_extended(task) {
            return Status::Access;
        }
        if self.is_suspended(task) {
            return Status::State;
        }
        let set = self.events_of(task) | mask;
        let slot = &self.slots[task.number() as usize];
        let is_met = slot.waits_for(set);
        self.put_events(task, set);
        if is_met {
            self.release(task);
        }
        Status::Ok
    }

    /// The caller's events lose a mask. E_OS_CALLEVEL in a routine, E_OS_ACCESS where the caller is basic.
    #[tactic(auto, unfolding(law_kept::specs::KeptService::unasked_in))]
    pub fn clear_event(&mut self, mask: u32) -> Status
        ensures { Serves (Service.ClearEvent mask) self.old self.new result }
    {
        if self.by_routine() {
            return Status::CallLevel;
        }
        if self.is_basic_caller() {
            return Status::Access;
        }
        if let Some(task) = self.calling_task() {
            let set = self.events_of(task);
            self.put_events(task, set ^ (set & mask));
        }
        Status::Ok
    }

    /// A task's events. E_OS_ACCESS where it is basic, E_OS_STATE where it is suspended.
    #[tactic(auto, unfolding(law_kept::specs::KeptService::unasked_in))]
    #[inline(always)]
    pub fn get_event(&self, task: TaskId) -> Answer
        requires task { task < length self.now.system.tasks }
        ensures { Tells (Service.GetEvent (Some task)) self.now result }
    {
        if !self.system.is_extended(task) {
            return Answer::plain(Status::Access);
        }
        if self.is_suspended(task) {
            return Answer::plain(Status::State);
        }
        Answer::one(self.events_of(task))
    }

    /// Where none of the events of a mask is set, the caller waits for them and gives up its internal resource.
    /// E_OS_CALLEVEL in a routine, E_OS_ACCESS where the caller is basic, E_OS_RESOURCE where it holds a resource.
    #[tactic(auto, unfolding(law_kept::specs::KeptService::unasked_in))]
    pub fn wait_event(&mut self, mask: u32) -> Status
        ensures { Serves (Service.WaitEvent mask) self.old self.new result }
    {
        if self.by_routine() {
            return Status::CallLevel;
        }
        if self.is_basic_caller() {
            return Status::Access;
        }
        if self.holds_any() {
            return Status::Resource;
        }
        self.wait_caller(mask);
        Status::Ok
    }

    /// Where none of the events of a mask is set, the caller waits for them and gives up its internal resource.
    fn wait_caller(&mut self, mask: u32)
        ensures { Becomes (λ _S o. event_awaited_in (caller_in o) mask o) self.old self.new }
    {
        if let Some(task) = self.calling_task()
            && mask & self.events_of(task) == 0
        {
            let slot = &mut self.slots[task.number() as usize];
            slot.wait(mask);
        }
    }
}
