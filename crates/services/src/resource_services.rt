//! OSEK/VDX OS: resource management. GetResource and ReleaseResource.

ghost use Rattle.std.specs.Prelude.{if◌then◌else◌, ◌≡◌, Some, false};
ghost use Rattle.std.specs.List.{list_any};
ghost use Rattle.osek_base.specs.declared.instr.Service.{Service};
ghost use Rattle.osek_base.specs.declared.status.Status.{Status};
ghost use Rattle.law_kept.specs.KeptService.{caller_in, got_last_in, holds_in, is_held_in, slot_gets, slot_releases, with_caller_in};
ghost use Rattle.services.specs.Objects.{kept_in};
ghost use Rattle.services.specs.Steps.{Becomes, Serves};

use crate::objects::Objects;
use crate::slot::Slot;
use osek_base::{ResId, Status};
use ready_queues::ReadyQueues;

impl<'s, Q: ReadyQueues> Objects<'s, Q> {
    /// The caller holds a resource. E_OS_ACCESS in a routine, where the caller's task doesn't list it, or where a job holds
    /// it. RES_SCHEDULER needn't be listed.
    #[tactic(auto, unfolding(law_kept::specs::KeptService::unasked_in))]
    #[inline(always)]
    pub fn get_resource(&mut self, resource: &ResId) -> Status
        ensures { Serves (Service.GetResource (Some resource.now)) self.old self.new result }
    {
        if self.by_routine() {
            return Status::Access;
        }
        if !self.may_take(resource) {
            return Status::Access;
        }
        if self.is_held(resource) {
            return Status::Access;
        }
        self.get_held(resource);
        Status::Ok
    }

    /// The caller releases a resource. E_OS_ACCESS in a routine, or where the resource's ceiling is below the caller's static
    /// priority; E_OS_NOFUNC where it isn't the last that the caller got and still holds.
    #[tactic(auto, unfolding(law_kept::specs::KeptService::unasked_in))]
    #[inline(always)]
    pub fn release_resource(&mut self, resource: &ResId) -> Status
        ensures { Serves (Service.ReleaseResource (Some resource.now)) self.old self.new result }
    {
        if self.by_routine() {
            return Status::Access;
        }
        if self.is_above_ceiling(resource) {
            return Status::Access;
        }
        self.release_held(resource)
    }

    /// Whether a job holds a resource.
    #[inline(always)]
    fn is_held(&self, resource: &ResId) -> bool
        ensures { result ≡ is_held_in self.now.system (kept_in self.now) resource.now }
    {
        any_holds(&self.slots, resource)
    }

    /// The calling job gets a resource that no job holds.
    #[inline(always)]
    fn get_held(&mut self, resource: &ResId)
        requires free { is_held_in self.old.system (kept_in self.old) resource.now ≡ false }
        ensures { Becomes (λ _S o. with_caller_in (caller_in o) (slot_gets resource.now) o)
            self.old self.new }
    {
        if let Some(task) = self.calling_task() {
            let slot = &mut self.slots[task.number() as usize];
            slot.get(resource);
        }
    }

    /// The calling job releases a resource. E_OS_NOFUNC where it isn't the last that the job got and still holds; then
    /// nothing changes.
    #[inline(always)]
    fn release_held(&mut self, resource: &ResId) -> Status
        ensures system { self.new.system ≡ self.old.system }
        ensures status { result
            ≡ (if got_last_in (kept_in self.old) (caller_in (kept_in self.old)) resource.now
            then Status.Ok else Status.NoFunc) }
        ensures kept { kept_in self.new
            ≡ (if got_last_in (kept_in self.old) (caller_in (kept_in self.old)) resource.now
            then with_caller_in (caller_in (kept_in self.old)) slot_releases (kept_in self.old)
            else kept_in self.old) }
    {
        match self.calling_task() {
            None => Status::NoFunc,
            Some(task) => {
                let slot = &mut self.slots[task.number() as usize];
                slot.release(resource)
            }
        }
    }
}

/// Whether an oldest job holds a resource.
#[inline(always)]
fn any_holds(slots: &[Slot], resource: &ResId) -> bool
    ensures { result ≡ list_any (holds_in resource.now) slots.now }
{
    for number in 0..slots.len() {
        let slot = &slots[number];
        if slot.holds(resource) {
            return true;
        }
    }
    false
}
