//! Data shared under resources, no part of the standard. LDR and STR.

ghost use Rattle.std.specs.Prelude.{◌≡◌, ◌<◌, Some, length};
ghost use Rattle.osek_base.specs.declared.instr.Service.{Service};
ghost use Rattle.osek_base.specs.declared.ids.ResId.{ResId};
ghost use Rattle.osek_base.specs.Lists.{same_resource};
ghost use Rattle.osek_base.specs.State.{shared_word, with_shared};
ghost use Rattle.osek_base.specs.Service.{word_of, word_stored};
ghost use Rattle.services.specs.Calls.{IsSharedOperand};
ghost use Rattle.services.specs.Steps.{Serves, Tells};

use crate::calls::Answer;
use crate::objects::Objects;
use osek_base::{ResId, ResourceNumber, Status};
use ready_queues::ReadyQueues;

impl<'s, Q: ReadyQueues> Objects<'s, Q> {
    /// The word of a resource's window at an index, which counts mod [`SHARED_WORDS`](osek_base::SHARED_WORDS).
    /// E_OS_ACCESS in a routine, for RES_SCHEDULER, or where the caller doesn't hold the resource.
    #[tactic(auto, unfolding(law_kept::specs::KeptService::unasked_in))]
    #[inline(always)]
    pub fn load_shared(&self, resource: &ResId, index: u32) -> Answer
        requires known { IsSharedOperand self.now.system (Some resource.now) }
        ensures { Tells (Service.LoadShared (Some resource.now) index) self.now result }
    {
        if self.by_routine() {
            return Answer::plain(Status::Access);
        }
        if is_scheduler(resource) {
            return Answer::plain(Status::Access);
        }
        if !self.caller_holds(resource) {
            return Answer::plain(Status::Access);
        }
        Answer::one(self.word_of(resource, index))
    }

    /// The word of a resource's window at an index, which counts mod [`SHARED_WORDS`](osek_base::SHARED_WORDS), gets a
    /// value. E_OS_ACCESS in a routine, for RES_SCHEDULER, or where the caller doesn't hold the resource.
    #[tactic(auto, unfolding(law_kept::specs::KeptService::unasked_in))]
    pub fn store_shared(&mut self, resource: &ResId, index: u32, new: u32) -> Status
        requires known { IsSharedOperand self.old.system (Some resource.now) }
        ensures { Serves (Service.StoreShared (Some resource.now) index new) self.old self.new
            result }
    {
        if self.by_routine() {
            return Status::Access;
        }
        if is_scheduler(resource) {
            return Status::Access;
        }
        if !self.caller_holds(resource) {
            return Status::Access;
        }
        self.store_word(resource, index, new);
        Status::Ok
    }

    /// The word of a resource's window, 0 for RES_SCHEDULER, which has none.
    #[inline(always)]
    fn word_of(&self, resource: &ResId, index: u32) -> u32
        requires { IsSharedOperand self.now.system (Some resource.now) }
        ensures { result ≡ word_of self.now.shared resource.now index }
    {
        match resource {
            ResId::Declared(number) => self.shared_word(*number, index),
            ResId::Scheduler => 0,
        }
    }

    /// A word of a resource's window gets a value; RES_SCHEDULER has none.
    fn store_word(&mut self, resource: &ResId, index: u32, new: u32)
        requires { IsSharedOperand self.old.system (Some resource.now) }
        ensures { self.new
            ≡ record self.old { shared = word_stored resource.now index new self.old.shared } }
    {
        if let ResId::Declared(number) = resource {
            self.put_shared_word(*number, index, new);
        }
    }

    /// The word of a declared resource's window.
    pub fn shared_word(&self, resource: ResourceNumber, index: u32) -> u32
        requires { resource < length self.now.system.resources }
        ensures { result ≡ shared_word self.now.shared resource index }
    {
        let window = &self.shared[resource.number() as usize];
        window.word(index)
    }

    /// A word of a declared resource's window gets a value.
    fn put_shared_word(&mut self, resource: ResourceNumber, index: u32, new: u32)
        requires { resource < length self.old.system.resources }
        ensures { self.new
            ≡ record self.old { shared = with_shared self.old.shared resource index new } }
    {
        let window = &mut self.shared[resource.number() as usize];
        window.store(index, new);
    }
}

/// Whether a resource is RES_SCHEDULER.
fn is_scheduler(resource: &ResId) -> bool
    ensures { result ≡ same_resource ResId.Scheduler resource.now }
{
    match resource {
        ResId::Declared(_) => false,
        ResId::Scheduler => true,
    }
}
