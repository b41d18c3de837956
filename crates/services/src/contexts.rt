//! OSEK/VDX OS: system services. The registers and the place of who executes.

ghost use Rattle.std.specs.Prelude.{◌≡◌, ◌<◌, ◌+◌, ◌↔◌, IsTrue};
ghost use Rattle.std.specs.Borrow.{sem};
ghost use Rattle.osek_base.specs.Instruction.{Context};
ghost use Rattle.osek_base.specs.Tick.{answered};
ghost use Rattle.law_kept.specs.KeptTick.{with_context_in};
ghost use Rattle.services.specs.Objects.{kept_in};
ghost use Rattle.services.specs.Calls.{caller_as, context_in, IsThere, MayGoOn};
ghost use Rattle.services.specs.PlainSteps.{ExecutesPlain, IsPlainAt};
ghost use Rattle.services.specs.Steps.{Becomes};

use crate::objects::Objects;
use machine::{Cpu, PackedInstr, Windows, exec_packed};
use osek_base::{Effect, MAX_INSTRUCTIONS, Owner, Results, Status};
use ready_queues::ReadyQueues;

impl<'s, Q: ReadyQueues> Objects<'s, Q> {
    ghost use Rattle.services.specs.Lending.{LendsContext, with_context};

    /// Whether who executed is still there.
    #[inline(always)]
    fn is_there(&self, owner: &Owner) -> bool
        requires { MayGoOn self.now owner.now }
        ensures { IsTrue result ↔ IsThere self.now owner.now }
    {
        match owner {
            Owner::Task(_) => !self.gone,
            Owner::Routine(_) => self.active.is_some(),
        }
    }

    /// The registers and the place of who executes.
    #[inline(always)]
    pub fn cpu_of(&self, owner: Owner) -> &Cpu
        requires who { IsThere self.now owner }
        ensures { result.now ≡ context_in (kept_in self.now) owner }
    {
        match owner {
            Owner::Task(task) => {
                let slot = &self.slots[task.number() as usize];
                slot.cpu()
            }
            Owner::Routine(_) => match &self.active {
                None => unreachable!(),
                Some(active) => active.cpu(),
            },
        }
    }

    /// The registers and the place of who executes, to be changed.
    #[inline(always)]
    fn context_mut(&mut self, owner: &Owner) -> &mut Cpu
        requires who { IsThere self.old owner.now }
        ensures* lends { sem 𝓛 (LendsContext Q.row Q.ReadyQueues owner.now self.entry result) }
        ensures value { result.now ≡ context_in (kept_in self.old) owner.now }
        ensures kept { (x : Context) → kept_in (with_context owner.now self.old x)
            ≡ with_context_in (caller_as owner.now) x (kept_in self.old) }
    {
        match owner {
            Owner::Task(task) => {
                let slot = &mut self.slots[task.number() as usize];
                slot.cpu_mut()
            }
            Owner::Routine(_) => match &mut self.active {
                None => unreachable!(),
                Some(active) => active.cpu_mut(),
            },
        }
    }

    /// A plain instruction of who executes, on its registers, its place and its window.
    #[inline(always)]
    pub fn exec_packed(
        &mut self,
        windows: &mut Windows,
        owner: Owner,
        packed: PackedInstr,
    ) -> Effect
        requires who { IsThere self.old owner }
        requires plain { IsPlainAt packed (context_in (kept_in self.old) owner) }
        ensures { ExecutesPlain packed owner self.old self.new windows.old windows.new result }
    {
        exec_packed(self.context_mut(&owner), windows, owner, packed)
    }

    /// Gives who executed other registers and another place, where it is still there.
    #[inline(always)]
    pub fn go_on(&mut self, owner: Owner, cpu: Cpu)
        requires who { MayGoOn self.old owner }
        ensures { Becomes (λ _S. with_context_in (caller_as owner) cpu) self.old self.new }
    {
        if self.is_there(&owner) {
            self.context_mut(&owner).load(&cpu);
        }
    }

    /// Who called takes what a service answers, and goes on to the next instruction, where it is
    /// still there.
    #[inline(always)]
    pub fn answer(&mut self, owner: Owner, status: Status, results: &Results)
        requires who { MayGoOn self.old owner }
        requires room { IsThere self.old owner
            → (context_in (kept_in self.old) owner).place + 1 < MAX_INSTRUCTIONS }
        ensures { Becomes
            (λ _S o. with_context_in (caller_as owner)
            (answered status results.now (context_in o owner)) o) self.old self.new }
    {
        if self.is_there(&owner) {
            self.context_mut(&owner).answer(status, results);
        }
    }
}
