//! OSEK/VDX OS: interrupt processing. Pending and active routines, and the services that turn interrupts off and on.

ghost use Rattle.std.specs.Prelude.{◌≡◌, ◌<◌, ◌+◌, ◌^◌, IfSome, Some, None, true, slice_set, length};
ghost use Rattle.std.specs.Borrow.{sem};
ghost use Rattle.osek_base.specs.State.{interrupts_off};
ghost use Rattle.osek_base.specs.Tick.{routine_choice};
ghost use Rattle.law_kept.specs.KeptService.{bare};
ghost use Rattle.law_kept.specs.KeptTick.{controlled_in, routine_started_in, start_phase_in};
ghost use Rattle.law_kept.specs.Moves.{may_dispatch_in};
ghost use Rattle.services.specs.Objects.{kept_in};
ghost use Rattle.services.specs.Steps.{Becomes};

use crate::objects::Objects;
use machine::Cpu;
use osek_base::{Control, IsrId};
use ready_queues::ReadyQueues;
use std::marker::Model;

/// The active interrupt routine, with its registers and place.
#[derive(Drop)]
pub struct Active {
    pub routine: IsrId,
    pub cpu: Cpu,
}

impl Model for Active {
    ghost use Rattle.osek_base.specs.State.{Active as Executing};

    ghost Value = { Executing };

    ghost view = { λ a. record { routine = a.routine; context = a.cpu } };
}

impl Active {
    ghost use Rattle.services.specs.Lending.{LendsOfActive};

    /// The routine with its registers and its place, to be kept.
    #[inline(always)]
    pub fn save(&self) -> Active
        ensures { result ≡ self.now }
    {
        Active {
            routine: self.routine,
            cpu: self.cpu.save(),
        }
    }

    /// Which routine it is.
    pub fn routine(&self) -> IsrId
        ensures { result ≡ self.now.routine }
    {
        self.routine
    }

    /// The registers and the place of the routine.
    #[inline(always)]
    pub fn cpu(&self) -> &Cpu
        ensures { result.now ≡ self.now.context }
    {
        &self.cpu
    }

    /// The registers and the place of the routine, to be changed.
    #[inline(always)]
    pub fn cpu_mut(&mut self) -> &mut Cpu
        ensures* lends { sem 𝓛 (LendsOfActive self.entry result) }
        ensures value { result.now ≡ self.old.context }
    {
        &mut self.cpu
    }
}

impl<'s, Q: ReadyQueues> Objects<'s, Q> {
    /// Whether interrupts are off: the switch is set, or a nesting count is above 0.
    pub fn interrupts_off(&self) -> bool
        ensures { result ≡ interrupts_off (bare (kept_in self.now)) }
    {
        self.disabled | (0 < self.suspended_all) | (0 < self.suspended_os)
    }

    /// Whether no routine is active and interrupts are on.
    pub fn may_dispatch(&self) -> bool
        ensures { result ≡ may_dispatch_in (kept_in self.now) }
    {
        self.active.is_none() && !self.interrupts_off()
    }

    /// A service without a status. RETI, by which a routine ends, turns interrupts on.
    pub fn control(&mut self, control: &Control)
        requires all { self.old.suspended_all + 1 < 2 ^ 32 }
        requires os { self.old.suspended_os + 1 < 2 ^ 32 }
        ensures { Becomes (λ _S. controlled_in control.now) self.old self.new }
    {
        match control {
            Control::DisableAllInterrupts => self.disabled = true,
            Control::EnableAllInterrupts => self.disabled = false,
            Control::SuspendAllInterrupts => self.suspended_all += 1,
            Control::ResumeAllInterrupts => self.suspended_all = self
                .suspended_all
                .saturating_sub(1),
            Control::SuspendOsInterrupts => self.suspended_os += 1,
            Control::ResumeOsInterrupts => self.suspended_os = self.suspended_os.saturating_sub(1),
            Control::ShutdownOs(_) => self.over = true,
            Control::ReturnFromInterrupt => {
                self.active = None;
                self.disabled = false;
                self.suspended_all = 0;
                self.suspended_os = 0;
            }
        }
    }

    /// The interrupt of a routine arrives: its pending flag is set. One that is pending already is lost.
    pub fn arrive(&mut self, routine: IsrId)
        requires { routine < length self.old.system.routines }
        ensures { self.new ≡ record self.old { pending = slice_set self.old.pending routine true } }
    {
        self.pending.set(routine);
    }

    /// Where no routine is active and interrupts are on, the pending routine of greatest PRIORITY starts, of equals the
    /// first declared: its registers and its place are 0, and its flag is cleared.
    #[tactic(auto, unfolding(law_kept::specs::KeptTick::start_phase_in))]
    #[inline(always)]
    pub fn start_routine(&mut self)
        ensures { Becomes start_phase_in self.old self.new }
    {
        if let Some(routine) = self.pending_routine()
            && self.may_dispatch()
        {
            self.start(routine);
        }
    }

    /// Among the pending routines the first declared with the greatest priority.
    #[inline(always)]
    pub(crate) fn pending_routine(&self) -> Option<IsrId>
        ensures choice { result ≡ routine_choice self.now.system (bare (kept_in self.now)) }
        ensures known { IfSome result (λ i. i < length self.now.system.routines) }
    {
        self.pending.foremost(self.system)
    }

    /// Whether it is known that no routine is pending.
    #[inline(always)]
    pub(crate) fn is_none_pending(&self) -> bool
        ensures { result ≡ true
            → routine_choice self.now.system (bare (kept_in self.now)) ≡ None }
    {
        self.pending.is_unset()
    }

    /// A routine is active with registers and place 0, and its flag is cleared.
    #[inline(never)]
    fn start(&mut self, routine: IsrId)
        requires { routine < length self.old.system.routines }
        ensures { Becomes (λ _S. routine_started_in (Some routine)) self.old self.new }
    {
        self.active = Some(Active {
            routine,
            cpu: Cpu::new(),
        });
        self.pending.clear(routine);
    }
}
