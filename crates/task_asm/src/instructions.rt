//! Program texts: the instruction that the operands of a line make with their mnemonic.

ghost use Rattle.std.specs.Prelude.{◌≡◌};
ghost use Rattle.osek_base.specs.declared.instr.Plain.{Plain};
ghost use Rattle.task_asm.specs.Lines.{
  Answers,
  AnswersWritten,
  ended,
  plain_instruction,
  service_instruction,
  control_instruction,
  instruction,
  ready,
  written_value,
};

use crate::mnemonic::Mnemonic;
use crate::operands::{Label, Operands, Refusal};
use crate::program::{NamedInstr, NamedService};
use osek_base::{Comparison, Control, Plain, Register, Service};
use std::alloc::Global;

/// An instruction as it stands in a line: finished, or a jump whose label is still to be found.
#[derive(Drop)]
pub enum Written<'a> {
    Ready(NamedInstr),
    Jump(Label<'a>),
    JumpIf(Comparison, Register, Register, Label<'a>),
}

fn ready<'a>(plain: Plain) -> Written<'a>
    ensures { written_value result ≡ ready plain }
{
    Written::Ready(NamedInstr::Plain(plain))
}

impl<'t, 'a> Operands<'t, 'a> {
    ghost use Rattle.task_asm.specs.Rest.{rest_of};

    fn jump_if(&mut self, test: Comparison) -> Result<Written<'a>, Refusal>
        ensures { AnswersWritten
            (plain_instruction (Plain.JumpIf test tt tt tt) (rest_of self.old)) result }
    {
        let left = self.register()?;
        let right = self.next_register()?;
        let label = self.next_label()?;
        self.end()?;
        Ok(Written::JumpIf(test, left, right, label))
    }

    fn plain(&mut self, mnemonic: Plain<(), (), ()>) -> Result<Written<'a>, Refusal>
        ensures { AnswersWritten (plain_instruction mnemonic (rest_of self.old)) result }
    {
        match mnemonic {
            Plain::Nop => {
                self.end()?;
                Ok(ready(Plain::Nop))
            }
            Plain::Li((), ()) => {
                let (to, number) = self.register_and_number()?;
                Ok(ready(Plain::Li(to, number)))
            }
            Plain::Mov((), ()) => {
                let (to, from) = self.two_registers()?;
                Ok(ready(Plain::Mov(to, from)))
            }
            Plain::Compute(operation, (), (), ()) => {
                let (to, left, right) = self.three_registers()?;
                Ok(ready(Plain::Compute(operation, to, left, right)))
            }
            Plain::Ld((), ()) => {
                let (to, address) = self.two_registers()?;
                Ok(ready(Plain::Ld(to, address)))
            }
            Plain::St((), ()) => {
                let (address, from) = self.two_registers()?;
                Ok(ready(Plain::St(address, from)))
            }
            Plain::Jmp(()) => {
                let label = self.one_label()?;
                Ok(Written::Jump(label))
            }
            Plain::JumpIf(test, (), (), ()) => self.jump_if(test),
        }
    }

    /// The service, which has no operands.
    fn bare(&mut self, service: NamedService) -> Result<NamedService, Refusal>
        ensures { Answers (ended (rest_of self.old) service) result }
    {
        self.end()?;
        Ok(service)
    }

    fn service(
        &mut self,
        alloc: Global,
        mnemonic: Service<(), (), (), (), ()>,
    ) -> Result<NamedService, Refusal>
        ensures { Answers (service_instruction mnemonic (rest_of self.old)) result }
    {
        Ok(match mnemonic {
            Service::ActivateTask(()) => Service::ActivateTask(self.one_object()?),
            Service::TerminateTask => self.bare(Service::TerminateTask)?,
            Service::ChainTask(()) => Service::ChainTask(self.one_object()?),
            Service::Schedule => self.bare(Service::Schedule)?,
            Service::GetTaskId => self.bare(Service::GetTaskId)?,
            Service::GetTaskState(()) => Service::GetTaskState(self.one_object()?),
            Service::GetResource(()) => Service::GetResource(self.one_object()?),
            Service::ReleaseResource(()) => Service::ReleaseResource(self.one_object()?),
            Service::LoadShared((), ()) => {
                let (resource, index) = self.object_and_register()?;
                Service::LoadShared(resource, index)
            }
            Service::StoreShared((), (), ()) => {
                let (resource, index, word) = self.object_and_registers()?;
                Service::StoreShared(resource, index, word)
            }
            Service::SetEvent((), ()) => {
                let (task, events) = self.object_and_events(alloc)?;
                Service::SetEvent(task, events)
            }
            Service::ClearEvent(()) => Service::ClearEvent(self.only_events(alloc)?),
            Service::GetEvent(()) => Service::GetEvent(self.one_object()?),
            Service::WaitEvent(()) => Service::WaitEvent(self.only_events(alloc)?),
            Service::SetRelAlarm((), (), ()) => {
                let (alarm, increment, cycle) = self.object_and_registers()?;
                Service::SetRelAlarm(alarm, increment, cycle)
            }
            Service::SetAbsAlarm((), (), ()) => {
                let (alarm, start, cycle) = self.object_and_registers()?;
                Service::SetAbsAlarm(alarm, start, cycle)
            }
            Service::CancelAlarm(()) => Service::CancelAlarm(self.one_object()?),
            Service::GetAlarm(()) => Service::GetAlarm(self.one_object()?),
            Service::GetAlarmBase(()) => Service::GetAlarmBase(self.one_object()?),
        })
    }

    fn control(&mut self, mnemonic: Control<()>) -> Result<Control, Refusal>
        ensures { Answers (control_instruction mnemonic (rest_of self.old)) result }
    {
        if let Control::ShutdownOs(()) = mnemonic {
            return Ok(Control::ShutdownOs(self.one_number()?));
        }
        self.end()?;
        Ok(match mnemonic {
            Control::DisableAllInterrupts => Control::DisableAllInterrupts,
            Control::EnableAllInterrupts => Control::EnableAllInterrupts,
            Control::SuspendAllInterrupts => Control::SuspendAllInterrupts,
            Control::ResumeAllInterrupts => Control::ResumeAllInterrupts,
            Control::SuspendOsInterrupts => Control::SuspendOsInterrupts,
            Control::ResumeOsInterrupts => Control::ResumeOsInterrupts,
            Control::ReturnFromInterrupt => Control::ReturnFromInterrupt,
            Control::ShutdownOs(()) => unreachable!(),
        })
    }

    /// The instruction that the tokens make with their mnemonic, if they are just its operands.
    pub fn instruction(&mut self, alloc: Global, mnemonic: Mnemonic) -> Result<Written<'a>, Refusal>
        ensures { AnswersWritten (instruction mnemonic (rest_of self.old)) result }
    {
        match mnemonic {
            Mnemonic::Plain(mnemonic) => self.plain(mnemonic),
            Mnemonic::Service(mnemonic) => {
                let service = self.service(alloc, mnemonic)?;
                Ok(Written::Ready(NamedInstr::Service(service)))
            }
            Mnemonic::Control(mnemonic) => {
                let control = self.control(mnemonic)?;
                Ok(Written::Ready(NamedInstr::Control(control)))
            }
        }
    }
}
