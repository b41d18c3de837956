//! The modelled processor and OSEK/VDX OS: system services. Programs whose operands are numbers.

ghost use Rattle.std.specs.Prelude.{◌≡◌, ◌≤◌, IfOk, length};
ghost use Rattle.system_gen.specs.DeclaredNames.{number};
ghost use Rattle.system_gen.specs.Generated.{
  IsWithinLimits,
  known,
  task_operand,
  alarm_operand,
  resource_of,
  resource_operand,
  mask_of,
  union,
  resolved_service,
  resolved_instruction,
  resolved_program,
};

use crate::declared_names::{Declared, is_res_scheduler};
use osek_base::{AlarmId, Instr, Name, Program, Register, ResId, ResourceNumber, Service, TaskId};
use std::alloc::{AllocError, Global};
use std::marker::Model;
use task_asm::{NamedInstr, NamedLine, NamedService};

/// Turns names into numbers and masks, once the checks have passed: there are no more objects than
/// allowed. Events have these masks, in the order of declaration. A name that isn't declared, which
/// the checks exclude, gives 0.
#[derive(Drop)]
pub(crate) struct Resolver<'d, 'a, 'm> {
    declared: &'d Declared<'a>,
    masks: &'m [u32],
}

impl<'d, 'a, 'm> Model for Resolver<'d, 'a, 'm> {
    ghost use Rattle.system_gen.specs.Generated.{Known, IsWithinLimits};

    ghost Value = { Known };

    ghost view = { λ r. record { declared = r.declared.now; masks = r.masks.now } };

    ghost invariant = { λ r. IsWithinLimits r.declared.now };
}

impl<'d, 'a, 'm> Resolver<'d, 'a, 'm> {
    pub(crate) fn new(declared: &'d Declared<'a>, masks: &'m [u32]) -> Self
        requires { IsWithinLimits declared.now }
        ensures { result ≡ known declared.now masks.now }
    {
        Resolver { declared, masks }
    }

    /// What is declared.
    pub(crate) fn declared(&self) -> &Declared<'a>
        ensures value { result.now ≡ self.now.declared }
        ensures limits { IsWithinLimits result.now }
    {
        self.declared
    }

    pub(crate) fn program(&self, alloc: Global, lines: &[NamedLine]) -> Result<Program, AllocError>
        ensures { IfOk result (λ p. p ≡ resolved_program self.now lines.now) }
    {
        let mut program = Program::new(alloc);
        for line in lines {
            program.push(self.instr(line.instr()))?;
        }
        Ok(program)
    }

    fn instr(&self, instr: &NamedInstr) -> Instr
        ensures { result ≡ resolved_instruction self.now instr.now }
    {
        match instr {
            NamedInstr::Plain(plain) => Instr::Plain(*plain),
            NamedInstr::Service(service) => Instr::Service(self.service(service)),
            NamedInstr::Control(control) => Instr::Control(*control),
        }
    }

    fn service(&self, service: &NamedService) -> Service<Register>
        ensures { result ≡ resolved_service self.now service.now }
    {
        match service {
            Service::ActivateTask(task) => Service::ActivateTask(self.task_operand(task)),
            Service::TerminateTask => Service::TerminateTask,
            Service::ChainTask(task) => Service::ChainTask(self.task_operand(task)),
            Service::Schedule => Service::Schedule,
            Service::GetTaskId => Service::GetTaskId,
            Service::GetTaskState(task) => Service::GetTaskState(self.task_operand(task)),
            Service::GetResource(resource) => Service::GetResource(self.resource_operand(resource)),
            Service::ReleaseResource(resource) => Service::ReleaseResource(self.resource_operand(
                resource,
            )),
            Service::LoadShared(resource, index) => Service::LoadShared(
                self.resource_operand(resource),
                *index,
            ),
            Service::StoreShared(resource, index, word) => Service::StoreShared(
                self.resource_operand(resource),
                *index,
                *word,
            ),
            Service::SetEvent(task, events) => Service::SetEvent(
                self.task_operand(task),
                self.union(events.names()),
            ),
            Service::ClearEvent(events) => Service::ClearEvent(self.union(events.names())),
            Service::GetEvent(task) => Service::GetEvent(self.task_operand(task)),
            Service::WaitEvent(events) => Service::WaitEvent(self.union(events.names())),
            Service::SetRelAlarm(alarm, increment, cycle) => Service::SetRelAlarm(
                self.alarm_operand(alarm),
                *increment,
                *cycle,
            ),
            Service::SetAbsAlarm(alarm, start, cycle) => Service::SetAbsAlarm(
                self.alarm_operand(alarm),
                *start,
                *cycle,
            ),
            Service::CancelAlarm(alarm) => Service::CancelAlarm(self.alarm_operand(alarm)),
            Service::GetAlarm(alarm) => Service::GetAlarm(self.alarm_operand(alarm)),
            Service::GetAlarmBase(alarm) => Service::GetAlarmBase(self.alarm_operand(alarm)),
        }
    }

    fn task_operand(&self, operand: &Option<Name>) -> Option<TaskId>
        ensures { result ≡ task_operand self.now operand.now }
    {
        match operand {
            None => None,
            Some(name) => Some(self.declared().task(name)),
        }
    }

    fn resource_operand(&self, operand: &Option<Name>) -> Option<ResId>
        ensures { result ≡ resource_operand self.now operand.now }
    {
        match operand {
            None => None,
            Some(name) => Some(self.resource_of(name)),
        }
    }

    /// The resource that an operand names.
    fn resource_of(&self, name: &Name) -> ResId
        ensures { result ≡ resource_of self.now name.now }
    {
        if is_res_scheduler(name) {
            ResId::Scheduler
        } else {
            ResId::Declared(self.declared().resource(name))
        }
    }

    fn alarm_operand(&self, operand: &Option<Name>) -> Option<AlarmId>
        ensures { result ≡ alarm_operand self.now operand.now }
    {
        match operand {
            None => None,
            Some(name) => Some(self.declared().alarm(name)),
        }
    }

    /// The mask of the event of that name.
    pub(crate) fn mask(&self, name: &Name) -> u32
        ensures { result ≡ mask_of self.now name.now }
    {
        let declared = self.declared();
        let number = declared.events.number(name);
        match self.masks.get(number) {
            Some(mask) => *mask,
            None => 0,
        }
    }

    /// The union of the masks of some events.
    fn union(&self, events: &[Name]) -> u32
        ensures { result ≡ union self.now events.now }
    {
        let mut bits = 0;
        for name in events {
            bits |= self.mask(name);
        }
        bits
    }
}
