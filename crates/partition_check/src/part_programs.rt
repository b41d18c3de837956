//! Partitions. Programs whose operands have their numbers among what is upper.

ghost use Rattle.std.specs.Prelude.{◌≡◌, IfOk, map};
ghost use Rattle.osek_base.specs.Agree.{renumbered_operand, renumbered_resource, renumbered_alarm, renumbered_service, renumbered};

use crate::upper_part::UpperPart;
use osek_base::{AlarmId, Instr, Line, Program, Register, ResId, Service};
use std::alloc::{AllocError, Global};

impl UpperPart<'_> {
    pub(crate) fn program(&self, alloc: Global, lines: &[Line]) -> Result<Program, AllocError>
        ensures { IfOk result (λ r. r ≡ map (renumbered self.now.system self.now.p) lines.now) }
    {
        let mut program = Program::new(alloc);
        for line in lines {
            program.push(self.instr(line.instr()))?;
        }
        Ok(program)
    }

    fn instr(&self, instr: &Instr) -> Instr
        ensures { result ≡ renumbered self.now.system self.now.p instr.now }
    {
        match instr {
            Instr::Plain(plain) => Instr::Plain(*plain),
            Instr::Service(service) => Instr::Service(self.service(service)),
            Instr::Control(control) => Instr::Control(*control),
        }
    }

    fn service(&self, service: &Service<Register>) -> Service<Register>
        ensures { result ≡ renumbered_service self.now.system self.now.p service.now }
    {
        match service {
            Service::GetResource(resource) => Service::GetResource(self.resource_operand(resource)),
            Service::ReleaseResource(resource) => {
                Service::ReleaseResource(self.resource_operand(resource))
            }
            Service::LoadShared(resource, index) => {
                Service::LoadShared(self.resource_operand(resource), *index)
            }
            Service::StoreShared(resource, index, value) => {
                Service::StoreShared(self.resource_operand(resource), *index, *value)
            }
            Service::SetRelAlarm(alarm, increment, cycle) => {
                Service::SetRelAlarm(self.alarm_operand(*alarm), *increment, *cycle)
            }
            Service::SetAbsAlarm(alarm, start, cycle) => {
                Service::SetAbsAlarm(self.alarm_operand(*alarm), *start, *cycle)
            }
            Service::CancelAlarm(alarm) => Service::CancelAlarm(self.alarm_operand(*alarm)),
            Service::GetAlarm(alarm) => Service::GetAlarm(self.alarm_operand(*alarm)),
            Service::GetAlarmBase(alarm) => Service::GetAlarmBase(self.alarm_operand(*alarm)),
            _ => *service,
        }
    }

    fn resource_operand(&self, operand: &Option<ResId>) -> Option<ResId>
        ensures { result ≡ renumbered_operand self.now.system self.now.p operand.now }
    {
        match operand {
            None => None,
            Some(resource) => Some(self.res_id(resource)),
        }
    }

    fn res_id(&self, resource: &ResId) -> ResId
        ensures { result ≡ renumbered_resource self.now.system self.now.p resource.now }
    {
        match resource {
            ResId::Declared(number) => ResId::Declared(self.resource(*number)),
            ResId::Scheduler => ResId::Scheduler,
        }
    }

    fn alarm_operand(&self, operand: Option<AlarmId>) -> Option<AlarmId>
        ensures { result ≡ renumbered_alarm self.now.system self.now.p operand }
    {
        match operand {
            None => None,
            Some(alarm) => Some(self.alarm(alarm)),
        }
    }
}
