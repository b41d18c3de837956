//! What an instruction names, and which rules forbid it: as `partition_check` has it.

use crate::denial::Rule;
use crate::upper::{is_upper_alarm, is_upper_resource, is_upper_task};
use osek_base::{AlarmId, Control, Instr, Register, ResId, Service, System, TaskId};

/// What an operand names.
#[derive(Clone, Copy)]
enum NamedObject {
    Task(TaskId),
    Resource(ResId),
    Alarm(AlarmId),
}

impl NamedObject {
    fn is_scheduler(&self) -> bool {
        match self {
            NamedObject::Resource(ResId::Scheduler) => true,
            _ => false,
        }
    }

    /// Whether it is upper at p: a task of priority p or more, a resource of such a ceiling, an
    /// alarm of such a task.
    fn is_upper(&self, system: &System, p: u8) -> bool {
        match self {
            NamedObject::Task(task) => is_upper_task(system, p, *task),
            NamedObject::Resource(resource) => is_upper_resource(system, p, *resource),
            NamedObject::Alarm(alarm) => is_upper_alarm(system, p, *alarm),
        }
    }
}

fn named_task(task: Option<TaskId>) -> Option<NamedObject> {
    match task {
        None => None,
        Some(task) => Some(NamedObject::Task(task)),
    }
}

fn named_resource(resource: &Option<ResId>) -> Option<NamedObject> {
    match resource {
        None => None,
        Some(resource) => Some(NamedObject::Resource(*resource)),
    }
}

fn named_alarm(alarm: Option<AlarmId>) -> Option<NamedObject> {
    match alarm {
        None => None,
        Some(alarm) => Some(NamedObject::Alarm(alarm)),
    }
}

/// What a service's operand names, if anything: INVALID names nothing, and a mask of events belongs
/// to nobody.
fn named_by(service: &Service<Register>) -> Option<NamedObject> {
    match service {
        Service::ActivateTask(task) => named_task(*task),
        Service::ChainTask(task) => named_task(*task),
        Service::GetTaskState(task) => named_task(*task),
        Service::SetEvent(task, _) => named_task(*task),
        Service::GetEvent(task) => named_task(*task),
        Service::GetResource(resource) => named_resource(resource),
        Service::ReleaseResource(resource) => named_resource(resource),
        Service::LoadShared(resource, _) => named_resource(resource),
        Service::StoreShared(resource, _, _) => named_resource(resource),
        Service::SetRelAlarm(alarm, _, _) => named_alarm(*alarm),
        Service::SetAbsAlarm(alarm, _, _) => named_alarm(*alarm),
        Service::CancelAlarm(alarm) => named_alarm(*alarm),
        Service::GetAlarm(alarm) => named_alarm(*alarm),
        Service::GetAlarmBase(alarm) => named_alarm(*alarm),
        _ => None,
    }
}

/// The object that an instruction names, if any.
fn named_object(instr: &Instr) -> Option<NamedObject> {
    match instr {
        Instr::Service(service) => named_by(service),
        _ => None,
    }
}

/// Whether it names RES_SCHEDULER.
fn names_scheduler(instr: &Instr) -> bool {
    match named_object(instr) {
        None => false,
        Some(object) => object.is_scheduler(),
    }
}

/// Whether it names an upper object other than RES_SCHEDULER.
fn names_upper(system: &System, p: u8, instr: &Instr) -> bool {
    match named_object(instr) {
        None => false,
        Some(object) => !object.is_scheduler() && object.is_upper(system, p),
    }
}

/// Whether it names a lower object other than RES_SCHEDULER.
fn names_lower(system: &System, p: u8, instr: &Instr) -> bool {
    match named_object(instr) {
        None => false,
        Some(object) => !object.is_scheduler() && !object.is_upper(system, p),
    }
}

/// Whether it turns interrupts off or on, or shuts down.
fn is_reserved(instr: &Instr) -> bool {
    match instr {
        Instr::Control(control) => match control {
            Control::ReturnFromInterrupt => false,
            _ => true,
        },
        _ => false,
    }
}

/// Whether it asks which task runs.
fn asks_task_id(instr: &Instr) -> bool {
    match instr {
        Instr::Service(service) => match service {
            Service::GetTaskId => true,
            _ => false,
        },
        _ => false,
    }
}

/// Whether a rule on programs forbids an instruction to its subjects.
pub(crate) fn forbids(system: &System, p: u8, rule: Rule, instr: &Instr) -> bool {
    match rule {
        Rule::FullPreemption | Rule::LowerResources => false,
        Rule::NoScheduler => names_scheduler(instr),
        Rule::NoControl => is_reserved(instr),
        Rule::LowerNames => names_upper(system, p, instr),
        Rule::UpperNames => names_lower(system, p, instr),
        Rule::NoTaskId => asks_task_id(instr),
    }
}
