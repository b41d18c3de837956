//! Partitions. What an instruction names, and which rules forbid it.

ghost use Rattle.std.specs.Prelude.{◌≡◌};
ghost use Rattle.osek_base.specs.Upper.{is_upper_object, named_task, named_resource, named_alarm, service_names, named_object};
ghost use Rattle.osek_base.specs.Separable.{is_scheduler_object, names_scheduler, names_upper, names_lower, is_reserved, asks_task_id};
ghost use Rattle.partition_check.specs.Partition.{forbids, object_of, found};

use crate::denial::Rule;
use crate::upper::{is_upper_alarm, is_upper_resource, is_upper_task};
use osek_base::{AlarmId, Control, Instr, Register, ResId, Service, System, TaskId};

/// What an operand names.
#[derive(Clone, Copy)]
pub enum Object {
    Task(TaskId),
    Resource(ResId),
    Alarm(AlarmId),
}

impl Object {
    fn is_scheduler(&self) -> bool
        ensures { result ≡ is_scheduler_object (object_of self.now) }
    {
        match self {
            Object::Resource(ResId::Scheduler) => true,
            _ => false,
        }
    }

    /// Whether it is upper at p: a task of priority p or more, a resource of such a ceiling, an alarm of such a task.
    fn is_upper(&self, system: &System, p: u8) -> bool
        ensures { result ≡ is_upper_object system.now p (object_of self.now) }
    {
        match self {
            Object::Task(task) => is_upper_task(system, p, *task),
            Object::Resource(resource) => is_upper_resource(system, p, *resource),
            Object::Alarm(alarm) => is_upper_alarm(system, p, *alarm),
        }
    }
}

fn named_task(task: Option<TaskId>) -> Option<Object>
    ensures { found result ≡ named_task task }
{
    match task {
        None => None,
        Some(task) => Some(Object::Task(task)),
    }
}

fn named_resource(resource: &Option<ResId>) -> Option<Object>
    ensures { found result ≡ named_resource resource.now }
{
    match resource {
        None => None,
        Some(resource) => Some(Object::Resource(*resource)),
    }
}

fn named_alarm(alarm: Option<AlarmId>) -> Option<Object>
    ensures { found result ≡ named_alarm alarm }
{
    match alarm {
        None => None,
        Some(alarm) => Some(Object::Alarm(alarm)),
    }
}

/// What a service's operand names, if anything: INVALID names nothing, and a mask of events belongs to nobody.
fn named_by(service: &Service<Register>) -> Option<Object>
    ensures { found result ≡ service_names service.now }
{
    match service {
        Service::ActivateTask(task) => named_task(*task),
        Service::ChainTask(task) => named_task(*task),
        Service::GetTaskState(task) => named_task(*task),
        Service::SetEvent(task, _) => named_task(*task),
        Service::GetEvent(task) => named_task(*task),
        Service::GetResource(resource) => named_resource(resource),
        Service::ReleaseResource(resource) => named_resource(resource),
        Service::LoadShared(resource, _) => named_resource(resource),
        Service::StoreShared(resource, _, _) => named_resource(resource),
        Service::SetRelAlarm(alarm, _, _) => named_alarm(*alarm),
        Service::SetAbsAlarm(alarm, _, _) => named_alarm(*alarm),
        Service::CancelAlarm(alarm) => named_alarm(*alarm),
        Service::GetAlarm(alarm) => named_alarm(*alarm),
        Service::GetAlarmBase(alarm) => named_alarm(*alarm),
        _ => None,
    }
}

/// The object that an instruction names, if any.
fn named_object(instr: &Instr) -> Option<Object>
    ensures { found result ≡ named_object instr.now }
{
    match instr {
        Instr::Service(service) => named_by(service),
        _ => None,
    }
}

/// Whether it names RES_SCHEDULER.
fn names_scheduler(instr: &Instr) -> bool
    ensures { result ≡ names_scheduler instr.now }
{
    match named_object(instr) {
        None => false,
        Some(object) => object.is_scheduler(),
    }
}

/// Whether it names an upper object other than RES_SCHEDULER.
fn names_upper(system: &System, p: u8, instr: &Instr) -> bool
    ensures { result ≡ names_upper system.now p instr.now }
{
    match named_object(instr) {
        None => false,
        Some(object) => !object.is_scheduler() && object.is_upper(system, p),
    }
}

/// Whether it names a lower object other than RES_SCHEDULER.
fn names_lower(system: &System, p: u8, instr: &Instr) -> bool
    ensures { result ≡ names_lower system.now p instr.now }
{
    match named_object(instr) {
        None => false,
        Some(object) => !object.is_scheduler() && !object.is_upper(system, p),
    }
}

/// Whether it turns interrupts off or on, or shuts down.
fn is_reserved(instr: &Instr) -> bool
    ensures { result ≡ is_reserved instr.now }
{
    match instr {
        Instr::Control(control) => match control {
            Control::ReturnFromInterrupt => false,
            _ => true,
        },
        _ => false,
    }
}

/// Whether it asks which task runs.
fn asks_task_id(instr: &Instr) -> bool
    ensures { result ≡ asks_task_id instr.now }
{
    match instr {
        Instr::Service(service) => match service {
            Service::GetTaskId => true,
            _ => false,
        },
        _ => false,
    }
}

/// Whether a rule on programs forbids an instruction to its subjects.
pub(crate) fn forbids(system: &System, p: u8, rule: Rule, instr: &Instr) -> bool
    ensures { result ≡ forbids system.now p rule instr.now }
{
    match rule {
        Rule::FullPreemption | Rule::LowerResources => false,
        Rule::NoScheduler => names_scheduler(instr),
        Rule::NoControl => is_reserved(instr),
        Rule::LowerNames => names_upper(system, p, instr),
        Rule::UpperNames => names_lower(system, p, instr),
        Rule::NoTaskId => asks_task_id(instr),
    }
}
