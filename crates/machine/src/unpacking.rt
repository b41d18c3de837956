//! Instructions as words of 64 bits: from a word to its instruction.

ghost use Rattle.std.specs.Prelude.{◌≡◌, IfSome};
ghost use Rattle.machine.specs.Packing.{
  alarm_at,
  comparison_at,
  control_at,
  fields_in,
  instr_at,
  operation_at,
  packed,
  place_at,
  plain_at,
  register_at,
  resource_at,
  service_at,
  task_at,
  unpacked,
};

use crate::fields::Fields;
use crate::packing::{INVALID, RES_SCHEDULER, pack};
use osek_base::{
    AlarmId, Comparison, Control, Instr, MAX_ALARMS, MAX_INSTRUCTIONS, MAX_RESOURCES, MAX_TASKS,
    Operation, Place, Plain, REGISTERS, Register, ResId, ResourceNumber, Service, TaskId,
};

/// The instruction whose word it is. None where no instruction has it: an operation that there isn't,
/// an operand beyond its limit, or a field that the operation doesn't use and that isn't 0.
pub fn unpack(word: u64) -> Option<Instr>
    ensures value { result ≡ unpacked word }
    ensures packed { IfSome result (λ i. packed i ≡ word) }
{
    let instr = decode(word);
    if pack(&instr) == word {
        Some(instr)
    } else {
        None
    }
}

/// The instruction that a word tells, where it is known to be the word of one: what isn't used is not looked at.
pub fn decode(word: u64) -> Instr
    ensures { result ≡ instr_at (fields_in word) }
{
    instr_at(&Fields::in_word(word))
}

/// What fields tell, whatever stands in those that aren't used; 0 for a number beyond its limit.
fn instr_at(fields: &Fields) -> Instr
    ensures { result ≡ instr_at fields.now }
{
    if fields.operation < 15 {
        Instr::Plain(plain_at(fields))
    } else if 32 <= fields.operation && fields.operation < 40 {
        Instr::Control(control_at(fields))
    } else {
        Instr::Service(service_at(fields))
    }
}

/// What fields tell of a plain instruction.
#[inline(always)]
pub fn plain_at(fields: &Fields) -> Plain
    ensures { result ≡ plain_at fields.now }
{
    match fields.operation {
        0 => Plain::Nop,
        1 => Plain::Li(register_at(fields.first), fields.number),
        2 => Plain::Mov(register_at(fields.first), register_at(fields.second)),
        9 => Plain::Ld(register_at(fields.first), register_at(fields.second)),
        10 => Plain::St(register_at(fields.first), register_at(fields.second)),
        11 => Plain::Jmp(place_at(fields.number)),
        operation => {
            let a = register_at(fields.first);
            let b = register_at(fields.second);
            if operation < 9 {
                Plain::Compute(operation_at(operation), a, b, register_at(fields.third))
            } else {
                Plain::JumpIf(comparison_at(operation), a, b, place_at(fields.number))
            }
        }
    }
}

/// What fields tell of a service with a status.
#[inline(always)]
pub fn service_at(fields: &Fields) -> Service<Register>
    ensures { result ≡ service_at fields.now }
{
    match fields.operation {
        15 => Service::ActivateTask(task_at(fields.first)),
        16 => Service::TerminateTask,
        17 => Service::ChainTask(task_at(fields.first)),
        18 => Service::Schedule,
        19 => Service::GetTaskId,
        20 => Service::GetTaskState(task_at(fields.first)),
        21 => Service::GetResource(resource_at(fields.first)),
        22 => Service::ReleaseResource(resource_at(fields.first)),
        23 => Service::SetEvent(task_at(fields.first), fields.number),
        24 => Service::ClearEvent(fields.number),
        25 => Service::GetEvent(task_at(fields.first)),
        26 => Service::WaitEvent(fields.number),
        27 => {
            let x = register_at(fields.second);
            Service::SetRelAlarm(alarm_at(fields.first), x, register_at(fields.third))
        }
        28 => {
            let x = register_at(fields.second);
            Service::SetAbsAlarm(alarm_at(fields.first), x, register_at(fields.third))
        }
        29 => Service::CancelAlarm(alarm_at(fields.first)),
        30 => Service::GetAlarm(alarm_at(fields.first)),
        31 => Service::GetAlarmBase(alarm_at(fields.first)),
        40 => Service::LoadShared(resource_at(fields.first), register_at(fields.second)),
        _ => {
            let x = register_at(fields.second);
            Service::StoreShared(resource_at(fields.first), x, register_at(fields.third))
        }
    }
}

/// What fields tell of a service without a status.
#[inline(never)]
pub fn control_at(fields: &Fields) -> Control
    ensures { result ≡ control_at fields.now }
{
    match fields.operation {
        32 => Control::DisableAllInterrupts,
        33 => Control::EnableAllInterrupts,
        34 => Control::SuspendAllInterrupts,
        35 => Control::ResumeAllInterrupts,
        36 => Control::SuspendOsInterrupts,
        37 => Control::ResumeOsInterrupts,
        38 => Control::ShutdownOs(fields.number),
        _ => Control::ReturnFromInterrupt,
    }
}

fn operation_at(number: u8) -> Operation
    ensures { result ≡ operation_at number }
{
    match number {
        3 => Operation::Add,
        4 => Operation::Sub,
        5 => Operation::Mul,
        6 => Operation::And,
        7 => Operation::Or,
        _ => Operation::Xor,
    }
}

fn comparison_at(number: u8) -> Comparison
    ensures { result ≡ comparison_at number }
{
    match number {
        12 => Comparison::Equal,
        13 => Comparison::NotEqual,
        _ => Comparison::Less,
    }
}

#[inline(always)]
fn register_at(number: u8) -> Register
    ensures { result ≡ register_at number }
{
    if (number as usize) < REGISTERS {
        Register::new(number)
    } else {
        Register::new(0)
    }
}

#[inline(always)]
fn place_at(number: u32) -> Place
    ensures { result ≡ place_at number }
{
    if (number as usize) < MAX_INSTRUCTIONS {
        Place::new(number as u16)
    } else {
        Place::new(0)
    }
}

#[inline(always)]
fn task_at(number: u8) -> Option<TaskId>
    ensures { result ≡ task_at number }
{
    if number == INVALID {
        None
    } else if (number as usize) < MAX_TASKS {
        Some(TaskId::new(number))
    } else {
        Some(TaskId::new(0))
    }
}

#[inline(always)]
fn alarm_at(number: u8) -> Option<AlarmId>
    ensures { result ≡ alarm_at number }
{
    if number == INVALID {
        None
    } else if (number as usize) < MAX_ALARMS {
        Some(AlarmId::new(number))
    } else {
        Some(AlarmId::new(0))
    }
}

#[inline(always)]
fn resource_at(number: u8) -> Option<ResId>
    ensures { result ≡ resource_at number }
{
    if number == INVALID {
        None
    } else if number == RES_SCHEDULER {
        Some(ResId::Scheduler)
    } else if (number as usize) < MAX_RESOURCES {
        Some(ResId::Declared(ResourceNumber::new(number)))
    } else {
        Some(ResId::Declared(ResourceNumber::new(0)))
    }
}
