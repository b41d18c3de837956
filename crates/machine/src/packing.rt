//! Instructions as words of 64 bits: from an instruction to its word.

ghost use Rattle.std.specs.Prelude.{◌≡◌, ◌<◌, ◌≤◌, Some};
ghost use Rattle.machine.specs.Packing.{
  alarm_at,
  comparison_at,
  comparison_number,
  control_at,
  control_fields,
  instr_at,
  instr_fields,
  number_of,
  operation_at,
  operation_number,
  packed,
  place_at,
  plain_at,
  plain_fields,
  register_at,
  resource_at,
  resource_number,
  service_at,
  service_fields,
  task_at,
  unpacked,
};

use crate::fields::Fields;
use osek_base::{
    AlarmId, Comparison, Control, Instr, Operation, Place, Plain, Register, ResId, Service, TaskId,
};

/// The operand INVALID.
pub const INVALID: u8 = 255;

/// The operand RES_SCHEDULER.
pub const RES_SCHEDULER: u8 = 254;

/// The word of an instruction. No two instructions have one word.
pub fn pack(instr: &Instr) -> u64
    ensures word { result ≡ packed instr.now }
    ensures back { unpacked result ≡ Some instr.now }
{
    instr_fields(instr).word()
}

/// The fields of an instruction's word; what isn't used is 0.
fn instr_fields(instr: &Instr) -> Fields
    ensures value { result ≡ instr_fields instr.now }
    ensures back { instr_at result ≡ instr.now }
{
    match instr {
        Instr::Plain(plain) => plain_fields(plain),
        Instr::Service(service) => service_fields(service),
        Instr::Control(control) => control_fields(control),
    }
}

fn plain_fields(plain: &Plain) -> Fields
    ensures value { result ≡ plain_fields plain.now }
    ensures back { plain_at result ≡ plain.now }
    ensures low { result.operation < 15 }
{
    match *plain {
        Plain::Nop => Fields::new(0, 0, 0, 0, 0),
        Plain::Li(to, number) => Fields::new(1, register(to), 0, 0, number),
        Plain::Mov(to, from) => Fields::new(2, register(to), register(from), 0, 0),
        Plain::Compute(operation, to, a, b) => {
            let number = operation_number(operation);
            Fields::new(number, register(to), register(a), register(b), 0)
        }
        Plain::Ld(to, address) => Fields::new(9, register(to), register(address), 0, 0),
        Plain::St(address, from) => Fields::new(10, register(address), register(from), 0, 0),
        Plain::Jmp(to) => Fields::new(11, 0, 0, 0, place(to)),
        Plain::JumpIf(test, a, b, to) => {
            let number = comparison_number(test);
            Fields::new(number, register(a), register(b), 0, place(to))
        }
    }
}

fn service_fields(service: &Service<Register>) -> Fields
    ensures value { result ≡ service_fields service.now }
    ensures back { instr_at result ≡ Instr.Service service.now }
{
    match *service {
        Service::ActivateTask(t) => Fields::new(15, task(t), 0, 0, 0),
        Service::TerminateTask => Fields::new(16, 0, 0, 0, 0),
        Service::ChainTask(t) => Fields::new(17, task(t), 0, 0, 0),
        Service::Schedule => Fields::new(18, 0, 0, 0, 0),
        Service::GetTaskId => Fields::new(19, 0, 0, 0, 0),
        Service::GetTaskState(t) => Fields::new(20, task(t), 0, 0, 0),
        Service::GetResource(r) => Fields::new(21, resource(r), 0, 0, 0),
        Service::ReleaseResource(r) => Fields::new(22, resource(r), 0, 0, 0),
        Service::SetEvent(t, mask) => Fields::new(23, task(t), 0, 0, mask),
        Service::ClearEvent(mask) => Fields::new(24, 0, 0, 0, mask),
        Service::GetEvent(t) => Fields::new(25, task(t), 0, 0, 0),
        Service::WaitEvent(mask) => Fields::new(26, 0, 0, 0, mask),
        Service::SetRelAlarm(a, x, y) => Fields::new(27, alarm(a), register(x), register(y), 0),
        Service::SetAbsAlarm(a, x, y) => Fields::new(28, alarm(a), register(x), register(y), 0),
        Service::CancelAlarm(a) => Fields::new(29, alarm(a), 0, 0, 0),
        Service::GetAlarm(a) => Fields::new(30, alarm(a), 0, 0, 0),
        Service::GetAlarmBase(a) => Fields::new(31, alarm(a), 0, 0, 0),
        Service::LoadShared(r, x) => Fields::new(40, resource(r), register(x), 0, 0),
        Service::StoreShared(r, x, y) => Fields::new(41, resource(r), register(x), register(y), 0),
    }
}

fn control_fields(control: &Control) -> Fields
    ensures value { result ≡ control_fields control.now }
    ensures back { instr_at result ≡ Instr.Control control.now }
{
    match *control {
        Control::DisableAllInterrupts => Fields::new(32, 0, 0, 0, 0),
        Control::EnableAllInterrupts => Fields::new(33, 0, 0, 0, 0),
        Control::SuspendAllInterrupts => Fields::new(34, 0, 0, 0, 0),
        Control::ResumeAllInterrupts => Fields::new(35, 0, 0, 0, 0),
        Control::SuspendOsInterrupts => Fields::new(36, 0, 0, 0, 0),
        Control::ResumeOsInterrupts => Fields::new(37, 0, 0, 0, 0),
        Control::ShutdownOs(number) => Fields::new(38, 0, 0, 0, number),
        Control::ReturnFromInterrupt => Fields::new(39, 0, 0, 0, 0),
    }
}

fn operation_number(operation: Operation) -> u8
    ensures value { result ≡ operation_number operation }
    ensures back { operation_at result ≡ operation }
    ensures from { 3 ≤ result }
    ensures to { result ≤ 8 }
{
    match operation {
        Operation::Add => 3,
        Operation::Sub => 4,
        Operation::Mul => 5,
        Operation::And => 6,
        Operation::Or => 7,
        Operation::Xor => 8,
    }
}

fn comparison_number(test: Comparison) -> u8
    ensures value { result ≡ comparison_number test }
    ensures back { comparison_at result ≡ test }
    ensures from { 12 ≤ result }
    ensures to { result ≤ 14 }
{
    match test {
        Comparison::Equal => 12,
        Comparison::NotEqual => 13,
        Comparison::Less => 14,
    }
}

fn register(register: Register) -> u8
    ensures value { result ≡ register }
    ensures back { register_at result ≡ register }
{
    register.number()
}

fn place(place: Place) -> u32
    ensures value { result ≡ place }
    ensures back { place_at result ≡ place }
{
    place.number() as u32
}

fn task(task: Option<TaskId>) -> u8
    ensures value { result ≡ number_of task }
    ensures back { task_at result ≡ task }
{
    match task {
        None => INVALID,
        Some(task) => task.number(),
    }
}

fn alarm(alarm: Option<AlarmId>) -> u8
    ensures value { result ≡ number_of alarm }
    ensures back { alarm_at result ≡ alarm }
{
    match alarm {
        None => INVALID,
        Some(alarm) => alarm.number(),
    }
}

fn resource(resource: Option<ResId>) -> u8
    ensures value { result ≡ resource_number resource }
    ensures back { resource_at result ≡ resource }
{
    match resource {
        None => INVALID,
        Some(resource) => match resource {
            ResId::Scheduler => RES_SCHEDULER,
            ResId::Declared(number) => number.number(),
        },
    }
}
