//! The texts of instructions: a mnemonic, then its operands, separated by `, `.

ghost use Rattle.std.specs.Prelude.{◌≡◌, ◌+◌, ◌<◌, ◌≤◌, ◌++◌, ◌∷◌, [], length, decimal};
ghost use Rattle.osek_base.specs.Names.{name_at};
ghost use Rattle.osek_base.specs.Text.{
  task_text,
  resource_text,
  alarm_text,
  register_text,
  mask_text,
  written,
  plain_operands,
  service_operands,
  control_operands,
  instruction_text,
};
ghost use Rattle.osek_base.specs.Mnemonics.{plain_word, service_word, control_word};
ghost use Rattle.task_asm.specs.Operands.{last_digits};

use arrayvec::ArrayString;
use itoa::Buffer;
use osek_base::{
    AlarmId, Control, Instr, Name, Names, Place, Plain, Register, ResId, Service, TaskId,
};

/// The text of one operand.
type OperandText = ArrayString<32>;

/// What an instruction's text is written to: the longest mnemonic and three of the longest operands
/// fit.
type InstrText = ArrayString<128>;

fn short_text(text: &str) -> OperandText
    requires { length text.now ≤ 32 }
    ensures { result.bytes ≡ text.now }
{
    let mut operand = ArrayString::new();
    operand.push_str(text);
    operand
}

fn number_text(number: u32) -> OperandText
    ensures { result.bytes ≡ decimal number }
{
    let mut buffer = Buffer::new();
    short_text(buffer.format(number))
}

fn place_text(place: Place) -> OperandText
    ensures { result.bytes ≡ decimal place }
{
    number_text(place.number() as u32)
}

fn register_text(register: Register) -> OperandText
    ensures { result.bytes ≡ register_text register }
{
    let mut buffer = Buffer::new();
    let mut operand = short_text("r");
    operand.push_str(buffer.format(register.number()));
    operand
}

/// Appends the last hexadecimal digits of a number, so many.
fn push_digits(text: &mut OperandText, number: u32, count: usize)
    requires { length text.old.bytes + count ≤ 32 }
    ensures text { text.new.bytes ≡ text.old.bytes ++ last_digits count number }
    ensures long { length text.new.bytes ≡ length text.old.bytes + count }
{
    if count > 0 {
        push_digits(text, number / 16, count - 1);
        if let Some(digit) = char::from_digit(number % 16, 16) {
            text.push(digit);
        }
    }
}

fn mask_text(mask: u32) -> OperandText
    ensures { result.bytes ≡ mask_text mask }
{
    let mut operand = short_text("0x");
    push_digits(&mut operand, mask, 8);
    operand
}

/// The name of that number, empty where there is none.
fn name_at(names: &[Name], number: usize) -> OperandText
    ensures { result.bytes ≡ name_at names.now number }
{
    match names.get(number) {
        Some(name) => short_text(name.as_str()),
        None => ArrayString::new(),
    }
}

fn task_text(names: &Names, task: Option<TaskId>) -> OperandText
    ensures { result.bytes ≡ task_text names.now task }
{
    match task {
        None => short_text("INVALID"),
        Some(task) => name_at(names.tasks.as_slice(), task.number() as usize),
    }
}

fn resource_text(names: &Names, resource: Option<ResId>) -> OperandText
    ensures { result.bytes ≡ resource_text names.now resource }
{
    match resource {
        None => short_text("INVALID"),
        Some(resource) => match resource {
            ResId::Declared(number) => {
                name_at(names.resources.as_slice(), number.number() as usize)
            }
            ResId::Scheduler => short_text("RES_SCHEDULER"),
        },
    }
}

fn alarm_text(names: &Names, alarm: Option<AlarmId>) -> OperandText
    ensures { result.bytes ≡ alarm_text names.now alarm }
{
    match alarm {
        None => short_text("INVALID"),
        Some(alarm) => name_at(names.alarms.as_slice(), alarm.number() as usize),
    }
}

fn write_word(text: &mut InstrText, word: &str)
    requires { length word.now ≤ 5 }
    ensures { text.new.bytes ≡ word.now }
{
    text.clear();
    text.push_str(word);
}

fn write_one(text: &mut InstrText, word: &str, operand: &OperandText)
    requires { length word.now ≤ 5 }
    ensures text { text.new.bytes ≡ written word.now (operand.now.bytes ∷ []) }
    ensures short { length text.new.bytes ≤ 38 }
{
    write_word(text, word);
    text.push_str(" ");
    text.push_str(operand.as_str());
}

fn write_two(text: &mut InstrText, word: &str, first: &OperandText, second: &OperandText)
    requires { length word.now ≤ 5 }
    ensures text { text.new.bytes ≡ written word.now (first.now.bytes ∷ second.now.bytes ∷ []) }
    ensures short { length text.new.bytes ≤ 72 }
{
    write_one(text, word, first);
    text.push_str(", ");
    text.push_str(second.as_str());
}

fn write_three(
    text: &mut InstrText,
    word: &str,
    first: &OperandText,
    second: &OperandText,
    third: &OperandText,
)
    requires { length word.now ≤ 5 }
    ensures { text.new.bytes
        ≡ written word.now (first.now.bytes ∷ second.now.bytes ∷ third.now.bytes ∷ []) }
{
    write_two(text, word, first, second);
    text.push_str(", ");
    text.push_str(third.as_str());
}

fn write_plain(text: &mut InstrText, plain: &Plain)
    ensures { text.new.bytes ≡ written (plain_word plain.now) (plain_operands plain.now) }
{
    let word = plain.word();
    match *plain {
        Plain::Nop => write_word(text, word),
        Plain::Li(to, number) => write_two(text, word, &register_text(to), &number_text(number)),
        Plain::Mov(a, b) | Plain::Ld(a, b) | Plain::St(a, b) => {
            write_two(text, word, &register_text(a), &register_text(b))
        }
        Plain::Compute(_, to, a, b) => {
            write_three(
                text,
                word,
                &register_text(to),
                &register_text(a),
                &register_text(b),
            )
        }
        Plain::Jmp(place) => write_one(text, word, &place_text(place)),
        Plain::JumpIf(_, a, b, place) => {
            write_three(
                text,
                word,
                &register_text(a),
                &register_text(b),
                &place_text(place),
            )
        }
    }
}

fn write_service(text: &mut InstrText, service: &Service<Register>, names: &Names)
    ensures { text.new.bytes
        ≡ written (service_word service.now) (service_operands names.now service.now) }
{
    let word = service.word();
    match *service {
        Service::TerminateTask | Service::Schedule | Service::GetTaskId => write_word(text, word),
        Service::ActivateTask(task)
        | Service::ChainTask(task)
        | Service::GetTaskState(task)
        | Service::GetEvent(task) => write_one(text, word, &task_text(names, task)),
        Service::GetResource(resource) | Service::ReleaseResource(resource) => {
            write_one(text, word, &resource_text(names, resource))
        }
        Service::LoadShared(resource, index) => {
            write_two(
                text,
                word,
                &resource_text(names, resource),
                &register_text(index),
            )
        }
        Service::StoreShared(resource, index, new) => write_three(
            text,
            word,
            &resource_text(names, resource),
            &register_text(index),
            &register_text(new),
        ),
        Service::SetEvent(task, mask) => {
            write_two(text, word, &task_text(names, task), &mask_text(mask))
        }
        Service::ClearEvent(mask) | Service::WaitEvent(mask) => {
            write_one(text, word, &mask_text(mask))
        }
        Service::SetRelAlarm(alarm, count, cycle) | Service::SetAbsAlarm(alarm, count, cycle) => {
            write_three(
                text,
                word,
                &alarm_text(names, alarm),
                &register_text(count),
                &register_text(cycle),
            )
        }
        Service::CancelAlarm(alarm) | Service::GetAlarm(alarm) | Service::GetAlarmBase(alarm) => {
            write_one(text, word, &alarm_text(names, alarm))
        }
    }
}

fn write_control(text: &mut InstrText, control: &Control)
    ensures { text.new.bytes ≡ written (control_word control.now) (control_operands control.now) }
{
    let word = control.word();
    match *control {
        Control::ShutdownOs(number) => write_one(text, word, &number_text(number)),
        _ => write_word(text, word),
    }
}

/// Replaces the content of `text` by the instruction's text: its mnemonic, then its operands
/// separated by `, `. Masks are written as `0x` and eight hexadecimal digits, labels as places. An
/// object without a name is written as nothing.
pub fn instr_text(instr: &Instr, names: &Names, text: &mut ArrayString<128>)
    ensures { text.new.bytes ≡ instruction_text names.now instr.now }
{
    match instr {
        Instr::Plain(plain) => write_plain(text, plain),
        Instr::Service(service) => write_service(text, service, names),
        Instr::Control(control) => write_control(text, control),
    }
}
