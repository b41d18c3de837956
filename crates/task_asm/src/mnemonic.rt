//! The modelled processor and OSEK/VDX OS: system services. The mnemonics of instructions.

ghost use Rattle.std.specs.Prelude.{◌≡◌, ◌≤◌, Some, length};
ghost use Rattle.task_asm.specs.Mnemonics.{mnemonic_in, mnemonic_of, mnemonic_word};

use osek_base::{Comparison, Control, Operation, Plain, Service};

/// What an instruction begins with: the instruction without its operands.
#[derive(Clone, Copy)]
pub enum Mnemonic {
    Plain(Plain<(), (), ()>),
    Service(Service<(), (), (), (), ()>),
    Control(Control<()>),
}

impl Mnemonic {
    /// The word, in upper case.
    pub fn word(&self) -> &'static str
        ensures word { result.now ≡ mnemonic_word self.now }
        ensures back { mnemonic_of result.now ≡ Some self.now }
    {
        match self {
            Mnemonic::Plain(plain) => plain.word(),
            Mnemonic::Service(service) => service.word(),
            Mnemonic::Control(control) => control.word(),
        }
    }

    /// The mnemonic with that word.
    pub fn of(word: &str) -> Option<Mnemonic>
        ensures { result ≡ mnemonic_of word.now }
    {
        first_with(&MNEMONICS, word)
    }
}

/// The first of some mnemonics with that word.
fn first_with(mnemonics: &[Mnemonic], word: &str) -> Option<Mnemonic>
    ensures { result ≡ mnemonic_in mnemonics.now word.now }
{
    match mnemonics {
        [] => None,
        [first, ..] if first.word() == word => Some(*first),
        [_, rest @ ..] => first_with(rest, word),
    }
}

/// All mnemonics.
const MNEMONICS: [Mnemonic; 42] = [
    Mnemonic::Plain(Plain::Nop),
    Mnemonic::Plain(Plain::Li((), ())),
    Mnemonic::Plain(Plain::Mov((), ())),
    Mnemonic::Plain(Plain::Compute(Operation::Add, (), (), ())),
    Mnemonic::Plain(Plain::Compute(Operation::Sub, (), (), ())),
    Mnemonic::Plain(Plain::Compute(Operation::Mul, (), (), ())),
    Mnemonic::Plain(Plain::Compute(Operation::And, (), (), ())),
    Mnemonic::Plain(Plain::Compute(Operation::Or, (), (), ())),
    Mnemonic::Plain(Plain::Compute(Operation::Xor, (), (), ())),
    Mnemonic::Plain(Plain::Ld((), ())),
    Mnemonic::Plain(Plain::St((), ())),
    Mnemonic::Plain(Plain::Jmp(())),
    Mnemonic::Plain(Plain::JumpIf(Comparison::Equal, (), (), ())),
    Mnemonic::Plain(Plain::JumpIf(Comparison::NotEqual, (), (), ())),
    Mnemonic::Plain(Plain::JumpIf(Comparison::Less, (), (), ())),
    Mnemonic::Service(Service::ActivateTask(())),
    Mnemonic::Service(Service::TerminateTask),
    Mnemonic::Service(Service::ChainTask(())),
    Mnemonic::Service(Service::Schedule),
    Mnemonic::Service(Service::GetTaskId),
    Mnemonic::Service(Service::GetTaskState(())),
    Mnemonic::Service(Service::GetResource(())),
    Mnemonic::Service(Service::ReleaseResource(())),
    Mnemonic::Service(Service::LoadShared((), ())),
    Mnemonic::Service(Service::StoreShared((), (), ())),
    Mnemonic::Service(Service::SetEvent((), ())),
    Mnemonic::Service(Service::ClearEvent(())),
    Mnemonic::Service(Service::GetEvent(())),
    Mnemonic::Service(Service::WaitEvent(())),
    Mnemonic::Service(Service::SetRelAlarm((), (), ())),
    Mnemonic::Service(Service::SetAbsAlarm((), (), ())),
    Mnemonic::Service(Service::CancelAlarm(())),
    Mnemonic::Service(Service::GetAlarm(())),
    Mnemonic::Service(Service::GetAlarmBase(())),
    Mnemonic::Control(Control::DisableAllInterrupts),
    Mnemonic::Control(Control::EnableAllInterrupts),
    Mnemonic::Control(Control::SuspendAllInterrupts),
    Mnemonic::Control(Control::ResumeAllInterrupts),
    Mnemonic::Control(Control::SuspendOsInterrupts),
    Mnemonic::Control(Control::ResumeOsInterrupts),
    Mnemonic::Control(Control::ShutdownOs(())),
    Mnemonic::Control(Control::ReturnFromInterrupt),
];
