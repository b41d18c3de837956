//! OSEK/VDX OS: system services; the modelled processor. Instructions and services, generic over their operands, with
//! the words that name them.

ghost use Rattle.std.specs.Prelude.{◌≡◌, ◌≤◌, ⊤, length};
ghost use Rattle.osek_base.specs.Mnemonics.{operation_word, comparison_word, plain_word, service_word, control_word};

use crate::ids::{AlarmId, Place, Register, ResId, TaskId};
use std::alloc::AllocError;

/// The operations on two registers, mod 2^32 or bit by bit: ADD, SUB, MUL, AND, OR and XOR.
#[derive(Clone, Copy)]
pub enum Operation {
    Add,
    Sub,
    Mul,
    And,
    Or,
    Xor,
}

impl Operation {
    /// The mnemonic.
    pub fn word(self) -> &'static str
        ensures word { result.now ≡ operation_word self }
        ensures short { length result.now ≤ 5 }
    {
        match self {
            Operation::Add => "ADD",
            Operation::Sub => "SUB",
            Operation::Mul => "MUL",
            Operation::And => "AND",
            Operation::Or => "OR",
            Operation::Xor => "XOR",
        }
    }
}

/// The tests of the jumps JEQ, JNE and JLT. Less is without sign.
#[derive(Clone, Copy)]
pub enum Comparison {
    Equal,
    NotEqual,
    Less,
}

impl Comparison {
    /// The mnemonic of the jump.
    pub fn word(self) -> &'static str
        ensures word { result.now ≡ comparison_word self }
        ensures short { length result.now ≤ 5 }
    {
        match self {
            Comparison::Equal => "JEQ",
            Comparison::NotEqual => "JNE",
            Comparison::Less => "JLT",
        }
    }
}

/// The instructions that touch registers, words and the place alone, over what stands for a register, a number and a
/// place.
#[derive(Drop)]
pub enum Plain<R = Register, N = u32, P = Place> {
    /// NOP: nothing.
    Nop,
    /// LI: the register becomes the number.
    Li(R, N),
    /// MOV: the first register becomes the second.
    Mov(R, R),
    /// The first register becomes the result of the operation on the other two.
    Compute(Operation, R, R, R),
    /// LD: the first register becomes the word whose index, mod 64, is in the second.
    Ld(R, R),
    /// ST: the word whose index, mod 64, is in the first register becomes the second.
    St(R, R),
    /// JMP: the instruction at the place follows.
    Jmp(P),
    /// The instruction at the place follows where the two registers pass the test, else the next one.
    JumpIf(Comparison, R, R, P),
}

impl<R: Copy, N: Copy, P: Copy> Clone for Plain<R, N, P> {
    ghost is_clone = { λ x y. y ≡ x };

    ghost is_infallible = { λ _. ⊤ };

    fn clone(&self) -> Result<Self, AllocError> {
        Ok(*self)
    }
}

impl<R: Copy, N: Copy, P: Copy> Copy for Plain<R, N, P> {}

impl<R, N, P> Plain<R, N, P> {
    /// The mnemonic.
    pub fn word(&self) -> &'static str
        ensures word { result.now ≡ plain_word self.now }
        ensures short { length result.now ≤ 5 }
    {
        match self {
            Plain::Nop => "NOP",
            Plain::Li(_, _) => "LI",
            Plain::Mov(_, _) => "MOV",
            Plain::Compute(operation, _, _, _) => operation.word(),
            Plain::Ld(_, _) => "LD",
            Plain::St(_, _) => "ST",
            Plain::Jmp(_) => "JMP",
            Plain::JumpIf(test, _, _, _) => test.word(),
        }
    }
}

/// The services with a status, by the standard's names, over what stands for a value, a task, a resource, an alarm and
/// events. Of a system's services None is the operand INVALID, and events are a mask; a value is a register in a program
/// and the register's value in a call.
#[derive(Drop)]
pub enum Service<V, T = Option<TaskId>, R = Option<ResId>, A = Option<AlarmId>, E = u32> {
    ActivateTask(T),
    TerminateTask,
    ChainTask(T),
    Schedule,
    GetTaskId,
    GetTaskState(T),
    GetResource(R),
    ReleaseResource(R),
    /// LDR, no part of the standard: reads the word of the resource's window whose index, mod 16, is the value.
    LoadShared(R, V),
    /// STR, no part of the standard: the word of the resource's window whose index, mod 16, is the first value becomes the
    /// second.
    StoreShared(R, V, V),
    SetEvent(T, E),
    ClearEvent(E),
    GetEvent(T),
    WaitEvent(E),
    /// The increment and the cycle, in counts.
    SetRelAlarm(A, V, V),
    /// The start, a value of the counter, and the cycle in counts.
    SetAbsAlarm(A, V, V),
    CancelAlarm(A),
    GetAlarm(A),
    GetAlarmBase(A),
}

impl<V: Copy, T: Copy, R: Copy, A: Copy, E: Copy> Clone for Service<V, T, R, A, E> {
    ghost is_clone = { λ x y. y ≡ x };

    ghost is_infallible = { λ _. ⊤ };

    fn clone(&self) -> Result<Self, AllocError> {
        Ok(*self)
    }
}

impl<V: Copy, T: Copy, R: Copy, A: Copy, E: Copy> Copy for Service<V, T, R, A, E> {}

impl<V, T, R, A, E> Service<V, T, R, A, E> {
    /// The mnemonic.
    pub fn word(&self) -> &'static str
        ensures word { result.now ≡ service_word self.now }
        ensures short { length result.now ≤ 5 }
    {
        match self {
            Service::ActivateTask(_) => "ACT",
            Service::TerminateTask => "TERM",
            Service::ChainTask(_) => "CHAIN",
            Service::Schedule => "SCHED",
            Service::GetTaskId => "GTID",
            Service::GetTaskState(_) => "GTST",
            Service::GetResource(_) => "GETR",
            Service::ReleaseResource(_) => "RELR",
            Service::LoadShared(_, _) => "LDR",
            Service::StoreShared(_, _, _) => "STR",
            Service::SetEvent(_, _) => "SETE",
            Service::ClearEvent(_) => "CLRE",
            Service::GetEvent(_) => "GETE",
            Service::WaitEvent(_) => "WAIT",
            Service::SetRelAlarm(_, _, _) => "SREL",
            Service::SetAbsAlarm(_, _, _) => "SABS",
            Service::CancelAlarm(_) => "CANA",
            Service::GetAlarm(_) => "GALM",
            Service::GetAlarmBase(_) => "GBAS",
        }
    }
}

/// The services without a status, by the standard's names, and the return from a routine, over what stands for a number.
#[derive(Clone, Copy, Drop)]
pub enum Control<N = u32> {
    DisableAllInterrupts,
    EnableAllInterrupts,
    SuspendAllInterrupts,
    ResumeAllInterrupts,
    SuspendOsInterrupts,
    ResumeOsInterrupts,
    /// With the number that the shutdown's record tells.
    ShutdownOs(N),
    /// RETI, which routines alone have.
    ReturnFromInterrupt,
}

impl<N> Control<N> {
    /// The mnemonic.
    pub fn word(&self) -> &'static str
        ensures word { result.now ≡ control_word self.now }
        ensures short { length result.now ≤ 5 }
    {
        match self {
            Control::DisableAllInterrupts => "DAI",
            Control::EnableAllInterrupts => "EAI",
            Control::SuspendAllInterrupts => "SAI",
            Control::ResumeAllInterrupts => "RAI",
            Control::SuspendOsInterrupts => "SOI",
            Control::ResumeOsInterrupts => "ROI",
            Control::ShutdownOs(_) => "SHUT",
            Control::ReturnFromInterrupt => "RETI",
        }
    }
}

/// An instruction of a program.
#[derive(Clone, Copy)]
pub enum Instr {
    Plain(Plain),
    Service(Service<Register>),
    Control(Control),
}
