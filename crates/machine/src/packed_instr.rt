//! An instruction as its word, of which each kind is unpacked where it is executed.

ghost use Rattle.std.specs.Prelude.{◌≡◌, true, false};
ghost use Rattle.machine.specs.Packing.{fields_in, instr_at};
ghost use Rattle.machine.specs.Packed.{control_of, ends_job, if_service, instr_of, is_control, is_plain, makes_job, needs_look, plain_of, service_of};

use crate::fields::Fields;
use crate::unpacking::{control_at, plain_at, service_at};
use osek_base::{Control, Plain, Register, Service};

/// An instruction as its word: contracts see what the word tells.
#[derive(Clone, Copy)]
pub struct PackedInstr {
    word: u64,
}

impl PackedInstr {
    /// What a word tells.
    #[tactic(auto, unfolding(crate::specs::Packed::instr_of))]
    #[inline(always)]
    pub(crate) fn new(word: u64) -> Self
        ensures { instr_of result ≡ instr_at (fields_in word) }
    {
        PackedInstr { word }
    }

    /// Whether it is a plain instruction.
    #[tactic(auto, unfolding(crate::specs::Packed::instr_of))]
    #[inline(always)]
    pub fn is_plain(self) -> bool
        ensures { result ≡ is_plain (instr_of self) }
    {
        Fields::in_word(self.word).operation < 15
    }

    /// Whether it is a service without a status.
    #[tactic(auto, unfolding(crate::specs::Packed::instr_of))]
    #[inline(always)]
    pub fn is_control(self) -> bool
        ensures { result ≡ is_control (instr_of self) }
    {
        let operation = Fields::in_word(self.word).operation;
        32 <= operation && operation < 40
    }

    /// The plain instruction that it is.
    #[tactic(auto, unfolding(crate::specs::Packed::instr_of))]
    #[inline(always)]
    pub fn plain(self) -> Plain
        requires { is_plain (instr_of self) ≡ true }
        ensures { result ≡ plain_of (instr_of self) }
    {
        plain_at(&Fields::in_word(self.word))
    }

    /// The service with a status that it is.
    #[tactic(auto, unfolding(crate::specs::Packed::instr_of))]
    #[inline(always)]
    pub fn service(self) -> Service<Register>
        requires plain { is_plain (instr_of self) ≡ false }
        requires control { is_control (instr_of self) ≡ false }
        ensures { result ≡ service_of (instr_of self) }
    {
        service_at(&Fields::in_word(self.word))
    }

    /// Whether it is a service that makes a job where it is answered E_OK: ActivateTask.
    #[tactic(auto, unfolding(crate::specs::Packed::instr_of))]
    #[inline(always)]
    pub fn makes_job(self) -> bool
        ensures { result ≡ if_service makes_job (instr_of self) }
    {
        Fields::in_word(self.word).operation == 15
    }

    /// Whether it is one that ends a job where it is answered E_OK: TerminateTask.
    #[tactic(auto, unfolding(crate::specs::Packed::instr_of))]
    #[inline(always)]
    pub fn ends_job(self) -> bool
        ensures { result ≡ if_service ends_job (instr_of self) }
    {
        Fields::in_word(self.word).operation == 16
    }

    /// Whether it is one that may release a job, or end one and make another: ChainTask or
    /// SetEvent.
    #[tactic(auto, unfolding(crate::specs::Packed::instr_of))]
    #[inline(always)]
    pub fn needs_look(self) -> bool
        ensures { result ≡ if_service needs_look (instr_of self) }
    {
        let operation = Fields::in_word(self.word).operation;
        operation == 17 || operation == 23
    }

    /// The service without a status that it is.
    #[tactic(auto, unfolding(crate::specs::Packed::instr_of))]
    pub fn control(self) -> Control
        requires { is_control (instr_of self) ≡ true }
        ensures { result ≡ control_of (instr_of self) }
    {
        control_at(&Fields::in_word(self.word))
    }
}
