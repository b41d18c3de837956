//! Why a program text could not be read.

ghost use Rattle.std.specs.Prelude.{◌≡◌};
ghost use Rattle.task_asm.specs.declared.fault.AsmFault.TheVariants.{Memory};

use std::alloc::{AllocError, AllocFailed};
use thiserror::Error;

/// The first fault of a program text, with the place of its byte, counted from 0. Token faults go
/// before all others; of the others the one at the least place is meant, and at one place the one
/// that stands first here.
#[derive(Debug, Drop, Error)]
pub enum AsmFault {
    /// No token, white space or comment begins there, or a name or a number breaks its rule.
    #[error("fault 1 at {0}")]
    Token(usize),
    /// A token where a label, a directive or a mnemonic is wanted that is none of them, or a label
    /// or a mnemonic before the first directive.
    #[error("fault 2 at {0}")]
    UnknownMnemonic(usize),
    /// A mnemonic or a directive whose line doesn't go on with just its operands.
    #[error("fault 3 at {0}")]
    Operand(usize),
    /// A label operand that its program doesn't define, or a label that no instruction of its
    /// program follows.
    #[error("fault 4 at {0}")]
    UnknownLabel(usize),
    /// The second definition of a label in a program, or the name of a second program of one kind
    /// and name.
    #[error("fault 5 at {0}")]
    Twice(usize),
    /// The mnemonic of instruction 1,025 of a program.
    #[error("fault 6 at {0}")]
    TooLong(usize),
    /// Memory was refused.
    #[error("memory")]
    Memory,
}

impl From<AllocError> for AsmFault {
    ghost from_gives = { λ _ e. e ≡ Memory };

    fn from(_e: AllocError) -> AsmFault {
        AsmFault::Memory
    }
}

impl<T: Drop> From<AllocFailed<T>> for AsmFault {
    ghost from_gives = { λ _ e. e ≡ Memory };

    fn from(_e: AllocFailed<T>) -> AsmFault {
        AsmFault::Memory
    }
}
