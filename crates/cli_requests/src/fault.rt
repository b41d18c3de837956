//! What may be wrong with a line that clap takes.

use clap::error::ErrorKind;
use std::alloc::{AllocError, AllocFailed};

/// Why a line that clap takes asks for nothing.
#[derive(Clone, Copy)]
pub(crate) enum Fault {
    /// The line is refused, for what the text says.
    Refused(ErrorKind, &'static str),
    /// Memory was refused.
    Memory,
}

impl From<AllocError> for Fault {
    ghost use Rattle.cli_requests.specs.declared.fault.Fault.TheVariants.{Memory};
    ghost use Rattle.std.specs.Prelude.{◌≡◌};

    ghost from_gives = { λ _ fault. fault ≡ Memory };

    fn from(_error: AllocError) -> Fault {
        Fault::Memory
    }
}

impl<T: Drop> From<AllocFailed<T>> for Fault {
    ghost use Rattle.cli_requests.specs.declared.fault.Fault.TheVariants.{Memory};
    ghost use Rattle.std.specs.Prelude.{◌≡◌};

    ghost from_gives = { λ _ fault. fault ≡ Memory };

    fn from(_error: AllocFailed<T>) -> Fault {
        Fault::Memory
    }
}
