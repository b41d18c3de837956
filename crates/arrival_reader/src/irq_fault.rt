//! Why a text is no arrival list.

ghost use Rattle.std.specs.Prelude.{◌≡◌};

use std::alloc::AllocError;
use thiserror::Error;

/// Why a text is no arrival list: the first faulty line, counted from 1, with its lowest fault.
#[derive(Debug, Drop, Error)]
pub enum IrqFault {
    /// The line isn't a tick, one space and a name.
    #[error("fault 1 at line {0}")]
    Syntax(usize),
    /// No routine has the name.
    #[error("fault 2 at line {0}")]
    UnknownIsr(usize),
    /// The tick is below that of the line before.
    #[error("fault 3 at line {0}")]
    Order(usize),
    /// The line is one too many: at most 65,536 are allowed.
    #[error("fault 4 at line {0}")]
    TooMany(usize),
    /// The tick is above 999,999.
    #[error("fault 5 at line {0}")]
    TickRange(usize),
    #[error("memory")]
    Memory,
}

impl From<AllocError> for IrqFault {
    ghost use Rattle.arrival_reader.specs.declared.irq_fault.IrqFault.TheVariants.{Memory};

    ghost from_gives = { λ _ fault. fault ≡ Memory };

    fn from(_error: AllocError) -> IrqFault {
        IrqFault::Memory
    }
}
