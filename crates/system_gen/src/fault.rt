//! Why the two files make no system.

ghost use Rattle.std.specs.Prelude.{◌≡◌};
ghost use Rattle.system_gen.specs.declared.fault.GenFault.TheVariants.{Memory};

use osek_base::Name;
use std::alloc::{AllocError, AllocFailed};
use thiserror::Error;

/// The kinds of object that are limited in number, in the order in which they are counted.
#[derive(Clone, Copy, Debug, Drop, Error)]
pub enum ObjectKind {
    #[error("APPMODE")]
    AppMode,
    #[error("TASK")]
    Task,
    #[error("ISR")]
    Isr,
    #[error("RESOURCE")]
    Resource,
    #[error("EVENT")]
    Event,
    #[error("COUNTER")]
    Counter,
    #[error("ALARM")]
    Alarm,
}

/// Why the two files make no system, with the name of the subject.
///
/// The lowest number that applies is answered, and of it the first subject: objects in the order of
/// declaration, programs in the order of the file.
#[derive(Debug, Drop, Error)]
pub enum GenFault {
    /// A name that stands for no declared object of the kind that is wanted, or for one that can't
    /// be meant there.
    #[error("fault 1 in {}", .0.as_str())]
    UnknownName(Name),
    /// More objects of a kind than a system may have.
    #[error("fault 2 in {0}")]
    Limit(ObjectKind),
    /// An extended task with ACTIVATION above 1.
    #[error("fault 3 in {}", .0.as_str())]
    ExtendedActivation(Name),
    /// A task that lists two internal resources, or one that has SCHEDULE NON and lists one.
    #[error("fault 4 in {}", .0.as_str())]
    TwoInternal(Name),
    /// A task or routine without a program.
    #[error("fault 5 in {}", .0.as_str())]
    NoProgram(Name),
    /// A program that can be left: it is empty, or its last instruction is neither JMP nor RETI.
    /// Also one with a jump past its end or with more than 1,024 instructions, which no program
    /// text gives.
    #[error("fault 6 in {}", .0.as_str())]
    LastNotJump(Name),
    /// A task's program with RETI.
    #[error("fault 7 in {}", .0.as_str())]
    RetiInTask(Name),
    /// An event with MASK AUTO for which no bit is free.
    #[error("fault 8 in {}", .0.as_str())]
    Mask(Name),
    /// A counter with values that can't be.
    #[error("fault 9 in {}", .0.as_str())]
    Counter(Name),
    /// An alarm with times that its counter doesn't have, or one that sets an event of a basic
    /// task.
    #[error("fault 10 in {}", .0.as_str())]
    Alarm(Name),
    /// A growth of the memory was refused.
    #[error("memory")]
    Memory,
}

impl From<AllocError> for GenFault {
    ghost from_gives = { λ _ e. e ≡ Memory };

    fn from(_e: AllocError) -> GenFault {
        GenFault::Memory
    }
}

impl<T: Drop> From<AllocFailed<T>> for GenFault {
    ghost from_gives = { λ _ e. e ≡ Memory };

    fn from(_e: AllocFailed<T>) -> GenFault {
        GenFault::Memory
    }
}
