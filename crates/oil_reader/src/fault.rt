//! Why a text is no OIL file.

ghost use Rattle.std.specs.Prelude.{◌≡◌};
ghost use Rattle.oil_reader.specs.Order.{place_of, number_of, earlier};
ghost use Rattle.oil_reader.specs.declared.fault.OilFault.TheVariants.{Memory};

use std::alloc::{AllocError, AllocFailed};
use thiserror::Error;

/// Why a text is no OIL file, with the place of a byte of the text, counted from 0.
///
/// A fault of the tokens comes before a fault of the syntax, and both before the others. Of the others the one at the
/// least place is answered, at one place the one of the lowest number.
#[derive(Clone, Copy, Debug, Drop, Error)]
pub enum OilFault {
    /// No token, white space or comment begins there, or a NAME, NUMBER or comment that breaks its rule.
    #[error("fault 1 at {0}")]
    Token(usize),
    /// The tokens up to and with the one there begin no file; the text's length where all of them are only a beginning.
    #[error("fault 2 at {0}")]
    Syntax(usize),
    /// The name of an attribute that its object or value doesn't have.
    #[error("fault 3 at {0}")]
    UnknownAttribute(usize),
    /// The closing brace or semicolon of what lacks an attribute, a block or an object.
    #[error("fault 4 at {0}")]
    Missing(usize),
    /// The name of an attribute or object that stands a second time.
    #[error("fault 5 at {0}")]
    Twice(usize),
    /// A value that its attribute doesn't take, or a name that no such object may have.
    #[error("fault 6 at {0}")]
    Range(usize),
    /// A growth of the memory was refused.
    #[error("memory")]
    Memory,
}

impl OilFault {
    /// The place of the byte; 0 for want of memory, which has none.
    pub(crate) fn place(self) -> usize
        ensures { result ≡ place_of self }
    {
        match self {
            OilFault::Memory => 0,
            OilFault::Token(place)
            | OilFault::Syntax(place)
            | OilFault::UnknownAttribute(place)
            | OilFault::Missing(place)
            | OilFault::Twice(place)
            | OilFault::Range(place) => place,
        }
    }

    /// Its number, which decides between two at one place.
    pub(crate) fn number(self) -> u8
        ensures { result ≡ number_of self }
    {
        match self {
            OilFault::Memory => 0,
            OilFault::Token(_) => 1,
            OilFault::Syntax(_) => 2,
            OilFault::UnknownAttribute(_) => 3,
            OilFault::Missing(_) => 4,
            OilFault::Twice(_) => 5,
            OilFault::Range(_) => 6,
        }
    }

    /// The earlier of what was found so far and this one.
    pub(crate) fn or_earlier(self, so_far: Option<OilFault>) -> OilFault
        ensures { result ≡ earlier so_far self }
    {
        match so_far {
            Some(found) if found.place() < self.place() => found,
            Some(found) if found.place() == self.place() && found.number() <= self.number() =>
                found,
            _ => self,
        }
    }
}

impl From<AllocError> for OilFault {
    ghost from_gives = { λ _ e. e ≡ Memory };

    fn from(_e: AllocError) -> OilFault {
        OilFault::Memory
    }
}

impl<T: Drop> From<AllocFailed<T>> for OilFault {
    ghost from_gives = { λ _ e. e ≡ Memory };

    fn from(_e: AllocFailed<T>) -> OilFault {
        OilFault::Memory
    }
}
