//! Value change dumps: a number is written where it changes.

ghost use Rattle.std.specs.Prelude.{◌≡◌, None, nat_eq};
ghost use Rattle.view_dumps.specs.Changes.{shown, written};

use std::marker::Model;

/// What is kept where nothing was written: no number of a byte.
const NOTHING: u16 = 256;

/// The number with which a variable was last written, if it was. Seen as that option. It is kept as
/// one number, so that one comparison tells whether it changes.
#[derive(Clone, Copy)]
pub struct LastByte {
    code: u16,
}

impl Model for LastByte {
    ghost use Rattle.std.specs.Prelude.{ℕ, Option};
    ghost use Rattle.view_dumps.specs.Kept.{byte_again, byte_code, kept_byte};

    ghost Value = { Option ℕ };

    ghost view = { λ l. kept_byte l.code };

    ghost inverse = { λ number. record { code = byte_code number } };

    ghost inverse_ok = { λ l h i. record { code = byte_again l.code i } };
}

/// Nothing was written yet.
impl Default for LastByte {
    fn default() -> Self
        ensures { result ≡ None }
    {
        LastByte { code: NOTHING }
    }
}

impl LastByte {
    /// The variable has this number now. The answer is what is to be written: nothing, where the
    /// number was written last.
    #[inline(always)]
    pub(crate) fn change_to(&mut self, number: u8) -> Option<u8>
        ensures written { result ≡ written nat_eq self.old number }
        ensures last { self.new ≡ shown self.old result }
    {
        let code = u16::from(number);
        if self.code == code {
            return None;
        }
        self.code = code;
        Some(number)
    }
}
