//! Value change dumps: a number or no value is written where it changes.

ghost use Rattle.std.specs.Prelude.{◌≡◌, None, Some, nat_eq};
ghost use Rattle.view_dumps.specs.Changes.{shown, written};
ghost use Rattle.view_dumps.specs.Kept.{kept};
ghost use Rattle.view_dumps.specs.Ticks.{same_option};

use std::marker::Model;

/// As what no value is kept, and what is kept where nothing was written: no numbers of a byte.
const NO_VALUE: u16 = 256;

const NOTHING: u16 = 257;

/// The value with which a variable was last written, if it was: a number, or no value. Seen as that
/// option. It is kept as one number, so that one comparison tells whether the value changes.
#[derive(Clone, Copy)]
pub struct LastNumber {
    code: u16,
}

impl Model for LastNumber {
    ghost use Rattle.std.specs.Prelude.{ℕ, Option};
    ghost use Rattle.view_dumps.specs.Kept.{code_kept, kept, kept_again};

    ghost Value = { Option (Option ℕ) };

    ghost view = { λ l. kept l.code };

    ghost inverse = { λ value. record { code = code_kept value } };

    ghost inverse_ok = { λ l h i. record { code = kept_again l.code i } };
}

/// Nothing was written yet.
impl Default for LastNumber {
    fn default() -> Self
        ensures { result ≡ None }
    {
        LastNumber { code: NOTHING }
    }
}

/// As what a value is kept.
#[inline(always)]
fn code_of(value: Option<u8>) -> u16
    ensures { kept result ≡ Some value }
{
    match value {
        None => NO_VALUE,
        Some(number) => u16::from(number),
    }
}

impl LastNumber {
    /// The variable has this value now. The answer is what is to be written: nothing, where the
    /// value was written last.
    #[inline(always)]
    pub(crate) fn change_to(&mut self, value: Option<u8>) -> Option<Option<u8>>
        ensures written { result ≡ written (same_option nat_eq) self.old value }
        ensures last { self.new ≡ shown self.old result }
    {
        let code = code_of(value);
        if self.code == code {
            return None;
        }
        self.code = code;
        Some(value)
    }
}
