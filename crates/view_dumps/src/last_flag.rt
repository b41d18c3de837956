//! Value change dumps: whether something holds is written where it changes.

ghost use Rattle.std.specs.Prelude.{◌≡◌, None};
ghost use Rattle.view_dumps.specs.Changes.{shown, written};
ghost use Rattle.view_dumps.specs.States.{flag_code};
ghost use Rattle.view_dumps.specs.Ticks.{same_flag};

use std::marker::Model;

/// A wire's value, or that nothing was written.
#[derive(Clone, Copy, PartialEq, Eq)]
pub enum FlagCode {
    Low,
    High,
    Nothing,
}

/// What a wire was last written with, if it was. Seen as that option. It is kept as one of three,
/// so that one comparison tells whether it changes.
#[derive(Clone, Copy)]
pub struct LastFlag {
    code: FlagCode,
}

impl Model for LastFlag {
    ghost use Rattle.std.specs.Prelude.{Bool, Option};
    ghost use Rattle.view_dumps.specs.States.{flag_again, flag_kept, kept_flag};

    ghost Value = { Option Bool };

    ghost view = { λ l. kept_flag l.code };

    ghost inverse = { λ flag. record { code = flag_kept flag } };

    ghost inverse_ok = { λ l h i. record { code = flag_again l.code i } };
}

/// Nothing was written yet.
impl Default for LastFlag {
    fn default() -> Self
        ensures { result ≡ None }
    {
        LastFlag {
            code: FlagCode::Nothing,
        }
    }
}

/// As what a wire's value is kept.
#[inline(always)]
fn code_of(is_high: bool) -> FlagCode
    ensures { result ≡ flag_code is_high }
{
    if is_high {
        FlagCode::High
    } else {
        FlagCode::Low
    }
}

impl LastFlag {
    /// The wire has this value now. The answer is what is to be written: nothing, where the value
    /// was written last.
    #[inline(always)]
    pub(crate) fn change_to(&mut self, is_high: bool) -> Option<bool>
        ensures written { result ≡ written same_flag self.old is_high }
        ensures last { self.new ≡ shown self.old result }
    {
        let code = code_of(is_high);
        if self.code == code {
            return None;
        }
        self.code = code;
        Some(is_high)
    }
}
