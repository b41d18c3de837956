//! Numbers and flags as bytes.

ghost use Rattle.std.specs.Prelude.{◌≡◌, ◌<◌, ◌∷◌, ◌++◌, [], OnOk};
ghost use Rattle.search_keys.specs.Bytes.{digits, flag, number, optional};
ghost use Rattle.search_keys.specs.Counts.{count_bytes};
ghost use Rattle.search_keys.specs.Limit.{limit};

use std::alloc::AllocError;

/// Adds a byte.
#[inline(always)]
pub fn push_byte(out: &mut Vec<u8>, byte: u8) -> Result<(), AllocError>
    ensures { OnOk result (out.new.items ≡ out.old.items ++ byte ∷ []) }
{
    out.push(byte)?;
    Ok(())
}

/// Adds a number in base 128, lowest digit first, with at most `more` digits before the last one.
#[tactic(auto, using(crate::proofs::DigitLemmas::digit_laws))]
fn push_digits(out: &mut Vec<u8>, more: u8, n: u64) -> Result<(), AllocError>
    requires { n < limit more }
    ensures { OnOk result (out.new.items ≡ out.old.items ++ digits more n) }
{
    if more == 0 {
        out.push(n as u8)?;
        return Ok(());
    }
    if n < 128 {
        out.push(n as u8)?;
        return Ok(());
    }
    out.push((128 + n % 128) as u8)?;
    push_digits(out, more - 1, n / 128)
}

/// Adds a number of any length.
#[tactic(auto, unfolding(crate::specs::Bytes::number, crate::specs::Limit::limit))]
fn push_long(out: &mut Vec<u8>, n: u32) -> Result<(), AllocError>
    ensures { OnOk result (out.new.items ≡ out.old.items ++ number n) }
{
    push_digits(out, 4, u64::from(n))
}

/// Adds a number: one to five bytes. Most are one.
#[inline(always)]
#[tactic(auto, using(crate::proofs::DigitLemmas::number_last))]
pub fn push_number(out: &mut Vec<u8>, n: u32) -> Result<(), AllocError>
    ensures { OnOk result (out.new.items ≡ out.old.items ++ number n) }
{
    if n < 128 {
        return push_byte(out, n as u8);
    }
    push_long(out, n)
}

/// Adds a count of any size.
#[tactic(auto, unfolding(crate::specs::Counts::count_bytes, crate::specs::Limit::limit))]
fn push_long_count(out: &mut Vec<u8>, count: usize) -> Result<(), AllocError>
    ensures { OnOk result (out.new.items ≡ out.old.items ++ count_bytes count) }
{
    push_digits(out, 8, count as u64)
}

/// Adds a count: one to nine bytes. Most are one.
#[inline(always)]
#[tactic(auto, using(crate::proofs::DigitLemmas::count_last))]
pub fn push_count(out: &mut Vec<u8>, count: usize) -> Result<(), AllocError>
    ensures { OnOk result (out.new.items ≡ out.old.items ++ count_bytes count) }
{
    if count < 128 {
        return push_byte(out, count as u8);
    }
    push_long_count(out, count)
}

/// Adds a flag.
#[inline(always)]
pub fn push_flag(out: &mut Vec<u8>, is_set: bool) -> Result<(), AllocError>
    ensures { OnOk result (out.new.items ≡ out.old.items ++ flag is_set) }
{
    push_byte(out, if is_set { 1 } else { 0 })
}

/// Adds a number, where there is one.
#[tactic(auto, using(crate::proofs::DigitLemmas::joined))]
pub fn push_optional(out: &mut Vec<u8>, n: Option<u32>) -> Result<(), AllocError>
    ensures { OnOk result (out.new.items ≡ out.old.items ++ optional number n) }
{
    match n {
        None => push_byte(out, 0),
        Some(n) => {
            push_byte(out, 1)?;
            push_number(out, n)
        }
    }
}
