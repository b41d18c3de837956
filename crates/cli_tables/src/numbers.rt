//! Numbers in decimal.

ghost use Rattle.std.specs.Prelude.{◌≡◌, ◌++◌, OnOk, decimal};
ghost use Rattle.std.specs.String.{string_bytes};
ghost use Rattle.cli_tables.specs.Texts.{sign_of};

use itoa::Buffer;
use std::alloc::AllocError;

/// Appends a number.
pub fn push_number(text: &mut String, number: u32) -> Result<(), AllocError>
    ensures { OnOk result
        (string_bytes text.new ≡ string_bytes text.old ++ decimal number) }
{
    let mut buffer = Buffer::new();
    text.push_str(buffer.format(number))
}

/// The sign of a number that no run is known to show.
pub(crate) fn sign_of(is_reached: bool) -> &'static str
    ensures { result.now ≡ sign_of is_reached }
{
    if is_reached { "" } else { "<=" }
}

/// Appends a number, behind `<=` where no run is known to show it.
pub fn push_signed(text: &mut String, is_reached: bool, number: u32) -> Result<(), AllocError>
    ensures { OnOk result
        (string_bytes text.new ≡ string_bytes text.old ++ sign_of is_reached ++ decimal number) }
{
    text.push_str(sign_of(is_reached))?;
    push_number(text, number)
}
