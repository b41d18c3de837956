//! Numbers in a block. Most have one digit, and most others up to four, which are appended as one
//! array.

ghost use Rattle.std.specs.Prelude.{◌≡◌, ◌+◌, ◌<◌, ◌≤◌, ◌++◌, length, decimal};

use crate::block::{BLOCK_SIZE, Block};
use crate::line::push_digits;

/// The digit of a number below 10.
#[inline(always)]
fn digit(number: u32) -> u8
    requires { number < 10 }
    ensures { result ≡ 48 + number }
{
    b'0' + number as u8
}

/// Appends a number.
#[inline(always)]
pub(crate) fn push_block_number(text: &mut Block, number: u32)
    requires { length text.old + 10 ≤ BLOCK_SIZE }
    ensures same { text.new ≡ text.old ++ decimal number }
    ensures short { length text.new ≤ length text.old + 10 }
{
    if number < 10 {
        text.push_array(&[digit(number)]);
    } else {
        push_block_digits(text, number);
    }
}

/// Appends a number of two digits or more.
#[inline(never)]
pub(crate) fn push_block_digits(text: &mut Block, number: u32)
    requires room { length text.old + 10 ≤ BLOCK_SIZE }
    requires more { 10 ≤ number }
    ensures same { text.new ≡ text.old ++ decimal number }
    ensures short { length text.new ≤ length text.old + 10 }
{
    let last = digit(number % 10);
    let tens = number / 10;
    if number < 100 {
        text.push_array(&[digit(tens), last]);
    } else if number < 1_000 {
        text.push_array(&[digit(tens / 10), digit(tens % 10), last]);
    } else if number < 10_000 {
        let hundreds = tens / 10;
        text.push_array(&[
            digit(hundreds / 10),
            digit(hundreds % 10),
            digit(tens % 10),
            last,
        ]);
    } else {
        push_digits(text, number);
    }
}
