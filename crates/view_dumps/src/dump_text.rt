//! Value change dumps: a text is put together here, and written at once: that of a tick, or the
//! declarations.

ghost use Rattle.std.specs.Prelude.{
  ◌≡◌,
  ◌+◌,
  ◌*◌,
  ◌<◌,
  ◌≤◌,
  [],
  ◌∷◌,
  ◌++◌,
  codes,
  length,
  decimal,
};
ghost use Rattle.view_dumps.specs.Codes.{code_of};
ghost use Rattle.view_dumps.specs.Lines.{
  binary,
  event_line,
  line_end,
  number_line,
  string_line,
  time_line,
  vector_line,
  wire_line,
};

use crate::variable::{DIGITS, Variable, digit};
use itoa::Buffer;
use sinks::Block;

/// How many bytes the text of a tick and that of the declarations have room for. A tick has at most
/// 4,243: the time and the marks of the first one, a name of 41 bytes for who executes, three
/// vectors of 13 for each task, two wires and an event of 4 for each routine, a name of 37 for each
/// resource, and an event of 4 for each alarm. The declarations have at most 17,315, of
/// which some are counted a little longer.
pub(crate) const TEXT_SIZE: usize = 24_576;

/// What a text is put together in.
pub(crate) type DumpText = Block<TEXT_SIZE>;

/// Appends a number in decimal. It is called, and not written out where it is used, so that the
/// room for the digits is filled with zeros in a call alone.
#[inline(never)]
fn push_decimal(number: u64, text: &mut DumpText)
    requires { length text.old + 20 ≤ TEXT_SIZE }
    ensures same { text.new ≡ text.old ++ decimal number }
    ensures short { length text.new ≤ length text.old + 20 }
{
    let mut buffer = Buffer::new();
    text.push_bytes(buffer.format(number).as_bytes());
}

/// Appends the time.
pub(crate) fn push_time(tick: u64, text: &mut DumpText)
    requires { length text.old + 22 ≤ TEXT_SIZE }
    ensures same { text.new ≡ text.old ++ time_line tick }
    ensures short { length text.new ≤ length text.old + 22 }
{
    text.push(b'#');
    push_decimal(tick, text);
    text.push(b'\n');
}

/// Ends a line that has what becomes of the variable of that number.
#[inline(always)]
fn end_line(variable: u16, text: &mut DumpText)
    requires small { variable < DIGITS * DIGITS }
    requires room { length text.old + 3 ≤ TEXT_SIZE }
    ensures same { text.new ≡ text.old ++ (code_of variable ++ 10 ∷ []) }
    ensures short { length text.new ≤ length text.old + 3 }
{
    if variable < DIGITS {
        text.push_array(&[digit(variable), b'\n']);
    } else {
        text.push_array(&[
            digit(variable % DIGITS),
            digit(variable / DIGITS - 1),
            b'\n',
        ]);
    }
}

/// The wire or event of that number has the value that is one byte.
#[inline(never)]
fn push_bit_line(variable: u16, byte: u8, text: &mut DumpText)
    requires small { variable < DIGITS * DIGITS }
    requires room { length text.old + 4 ≤ TEXT_SIZE }
    ensures same { text.new ≡ text.old ++ byte ∷ (code_of variable ++ 10 ∷ []) }
    ensures short { length text.new ≤ length text.old + 4 }
{
    text.push(byte);
    end_line(variable, text);
}

/// An event fires.
#[inline(always)]
pub(crate) fn push_event(variable: Variable, text: &mut DumpText)
    requires { length text.old + 4 ≤ TEXT_SIZE }
    ensures same { text.new ≡ text.old ++ event_line variable }
    ensures short { length text.new ≤ length text.old + 4 }
{
    push_bit_line(variable.number(), b'1', text);
}

/// A wire is high or low.
#[inline(always)]
pub(crate) fn push_wire(variable: Variable, is_high: bool, text: &mut DumpText)
    requires { length text.old + 4 ≤ TEXT_SIZE }
    ensures same { text.new ≡ text.old ++ wire_line variable is_high }
    ensures short { length text.new ≤ length text.old + 4 }
{
    push_bit_line(variable.number(), if is_high { b'1' } else { b'0' }, text);
}

/// Appends what stands before the identifier code where a vector has that number.
#[inline(always)]
fn push_value(number: u8, text: &mut DumpText)
    requires { length text.old + 10 ≤ TEXT_SIZE }
    ensures same { text.new ≡ text.old ++ (codes "b" ++ binary number ++ codes " ") }
    ensures short { length text.new ≤ length text.old + 10 }
{
    if number < 8 {
        return push_small(number, text);
    }
    text.push(b'b');
    push_digits(number, text);
    text.push(b' ');
}

/// The vector of a variable's number has that number, in binary without leading zeros.
#[inline(never)]
fn push_number_line(variable: u16, number: u8, text: &mut DumpText)
    requires small { variable < DIGITS * DIGITS }
    requires room { length text.old + 13 ≤ TEXT_SIZE }
    ensures same { text.new
        ≡ text.old
        ++ (codes "b" ++ binary number ++ codes " " ++ (code_of variable ++ 10 ∷ [])) }
    ensures short { length text.new ≤ length text.old + 13 }
{
    push_value(number, text);
    end_line(variable, text);
}

/// The vector of a variable's number is unknown.
#[inline(never)]
fn push_unknown_line(variable: u16, text: &mut DumpText)
    requires small { variable < DIGITS * DIGITS }
    requires room { length text.old + 6 ≤ TEXT_SIZE }
    ensures same { text.new ≡ text.old ++ (codes "bx " ++ (code_of variable ++ 10 ∷ [])) }
    ensures short { length text.new ≤ length text.old + 6 }
{
    text.push_array(b"bx ");
    end_line(variable, text);
}

/// A vector has that number.
#[inline(always)]
pub(crate) fn push_number(variable: Variable, number: u8, text: &mut DumpText)
    requires { length text.old + 13 ≤ TEXT_SIZE }
    ensures same { text.new ≡ text.old ++ number_line variable number }
    ensures short { length text.new ≤ length text.old + 13 }
{
    push_number_line(variable.number(), number, text);
}

/// A vector has that number, or is unknown.
#[inline(always)]
pub(crate) fn push_vector(variable: Variable, number: Option<u8>, text: &mut DumpText)
    requires { length text.old + 13 ≤ TEXT_SIZE }
    ensures same { text.new ≡ text.old ++ vector_line variable number }
    ensures short { length text.new ≤ length text.old + 13 }
{
    match number {
        None => push_unknown_line(variable.number(), text),
        Some(number) => push_number_line(variable.number(), number, text),
    }
}

/// A string variable has that name, which has no space, behind `s` and a mark.
#[inline(always)]
pub(crate) fn push_string<const N: usize>(
    variable: Variable,
    front: &[u8; N],
    name: &str,
    text: &mut DumpText,
)
    requires front { N ≤ 5 }
    requires name { length name.now ≤ 32 }
    requires room { length text.old + 41 ≤ TEXT_SIZE }
    ensures same { text.new
        ≡ text.old ++ (front.now ++ name.now ++ codes " " ++ line_end variable) }
    ensures short { length text.new ≤ length text.old + N + 36 }
{
    text.push_array(front);
    text.push_bytes(name.as_bytes());
    text.push(b' ');
    end_line(variable.number(), text);
}

/// Appends the digits of a number of at most three digits in binary.
#[inline(always)]
fn push_few_digits(number: u8, text: &mut DumpText)
    requires few { number < 8 }
    requires room { length text.old + 3 ≤ TEXT_SIZE }
    ensures same { text.new ≡ text.old ++ binary number }
    ensures short { length text.new ≤ length text.old + 3 }
{
    if number < 2 {
        text.push(b'0' + number);
    } else if number < 4 {
        text.push_array(&[b'1', b'0' + number % 2]);
    } else {
        text.push_array(&[b'1', b'0' + number / 2 % 2, b'0' + number % 2]);
    }
}

/// What stands before the identifier code where a vector has a number of at most three digits, and
/// at the end how many bytes that is.
const SMALL: [[u8; 8]; 8] = [
    [b'b', b'0', b' ', 0, 0, 0, 0, 3],
    [b'b', b'1', b' ', 0, 0, 0, 0, 3],
    [b'b', b'1', b'0', b' ', 0, 0, 0, 4],
    [b'b', b'1', b'1', b' ', 0, 0, 0, 4],
    [b'b', b'1', b'0', b'0', b' ', 0, 0, 5],
    [b'b', b'1', b'0', b'1', b' ', 0, 0, 5],
    [b'b', b'1', b'1', b'0', b' ', 0, 0, 5],
    [b'b', b'1', b'1', b'1', b' ', 0, 0, 5],
];

/// Appends what stands before the identifier code where a vector has a number of at most three
/// digits.
#[inline(always)]
fn push_small(number: u8, text: &mut DumpText)
    requires few { number < 8 }
    requires room { length text.old + 10 ≤ TEXT_SIZE }
    ensures same { text.new ≡ text.old ++ (codes "b" ++ binary number ++ codes " ") }
    ensures short { length text.new ≤ length text.old + 10 }
{
    let front = &SMALL[number as usize];
    text.push_front(front, front[7] as usize);
}

/// Appends the digits of a number of at most five digits in binary.
#[inline(always)]
fn push_more_digits(number: u8, text: &mut DumpText)
    requires few { number < 32 }
    requires room { length text.old + 6 ≤ TEXT_SIZE }
    ensures same { text.new ≡ text.old ++ binary number }
    ensures short { length text.new ≤ length text.old + 6 }
{
    if number < 8 {
        return push_few_digits(number, text);
    }
    push_few_digits(number / 8, text);
    text.push_array(&[
        b'0' + number / 4 % 2,
        b'0' + number / 2 % 2,
        b'0' + number % 2,
    ]);
}

/// Appends the digits of a number in binary.
#[inline(always)]
fn push_digits(number: u8, text: &mut DumpText)
    requires { length text.old + 8 ≤ TEXT_SIZE }
    ensures same { text.new ≡ text.old ++ binary number }
    ensures short { length text.new ≤ length text.old + 8 }
{
    if number < 8 {
        return push_few_digits(number, text);
    }
    push_more_digits(number / 8, text);
    text.push_array(&[
        b'0' + number / 4 % 2,
        b'0' + number / 2 % 2,
        b'0' + number % 2,
    ]);
}
