//! A line of an arrival list: a tick, one space and a routine's name.

ghost use Rattle.std.specs.Prelude.{◌≡◌, ◌+◌, true, ◌<◌, ◌≤◌, ℕ, List, IsTrue, IfOk, IfErr, IfSome, IfNone, length, min, take, slice_index};
ghost use Rattle.std.specs.List.{list_all};
ghost use Rattle.osek_base.specs.Names.{number_of};
ghost use Rattle.osek_base.specs.Words.{is_digit, is_letter, is_word_byte, number_from};
ghost use Rattle.arrival_reader.specs.ArrivalText.{
  lacks,
  has_no_leading_zero,
  is_decimal,
  begins_with_letter,
  is_name,
  IsLineOf,
  IsRead,
  LineFault,
};

use crate::irq_fault::IrqFault;
use osek_base::words::is_word_byte;
use osek_base::{Arrival, IsrId, MAX_ARRIVALS, MAX_ROUTINES, MAX_TICKS, Name, Names};

fn is_digit(byte: u8) -> bool
    ensures { result ≡ is_digit byte }
{
    48 <= byte && byte <= 57
}

fn is_letter(byte: u8) -> bool
    ensures { result ≡ is_letter byte }
{
    (65 <= byte && byte <= 90) || (97 <= byte && byte <= 122) || byte == 95
}

fn are_digits(bytes: &[u8]) -> bool
    ensures { result ≡ list_all is_digit bytes.now }
{
    bytes.iter().all(|byte| is_digit(*byte))
}

fn are_word_bytes(bytes: &[u8]) -> bool
    ensures { result ≡ list_all is_word_byte bytes.now }
{
    bytes.iter().all(|byte| is_word_byte(*byte))
}

fn has_no_leading_zero(digits: &[u8]) -> bool
    ensures { result ≡ has_no_leading_zero digits.now }
{
    match digits {
        [] => false,
        [_] => true,
        [first, ..] => *first != b'0',
    }
}

fn is_decimal(digits: &[u8]) -> bool
    ensures { result ≡ is_decimal digits.now }
{
    are_digits(digits) && has_no_leading_zero(digits)
}

fn begins_with_letter(bytes: &[u8]) -> bool
    ensures { result ≡ begins_with_letter bytes.now }
{
    match bytes {
        [] => false,
        [first, ..] => is_letter(*first),
    }
}

pub(crate) fn is_name(bytes: &[u8]) -> bool
    ensures { result ≡ is_name bytes.now }
{
    begins_with_letter(bytes) && are_word_bytes(bytes) && bytes.len() <= 32
}

/// The number that digits spell, as far as it is no greater than `MAX_TICKS`.
fn tick_of(digits: &[u8]) -> u32
    requires { IsTrue (list_all is_digit digits.now) }
    ensures { result ≡ min (number_from 10 0 digits.now) MAX_TICKS }
{
    let mut tick = 0;
    'digits: for digit in digits {
        tick = (tick * 10 + (*digit - b'0') as u32).min(MAX_TICKS);
    }
    tick
}

/// The place of the first such byte.
pub(crate) fn place_of(byte: u8, text: &[u8]) -> Option<usize>
    ensures within { IfSome result (λ i. i < length text.now) }
    ensures there { IfSome result (λ i. slice_index text.now i ≡ byte) }
    ensures first { IfSome result (λ i. lacks byte (take i text.now) ≡ true) }
    ensures none { IfNone result (lacks byte text.now ≡ true) }
{
    'bytes: for (i, other) in text.iter().enumerate() {
        if *other == byte {
            return Some(i);
        }
    }
    None
}

/// The tick, cut at `MAX_TICKS`, and the name of a line of the right form.
fn parts_of(line: &[u8]) -> Option<(u32, &[u8])>
    ensures some { IfSome result
        (λ p. (tick : ℕ) × IsLineOf line.now tick p.1.now × (p.0 ≡ min tick MAX_TICKS)) }
    ensures none { IfNone result ((tick : ℕ) (name : List ℕ) → IsLineOf line.now tick name → ⊥) }
{
    let space = place_of(b' ', line)?;
    let digits = &line[..space];
    let name = &line[space + 1..];
    if is_decimal(digits) && is_name(name) {
        Some((tick_of(digits), name))
    } else {
        None
    }
}

/// The routine of that name.
fn routine_of(text: &[u8], names: &[Name]) -> Option<IsrId>
    requires { length names.now ≤ MAX_ROUTINES }
    ensures { result ≡ number_of text.now names.now }
{
    match number_of(text, names) {
        None => None,
        Some(number) => Some(IsrId::new(number as u8)),
    }
}

fn number_of(text: &[u8], names: &[Name]) -> Option<usize>
    ensures value { result ≡ number_of text.now names.now }
    ensures bound { IfSome result (λ n. n < length names.now) }
{
    match names.split_first() {
        None => None,
        Some((name, rest)) => {
            if name.as_str().as_bytes() == text {
                Some(0)
            } else {
                match number_of(text, rest) {
                    None => None,
                    Some(number) => Some(number + 1),
                }
            }
        }
    }
}

/// The arrival that a line says, or its lowest fault; `before` is the tick of the line before it.
pub(crate) fn read_line(
    names: &Names,
    number: usize,
    before: u32,
    line: &[u8],
) -> Result<Arrival, IrqFault>
    requires few { length names.now.routines ≤ MAX_ROUTINES }
    requires small { before < MAX_TICKS }
    ensures read { IfOk result (IsRead names.now number before line.now) }
    ensures fault { IfErr result (LineFault names.now number before line.now) }
{
    let Some((tick, name)) = parts_of(line) else {
        return Err(IrqFault::Syntax(number));
    };
    let Some(routine) = routine_of(name, names.routines.as_slice()) else {
        return Err(IrqFault::UnknownIsr(number));
    };
    if tick < before {
        return Err(IrqFault::Order(number));
    }
    if number > MAX_ARRIVALS {
        return Err(IrqFault::TooMany(number));
    }
    if tick >= MAX_TICKS {
        return Err(IrqFault::TickRange(number));
    }
    Ok(Arrival { tick, routine })
}
