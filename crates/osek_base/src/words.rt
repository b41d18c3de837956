//! OIL: grammar, names and numbers. Words and numbers at the front of a text.

ghost use Rattle.std.specs.Prelude.{
  ◌≡◌,
  ◌<◌,
  ◌≤◌,
  ◌^◌,
  ℕ,
  IsTrue,
  IfSome,
  IfNone,
  length,
  take,
  slice_index,
};
ghost use Rattle.osek_base.specs.Words.{is_word_byte, digit_of, AreDigits, number_from, IsNumeral, IsRun, IsWordOf, IsNumberOf, IsLine};

use crate::limits::MAX_NAME;

/// Whether a byte may stand in a word: an ASCII letter, a digit or `_`.
pub fn is_word_byte(byte: u8) -> bool
    ensures { result ≡ is_word_byte byte }
{
    byte.is_ascii_alphanumeric() || byte == b'_'
}

/// How many bytes the longest run of letters, digits and `_` at the front has, 0 where none stands there.
fn run_len(bytes: &[u8]) -> usize
    ensures { IsRun bytes.now result }
{
    let mut n = 0;
    while n < bytes.len() && is_word_byte(bytes[n]) {
        n += 1;
    }
    n
}

/// The word at the front: the longest run of letters, digits and `_` there, where it has no more than [`MAX_NAME`] bytes.
pub fn word_at(bytes: &[u8]) -> Option<&str>
    ensures some { IfSome result (λ w. IsWordOf bytes.now w.now) }
    ensures none { IfNone result ((n : ℕ) → IsRun bytes.now n → n ≤ MAX_NAME → ⊥) }
{
    let len = run_len(bytes);
    if len > MAX_NAME {
        return None;
    }
    Some(text_of(&bytes[..len]))
}

/// The text of a run, whose bytes are ASCII.
fn text_of(run: &[u8]) -> &str
    requires { (i : ℕ) → i < length run.now → IsTrue (is_word_byte (slice_index run.now i)) }
    ensures { result.now ≡ run.now }
{
    match std::str::from_utf8(run) {
        Ok(text) => text,
        Err(_) => unreachable!(),
    }
}

/// How many bytes stand before the next line feed; all, where there is none.
pub fn line_len(bytes: &[u8]) -> usize
    ensures { IsLine bytes.now result }
{
    let mut n = 0;
    while n < bytes.len() && bytes[n] != b'\n' {
        n += 1;
    }
    n
}

/// A NUMBER at the front of some bytes.
#[derive(Clone, Copy, PartialEq, Eq)]
pub struct Number {
    /// How many bytes it has.
    pub len: usize,
    pub value: u32,
}

/// The NUMBER at the front: the longest run of letters, digits and `_` there, where that is a numeral.
pub fn number_at(bytes: &[u8]) -> Option<Number>
    ensures some { IfSome result (λ n. IsNumberOf bytes.now n.len n.value) }
    ensures none { IfNone result ((n v : ℕ) → IsNumberOf bytes.now n v → ⊥) }
{
    let len = run_len(bytes);
    let value = numeral(&bytes[..len])?;
    Some(Number { len, value })
}

/// The value of a NUMBER: `0`, or decimal digits without a leading zero, or `0x` or `0X` and at least one hexadecimal
/// digit, of a value below 2^32. None for any other word.
fn numeral(word: &[u8]) -> Option<u32>
    ensures some { IfSome result (λ n. IsNumeral word.now n) }
    ensures none { IfNone result ((n : ℕ) → IsNumeral word.now n → ⊥) }
{
    match word {
        [b'0', b'x' | b'X', ..] => number_of(&word[2..], 16),
        [b'0', _, ..] => None,
        _ => number_of(word, 10),
    }
}

fn digit_of(byte: u8) -> u32
    ensures { result ≡ digit_of byte }
{
    match byte {
        b'0'..=b'9' => (byte - b'0') as u32,
        b'A'..=b'F' => (byte - b'A') as u32 + 10,
        b'a'..=b'f' => (byte - b'a') as u32 + 10,
        _ => 16,
    }
}

/// The number that digits spell, where there are some and it fits.
fn number_of(digits: &[u8], radix: u32) -> Option<u32>
    requires low { 0 < radix }
    requires high { radix ≤ 16 }
    ensures some { IfSome result
        (λ n. AreDigits radix digits.now × (n ≡ number_from radix 0 digits.now)) }
    ensures none { IfNone result
        (AreDigits radix digits.now → 2 ^ 32 ≤ number_from radix 0 digits.now) }
{
    if digits.is_empty() {
        return None;
    }
    let mut number: u32 = 0;
    for byte in digits {
        let digit = digit_of(*byte);
        if digit >= radix {
            return None;
        }
        number = number.checked_mul(radix)?.checked_add(digit)?;
    }
    Some(number)
}
