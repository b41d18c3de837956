//! Numbers that were written as bytes.

ghost use Rattle.std.specs.Prelude.{◌≡◌, ◌<◌, ◌≤◌, ◌-◌};
ghost use Rattle.search_keys.specs.Limit.{limit};
ghost use Rattle.search_keys.specs.Taken.{taken_count, taken_digits, taken_number};

/// A byte as a number.
#[inline(always)]
fn value_of(byte: u8) -> u64
    ensures value { result ≡ byte }
    ensures low { result < 256 }
{
    u64::from(byte)
}

/// What a byte tells of a number, if others follow it.
#[inline(always)]
fn digit_of(byte: u8) -> u64
    ensures value { result ≡ byte - 128 }
    ensures low { result < 128 }
{
    u64::from(byte.saturating_sub(128))
}

/// The number of at most `more` digits before the last one that stands first, and what follows it.
#[tactic(auto, using(crate::proofs::ReadingLemmas::read_laws))]
fn read_digits(bytes: &[u8], more: u8) -> (u64, &[u8])
    requires { more ≤ 8 }
    ensures number { result.0 ≡ (taken_digits more bytes.now).0 }
    ensures rest { result.1.now ≡ (taken_digits more bytes.now).1 }
    ensures low { result.0 < limit more }
{
    match bytes.split_first() {
        None => (0, bytes),
        Some((byte, rest)) => {
            if more == 0 {
                return (value_of(*byte), rest);
            }
            if *byte < 128 {
                return (value_of(*byte), rest);
            }
            let (higher, behind) = read_digits(rest, more - 1);
            (digit_of(*byte) + 128 * higher, behind)
        }
    }
}

/// A number of any length.
#[inline(never)]
#[tactic(auto, unfolding(crate::specs::Taken::taken_number))]
fn read_long(bytes: &[u8]) -> (u64, &[u8])
    ensures number { result.0 ≡ (taken_number bytes.now).0 }
    ensures rest { result.1.now ≡ (taken_number bytes.now).1 }
{
    read_digits(bytes, 4)
}

/// The number that stands first, and what follows it; 0 where nothing stands.
#[inline(always)]
#[tactic(auto, using(crate::proofs::ReadingLemmas::short_laws))]
pub fn read_number(bytes: &[u8]) -> (u64, &[u8])
    ensures number { result.0 ≡ (taken_number bytes.now).0 }
    ensures rest { result.1.now ≡ (taken_number bytes.now).1 }
{
    if let Some((byte, rest)) = bytes.split_first() {
        if *byte < 128 {
            return (value_of(*byte), rest);
        }
    }
    read_long(bytes)
}

/// A count of any size.
#[inline(never)]
#[tactic(auto, unfolding(crate::specs::Taken::taken_count))]
fn read_long_count(bytes: &[u8]) -> (u64, &[u8])
    ensures count { result.0 ≡ (taken_count bytes.now).0 }
    ensures rest { result.1.now ≡ (taken_count bytes.now).1 }
{
    read_digits(bytes, 8)
}

/// The count that stands first, and what follows it; 0 where nothing stands.
#[inline(always)]
#[tactic(auto, using(crate::proofs::ReadingLemmas::short_laws))]
pub fn read_count(bytes: &[u8]) -> (u64, &[u8])
    ensures count { result.0 ≡ (taken_count bytes.now).0 }
    ensures rest { result.1.now ≡ (taken_count bytes.now).1 }
{
    if let Some((byte, rest)) = bytes.split_first() {
        if *byte < 128 {
            return (value_of(*byte), rest);
        }
    }
    read_long_count(bytes)
}

/// The number that stands first, if there is one, and what follows it. What is read is compared with
/// what was written by who needs to know it.
pub fn read_optional(bytes: &[u8]) -> (Option<u64>, &[u8]) {
    match bytes.split_first() {
        None => (None, bytes),
        Some((0, rest)) => (None, rest),
        Some((_, rest)) => {
            let (number, rest) = read_number(rest);
            (Some(number), rest)
        }
    }
}
