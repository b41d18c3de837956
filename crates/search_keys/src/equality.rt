//! Bytes are compared, eight at a time.

ghost use Rattle.std.specs.Prelude.{◌≡◌, IsTrue};
ghost use Rattle.std.specs.Int.{to_le_bytes, w64};

/// Eight bytes as a number, which no others have.
#[inline(always)]
fn word_of(bytes: &[u8; 8]) -> u64
    ensures { to_le_bytes w64 result ≡ bytes.now }
{
    u64::from_le_bytes(*bytes)
}

/// Whether bytes are the same.
pub fn are_equal(one: &[u8], other: &[u8]) -> bool
    ensures same { IsTrue result → one.now ≡ other.now }
    ensures others { one.now ≡ other.now → IsTrue result }
{
    match (one.split_first_chunk::<8>(), other.split_first_chunk::<8>()) {
        (Some((first, rest)), Some((word, behind))) => {
            word_of(first) == word_of(word) && are_equal(rest, behind)
        }
        _ => one == other,
    }
}
