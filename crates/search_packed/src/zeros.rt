//! Zeros at the end of bytes, which tell nothing.

ghost use Rattle.std.specs.Prelude.{◌≡◌, ◌≤◌, ◌++◌, IsTrue, [], drop, length, take};
ghost use Rattle.std.specs.List.{flat_map};
ghost use Rattle.search_keys.specs.Bytes.{number, optional};
ghost use Rattle.search_packed.specs.Packed.{bare, hold_bytes};

use search_labels::Hold;

/// Whether all numbers are 0.
#[inline(always)]
#[tactic(auto, using(crate::proofs::ZeroLemmas::no_bytes))]
pub(crate) fn are_zero(numbers: &[u32]) -> bool
    ensures { IsTrue result → bare (flat_map number numbers.now) ≡ [] }
{
    for n in numbers {
        if *n > 0 {
            return false;
        }
    }
    true
}

/// Whether there is no number.
#[inline(always)]
#[tactic(auto, using(crate::proofs::ZeroLemmas::none_zero))]
fn is_none(n: Option<u32>) -> bool
    ensures { IsTrue result → bare (optional number n) ≡ [] }
{
    match n {
        Some(_) => false,
        None => true,
    }
}

/// Whether there are no numbers.
#[inline(always)]
#[tactic(auto, using(crate::proofs::ZeroLemmas::no_bytes))]
pub(crate) fn are_none(numbers: &[Option<u32>]) -> bool
    ensures { IsTrue result → bare (flat_map (optional number) numbers.now) ≡ [] }
{
    for n in numbers {
        if !is_none(*n) {
            return false;
        }
    }
    true
}

/// Whether nobody holds a resource, nor has held it.
#[inline(always)]
#[tactic(auto, using(crate::proofs::ZeroLemmas::free_zero))]
fn is_free(hold: Hold) -> bool
    ensures { IsTrue result → bare (hold_bytes hold) ≡ [] }
{
    if hold.held() > 0 {
        return false;
    }
    match hold.holder() {
        Some(_) => false,
        None => true,
    }
}

/// Whether nobody holds any resource.
#[inline(always)]
#[tactic(auto, using(crate::proofs::ZeroLemmas::no_bytes))]
pub(crate) fn are_free(holds: &[Hold]) -> bool
    ensures { IsTrue result → bare (flat_map hold_bytes holds.now) ≡ [] }
{
    for hold in holds {
        if !is_free(*hold) {
            return false;
        }
    }
    true
}

/// How many bytes there are without the zeros at the end.
#[tactic(auto, using(crate::proofs::BareLemmas::bare_laws))]
fn bare_length(bytes: &[u8]) -> usize
    ensures bare { take result bytes.now ≡ bare bytes.now }
    ensures within { result ≤ length bytes.now }
{
    let mut end = bytes.len();
    while end > 0 {
        if bytes[end - 1] > 0 {
            return end;
        }
        end -= 1;
    }
    0
}

/// Takes the zeros off that stand at the end, from a place on.
#[tactic(auto, using(crate::proofs::BareLemmas::zeros_dropped))]
pub(crate) fn drop_zeros(out: &mut Vec<u8>, begin: usize)
    requires { begin ≤ length out.old.items }
    ensures { out.new.items ≡ take begin out.old.items ++ bare (drop begin out.old.items) }
{
    let added = bare_length(&out[begin..]);
    out.truncate(begin + added);
}
