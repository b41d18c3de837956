//! Sets of things as numbers.

ghost use Rattle.std.specs.Prelude.{◌≡◌, ℕ, ◌+◌, ◌*◌, ◌/◌, ◌^◌, ◌<◌, ◌≤◌, IfSome, IfNone};
ghost use Rattle.std.specs.Int.{bit_at};
ghost use Rattle.search.specs.Subsets.{IsSubset, NoSubset};

/// The next subset of a set from a number on, where a set is a number and what it has are the bits
/// that are 1.
pub fn subset_from(whole: u64, from: u64) -> Option<u64>
    ensures from { IfSome result (λ set. from ≤ set) }
    ensures subset { IfSome result (λ set. IsSubset set whole) }
    ensures within { IfSome result (λ set. set ≤ whole) }
    ensures next { IfSome result (NoSubset whole from) }
    ensures none { IfNone result ((set : ℕ) → from ≤ set → ¬ IsSubset set whole) }
{
    if from > whole {
        return None;
    }
    let mut set = from;
    'sets: while let Some(thing) = highest_outside(set, whole) {
        set = behind(set, thing)?;
    }
    Some(set)
}

/// The highest thing of a set that another one hasn't.
fn highest_outside(set: u64, whole: u64) -> Option<u32>
    ensures range { IfSome result (λ thing. thing < 64) }
    ensures inside { IfSome result (λ thing. bit_at set thing ≡ 1) }
    ensures outside { IfSome result (λ thing. bit_at whole thing ≡ 0) }
    ensures none { IfNone result (IsSubset set whole) }
{
    (set & !whole).checked_ilog2()
}

/// The first number behind those that have the same bits as a number from a bit on.
fn behind(number: u64, bit: u32) -> Option<u64>
    requires { bit < 64 }
    ensures some { IfSome result (λ next. next ≡ (number / 2 ^ bit + 1) * 2 ^ bit) }
    ensures none { IfNone result (2 ^ 64 ≤ (number / 2 ^ bit + 1) * 2 ^ bit) }
{
    (number >> bit).checked_add(1)?.checked_mul(1 << bit)
}
