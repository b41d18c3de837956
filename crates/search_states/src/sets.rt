//! Sets of numbers below 64: bit n is set where n is in it.

ghost use Rattle.std.specs.Prelude.{ℕ, ◌≡◌, ◌≢◌, ◌<◌, ◌≤◌, false};
ghost use Rattle.search_needs.specs.Table.{has};
ghost use Rattle.search_states.specs.Sets.{IsLowest, IsLowestBelow};

/// The lowest number of a set that isn't below `from`, if there is one.
#[inline(always)]
pub fn next_in(set: u64, from: u32) -> Option<u32>
    ensures { IsLowest set from result }
{
    if from >= 64 {
        return None;
    }
    let left = set >> from;
    if left == 0 {
        return None;
    }
    Some(from + left.trailing_zeros())
}

/// The lowest number of a set that isn't below `from` and is below a limit, if there is one.
#[inline(always)]
pub fn next_below(set: u64, from: u32, limit: u32) -> Option<u32>
    requires { limit ≤ 64 }
    ensures { IsLowestBelow set from limit result }
{
    match next_in(set, from) {
        Some(number) if number < limit => Some(number),
        _ => None,
    }
}

/// A set with a number more, if that is below 64.
#[inline(always)]
pub fn with_number(set: u64, number: u8) -> u64
    ensures stays { (i : ℕ) → has result i ≡ false → has set i ≡ false }
    ensures others { (i : ℕ) → i < 64 → has result i ≡ false → number ≢ i }
{
    if number < 64 { set | 1 << number } else { set }
}
