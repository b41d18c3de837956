//! OSEK/VDX OS: interrupt processing. The routines that may arrive.

ghost use Rattle.std.specs.Prelude.{ℕ, ◌≡◌, ◌≢◌, ◌<◌, ◌≤◌, ◌^◌};
ghost use Rattle.std.specs.Int.{bit_at};
ghost use Rattle.arrival_rules.specs.Debts.{IsFree};
ghost use Rattle.search_labels.specs.Labels.{debt_of};
ghost use Rattle.search_packed.specs.Unpacked.{taken_debt, unpacked};

use arrival_rules::ArrivalRule;
use search_keys::{read_count, read_number};

/// A debt, where one is told, and what follows it; 0 where none is.
fn next_debt(bytes: &[u8], is_told: bool) -> (u64, &[u8])
    ensures debt { result.0 ≡ (taken_debt is_told bytes.now).0 }
    ensures rest { result.1.now ≡ (taken_debt is_told bytes.now).1 }
{
    if is_told {
        read_number(bytes)
    } else {
        (0, bytes)
    }
}

/// So many routines, as a set.
#[inline(always)]
fn first_routines(count: usize) -> u64
    requires { count ≤ 64 }
    ensures all { (i : ℕ) → i < count → bit_at result i ≡ 1 }
    ensures low { result < 2 ^ count }
{
    let mut all = 0;
    for routine in 0..count {
        all |= 1 << routine;
    }
    all
}

/// A set without a routine.
#[inline(always)]
fn without(set: u64, routine: usize) -> u64
    ensures less { (i : ℕ) → bit_at result i ≡ 1 → bit_at set i ≡ 1 }
    ensures away { (i : ℕ) → bit_at result i ≡ 1 → i ≢ routine }
    ensures others { (i : ℕ) → i ≢ routine → bit_at set i ≡ 1 → bit_at result i ≡ 1 }
    ensures low { result ≤ set }
{
    if routine >= 64 {
        return set;
    }
    set & !(1 << routine)
}

/// The routines that are free by rules and by the labels that bytes tell, of so many that there
/// are, as a set: bit i is set where routine i is in it.
pub fn free_routines(bytes: &[u8], rules: &[ArrivalRule], count: usize) -> u64
    requires { count ≤ 64 }
    ensures free { (i : ℕ) → bit_at result i ≡ 1
        → IsFree rules.now (debt_of (unpacked bytes.now)) i }
    ensures others { (i : ℕ) → i < count → IsFree rules.now (debt_of (unpacked bytes.now)) i
        → bit_at result i ≡ 1 }
    ensures low { result < 2 ^ count }
{
    let (told, debts) = read_count(bytes);
    let mut rest = debts;
    let mut free = first_routines(count);
    for (number, rule) in rules.iter().enumerate() {
        let (debt, behind) = next_debt(rest, (number as u64) < told);
        if debt >= u64::from(rule.slack) {
            free = without(free, usize::from(rule.routine.number()));
        }
        rest = behind;
    }
    free
}
