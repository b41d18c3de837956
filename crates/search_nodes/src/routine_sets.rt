//! OSEK/VDX OS: interrupt processing, category 2. Sets of routines whose interrupts arrive in a
//! tick.

ghost use Rattle.std.specs.Prelude.{ℕ, ◌≡◌, ◌≢◌, ◌<◌, ◌≤◌, ◌==◌, OnOk, length};
ghost use Rattle.std.specs.Int.{bit_at};
ghost use Rattle.std.specs.List.{All, filter};
ghost use Rattle.osek_base.specs.Lists.{below};

use osek_base::{IsrId, MAX_ROUTINES};
use std::alloc::AllocError;

/// Leaves the routines of a set, of so many that there are, in place of others.
pub fn put_routines(set: u64, count: usize, routines: &mut Vec<IsrId>) -> Result<(), AllocError>
    requires { count ≤ MAX_ROUTINES }
    ensures value { OnOk result
        (routines.new.items ≡ filter (λ i. bit_at set i == 1) (below count)) }
    ensures known { OnOk result (All (λ i. i < count) routines.new.items) }
    ensures few { OnOk result (length routines.new.items ≤ MAX_ROUTINES) }
{
    put_each(set, count, routines)
}

/// As [`put_routines`].
fn put_each(set: u64, count: usize, routines: &mut Vec<IsrId>) -> Result<(), AllocError>
    requires { count ≤ MAX_ROUTINES }
    ensures { OnOk result
        (routines.new.items ≡ filter (λ i. bit_at set i == 1) (below count)) }
{
    routines.clear();
    for number in 0..count {
        if (set >> number) % 2 == 1 {
            routines.push(IsrId::new(number as u8))?;
        }
    }
    Ok(())
}

/// What is in both of two sets.
#[inline(always)]
pub fn common(set: u64, other: u64) -> u64
    ensures { (i : ℕ) → bit_at set i ≡ 1 → bit_at other i ≡ 1 → bit_at result i ≡ 1 }
{
    set & other
}

/// What is in a set and not in another one.
#[inline(always)]
pub fn without(set: u64, other: u64) -> u64
    ensures less { (i : ℕ) → bit_at result i ≡ 1 → bit_at set i ≡ 1 }
    ensures others { (i : ℕ) → i < 64 → bit_at set i ≡ 1 → bit_at result i ≢ 1
        → bit_at other i ≡ 1 }
{
    set & !other
}
