//! OSEK/VDX OS: error handling. Services that were answered other than E_OK.

ghost use Rattle.std.specs.Prelude.{◌≡◌, Contains, IfOk, IfSome, IsFalse, IsTrue};
ghost use Rattle.seen_ticks.specs.declared.failures.Failure.{Failure};

use seen_ticks::Failure;
use std::alloc::AllocError;

/// Whether one is among some; at true it is.
fn is_among(failures: &[Failure], failure: &Failure) -> bool
    ensures { IsTrue result → Contains failures.now failure.now }
{
    for number in 0..failures.len() {
        if failures[number] == *failure {
            return true;
        }
    }
    false
}

/// Notes one, if there is one, and answers whether it is new.
pub(crate) fn note_failure(
    failures: &mut Vec<Failure>,
    failure: &Option<Failure>,
) -> Result<bool, AllocError>
    ensures noted { IfOk result
        (λ _. IfSome failure.now (λ x. Contains failures.new.items x)) }
    ensures rises { (x : Failure) → Contains failures.old.items x → Contains failures.new.items x }
    ensures stays { IfOk result
        (λ is_new. IsFalse is_new → failures.new.items ≡ failures.old.items) }
{
    match failure {
        Some(failure) if !is_among(failures, failure) => {
            failures.push(*failure)?;
            Ok(true)
        }
        _ => Ok(false),
    }
}
