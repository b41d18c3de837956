//! Ages that go up to a cap.

ghost use Rattle.std.specs.Prelude.{◌≡◌, suc, min};

/// An age a tick later, up to a cap.
#[inline(always)]
pub(crate) fn older(age: u32, cap: u32) -> u32
    ensures { result ≡ min cap (suc age) }
{
    cap.min(age.saturating_add(1))
}
