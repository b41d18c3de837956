//! Counts that stop at the greatest number.

ghost use Rattle.std.specs.Prelude.{◌≡◌, ◌+◌, cond};
ghost use Rattle.view_figures.specs.Counts.{capped};

/// A count, some more.
pub fn added(count: u32, more: u32) -> u32
    ensures { result ≡ capped (count + more) }
{
    count.saturating_add(more)
}

/// A count goes up by some where something holds.
#[inline(always)]
pub fn add_where(count: &mut u32, more: u32, holds: bool)
    ensures { count.new ≡ capped (count.old + cond holds more 0) }
{
    let now = *count;
    if holds {
        *count = now.saturating_add(more);
    }
}
