//! The running alarm of a counter that has no other.

ghost use Rattle.std.specs.Prelude.{◌≡◌, ◌<◌, ◌^◌, length, slice_index_or, slice_set, true};
ghost use Rattle.alarms.specs.Waits.{not_waiting, recounted};

use crate::difference_list::Waiting;
use arrayvec::ArrayVec;
use osek_base::MAX_ALARMS;

/// Whether there is one entry alone, whose wait is over and which has a cycle.
#[inline(always)]
pub fn is_over_alone(entries: &ArrayVec<Waiting, MAX_ALARMS>) -> bool
    ensures one { result ≡ true → length entries.now.items ≡ 1 }
    ensures over { result ≡ true
        → (slice_index_or entries.now.items 0 not_waiting).difference ≡ 0 }
    ensures cyclic { result ≡ true → 0 < (slice_index_or entries.now.items 0 not_waiting).cycle }
{
    if entries.len() != 1 {
        return false;
    }
    let only = entries[0];
    only.difference == 0 && only.cycle != 0
}

/// The wait of the first entry starts again, with so many counts.
#[inline(always)]
pub fn recount(entries: &mut ArrayVec<Waiting, MAX_ALARMS>, counts: u32)
    requires { 0 < length entries.old.items }
    ensures low { counts < 2 ^ 32 }
    ensures items { entries.new.items ≡ slice_set entries.old.items 0
        (recounted (slice_index_or entries.old.items 0 not_waiting) counts) }
{
    let first = &mut entries[0];
    first.difference = counts;
}
