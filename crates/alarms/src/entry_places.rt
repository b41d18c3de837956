//! The places of the running alarms of one counter: an entry is taken out, or put in.

ghost use Rattle.std.specs.Prelude.{◌≡◌, ◌<◌, ◌≤◌, ◌-◌, ◌^◌, length, slice_index_or};
ghost use Rattle.std.specs.List.{insert, remove};
ghost use Rattle.alarms.specs.Waits.{cut_at, grown_at, not_waiting, span};

use crate::difference_list::Waiting;
use arrayvec::ArrayVec;
use osek_base::MAX_ALARMS;

/// Takes an entry out, whose difference the entry before it gets.
pub fn take_out(entries: &mut ArrayVec<Waiting, MAX_ALARMS>, place: usize)
    requires place { place < length entries.old.items }
    requires low { span entries.old.items < 2 ^ 32 }
    ensures { entries.new.items ≡ remove (grown_at entries.old.items place) place }
{
    let difference = entries[place].difference;
    if place > 0 {
        let before = &mut entries[place - 1];
        before.difference += difference;
    }
    entries.remove(place);
}

/// Puts an entry at a place, whose wait the entry before it no longer has to count.
#[inline(always)]
pub fn put_in(entries: &mut ArrayVec<Waiting, MAX_ALARMS>, place: usize, entry: Waiting)
    requires place { place ≤ length entries.old.items }
    requires room { length entries.old.items < MAX_ALARMS }
    requires low { 0 < place
        → entry.difference ≤ (slice_index_or entries.old.items (place - 1) not_waiting).difference }
    ensures { entries.new.items
        ≡ insert (cut_at entries.old.items place entry.difference) place entry }
{
    if place > 0 {
        let before = &mut entries[place - 1];
        before.difference -= entry.difference;
    }
    if place == entries.len() {
        entries.push(entry);
    } else {
        entries.insert(place, entry);
    }
}
