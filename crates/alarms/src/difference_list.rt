//! The running alarms of one counter.

ghost use Rattle.std.specs.Prelude.{◌≡◌, ◌==◌, ◌<◌, ◌≤◌, ◌^◌, ◌+◌, ◌-◌, [], ◌∷◌, ◌++◌, ◌||◌, ℕ, length, map, is_some, drop, take, Option, Some, None, IfSome, IfNone, MatchOption, slice_index_or, true, false};
ghost use Rattle.std.specs.List.{list_all, remove, list_any};
ghost use Rattle.alarms.specs.Waits.{span, inserted, without, wait_of, left_in, cycle_in, Wait, waits, wait_before, is_sooner, not_waiting, cut_at, is_of, are_ahead, are_beyond, less_by, IsSoonest, are_apart, overs, is_over, again, is_raised, restarted, IsAgainAlone};

use crate::due_alarms::DueAlarms;
use crate::entry_places::{put_in, take_out};
use crate::lone_alarm::{is_over_alone, recount};
use crate::replacing::replace;
use arrayvec::ArrayVec;
use osek_base::{AlarmId, MAX_ALARMS};
use std::marker::Model;

/// A running alarm: how many counts it expires after the next one of the list, and its cycle in counts, 0 for once.
#[derive(Clone, Copy, Default)]
pub struct Waiting {
    pub alarm: AlarmId,
    pub difference: u32,
    pub cycle: u32,
}

/// An alarm whose wait is over, with its cycle.
#[derive(Clone, Copy)]
pub struct Due {
    pub alarm: AlarmId,
    pub cycle: u32,
}

/// The running alarms of one counter, the one that expires first at the end. Contracts see what is left of each wait.
#[derive(Drop)]
pub struct DifferenceList {
    entries: ArrayVec<Waiting, MAX_ALARMS>,
}

impl Model for DifferenceList {
    ghost use Rattle.std.specs.Prelude.{List, ◌<◌, ◌^◌};
    ghost use Rattle.alarms.specs.Waits.{Wait, waits, span};

    ghost Value = { List Wait };

    ghost view = { λ a. waits a.entries.items };

    ghost invariant = { λ a. span a.entries.items < 2 ^ 32 };
}

impl DifferenceList {
    /// No alarm is running.
    pub fn new() -> Self
        ensures { result ≡ [] }
    {
        DifferenceList {
            entries: ArrayVec::new(),
        }
    }

    /// The same alarms once more.
    pub fn copied(&self) -> Self
        ensures { result ≡ self.now }
    {
        let mut entries = ArrayVec::new();
        replace(&mut entries, self.entries.as_slice());
        DifferenceList { entries }
    }

    /// The alarms become those of another list.
    pub fn copy_from(&mut self, other: &DifferenceList)
        ensures { self.new ≡ other.now }
    {
        replace(&mut self.entries, other.entries.as_slice());
    }

    /// How many alarms are running.
    pub fn len(&self) -> usize
        ensures value { result ≡ length self.now }
        ensures low { result ≤ MAX_ALARMS }
    {
        self.entries.len()
    }

    /// An alarm starts, to expire in `wait` counts.
    #[inline(always)]
    pub fn insert(&mut self, alarm: AlarmId, wait: u32, cycle: u32)
        requires { length self.old < MAX_ALARMS }
        ensures { self.new
            ≡ inserted (record { alarm = alarm; left = wait; cycle = cycle }) self.old }
    {
        let (place, left) = place_for(&self.entries, alarm, wait);
        let entry = Waiting {
            alarm,
            difference: left,
            cycle,
        };
        put_in(&mut self.entries, place, entry);
    }

    /// An alarm is taken out; where it isn't in the list, nothing changes.
    pub fn cancel(&mut self, alarm: AlarmId)
        ensures { self.new ≡ without alarm self.old }
    {
        let place = place_of(&self.entries, alarm);
        if place < self.entries.len() {
            take_out(&mut self.entries, place);
        }
    }

    /// How many counts an alarm has before it expires; None where it isn't in the list.
    pub fn remaining(&self, alarm: AlarmId) -> Option<u32>
        ensures { result ≡ left_in (wait_of alarm self.now) }
    {
        let place = place_of(&self.entries, alarm);
        if place < self.entries.len() {
            Some(span_from(&self.entries, place))
        } else {
            None
        }
    }

    /// The cycle of an alarm, 0 for once; None where it isn't in the list.
    pub fn cycle(&self, alarm: AlarmId) -> Option<u32>
        ensures { result ≡ cycle_in (wait_of alarm self.now) }
    {
        let place = place_of(&self.entries, alarm);
        if place < self.entries.len() {
            Some(cycle_at(&self.entries, place))
        } else {
            None
        }
    }

    /// Some counts pass, before the last of which no wait is over. Answers whether one is over then.
    #[inline(always)]
    fn count_down(&mut self, counts: u32) -> bool
        requires some { 0 < counts }
        requires beyond { are_beyond (counts - 1) self.old ≡ true }
        ensures waits { self.new ≡ map (less_by counts) self.old }
        ensures ahead { result ≡ false → are_ahead self.new ≡ true }
    {
        cut_last(&mut self.entries, counts)
    }

    /// How many counts are left of the wait that is over first. None where no alarm is running.
    #[inline(always)]
    pub fn soonest(&self) -> Option<u32>
        ensures { MatchOption result (self.now ≡ []) (λ n. IsSoonest n self.now) }
    {
        let len = self.entries.len();
        if len == 0 {
            return None;
        }
        Some(self.entries[len - 1].difference)
    }

    /// Takes the last wait out, where it is over. None where no wait is over.
    #[inline(always)]
    pub fn take_due(&mut self) -> Option<Due>
        ensures due { IfSome result
            (λ d. self.old
            ≡ self.new ++ record { alarm = d.alarm; left = 0; cycle = d.cycle } ∷ []) }
        ensures none { IfNone result (self.new ≡ self.old) }
        ensures ahead { IfNone result (are_ahead self.old ≡ true) }
    {
        if !is_over(&self.entries) {
            return None;
        }
        let last = take_last(&mut self.entries);
        Some(Due {
            alarm: last.alarm,
            cycle: last.cycle,
        })
    }

    /// Some counts of the counter pass, before the last of which no wait is over: the alarms whose wait
    /// is over then are added to `due` and start again with their cycle, or go off.
    #[inline(always)]
    pub fn advance(&mut self, counts: u32, due: &mut DueAlarms)
        requires some { 0 < counts }
        requires beyond { are_beyond (counts - 1) self.old ≡ true }
        requires apart { are_apart self.old ≡ true }
        ensures waits { (a : ℕ)
            → wait_of a self.new ≡ again (wait_of a (map (less_by counts) self.old)) }
        ensures due { (a : ℕ)
            → is_raised a due.new
            ≡ (is_raised a due.old || is_over (wait_of a (map (less_by counts) self.old))) }
        ensures apart { are_apart self.new ≡ true }
        ensures ahead { are_ahead self.new ≡ true }
    {
        if self.count_down(counts) {
            self.expire(due);
        }
    }

    /// The alarms whose wait is over are added to `due`, and start again with their cycle, or go off.
    #[inline(always)]
    fn expire(&mut self, due: &mut DueAlarms)
        requires { are_apart self.old ≡ true }
        ensures waits { (a : ℕ) → wait_of a self.new ≡ again (wait_of a self.old) }
        ensures due { (a : ℕ)
            → is_raised a due.new ≡ (is_raised a due.old || is_over (wait_of a self.old)) }
        ensures apart { are_apart self.new ≡ true }
        ensures ahead { are_ahead self.new ≡ true }
    {
        if let Some(alone) = self.restart_alone() {
            due.raise(alone.alarm);
            return;
        }
        *due = self.expire_each(due.copied());
    }

    /// As `expire`, one alarm after another, for a counter that has several or one that goes off. It takes and answers the
    /// alarms that are due, and isn't lent them, so that who calls keeps them in a register.
    #[inline(never)]
    fn expire_each(&mut self, earlier: DueAlarms) -> DueAlarms
        requires { are_apart self.old ≡ true }
        ensures waits { (a : ℕ) → wait_of a self.new ≡ again (wait_of a self.old) }
        ensures due { (a : ℕ)
            → is_raised a result ≡ (is_raised a earlier || is_over (wait_of a self.old)) }
        ensures apart { are_apart self.new ≡ true }
        ensures ahead { are_ahead self.new ≡ true }
    {
        // Who asks for the length learns that few alarms are running.
        let _few = self.len();
        let mut due = earlier;
        while let Some(expired) = self.take_due() {
            due.raise(expired.alarm);
            self.restart(expired);
        }
        due
    }

    /// The only alarm, where its wait is over and it is cyclic: it starts again in its place. Else
    /// None, and nothing changes.
    #[inline(always)]
    fn restart_alone(&mut self) -> Option<Due>
        ensures some { IfSome result (λ d. IsAgainAlone d.alarm d.cycle self.old self.new) }
        ensures none { IfNone result (self.new ≡ self.old) }
    {
        if !is_over_alone(&self.entries) {
            return None;
        }
        let only = self.entries[0];
        recount(&mut self.entries, only.cycle);
        Some(Due {
            alarm: only.alarm,
            cycle: only.cycle,
        })
    }

    /// An alarm that expired starts again with its cycle, if it has one.
    #[inline(always)]
    fn restart(&mut self, expired: Due)
        requires { length self.old < MAX_ALARMS }
        ensures { self.new ≡ restarted expired.alarm expired.cycle self.old }
    {
        if expired.cycle != 0 {
            self.insert(expired.alarm, expired.cycle, expired.cycle);
        }
    }
}

/// The place of an alarm, or the length of the list.
fn place_of(entries: &ArrayVec<Waiting, MAX_ALARMS>, alarm: AlarmId) -> usize
    ensures low { result ≤ length entries.now.items }
    ensures before { list_any (is_of alarm) (take result entries.now.items) ≡ false }
    ensures here { result < length entries.now.items
        → is_of alarm (slice_index_or entries.now.items result not_waiting) ≡ true }
{
    for place in 0..entries.len() {
        let entry = &entries[place];
        if entry.alarm == alarm {
            return place;
        }
    }
    entries.len()
}

/// The sum of the differences from a place on.
fn span_from(entries: &ArrayVec<Waiting, MAX_ALARMS>, place: usize) -> u32
    requires place { place ≤ length entries.now.items }
    requires low { span entries.now.items < 2 ^ 32 }
    ensures { result ≡ span (drop place entries.now.items) }
{
    let mut left = 0;
    let mut at = entries.len();
    while at > place {
        at -= 1;
        left += entries[at].difference;
    }
    left
}

/// The cycle of the alarm at a place.
fn cycle_at(entries: &ArrayVec<Waiting, MAX_ALARMS>, place: usize) -> u32
    requires { place < length entries.now.items }
    ensures { result ≡ (slice_index_or entries.now.items place not_waiting).cycle }
{
    entries[place].cycle
}

/// Whether the last wait is over.
#[inline(always)]
fn is_over(entries: &ArrayVec<Waiting, MAX_ALARMS>) -> bool
    ensures some { result ≡ true → 0 < length entries.now.items }
    ensures over { result ≡ true
        → (slice_index_or entries.now.items (length entries.now.items - 1) not_waiting).difference
        ≡ 0 }
    ensures ahead { result ≡ false → are_ahead (waits entries.now.items) ≡ true }
{
    let len = entries.len();
    len > 0 && entries[len - 1].difference == 0
}

/// Takes the last entry out.
#[inline(always)]
fn take_last(entries: &mut ArrayVec<Waiting, MAX_ALARMS>) -> Waiting
    requires { 0 < length entries.old.items }
    ensures value { result
        ≡ slice_index_or entries.old.items (length entries.old.items - 1) not_waiting }
    ensures items { entries.new.items ≡ remove entries.old.items (length entries.old.items - 1) }
{
    match entries.pop() {
        Some(last) => last,
        None => unreachable!(),
    }
}

/// The last wait is some counts shorter. Answers whether it is over.
#[inline(always)]
fn cut_last(entries: &mut ArrayVec<Waiting, MAX_ALARMS>, counts: u32) -> bool
    requires { 0 < length entries.old.items
        → counts
        ≤ (slice_index_or entries.old.items (length entries.old.items - 1) not_waiting).difference }
    ensures items { entries.new.items ≡ cut_at entries.old.items (length entries.old.items) counts }
    ensures ahead { result ≡ false → are_ahead (waits entries.new.items) ≡ true }
{
    let len = entries.len();
    if len == 0 {
        return false;
    }
    let last = &mut entries[len - 1];
    last.difference -= counts;
    last.difference == 0
}

/// Where an alarm that is to expire in `wait` counts goes, and what is left of its wait there.
#[inline(always)]
fn place_for(entries: &ArrayVec<Waiting, MAX_ALARMS>, alarm: AlarmId, wait: u32) -> (usize, u32)
    ensures place { result.0 ≤ length entries.now.items }
    ensures left { result.1 + span (drop result.0 entries.now.items) ≡ wait }
    ensures sooner { list_all (is_sooner (record { alarm = alarm; left = wait; cycle = 0 }))
        (waits (drop result.0 entries.now.items)) ≡ true }
    ensures stop { 0 < result.0
        → is_sooner (record { alarm = alarm; left = result.1; cycle = 0 })
        (wait_before 0 (slice_index_or entries.now.items (result.0 - 1) not_waiting)) ≡ false }
{
    let mut place = entries.len();
    let mut left = wait;
    while place > 0 {
        let entry = entries[place - 1];
        if !is_before(&entry, alarm, left) {
            break;
        }
        place -= 1;
        left -= entry.difference;
    }
    (place, left)
}

/// Whether an entry stays nearer to the end than an alarm with so much left.
#[inline(always)]
fn is_before(entry: &Waiting, alarm: AlarmId, left: u32) -> bool
    ensures value { result
        ≡ is_sooner (record { alarm = alarm; left = left; cycle = 0 }) (wait_before 0 entry.now) }
    ensures low { result ≡ true → entry.now.difference ≤ left }
{
    entry.difference < left || (entry.difference == left && entry.alarm.number() < alarm.number())
}
