//! Value change dumps: variables of the kind event, which fire in a tick and have no value.

ghost use Rattle.std.specs.Prelude.{◌≡◌, ◌+◌, ◌*◌, ◌≤◌, ◌++◌, length};
ghost use Rattle.view_dumps.specs.Ticks.{events_from, expiry_text, loses, loss_text};
ghost use Rattle.std.specs.List.{list_any};

use crate::dump_text::{DumpText, TEXT_SIZE, push_event};
use crate::variable::Variable;
use arrayvec::ArrayVec;
use osek_base::{AlarmId, IsrId, MAX_ALARMS, MAX_ROUTINES};
use seen_ticks::{AlarmSeen, RoutineSeen};

/// Appends the loss of an interrupt of a routine, where there is one.
#[inline(always)]
fn push_loss(routine: IsrId, seen: &RoutineSeen, text: &mut DumpText)
    requires { length text.old + 4 ≤ TEXT_SIZE }
    ensures same { text.new ≡ text.old ++ loss_text routine seen.now }
    ensures short { length text.new ≤ length text.old + 4 }
{
    if seen.lost > 0 {
        push_event(Variable::Lost(routine), text);
    }
}

/// Appends the expiry of an alarm, where it expires.
#[inline(always)]
fn push_expiry(alarm: AlarmId, seen: &AlarmSeen, text: &mut DumpText)
    requires { length text.old + 4 ≤ TEXT_SIZE }
    ensures same { text.new ≡ text.old ++ expiry_text alarm seen.now }
    ensures short { length text.new ≤ length text.old + 4 }
{
    if seen.has_expired {
        push_event(Variable::Expiry(alarm), text);
    }
}

/// Appends the losses of interrupts in the tick.
#[inline(never)]
fn push_losses(seen: &ArrayVec<RoutineSeen, MAX_ROUTINES>, text: &mut DumpText)
    requires { length text.old + 4 * MAX_ROUTINES ≤ TEXT_SIZE }
    ensures same { text.new ≡ text.old ++ events_from loss_text 0 seen.now.items }
    ensures short { length text.new ≤ length text.old + 4 * MAX_ROUTINES }
{
    for number in 0..seen.len() {
        push_loss(IsrId::new(number as u8), &seen[number], text);
    }
}

/// Appends the losses of interrupts in the tick, of which it is known whether there is one.
#[inline(always)]
pub(crate) fn push_all_losses(
    seen: &ArrayVec<RoutineSeen, MAX_ROUTINES>,
    has_lost: bool,
    text: &mut DumpText,
)
    requires lost { has_lost ≡ list_any loses seen.now.items }
    requires room { length text.old + 4 * MAX_ROUTINES ≤ TEXT_SIZE }
    ensures same { text.new ≡ text.old ++ events_from loss_text 0 seen.now.items }
    ensures short { length text.new ≤ length text.old + 4 * MAX_ROUTINES }
{
    if has_lost {
        push_losses(seen, text);
    }
}

/// Appends the expiries of alarms in the tick.
#[inline(always)]
pub(crate) fn push_expiries(seen: &ArrayVec<AlarmSeen, MAX_ALARMS>, text: &mut DumpText)
    requires { length text.old + 4 * MAX_ALARMS ≤ TEXT_SIZE }
    ensures same { text.new ≡ text.old ++ events_from expiry_text 0 seen.now.items }
    ensures short { length text.new ≤ length text.old + 4 * MAX_ALARMS }
{
    for number in 0..seen.len() {
        push_expiry(AlarmId::new(number as u8), &seen[number], text);
    }
}
