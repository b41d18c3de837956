//! OSEK/VDX OS: interrupt processing, category 2. The routines that are pending in a state.

ghost use Rattle.std.specs.Prelude.{ℕ, ◌≡◌, ◌<◌, ◌≤◌, length, true};
ghost use Rattle.std.specs.Int.{bit_at};
ghost use Rattle.law_future.specs.Spans.{is_pending_in};
ghost use Rattle.kernel.specs.Machine.{picture, system_of};

use crate::bases::StateMachine;
use osek_base::{IsrId, MAX_ROUTINES};

/// Whether an interrupt of a routine is pending.
fn is_pending(machine: &StateMachine<'_>, routine: IsrId) -> bool
    requires { routine < length (system_of machine.now).routines }
    ensures { result ≡ is_pending_in (picture machine.now) routine }
{
    machine.core().objects().is_pending(routine)
}

/// The routines that are pending, as a set, of so many that there are.
pub(crate) fn pending_routines(machine: &StateMachine<'_>, count: usize) -> u64
    requires all { count ≤ length (system_of machine.now).routines }
    requires few { count ≤ MAX_ROUTINES }
    ensures { (i : ℕ) → bit_at result i ≡ 1 → is_pending_in (picture machine.now) i ≡ true }
{
    let mut set = 0u64;
    for number in 0..count {
        if is_pending(machine, IsrId::new(number as u8)) {
            set |= 1 << number;
        }
    }
    set
}
