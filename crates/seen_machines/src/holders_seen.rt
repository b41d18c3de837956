//! OSEK/VDX OS: resource management. Who holds each resource.

ghost use Rattle.std.specs.Prelude.{◌≡◌};
ghost use Rattle.kernel.specs.Machine.{picture, system_of};
ghost use Rattle.law_seen.specs.Shown.{holders_seen_in};

use arrayvec::ArrayVec;
use kernel::{Blockers, Machine};
use ready_queues::ReadyQueues;
use seen_ticks::{Holder, MAX_HELD};

/// Leaves who holds each declared resource, and behind them RES_SCHEDULER where the system has it.
pub(crate) fn see_holders<Q: ReadyQueues, B: Blockers>(
    machine: &Machine<'_, Q, B>,
    holders: &mut ArrayVec<Holder, MAX_HELD>,
)
    ensures { holders.new.items ≡ holders_seen_in (system_of machine.now) (picture machine.now) }
{
    kernel::see_holders(machine.core().objects(), holders);
}
