//! OSEK/VDX OS: interrupt processing. What a kernel tells of the tick that it did last.

ghost use Rattle.std.specs.Prelude.{◌≡◌, ◌≤◌, ◌-◌};
ghost use Rattle.osek_base.specs.Trace.{arriving};

use crate::blockers::Blockers;
use crate::kernel::Kernel;
use osek_base::IsrId;
use ready_queues::ReadyQueues;

impl<'s, Q: ReadyQueues, B: Blockers> Kernel<'s, Q, B> {
    /// The routines whose interrupts arrived in the last tick, in the order of the list of
    /// arrivals.
    pub fn last_arrived(&self) -> &[IsrId]
        requires { 1 ≤ self.now.ticks }
        ensures { result.now ≡ arriving self.now.arrivals (self.now.ticks - 1) }
    {
        &self.routines.as_slice()[self.earlier..self.arrived]
    }
}
