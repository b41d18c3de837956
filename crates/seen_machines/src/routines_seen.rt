//! OSEK/VDX OS: interrupt processing. What is seen of the interrupt routines.

ghost use Rattle.std.specs.Prelude.{◌≡◌, ◌<◌, ◌≤◌, map, length};
ghost use Rattle.osek_base.specs.Lists.{below};
ghost use Rattle.kernel.specs.Machine.{picture, system_of};
ghost use Rattle.seen_machines.specs.Told.{IsOfAll, routine_seen_by};

use crate::places::give_places;
use crate::readers::{is_pending, system};
use crate::told::Told;
use arrayvec::ArrayVec;
use kernel::{Blockers, Machine};
use osek_base::{IsrId, MAX_ARRIVALS, MAX_ROUTINES, Owner};
use ready_queues::ReadyQueues;
use seen_ticks::{RoutineSeen, is_by, is_routine, lost_of, times};

impl Told {
    /// What is seen of a routine in the tick that a machine did last, in which some arrived.
    fn routine_seen<Q: ReadyQueues, B: Blockers>(
        &self,
        machine: &Machine<'_, Q, B>,
        arrived: &[IsrId],
        routine: IsrId,
    ) -> RoutineSeen
        requires routine { routine < length (system_of machine.now).routines }
        requires all { IsOfAll (system_of machine.now) self.now }
        requires few { length arrived.now ≤ MAX_ARRIVALS }
        ensures { result ≡ routine_seen_by self.now (picture machine.now) arrived.now routine }
    {
        let executes = is_by(Owner::Routine(routine), &self.execution.executed);
        let count = times(routine, arrived);
        RoutineSeen {
            executes,
            is_pending: is_pending(machine, routine),
            is_started: executes && !is_routine(routine, self.before.active),
            arrived: count,
            lost: lost_of(self.was_pending(routine), count),
        }
    }

    /// Leaves what is seen of the routines.
    #[tactic(auto, using(kernel::proofs::Filled::one_more, kernel::proofs::Filled::all_of))]
    pub(crate) fn see_routines<Q: ReadyQueues, B: Blockers>(
        &self,
        machine: &Machine<'_, Q, B>,
        arrived: &[IsrId],
        routines: &mut ArrayVec<RoutineSeen, MAX_ROUTINES>,
    )
        requires all { IsOfAll (system_of machine.now) self.now }
        requires few { length arrived.now ≤ MAX_ARRIVALS }
        ensures { routines.new.items
            ≡ map (routine_seen_by self.now (picture machine.now) arrived.now)
            (below (length (system_of machine.now).routines)) }
    {
        let count = system(machine).routine_count();
        give_places(routines, count);
        let places = routines.as_mut_slice();
        for number in 0..count {
            places[number] = self.routine_seen(machine, arrived, IsrId::new(number as u8));
        }
    }
}
