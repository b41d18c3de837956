//! OSEK/VDX OS: interrupt processing. What is seen of the interrupt routines.

ghost use Rattle.std.specs.Prelude.{◌≡◌, ◌<◌, ◌≤◌, map, length};
ghost use Rattle.osek_base.specs.Lists.{below};
ghost use Rattle.seen_runs.specs.Keeping.{last_tick};
ghost use Rattle.seen_runs.specs.Resting.{resting_routine};
ghost use Rattle.seen_ticks.specs.Observed.{
  active_routine,
  is_number,
  is_pending,
  routine_seen,
};

use crate::told_run::ToldRun;
use arrayvec::ArrayVec;
use kernel::{Blockers, give_places};
use osek_base::{IsrId, MAX_ROUTINES, Owner};
use seen_ticks::{RoutineSeen, is_routine, lost_of};

impl<'s, B: Blockers> ToldRun<'s, B> {
    /// What is seen of a routine in the tick that was done last, by whether it was active and
    /// pending before the tick. Whether it is pending now is left.
    #[inline(always)]
    fn routine_seen(&self, routine: IsrId, was_active: bool, pending: &mut bool) -> RoutineSeen
        requires ticked { 1 ≤ self.now.ticks }
        requires routine { routine < length self.now.system.routines }
        requires active { was_active
            ≡ is_number routine (active_routine (last_tick self.now).before) }
        requires pending { pending.old ≡ is_pending (last_tick self.now).before routine }
        ensures seen { result ≡ routine_seen (last_tick self.now) routine }
        ensures pending { pending.new ≡ is_pending (last_tick self.now).after routine }
    {
        let executes = self.is_by(Owner::Routine(routine));
        let arrived = self.arrived(routine);
        let was_pending = *pending;
        *pending = self.is_pending(routine);
        RoutineSeen {
            executes,
            is_pending: *pending,
            is_started: executes && !was_active,
            arrived,
            lost: lost_of(was_pending, arrived),
        }
    }

    /// What is seen of a routine in the tick that was done last, in which nothing comes to any.
    #[inline(always)]
    fn routine_at_rest(&self, routine: IsrId) -> RoutineSeen
        requires ticked { 1 ≤ self.now.ticks }
        requires routine { routine < length self.now.system.routines }
        ensures { result ≡ resting_routine (last_tick self.now).at.pending routine }
    {
        RoutineSeen {
            executes: false,
            is_pending: self.is_pending(routine),
            is_started: false,
            arrived: 0,
            lost: 0,
        }
    }

    /// Leaves what is seen of the routines in the tick that was done last, in which nothing comes
    /// to any.
    #[tactic(auto, using(kernel::proofs::Filled::one_more, kernel::proofs::Filled::all_of))]
    #[inline(always)]
    pub(crate) fn see_routines_at_rest(&self, routines: &mut ArrayVec<RoutineSeen, MAX_ROUTINES>)
        requires { 1 ≤ self.now.ticks }
        ensures { routines.new.items
            ≡ map (resting_routine (last_tick self.now).at.pending)
            (below (length self.now.system.routines)) }
    {
        let count = self.system().routine_count();
        give_places(routines, count);
        let places = routines.as_mut_slice();
        for number in 0..count {
            places[number] = self.routine_at_rest(IsrId::new(number as u8));
        }
    }

    /// Leaves what is seen of the routines in the tick that was done last, by which was active and
    /// which were pending before the tick. Which are pending now is left, too.
    #[inline(always)]
    #[tactic(auto, using(kernel::proofs::Filled::one_more, kernel::proofs::Filled::all_of))]
    pub(crate) fn see_routines(
        &self,
        active: &Option<IsrId>,
        pending: &mut ArrayVec<bool, MAX_ROUTINES>,
        routines: &mut ArrayVec<RoutineSeen, MAX_ROUTINES>,
    )
        requires ticked { 1 ≤ self.now.ticks }
        requires active { active.now ≡ active_routine (last_tick self.now).before }
        requires pending { pending.old.items
            ≡ map (is_pending (last_tick self.now).before)
            (below (length self.now.system.routines)) }
        ensures seen { routines.new.items
            ≡ map (routine_seen (last_tick self.now)) (below (length self.now.system.routines)) }
        ensures pending { pending.new.items
            ≡ map (is_pending (last_tick self.now).after)
            (below (length self.now.system.routines)) }
    {
        let count = self.system().routine_count();
        give_places(routines, count);
        let places = routines.as_mut_slice();
        let were = pending.as_mut_slice();
        for number in 0..count {
            let routine = IsrId::new(number as u8);
            let was_active = is_routine(routine, *active);
            places[number] = self.routine_seen(routine, was_active, &mut were[number]);
        }
    }
}
