//! OSEK/VDX OS: alarms. What is seen of the alarms.

ghost use Rattle.std.specs.Prelude.{◌≡◌, ◌≤◌, map, length};
ghost use Rattle.osek_base.specs.Lists.{below};
ghost use Rattle.seen_runs.specs.Keeping.{last_tick};
ghost use Rattle.seen_runs.specs.Resting.{resting_alarm};
ghost use Rattle.seen_ticks.specs.Observed.{alarm_seen};

use crate::told_run::ToldRun;
use arrayvec::ArrayVec;
use kernel::{Blockers, give_places};
use osek_base::{AlarmId, MAX_ALARMS};
use seen_ticks::AlarmSeen;

impl<'s, B: Blockers> ToldRun<'s, B> {
    /// What is seen of an alarm in the tick that was done last.
    fn alarm_seen(&self, alarm: AlarmId) -> AlarmSeen
        requires { 1 ≤ self.now.ticks }
        ensures { result ≡ alarm_seen (last_tick self.now) alarm }
    {
        AlarmSeen {
            has_expired: self.has_expired(alarm),
            is_refused: self.is_in_vain(alarm),
        }
    }

    /// Leaves what is seen of the alarms in the tick that was done last.
    #[tactic(auto, using(kernel::proofs::Filled::one_more, kernel::proofs::Filled::all_of))]
    pub(crate) fn see_alarms(&self, alarms: &mut ArrayVec<AlarmSeen, MAX_ALARMS>)
        requires { 1 ≤ self.now.ticks }
        ensures { alarms.new.items
            ≡ map (alarm_seen (last_tick self.now)) (below (length self.now.system.alarms)) }
    {
        let count = self.system().alarm_count();
        give_places(alarms, count);
        let places = alarms.as_mut_slice();
        for number in 0..count {
            places[number] = self.alarm_seen(AlarmId::new(number as u8));
        }
    }

    /// Leaves what is seen of the alarms in a tick in which none is due.
    #[tactic(auto, using(kernel::proofs::Filled::one_more, kernel::proofs::Filled::all_of))]
    #[inline(always)]
    pub(crate) fn see_alarms_at_rest(&self, alarms: &mut ArrayVec<AlarmSeen, MAX_ALARMS>)
        ensures { alarms.new.items ≡ map resting_alarm (below (length self.now.system.alarms)) }
    {
        let count = self.system().alarm_count();
        give_places(alarms, count);
        let places = alarms.as_mut_slice();
        for number in 0..count {
            places[number] = AlarmSeen {
                has_expired: false,
                is_refused: false,
            };
        }
    }
}
