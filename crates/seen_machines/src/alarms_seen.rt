//! OSEK/VDX OS: alarms. What is seen of the alarms.

ghost use Rattle.std.specs.Prelude.{◌≡◌, true, map, length};
ghost use Rattle.osek_base.specs.Lists.{below};
ghost use Rattle.kernel.specs.Machine.{system_of};
ghost use Rattle.seen_machines.specs.Told.{NoneActed, alarm_seen_by};

use crate::places::give_places;
use crate::readers::system;
use arrayvec::ArrayVec;
use kernel::{Blockers, Machine};
use osek_base::{AlarmId, MAX_ALARMS};
use ready_queues::ReadyQueues;
use seen_ticks::{AlarmSeen, is_among};

/// Whether no alarm was due in the tick that a machine did last, as in most ticks.
#[inline(always)]
#[tactic(auto, using(crate::proofs::Bystanders::none_acted))]
fn is_none_due<Q: ReadyQueues, B: Blockers>(machine: &Machine<'_, Q, B>) -> bool
    ensures { result ≡ true → NoneActed machine.now.acted }
{
    machine.last_due().len() + machine.last_refused().len() == 0
}

/// What is seen of an alarm in the tick that a machine did last, in which maybe none was due.
#[inline(always)]
#[tactic(auto, using(crate::proofs::Bystanders::still_alarm))]
fn alarm_seen<Q: ReadyQueues, B: Blockers>(
    machine: &Machine<'_, Q, B>,
    is_none_due: bool,
    alarm: AlarmId,
) -> AlarmSeen
    requires { is_none_due ≡ true → NoneActed machine.now.acted }
    ensures { result ≡ alarm_seen_by machine.now.acted alarm }
{
    if is_none_due {
        return AlarmSeen {
            has_expired: false,
            is_refused: false,
        };
    }
    AlarmSeen {
        has_expired: is_among(machine.last_due(), alarm),
        is_refused: is_among(machine.last_refused(), alarm),
    }
}

/// Leaves what is seen of the alarms.
#[tactic(auto, using(kernel::proofs::Filled::one_more, kernel::proofs::Filled::all_of))]
pub(crate) fn see_alarms<Q: ReadyQueues, B: Blockers>(
    machine: &Machine<'_, Q, B>,
    alarms: &mut ArrayVec<AlarmSeen, MAX_ALARMS>,
)
    ensures { alarms.new.items
        ≡ map (alarm_seen_by machine.now.acted) (below (length (system_of machine.now).alarms)) }
{
    let count = system(machine).alarm_count();
    give_places(alarms, count);
    let places = alarms.as_mut_slice();
    let is_none_due = is_none_due(machine);
    for number in 0..count {
        places[number] = alarm_seen(machine, is_none_due, AlarmId::new(number as u8));
    }
}
