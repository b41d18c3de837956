//! What has to be known of the state before a tick, to tell what comes in it.

ghost use Rattle.std.specs.Prelude.{◌≡◌, map, length};
ghost use Rattle.std.specs.Option.{option_map};
ghost use Rattle.osek_base.specs.Lists.{below};
ghost use Rattle.law_future.specs.Spans.{is_pending_in};
ghost use Rattle.law_kept.specs.Seen.{routine_of};
ghost use Rattle.kernel.specs.Machine.{picture, system_of};

use crate::places::give_places;
use crate::readers::{active_routine, is_pending, job_count, system};
use arrayvec::ArrayVec;
use kernel::{Blockers, Machine};
use osek_base::{IsrId, MAX_ROUTINES, MAX_TASKS, TaskId};
use ready_queues::ReadyQueues;

/// What is known before a tick, of each task or routine by number.
#[derive(Drop)]
pub(crate) struct Before {
    /// How many jobs each task has.
    pub(crate) jobs: ArrayVec<u8, MAX_TASKS>,
    /// Which routines are pending.
    pub(crate) pending: ArrayVec<bool, MAX_ROUTINES>,
    /// Which routine is active.
    pub(crate) active: Option<IsrId>,
}

impl Before {
    /// Nothing yet.
    pub(crate) fn new() -> Self {
        Before {
            jobs: ArrayVec::new(),
            pending: ArrayVec::new(),
            active: None,
        }
    }

    /// Notes what is known before the tick that a machine does next.
    pub(crate) fn note<Q: ReadyQueues, B: Blockers>(&mut self, machine: &Machine<'_, Q, B>)
        ensures jobs { self.new.jobs.items ≡ map (λ t. ((picture machine.now).slots t).count)
            (below (length (system_of machine.now).tasks)) }
        ensures pending { self.new.pending.items ≡ map (is_pending_in (picture machine.now))
            (below (length (system_of machine.now).routines)) }
        ensures active { self.new.active ≡ option_map routine_of (picture machine.now).active }
    {
        see_jobs(machine, &mut self.jobs);
        see_pending(machine, &mut self.pending);
        self.active = active_routine(machine);
    }
}

/// Leaves how many jobs each task has.
#[tactic(auto, using(kernel::proofs::Filled::one_more, kernel::proofs::Filled::all_of))]
fn see_jobs<Q: ReadyQueues, B: Blockers>(
    machine: &Machine<'_, Q, B>,
    jobs: &mut ArrayVec<u8, MAX_TASKS>,
)
    ensures { jobs.new.items ≡ map (λ t. ((picture machine.now).slots t).count)
        (below (length (system_of machine.now).tasks)) }
{
    let count = system(machine).task_count();
    give_places(jobs, count);
    let places = jobs.as_mut_slice();
    for number in 0..count {
        places[number] = job_count(machine, TaskId::new(number as u8));
    }
}

/// Leaves which routines are pending.
#[tactic(auto, using(kernel::proofs::Filled::one_more, kernel::proofs::Filled::all_of))]
fn see_pending<Q: ReadyQueues, B: Blockers>(
    machine: &Machine<'_, Q, B>,
    pending: &mut ArrayVec<bool, MAX_ROUTINES>,
)
    ensures { pending.new.items ≡ map (is_pending_in (picture machine.now))
        (below (length (system_of machine.now).routines)) }
{
    let count = system(machine).routine_count();
    give_places(pending, count);
    let places = pending.as_mut_slice();
    for number in 0..count {
        places[number] = is_pending(machine, IsrId::new(number as u8));
    }
}
