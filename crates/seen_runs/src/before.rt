//! What has to be known of the state before a tick, to tell what comes in it. No part of the
//! standards.

ghost use Rattle.std.specs.Prelude.{◌≡◌, ◌<◌, ◌==◌, map, length};
ghost use Rattle.osek_base.specs.Lists.{below};
ghost use Rattle.kernel.specs.Progress.{run_of};
ghost use Rattle.seen_runs.specs.Keeping.{IsBefore, coming};
ghost use Rattle.seen_ticks.specs.Observed.{is_pending, jobs_before};

use arrayvec::ArrayVec;
use kernel::{Blockers, Kernel, give_places};
use osek_base::{IsrId, MAX_ROUTINES, MAX_TASKS, System, TaskId};
use ready_queues::LevelQueues;

/// What is known before a tick, of each task or routine by number.
#[derive(Drop)]
pub(crate) struct Before {
    /// How many jobs each task has; none before the first tick, so that those of boot are made in
    /// it.
    pub(crate) jobs: ArrayVec<u8, MAX_TASKS>,
    /// Which routines are pending.
    pub(crate) pending: ArrayVec<bool, MAX_ROUTINES>,
    /// Which routine is active.
    pub(crate) active: Option<IsrId>,
}

impl Before {
    /// What is known before the tick that a kernel does next.
    pub(crate) fn of<B: Blockers>(kernel: &Kernel<'_, LevelQueues, B>, system: &System) -> Self
        requires { kernel.now.system ≡ system.now }
        ensures { IsBefore kernel.now.system (coming kernel.now) result }
    {
        let mut jobs = ArrayVec::new();
        see_jobs(kernel, system, &mut jobs);
        let mut pending = ArrayVec::new();
        see_pending(kernel, system, &mut pending);
        Before {
            jobs,
            pending,
            active: kernel.active_routine(),
        }
    }
}

/// How many jobs a task has, and none before the first tick.
#[inline(always)]
fn jobs_before<B: Blockers>(kernel: &Kernel<'_, LevelQueues, B>, is_first: bool, task: TaskId) -> u8
    requires first { is_first ≡ (kernel.now.ticks == 0) }
    requires task { task < length kernel.now.system.tasks }
    ensures { result ≡ jobs_before (kernel.now.ticks == 0) (run_of kernel.now).state task }
{
    if is_first { 0 } else { kernel.job_count(task) }
}

/// Leaves how many jobs each task has before the tick that a kernel does next.
#[tactic(auto, using(kernel::proofs::Filled::one_more, kernel::proofs::Filled::all_of))]
fn see_jobs<B: Blockers>(
    kernel: &Kernel<'_, LevelQueues, B>,
    system: &System,
    jobs: &mut ArrayVec<u8, MAX_TASKS>,
)
    requires { kernel.now.system ≡ system.now }
    ensures { jobs.new.items
        ≡ map (jobs_before (kernel.now.ticks == 0) (run_of kernel.now).state)
        (below (length system.now.tasks)) }
{
    let count = system.task_count();
    give_places(jobs, count);
    let places = jobs.as_mut_slice();
    let is_first = kernel.ticks() == 0;
    for number in 0..count {
        places[number] = jobs_before(kernel, is_first, TaskId::new(number as u8));
    }
}

/// Leaves which routines are pending.
#[tactic(auto, using(kernel::proofs::Filled::one_more, kernel::proofs::Filled::all_of))]
fn see_pending<B: Blockers>(
    kernel: &Kernel<'_, LevelQueues, B>,
    system: &System,
    pending: &mut ArrayVec<bool, MAX_ROUTINES>,
)
    requires { kernel.now.system ≡ system.now }
    ensures { pending.new.items
        ≡ map (is_pending (run_of kernel.now).state) (below (length system.now.routines)) }
{
    let count = system.routine_count();
    give_places(pending, count);
    let places = pending.as_mut_slice();
    for number in 0..count {
        places[number] = kernel.is_pending(IsrId::new(number as u8));
    }
}
