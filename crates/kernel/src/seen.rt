//! OSEK/VDX OS: task management, task state model. What a kernel tells of the state of its run:
//! tasks and their jobs, who holds a resource, interrupts.

ghost use Rattle.std.specs.Prelude.{◌≡◌, ◌<◌, false, slice_index_or, length};
ghost use Rattle.std.specs.Option.{option_map};
ghost use Rattle.osek_base.specs.State.{jobs_of};
ghost use Rattle.law_kept.specs.Seen.{routine_of};
ghost use Rattle.kernel.specs.Stamping.{IsTask};
ghost use Rattle.kernel.specs.Progress.{run_of};
ghost use Rattle.seen_ticks.specs.Observed.{holders_seen};
ghost use Rattle.seen_ticks.specs.Shown.{holder};
ghost use Rattle.seen_ticks.specs.Told.{task_at};

use crate::blockers::Blockers;
use crate::holders::see_holders;
use crate::kernel::Kernel;
use arrayvec::ArrayVec;
use osek_base::{IsrId, ResId, TaskId};
use ready_queues::ReadyQueues;
use seen_ticks::{Holder, MAX_HELD, TaskAt};

impl<'s, Q: ReadyQueues, B: Blockers> Kernel<'s, Q, B> {
    /// How many jobs a task has: those that were activated and have not ended (task management,
    /// activating a task).
    pub fn job_count(&self, task: TaskId) -> u8
        requires { task < length self.now.system.tasks }
        ensures { result ≡ length (jobs_of task (run_of self.now).state.jobs) }
    {
        self.machine.core().job_count(task)
    }

    /// What a task is: its state, the dynamic priority of its oldest job, and how many jobs it has.
    pub fn task_at(&self, task: TaskId) -> TaskAt
        requires { task < length self.now.system.tasks }
        ensures { result ≡ task_at self.now.system (run_of self.now).state task }
    {
        let core = self.machine.core();
        TaskAt {
            state: core.objects().task_state(task),
            priority: core.objects().dynamic_priority(task),
            jobs: core.job_count(task),
        }
    }

    /// The first task whose oldest job holds a resource (resource management, GetResource). All
    /// tasks are asked, so that it takes time by their number.
    pub fn holder(&self, resource: &ResId) -> Option<TaskId>
        ensures { IsTask (length self.now.system.tasks)
            (holder self.now.system (run_of self.now).state resource.now) result }
    {
        self.machine.core().objects().holder(resource)
    }

    /// Leaves who holds each declared resource, and behind them RES_SCHEDULER where the system has
    /// it: the first task whose oldest job does.
    #[inline(always)]
    pub fn see_holders(&self, holders: &mut ArrayVec<Holder, MAX_HELD>)
        ensures { holders.new.items ≡ holders_seen self.now.system (run_of self.now).state }
    {
        see_holders(self.machine.core().objects(), holders);
    }

    /// Whether an interrupt of a routine has arrived and not started it yet (interrupt processing).
    pub fn is_pending(&self, routine: IsrId) -> bool
        requires { routine < length self.now.system.routines }
        ensures { result ≡ slice_index_or (run_of self.now).state.pending routine false }
    {
        self.machine.core().objects().is_pending(routine)
    }

    /// The interrupt routine that is active (interrupt processing).
    pub fn active_routine(&self) -> Option<IsrId>
        ensures { result ≡ option_map routine_of (run_of self.now).state.active }
    {
        self.machine.core().objects().active_routine()
    }
}
