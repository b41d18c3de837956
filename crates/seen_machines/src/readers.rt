//! What a machine tells of its state, by the picture that is kept of it.

ghost use Rattle.std.specs.Prelude.{◌≡◌, ◌<◌, ◌≤◌, length};
ghost use Rattle.std.specs.Option.{option_map};
ghost use Rattle.law_kept.specs.KeptService.{task_state_in};
ghost use Rattle.law_future.specs.Spans.{is_pending_in};
ghost use Rattle.law_kept.specs.Seen.{routine_of};
ghost use Rattle.kernel.specs.Machine.{picture, system_of};

use kernel::{Blockers, Machine};
use osek_base::{IsrId, MAX_ACTIVATION, System, TaskId, TaskState};
use ready_queues::ReadyQueues;
use services::Objects;

/// The system of some objects.
#[inline(always)]
fn system_of<'s, Q: ReadyQueues>(objects: &Objects<'s, Q>) -> &'s System
    ensures { result.now ≡ objects.now.system }
{
    objects.system
}

/// The system of a machine.
#[inline(always)]
pub(crate) fn system<'s, Q: ReadyQueues, B: Blockers>(machine: &Machine<'s, Q, B>) -> &'s System
    ensures { result.now ≡ system_of machine.now }
{
    system_of(machine.core().objects())
}

/// How many jobs a task has.
#[inline(always)]
pub(crate) fn job_count<Q: ReadyQueues, B: Blockers>(
    machine: &Machine<'_, Q, B>,
    task: TaskId,
) -> u8
    requires { task < length (system_of machine.now).tasks }
    ensures value { result ≡ ((picture machine.now).slots task).count }
    ensures few { result ≤ MAX_ACTIVATION }
{
    machine.core().job_count(task)
}

/// The state of a task, as GetTaskState answers it.
pub(crate) fn task_state<Q: ReadyQueues, B: Blockers>(
    machine: &Machine<'_, Q, B>,
    task: TaskId,
) -> TaskState
    requires { task < length (system_of machine.now).tasks }
    ensures { result ≡ task_state_in (picture machine.now) task }
{
    machine.core().objects().task_state(task)
}

/// Whether an interrupt of a routine has arrived and not started it yet.
#[inline(always)]
pub(crate) fn is_pending<Q: ReadyQueues, B: Blockers>(
    machine: &Machine<'_, Q, B>,
    routine: IsrId,
) -> bool
    requires { routine < length (system_of machine.now).routines }
    ensures { result ≡ is_pending_in (picture machine.now) routine }
{
    machine.core().objects().is_pending(routine)
}

/// The active routine.
#[inline(always)]
pub(crate) fn active_routine<Q: ReadyQueues, B: Blockers>(
    machine: &Machine<'_, Q, B>,
) -> Option<IsrId>
    ensures { result ≡ option_map routine_of (picture machine.now).active }
{
    machine.core().objects().active_routine()
}
