//! OSEK/VDX OS: system start-up; application modes. What stands before the first tick.

ghost use Rattle.std.specs.Prelude.{◌≡◌, [], IfOk, length};
ghost use Rattle.osek_base.specs.Proper.{IsProper};
ghost use Rattle.osek_base.specs.Reschedule.{hooked};
ghost use Rattle.kernel.specs.Does.{Adds};
ghost use Rattle.kernel.specs.Stamping.{HasJobs, IsBegun, MayAddJobs};
ghost use Rattle.kernel.specs.Processor.{IsStarted, IsStarting, picture, system_of};

use crate::processor::Processor;
use kernel_stamps::JobStamps;
use machine::{Code, Windows};
use osek_base::{ModeId, System, TaskId, TickRecord, TraceEvent};
use ready_queues::ReadyQueues;
use services::Core;
use std::alloc::{AllocError, Global};
use thiserror::Error;

/// Why a system isn't booted.
#[derive(Clone, Copy, Debug, Error)]
pub enum BootFault {
    /// The system has no application mode of that name.
    #[error("fault 1")]
    UnknownMode,
    /// A growth was refused.
    #[error("memory")]
    Memory,
}

impl From<AllocError> for BootFault {
    ghost use Rattle.kernel.specs.declared.boot.BootFault.TheVariants.{Memory};

    ghost from_gives = { λ _ r. r ≡ Memory };

    fn from(_: AllocError) -> Self {
        BootFault::Memory
    }
}

impl<'s, Q: ReadyQueues> Processor<'s, Q> {
    /// Boots a system in a mode: its tasks of the mode are activated by number, its alarms of the
    /// mode are set, and the task that is to run was dispatched, which `opening` tells. Its
    /// programs are packed here, once.
    pub fn boot(
        alloc: Global,
        system: &'s System,
        mode: ModeId,
        opening: &mut TickRecord,
    ) -> Result<Self, AllocError>
        requires { opening.old ≡ [] }
        ensures { IfOk result (λ p. IsStarted system.now mode p opening.new) }
    {
        system.shows_proper();
        let mut core = started(alloc, system, mode)?;
        record_startup(system, opening);
        let _runner = core.reschedule(opening);
        Ok(Processor {
            system,
            core,
            windows: Windows::new(),
            code: Code::of(alloc, system)?,
        })
    }

    /// The stamps of the jobs with which a system begins: all of them are ready from tick 0 on.
    pub fn begun_stamps(&self) -> JobStamps
        ensures { IsBegun (length (system_of self.now).tasks) (picture self.now) result }
    {
        let count = self.task_count();
        let mut stamps = JobStamps::new(count);
        for number in 0..count {
            let task = TaskId::new(number as u8);
            add_jobs(&mut stamps, task, self.look(task).count);
        }
        stamps
    }
}

/// The core of a system whose tasks of a mode are activated by number, and its alarms of the mode
/// set.
fn started<'s, Q: ReadyQueues>(
    alloc: Global,
    system: &'s System,
    mode: ModeId,
) -> Result<Core<'s, Q>, AllocError>
    requires { IsProper system.now }
    ensures { IfOk result (IsStarting system.now mode) }
{
    let mut core = Core::new(alloc, system)?;
    core.start_alarms(mode);
    for number in 0..system.task_count() {
        let task = TaskId::new(number as u8);
        if system.starts_in(mode, task) {
            let _status = core.activate(task);
        }
    }
    Ok(core)
}

/// So many jobs of a task that has none are ready from tick 0 on.
fn add_jobs(stamps: &mut JobStamps, task: TaskId, count: u8)
    requires { MayAddJobs task count stamps.old.lists }
    ensures { HasJobs task count stamps.old stamps.new }
{
    for _made in 0..count {
        stamps.add(task, 0);
    }
}

/// Records the start-up, where StartupHook is on.
fn record_startup(system: &System, opening: &mut TickRecord)
    requires { opening.old ≡ [] }
    ensures { Adds (hooked system.now.hooks.startup TraceEvent.Startup) opening.old opening.new }
{
    if system.hooks().startup {
        opening.push(TraceEvent::Startup);
    }
}
