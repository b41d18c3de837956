//! OSEK/VDX OS: system services; the modelled processor. A system in the midst of a tick, and three
//! of its phases.

ghost use Rattle.std.specs.Prelude.{◌≤◌, ◌+◌, ◌<◌, length};
ghost use Rattle.std.specs.List.{All};
ghost use Rattle.osek_base.specs.Tick.{flagged};
ghost use Rattle.law_kept.specs.KeptTick.{arrival_phase_in, start_phase_in};
ghost use Rattle.law_kept.specs.Quiet.{IsQuiet};
ghost use Rattle.kernel.specs.Idle.{HasPassed};
ghost use Rattle.kernel.specs.Processor.{picture, system_of};
ghost use Rattle.kernel.specs.Does.{Becomes, Reschedules};

use machine::{Code, Windows};
use osek_base::{IsrId, MAX_RECORDS, System, TaskId, TickRecord};
use ready_queues::ReadyQueues;
use services::Core;
use std::marker::Model;

/// A system between two phases of a tick: the objects of its services, its windows, and its
/// programs. Contracts see the objects and the words.
#[derive(Drop)]
pub struct Processor<'s, Q: ReadyQueues> {
    pub system: &'s System,
    pub core: Core<'s, Q>,
    pub windows: Windows,
    pub code: Code,
}

impl<'s, Q: ReadyQueues> Model for Processor<'s, Q> {
    ghost use Rattle.kernel.specs.Processor.{IsProcessor, Processor as Seen};

    ghost Value = { Seen };

    ghost view = { λ p. record { objects = p.core; words = p.windows } };

    ghost invariant = { λ p. IsProcessor p.system.now p.core p.code };
}

impl<'s, Q: ReadyQueues> Processor<'s, Q> {
    /// Interrupts arrive: they set pending flags.
    #[inline(always)]
    pub fn arrival_phase(&mut self, arrived: &[IsrId])
        requires { All (λ i. i < length (system_of self.old).routines) arrived.now }
        ensures { Becomes (λ _S. arrival_phase_in arrived.now) self.old self.new }
    {
        for index in 0..arrived.len() {
            self.core.arrive(arrived[index]);
        }
    }

    /// The task that is to run becomes the running one. Answers the task that ran, if its job stood
    /// and didn't wait.
    #[inline(always)]
    pub fn reschedule(&mut self, records: &mut TickRecord) -> Option<TaskId>
        requires { length records.old + 2 ≤ MAX_RECORDS }
        ensures { Reschedules self.old self.new records.old records.new result }
    {
        self.core.reschedule(records)
    }

    /// A pending routine starts.
    #[inline(always)]
    pub fn start_phase(&mut self)
        ensures { Becomes start_phase_in self.old self.new }
    {
        self.core.start_routine();
    }
}
