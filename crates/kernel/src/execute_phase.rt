//! OSEK/VDX OS: system services; the modelled processor. One instruction of who executes, by its
//! kind.

ghost use Rattle.std.specs.Prelude.{◌≡◌, ◌<◌, ◌+◌, ◌∷◌, ◌++◌, [], true, false, length};
ghost use Rattle.osek_base.specs.declared.trace_event.Outcome.{Outcome};
ghost use Rattle.osek_base.specs.declared.trace_event.Results.{Results};
ghost use Rattle.osek_base.specs.declared.trace_event.TraceEvent.{TraceEvent};
ghost use Rattle.osek_base.specs.declared.instr.Instr.{Instr};
ghost use Rattle.osek_base.specs.declared.trace_event.Source.{Source};
ghost use Rattle.osek_base.specs.Tick.{error_record, shutdown_record};
ghost use Rattle.machine.specs.Packed.{if_service, instr_of, is_control, is_plain, service_of};
ghost use Rattle.law_kept.specs.KeptTick.{execute_phase_in};
ghost use Rattle.law_blockers.specs.Restamping.{named_by};
ghost use Rattle.kernel.specs.Processor.{ComesTo, HasFewJobs, IsNext, MayFetch, system_of};
ghost use Rattle.kernel.specs.Does.{Adds, Does, DoesWithin};
ghost use Rattle.kernel.specs.Controls.{IsCall, changes_job, control_context, ends_routine};

use crate::next::Next;
use crate::processor::Processor;
use machine::{Cpu, PackedInstr};
use osek_base::{
    Control, Instr, MAX_INSTRUCTIONS, MAX_RECORDS, Outcome, Owner, Register, Results, Service,
    Source, Status, System, TaskId, TickRecord, TraceEvent,
};
use ready_queues::ReadyQueues;

impl<'s, Q: ReadyQueues> Processor<'s, Q> {
    /// The instruction that who executes comes to.
    #[inline(always)]
    pub fn next_of(&self, owner: &Owner) -> Next
        requires { MayFetch self.now owner.now }
        ensures { IsNext self.now result }
    {
        let cpu = self.core.cpu_of(*owner);
        let place = cpu.place();
        Next {
            owner: *owner,
            place,
            packed: self.code.fetch(*owner, place),
        }
    }

    /// A plain instruction.
    #[inline(always)]
    pub fn execute_plain(&mut self, next: Next) -> Outcome
        requires next { IsNext self.old next }
        requires plain { is_plain (instr_of next.packed) ≡ true }
        ensures { Does execute_phase_in self.old self.new []
            (TraceEvent.Executed next.owner next.place (instr_of next.packed) result ∷ []) }
    {
        Outcome::Plain(
            self.core
                .exec_packed(&mut self.windows, next.owner, next.packed),
        )
    }

    /// A service without a status.
    #[inline(never)]
    pub fn execute_control(&mut self, next: &Next, behind: &mut TickRecord)
        requires comes { ComesTo self.old next.now behind.old }
        requires control { is_control (instr_of next.now.packed) ≡ true }
        ensures { DoesWithin 2 execute_phase_in self.old self.new []
            (TraceEvent.Executed next.now.owner next.now.place (instr_of next.now.packed)
            Outcome.Control ∷ behind.new) }
    {
        let control = next.packed.control();
        let cpu = self.core.cpu_of(next.owner);
        self.core.control(&control);
        self.core.go_on(next.owner, following(&control, cpu));
        record_shutdown(self.system, &control, behind);
    }

    /// A service with a status, which goes to r0, with its results behind it. It answers the
    /// status, and leaves the results of those that have some.
    #[inline(never)]
    pub fn execute_service(
        &mut self,
        next: &Next,
        results: &mut Results,
        behind: &mut TickRecord,
    ) -> Status
        requires comes { ComesTo self.old next.now behind.old }
        requires call { IsCall (instr_of next.now.packed) }
        requires none { results.old ≡ Results.Nothing }
        ensures does { DoesWithin 2 execute_phase_in self.old self.new []
            (TraceEvent.Executed next.now.owner next.now.place (instr_of next.now.packed)
            (Outcome.Answer result results.new) ∷ behind.new) }
        ensures few { HasFewJobs (system_of self.old) }
    {
        let status = self.core.serve(next.owner, next.packed, results);
        self.core.answer(next.owner, status, results);
        record_refusal(self.system, next, status, behind);
        status
    }
}

/// Records what a service answers other than E_OK, where ErrorHook is on. Only then is the
/// instruction unpacked again.
#[inline(always)]
fn record_refusal(system: &System, next: &Next, status: Status, behind: &mut TickRecord)
    requires call { IsCall (instr_of next.now.packed) }
    requires room { length behind.old < MAX_RECORDS }
    ensures { Adds (error_record system.now (Source.Owner next.now.owner)
        (Instr.Service (service_of (instr_of next.now.packed))) status) behind.old behind.new }
{
    if status != Status::Ok && system.hooks().error {
        behind.push(TraceEvent::Error(
            Source::Owner(next.owner),
            Instr::Service(next.packed.service()),
            status,
        ));
    }
}

/// Whether an instruction is a service that makes or ends one job where it is answered E_OK.
#[inline(always)]
pub fn changes_job(packed: PackedInstr) -> bool
    ensures { result ≡ if_service changes_job (instr_of packed) }
{
    packed.makes_job() || packed.ends_job()
}

/// The task on which a service acts.
#[inline(always)]
pub fn acting_task(service: &Service<Register>) -> Option<TaskId>
    ensures { result ≡ named_by (Instr.Service service.now) }
{
    match service {
        Service::ActivateTask(task) => *task,
        Service::ChainTask(task) => *task,
        Service::SetEvent(task, _) => *task,
        _ => None,
    }
}

/// Where who executes a service without a status goes on: behind it, but not at the end of a
/// routine.
#[inline(always)]
fn following(control: &Control, cpu: Cpu) -> Cpu
    requires { ends_routine control.now ≡ false → cpu.place + 1 < MAX_INSTRUCTIONS }
    ensures { result ≡ control_context control.now cpu }
{
    let mut next = cpu;
    match control {
        Control::ReturnFromInterrupt => {}
        _ => next.go_on(),
    }
    next
}

/// Records a ShutdownOS, where ShutdownHook is on.
#[inline(always)]
fn record_shutdown(system: &System, control: &Control, records: &mut TickRecord)
    requires { length records.old < MAX_RECORDS }
    ensures { Adds (shutdown_record system.now control.now) records.old records.new }
{
    if let Control::ShutdownOs(number) = control
        && system.hooks().shutdown
    {
        records.push(TraceEvent::Shutdown(*number));
    }
}
