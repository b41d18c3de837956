//! OSEK/VDX OS: system services. The core of a kernel: the objects of a running system, which stand for a state of it.

ghost use Rattle.std.specs.Prelude.{◌≡◌, ◌<◌, ◌≤◌, ◌+◌, ◌&&◌, ◌||◌, IfOk, IfSome, MatchOption, Some, false, true, slice_index, slice_set, length, not};
ghost use Rattle.osek_base.specs.declared.instr.Service.{Service};
ghost use Rattle.osek_base.specs.State.{shared_window, still};
ghost use Rattle.osek_base.specs.Tick.{answered};
ghost use Rattle.osek_base.specs.Trace.{starting_alarms};
ghost use Rattle.law_runs.proofs.Formed.{IsPlaced};
ghost use Rattle.law_kept.specs.KeptService.{ByNobody, caller_in};
ghost use Rattle.law_kept.specs.KeptTick.{silent_in, start_phase_in, still_in, with_context_in};
ghost use Rattle.law_kept.specs.Moves.{contender, rescheduled};
ghost use Rattle.law_kept.specs.Standing.{MayServe, runner_waits};
ghost use Rattle.services.specs.AsDefined.{HasActed, IsControlled, IsServed};
ghost use Rattle.services.specs.Calls.{call_of, IsExecuting, IsKnown, IsService, IsThere, MayGoOn, caller_as, context_in};
ghost use Rattle.services.specs.Dispatched.{is_refusal, is_runner_outranked, may_dispatch};
ghost use Rattle.machine.specs.Packed.{instr_of, service_of};
ghost use Rattle.services.specs.Objects.{AreFit, StandsFor, kept_in};
ghost use Rattle.services.specs.PlainSteps.{ExecutesPlain, IsPlainAt, plain_context};
ghost use Rattle.services.specs.Steps.{Advances, Becomes, Does, answer_of};
ghost use Rattle.osek_base.specs.declared.trace_event.Results.{Results};

use crate::objects::Objects;
use alarms::DueList;
use machine::{Cpu, PackedInstr, Windows};
use osek_base::{
    Control, Effect, IsrId, MAX_ACTIVATION, MAX_INSTRUCTIONS, MAX_RECORDS, MAX_TICKS, ModeId,
    Owner, Register, ResourceNumber, Results, SHARED_WORDS, Service, Status, System, TaskId,
    TickRecord,
};
use ready_queues::ReadyQueues;
use std::alloc::{AllocError, Global};
use std::marker::Model;

/// The tasks, interrupts, alarms, events and shared words of a running system, over ready queues of any kind. It stands for
/// a state of the definitions, with the same list of ready tasks by level, and the same in all else that is kept. That state
/// is a standing one, as each state of a run is, within a tick too. It needn't be good, as those between ticks are: its
/// running job may wait until the next reschedule. Contracts see what is kept but the words of tasks and routines, and in
/// the clauses `defined` the definitions' states.
#[derive(Drop)]
pub struct Core<'s, Q: ReadyQueues> {
    pub(crate) objects: Objects<'s, Q>,
    /// Set only where a reschedule changes nothing; each step that may call for one takes it back.
    pub(crate) is_dispatched: bool,
    /// Set only where besides no ShutdownOS ended the run, a task runs, and no routine is active or pending.
    pub(crate) is_settled: bool,
}

impl<'s, Q: ReadyQueues> Model for Core<'s, Q> {
    ghost use Rattle.services.specs.Objects.{Objects};
    ghost use Rattle.services.specs.Dispatched.{IsCore};

    ghost Value = { Objects };

    ghost view = { λ c. c.objects };

    ghost invariant = { λ c. IsCore c.objects c.is_dispatched c.is_settled };
}

/// Whether a service that is done may call for a reschedule. One that makes or releases a job, or lowers the running one, does
/// so only where a task is ready above the running one.
#[inline(always)]
fn may_dispatch<Q: ReadyQueues>(objects: &Objects<'_, Q>, service: &Service<Register>) -> bool
    requires { AreFit objects.now }
    ensures { result
        ≡ may_dispatch (is_runner_outranked objects.now.system (kept_in objects.now)) service.now }
{
    match service {
        Service::TerminateTask
        | Service::ChainTask(_)
        | Service::Schedule
        | Service::WaitEvent(_) => true,
        Service::ActivateTask(_) | Service::ReleaseResource(_) | Service::SetEvent(..) => {
            objects.is_runner_outranked()
        }
        _ => false,
    }
}

/// Whether a service is refused.
#[inline(always)]
fn is_refusal(status: Status) -> bool
    ensures { result ≡ is_refusal status }
{
    match status {
        Status::Ok => false,
        _ => true,
    }
}

/// Whether what is known of who is to run still holds behind a service: a refused one changed nothing.
#[inline(always)]
fn stays_known<Q: ReadyQueues>(
    objects: &Objects<'_, Q>,
    status: Status,
    packed: PackedInstr,
) -> bool
    requires fit { AreFit objects.now }
    requires call { IsService packed }
    ensures { result
        ≡ (is_refusal status
        || not
        (may_dispatch (is_runner_outranked objects.now.system (kept_in objects.now))
        (service_of (instr_of packed)))) }
{
    is_refusal(status) || !may_dispatch(objects, &packed.service())
}

/// What is known is kept where it still holds.
#[inline(always)]
fn keep_where(known: &mut bool, stays: bool)
    ensures { known.new ≡ (known.old && stays) }
{
    if !stays {
        *known = false;
    }
}

/// After a reschedule, another is known to change nothing where it could dispatch.
#[inline(always)]
fn becomes_known(known: &mut bool, could: bool)
    ensures { known.new ≡ (known.old || could) }
{
    if could {
        *known = true;
    }
}

impl<'s, Q: ReadyQueues> Core<'s, Q> {
    /// No job, no routine, interrupts on, alarms off, masks and shared words 0, with room for as many jobs as the tasks may
    /// have.
    pub fn new(alloc: Global, system: &'s System) -> Result<Self, AllocError>
        ensures system { IfOk result (λ c. c.system ≡ system.now) }
        ensures kept { IfOk result (λ c. kept_in c ≡ still_in system.now) }
        ensures defined { IfOk result (λ c. StandsFor c (still system.now)) }
    {
        Ok(Core {
            objects: Objects::new(alloc, system)?,
            is_dispatched: false,
            is_settled: false,
        })
    }

    /// All that is kept but the words of tasks and routines, for who wants to read it.
    #[inline(always)]
    pub fn objects(&self) -> &Objects<'s, Q>
        ensures { result.now ≡ self.now }
    {
        &self.objects
    }

    /// Sets the alarms that start by themselves in a mode, at tick 0.
    pub fn start_alarms(&mut self, mode: ModeId)
        requires { self.old.tick ≡ 0 }
        ensures { self.new ≡ record self.old { alarms = starting_alarms self.old.system mode } }
    {
        self.objects.start_alarms(mode);
    }

    /// The word of a resource's window.
    pub fn shared_word(&self, resource: ResourceNumber, index: u32) -> u32
        requires resource { resource < length self.now.system.resources }
        requires index { index < SHARED_WORDS }
        ensures { result ≡ slice_index (shared_window self.now.shared resource) index }
    {
        self.objects.shared_word(resource, index)
    }

    /// How many jobs a task has.
    #[inline(always)]
    pub fn job_count(&self, task: TaskId) -> u8
        requires { task < length self.now.system.tasks }
        ensures value { result ≡ ((kept_in self.now).slots task).count }
        ensures few { result ≤ MAX_ACTIVATION }
    {
        self.objects.slot(task).count()
    }

    /// ActivateTask by an alarm, or at boot: a new job of a task, or E_OS_LIMIT where it has as many as its ACTIVATION
    /// allows.
    #[inline(always)]
    pub fn activate(&mut self, task: TaskId) -> Status
        requires { task < length self.old.system.tasks }
        ensures { HasActed (Service.ActivateTask (Some task)) self.old self.new result }
    {
        self.is_dispatched = false;
        self.is_settled = false;
        self.objects.activate(task)
    }

    /// SetEvent by an alarm: a task's events gain a mask, and a job that waits for one of them is released as the newest.
    /// E_OS_ACCESS where the task is basic, E_OS_STATE where it is suspended.
    pub fn set_event(&mut self, task: TaskId, mask: u32) -> Status
        requires task { task < length self.old.system.tasks }
        requires ready { runner_waits (kept_in self.old) ≡ false }
        ensures { HasActed (Service.SetEvent (Some task) mask) self.old self.new result }
    {
        self.is_dispatched = false;
        self.is_settled = false;
        self.objects.set_event(task, mask)
    }

    /// A service without a status, by the active routine, or else by the running task.
    #[inline(always)]
    pub fn control(&mut self, control: &Control)
        requires all { self.old.suspended_all < MAX_TICKS }
        requires os { self.old.suspended_os < MAX_TICKS }
        ensures { IsControlled control.now self.old self.new }
    {
        self.is_dispatched = false;
        self.is_settled = false;
        self.objects.control(control);
    }

    /// A service of a program with a status, by who executes, with the values of its registers. While interrupts are off, it
    /// is answered 32, and nothing changes. Answers the status, and leaves the results of a service that has some.
    #[inline(always)]
    pub fn serve(&mut self, owner: Owner, packed: PackedInstr, results: &mut Results) -> Status
        requires who { IsExecuting (kept_in self.old) owner }
        requires call { IsService packed }
        requires known { IsKnown self.old.system (call_of packed owner self.old) }
        requires serves { MayServe self.old.system (kept_in self.old) }
        requires none { results.old ≡ Results.Nothing }
        ensures { IsServed (call_of packed owner self.old) self.old self.new
            (answer_of result results.new) }
    {
        let status = self.objects.serve_program(owner, packed, results);
        let stays = stays_known(&self.objects, status, packed);
        keep_where(&mut self.is_dispatched, stays);
        keep_where(&mut self.is_settled, stays);
        status
    }

    /// Whether a reschedule is known to change nothing: none of the steps since the last one calls for another.
    #[inline(always)]
    pub fn is_dispatched(&self) -> bool
        ensures { result ≡ true
            → rescheduled self.now.system (kept_in self.now) ≡ silent_in (kept_in self.now) }
    {
        self.is_dispatched
    }

    /// With no routine active and interrupts on, the task that is to run becomes the running one, with a Post record of the
    /// old one and a Pre record of the new one where the running job changes. Answers the task that ran, if its job stood and
    /// didn't wait.
    #[inline(always)]
    pub fn reschedule(&mut self, record_of_tick: &mut TickRecord) -> Option<TaskId>
        requires { length record_of_tick.old + 2 ≤ MAX_RECORDS }
        ensures contender { result ≡ contender (kept_in self.old) }
        ensures known { IfSome result (λ t. t < length self.old.system.tasks) }
        ensures does { Does rescheduled self.old self.new record_of_tick.old record_of_tick.new }
    {
        let runner = self.objects.contender();
        let could = self.objects.reschedule(&runner, record_of_tick);
        becomes_known(&mut self.is_dispatched, could);
        self.is_settled = could && self.objects.is_settled();
        runner
    }

    /// The next tick begins, and the alarms that are due in it expire. The content of `due` becomes these alarms, in
    /// declaration order.
    #[inline(always)]
    pub fn advance(&mut self, due: &mut DueList)
        requires { self.old.tick + 1 < MAX_TICKS }
        ensures { Advances self.old self.new due.new }
    {
        self.objects.advance(due);
    }

    /// The interrupt of a routine arrives: its pending flag is set. One that is pending already is lost.
    pub fn arrive(&mut self, routine: IsrId)
        requires { routine < length self.old.system.routines }
        ensures { self.new ≡ record self.old { pending = slice_set self.old.pending routine true } }
    {
        self.is_settled = false;
        self.objects.arrive(routine);
    }

    /// Where no routine is active and interrupts are on, the pending routine of greatest PRIORITY starts, of equals the
    /// first declared: its registers and its place are 0, and its flag is cleared.
    #[inline(always)]
    pub fn start_routine(&mut self)
        ensures { Becomes start_phase_in self.old self.new }
    {
        self.objects.start_routine();
    }

    /// Who executes: the active routine, else the running task.
    #[inline(always)]
    pub fn executor(&self) -> Option<Owner>
        ensures value { MatchOption result (caller_in (kept_in self.now) ≡ ByNobody)
            (IsExecuting (kept_in self.now)) }
        ensures placed { IfSome result
            (λ w. IsPlaced self.now.system w (context_in (kept_in self.now) w)) }
    {
        self.objects.executor()
    }

    /// The registers and the place of who executes.
    #[inline(always)]
    pub fn cpu_of(&self, owner: Owner) -> Cpu
        requires { IsExecuting (kept_in self.now) owner }
        ensures { result ≡ context_in (kept_in self.now) owner }
    {
        self.objects.cpu_of(owner).save()
    }

    /// A plain instruction of who executes, on its registers, its place and its window.
    #[inline(always)]
    pub fn exec_packed(
        &mut self,
        windows: &mut Windows,
        owner: Owner,
        packed: PackedInstr,
    ) -> Effect
        requires who { IsExecuting (kept_in self.old) owner }
        requires plain { IsPlainAt packed (context_in (kept_in self.old) owner) }
        requires placed { IsPlaced self.old.system owner
            (plain_context packed (context_in (kept_in self.old) owner) windows.old owner) }
        ensures { ExecutesPlain packed owner self.old self.new windows.old windows.new result }
    {
        self.objects.exec_packed(windows, owner, packed)
    }

    /// Gives who executed other registers and another place, where it is still there.
    #[inline(always)]
    pub fn go_on(&mut self, owner: Owner, cpu: Cpu)
        requires who { MayGoOn self.old owner }
        requires placed { IsPlaced self.old.system owner cpu }
        ensures { Becomes (λ _S. with_context_in (caller_as owner) cpu) self.old self.new }
    {
        self.objects.go_on(owner, cpu);
    }

    /// Who called takes what a service answers, and goes on to the next instruction, where it is still there.
    #[inline(always)]
    pub fn answer(&mut self, owner: Owner, status: Status, results: &Results)
        requires who { MayGoOn self.old owner }
        requires room { IsThere self.old owner
            → (context_in (kept_in self.old) owner).place + 1 < MAX_INSTRUCTIONS }
        requires placed { IsThere self.old owner
            → IsPlaced self.old.system owner
            (answered status results.now (context_in (kept_in self.old) owner)) }
        ensures { Becomes
            (λ _S o. with_context_in (caller_as owner)
            (answered status results.now (context_in o owner)) o) self.old self.new }
    {
        self.objects.answer(owner, status, results);
    }
}
