//! OSEK/VDX OS: specification of operating system services. The service table, row by row.

ghost use Rattle.std.specs.Prelude.{◌≡◌};
ghost use Rattle.osek_base.specs.declared.status.Status.{Status};
ghost use Rattle.osek_base.specs.declared.trace_event.Results.{Results};
ghost use Rattle.services.specs.Objects.{kept_in, AreFit};
ghost use Rattle.services.specs.Calls.{call_of, IsKnown, IsOnAlarm, IsService, IsThere};
ghost use Rattle.services.specs.Steps.{Answers, Replies, answer_of};

use crate::objects::Objects;
use machine::PackedInstr;
use osek_base::{Owner, Results, Service, Status};
use ready_queues::ReadyQueues;

/// What a service answers: its status, and at most three results, which come with E_OK alone.
#[derive(Clone, Copy)]
pub struct Answer {
    pub status: Status,
    pub results: Results,
}

impl Answer {
    /// A status without results.
    #[inline(always)]
    pub(crate) fn plain(status: Status) -> Self
        ensures { result ≡ answer_of status Results.Nothing }
    {
        Answer {
            status,
            results: Results::Nothing,
        }
    }

    /// E_OK with results.
    #[inline(always)]
    pub(crate) fn of(results: Results) -> Self
        ensures { result ≡ answer_of Status.Ok results }
    {
        Answer {
            status: Status::Ok,
            results,
        }
    }

    /// E_OK with one result.
    #[inline(always)]
    pub(crate) fn one(value: u32) -> Self
        ensures { result ≡ answer_of Status.Ok (Results.One value) }
    {
        Answer::of(Results::One(value))
    }

    /// Answers the status, and leaves the results.
    #[inline(always)]
    pub(crate) fn give(self, results: &mut Results) -> Status
        ensures { answer_of result results.new ≡ self }
    {
        *results = self.results;
        self.status
    }
}

impl<'s, Q: ReadyQueues> Objects<'s, Q> {
    /// A service of a program with a status, by who executes, with the values of its registers. It is refused with 32 while
    /// interrupts are off, and unpacked only where they are on. Answers the status, and leaves the results of those
    /// that have some.
    #[tactic(auto, unfolding(law_kept::specs::KeptService::service_in, law_kept::specs::KeptService::unasked_in))]
    #[inline(always)]
    pub fn serve_program(
        &mut self,
        owner: Owner,
        packed: PackedInstr,
        results: &mut Results,
    ) -> Status
        requires fit { AreFit self.old }
        requires who { IsThere self.old owner }
        requires call { IsService packed }
        requires known { IsKnown self.old.system (call_of packed owner self.old) }
        requires none { results.old ≡ Results.Nothing }
        ensures { Answers (call_of packed owner self.old) self.old self.new
            (answer_of result results.new) }
    {
        if self.interrupts_off() {
            return Status::SysDisabled;
        }
        let cpu = self.cpu_of(owner);
        let call = cpu.with_values(&packed.service());
        self.serve(&call, results)
    }

    /// A service with a status, interrupts being off aside.
    #[tactic(auto, unfolding(law_kept::specs::KeptService::unasked_in))]
    #[inline(always)]
    fn serve(&mut self, service: &Service<u32>, results: &mut Results) -> Status
        requires fit { AreFit self.old }
        requires known { IsKnown self.old.system service.now }
        requires none { results.old ≡ Results.Nothing }
        ensures { Replies service.now self.old self.new (answer_of result results.new) }
    {
        match *service {
            Service::ActivateTask(task) => match task {
                None => Status::Id,
                Some(task) => self.activate(task),
            },
            Service::TerminateTask => self.terminate(),
            Service::ChainTask(task) => self.chain(task),
            Service::Schedule => self.schedule(),
            Service::GetTaskId => Answer::one(self.running_task()).give(results),
            Service::GetTaskState(task) => match task {
                None => Status::Id,
                Some(task) => Answer::one(self.task_state(task).number() as u32).give(results),
            },
            Service::GetResource(resource) => match &resource {
                None => Status::Id,
                Some(resource) => self.get_resource(resource),
            },
            Service::ReleaseResource(resource) => match &resource {
                None => Status::Id,
                Some(resource) => self.release_resource(resource),
            },
            Service::LoadShared(resource, index) => match &resource {
                None => Status::Id,
                Some(resource) => self.load_shared(resource, index).give(results),
            },
            Service::StoreShared(resource, index, new) => match &resource {
                None => Status::Id,
                Some(resource) => self.store_shared(resource, index, new),
            },
            Service::SetEvent(task, mask) => match task {
                None => Status::Id,
                Some(task) => self.set_event(task, mask),
            },
            Service::ClearEvent(mask) => self.clear_event(mask),
            Service::GetEvent(task) => match task {
                None => Status::Id,
                Some(task) => self.get_event(task).give(results),
            },
            Service::WaitEvent(mask) => self.wait_event(mask),
            _ => self.serve_alarm(service, results),
        }
    }

    /// A service on alarms.
    #[tactic(auto, unfolding(law_kept::specs::KeptService::unasked_in))]
    #[inline(always)]
    fn serve_alarm(&mut self, service: &Service<u32>, results: &mut Results) -> Status
        requires known { IsKnown self.old.system service.now }
        requires alarm { IsOnAlarm service.now }
        requires none { results.old ≡ Results.Nothing }
        ensures { Replies service.now self.old self.new (answer_of result results.new) }
    {
        match *service {
            Service::SetRelAlarm(alarm, increment, cycle) => match alarm {
                None => Status::Id,
                Some(alarm) => self.set_rel_alarm(alarm, increment, cycle),
            },
            Service::SetAbsAlarm(alarm, start, cycle) => match alarm {
                None => Status::Id,
                Some(alarm) => self.set_abs_alarm(alarm, start, cycle),
            },
            Service::CancelAlarm(alarm) => match alarm {
                None => Status::Id,
                Some(alarm) => self.cancel_alarm(alarm),
            },
            Service::GetAlarm(alarm) => match alarm {
                None => Status::Id,
                Some(alarm) => self.get_alarm(alarm).give(results),
            },
            Service::GetAlarmBase(alarm) => match alarm {
                None => Status::Id,
                Some(alarm) => self.get_alarm_base(alarm).give(results),
            },
            _ => unreachable!(),
        }
    }
}
