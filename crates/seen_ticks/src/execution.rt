//! OSEK/VDX OS: task management. What the instruction of a tick is to tasks and routines.

ghost use Rattle.std.specs.Prelude.{◌≡◌, IfSome};
ghost use Rattle.std.specs.Option.{option_map};
ghost use Rattle.osek_base.specs.declared.ids.Owner.{Owner};
ghost use Rattle.osek_base.specs.Executed.{StandsIn};
ghost use Rattle.osek_base.specs.Lists.{same_owner};
ghost use Rattle.seen_ticks.specs.Observed.{
  activates,
  answered,
  ending,
  failure_by,
  failure_of,
  instruction,
  is_accepted,
  is_by,
  is_end,
  is_limit,
  moved,
  moves,
  owner_of,
  refusing,
  status_of,
  task_of,
};

use crate::failures::Failure;
use osek_base::{Executed, Instr, IsrId, Outcome, Owner, Service, Status, System, TaskId};

/// What a tick executed, and the tasks that it concerns.
#[derive(Clone, Copy)]
pub struct Execution {
    /// What was executed; None in an idle tick.
    pub executed: Option<Executed>,
    /// The task of which a job ends.
    pub ending: Option<TaskId>,
    /// The task of which an activation is refused.
    pub refusing: Option<TaskId>,
    /// Whether a resource is got or released.
    pub moved: bool,
}

impl Execution {
    /// Nothing, as in an idle tick.
    pub fn nothing() -> Self {
        Execution {
            executed: None,
            ending: None,
            refusing: None,
            moved: false,
        }
    }

    /// What the system's instruction at its place is to tasks.
    #[inline(always)]
    pub fn of(system: &System, executed: Option<Executed>) -> Self
        requires { IfSome executed (StandsIn system.now) }
        ensures executed { result.executed ≡ executed }
        ensures ending { result.ending ≡ ending system.now executed }
        ensures refusing { result.refusing ≡ refusing system.now executed }
        ensures moved { result.moved ≡ moved system.now executed }
    {
        Execution {
            executed,
            ending: ending(system, &executed),
            refusing: refusing(system, &executed),
            moved: moved(system, &executed),
        }
    }
}

/// The instruction that was executed.
#[inline(always)]
fn instruction(system: &System, executed: &Executed) -> Instr
    requires { StandsIn system.now executed.now }
    ensures { result ≡ instruction system.now executed.now }
{
    system.instruction_at(executed.owner, executed.place)
}

/// Whether an instruction ends the job that executes it.
#[inline(always)]
fn is_end(instr: &Instr) -> bool
    ensures { result ≡ is_end instr.now }
{
    match instr {
        Instr::Service(Service::TerminateTask) | Instr::Service(Service::ChainTask(_)) => true,
        _ => false,
    }
}

/// The task that an instruction activates.
#[inline(always)]
fn activates(instr: &Instr) -> Option<TaskId>
    ensures { result ≡ activates instr.now }
{
    match instr {
        Instr::Service(Service::ActivateTask(task)) | Instr::Service(Service::ChainTask(task)) => {
            *task
        }
        _ => None,
    }
}

/// Whether an instruction gets or releases a resource.
#[inline(always)]
fn moves(instr: &Instr) -> bool
    ensures { result ≡ moves instr.now }
{
    match instr {
        Instr::Service(Service::GetResource(_)) | Instr::Service(Service::ReleaseResource(_)) => {
            true
        }
        _ => false,
    }
}

#[inline(always)]
fn is_accepted(outcome: &Outcome) -> bool
    ensures { result ≡ is_accepted outcome.now }
{
    matches!(outcome, Outcome::Answer(Status::Ok, _))
}

#[inline(always)]
fn is_limit(outcome: &Outcome) -> bool
    ensures { result ≡ is_limit outcome.now }
{
    matches!(outcome, Outcome::Answer(Status::Limit, _))
}

#[inline(always)]
fn task_of(owner: &Owner) -> Option<TaskId>
    ensures { result ≡ task_of owner.now }
{
    match owner {
        Owner::Task(task) => Some(*task),
        Owner::Routine(_) => None,
    }
}

/// The task of which a job ends by what was executed.
#[inline(always)]
fn ending(system: &System, executed: &Option<Executed>) -> Option<TaskId>
    requires { IfSome executed.now (StandsIn system.now) }
    ensures { result ≡ ending system.now executed.now }
{
    match executed {
        None => None,
        Some(it) if is_accepted(&it.outcome) && is_end(&instruction(system, it)) => {
            task_of(&it.owner)
        }
        Some(_) => None,
    }
}

/// The task of which an activation was refused with E_OS_LIMIT.
#[inline(always)]
fn refusing(system: &System, executed: &Option<Executed>) -> Option<TaskId>
    requires { IfSome executed.now (StandsIn system.now) }
    ensures { result ≡ refusing system.now executed.now }
{
    match executed {
        None => None,
        Some(it) if is_limit(&it.outcome) => activates(&instruction(system, it)),
        Some(_) => None,
    }
}

/// Whether a resource is got or released.
#[inline(always)]
fn moved(system: &System, executed: &Option<Executed>) -> bool
    requires { IfSome executed.now (StandsIn system.now) }
    ensures { result ≡ moved system.now executed.now }
{
    match executed {
        None => false,
        Some(it) => is_accepted(&it.outcome) && moves(&instruction(system, it)),
    }
}

/// Whose the instruction is.
#[inline(always)]
pub fn executor(executed: &Option<Executed>) -> Option<Owner>
    ensures { result ≡ option_map owner_of executed.now }
{
    match executed {
        None => None,
        Some(executed) => Some(executed.owner),
    }
}

#[inline(always)]
fn status_of(outcome: &Outcome) -> Option<Status>
    ensures { result ≡ status_of outcome.now }
{
    match outcome {
        Outcome::Answer(status, _) => Some(*status),
        _ => None,
    }
}

/// What the instruction is answered, if it is a service with a status.
#[inline(always)]
pub fn answered(executed: &Option<Executed>) -> Option<Status>
    ensures { result ≡ answered executed.now }
{
    match executed {
        None => None,
        Some(executed) => status_of(&executed.outcome),
    }
}

/// An instruction that is answered so, if that is other than E_OK.
#[inline(always)]
fn failure_by(executed: &Executed, answered: Option<Status>) -> Option<Failure>
    ensures { result ≡ failure_by executed.now answered }
{
    match answered {
        Some(status) if status.number() > 0 => Some(Failure {
            owner: executed.owner,
            place: executed.place,
            status,
        }),
        _ => None,
    }
}

/// The instruction, if it is a service that is answered other than E_OK.
#[inline(always)]
pub fn failure(executed: &Option<Executed>) -> Option<Failure>
    ensures { result ≡ failure_of executed.now }
{
    match executed {
        None => None,
        Some(executed) => failure_by(executed, status_of(&executed.outcome)),
    }
}

/// Whether the instruction is of that task or routine.
pub fn is_by(who: Owner, executed: &Option<Executed>) -> bool
    ensures { result ≡ is_by who executed.now }
{
    match executed {
        None => false,
        Some(executed) => is_same_owner(&executed.owner, &who),
    }
}

fn is_same_owner(one: &Owner, other: &Owner) -> bool
    ensures { result ≡ same_owner one.now other.now }
{
    match one {
        Owner::Task(one) => is_tasks(other, *one),
        Owner::Routine(one) => is_routines(other, *one),
    }
}

fn is_tasks(owner: &Owner, task: TaskId) -> bool
    ensures { result ≡ same_owner (Owner.Task task) owner.now }
{
    match owner {
        Owner::Task(other) => task.number() == other.number(),
        Owner::Routine(_) => false,
    }
}

fn is_routines(owner: &Owner, routine: IsrId) -> bool
    ensures { result ≡ same_owner (Owner.Routine routine) owner.now }
{
    match owner {
        Owner::Task(_) => false,
        Owner::Routine(other) => routine.number() == other.number(),
    }
}
