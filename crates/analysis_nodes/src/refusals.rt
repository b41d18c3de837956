//! OSEK/VDX OS: specification of operating system services. What each service refuses at a node.

ghost use Rattle.std.specs.Prelude.{ℕ, ◌≡◌, ◌∷◌, [], Some, None, not, false};
ghost use Rattle.osek_base.specs.declared.ids.ResId.{ResId};
ghost use Rattle.osek_base.specs.declared.instr.Service.{Service};
ghost use Rattle.osek_base.specs.declared.status.Status.{Status};
ghost use Rattle.osek_base.specs.Lists.{same_resource};
ghost use Rattle.osek_base.specs.Service.{by_routine, caller_holds, holds_any, is_own_task};
ghost use Rattle.osek_base.specs.System.{System, is_extended};
ghost use Rattle.law_nodes.specs.Services.{at_least, at_most, caller_at};
ghost use Rattle.analysis_nodes.specs.Nodes.{node_by};
ghost use Rattle.analysis_nodes.specs.Refusals.{Refuse};

use crate::alarm_refusals::{of_set_abs, of_set_rel};
use crate::calling::{
    by_routine, caller_holds, caller_may_take, got_last, holds_any, is_above_ceiling,
    is_basic_caller, is_only_job, is_own_task, same_resource,
};
use crate::node::Node;
use osek_base::{Register, ResId, Service, Status, System, TaskId};

/// A test, as far as a node decides it, and what is answered where it applies.
pub(crate) type Refusal = (Option<bool>, Status);

/// The tests of a service, in the order in which they are tried.
pub(crate) type Refusals = [Refusal; 3];

/// One that never applies.
pub(crate) const NEVER: Refusal = (Some(false), Status::Ok);

/// A test that applies at least where that holds.
fn at_least(holds: bool) -> Option<bool>
    ensures { result ≡ at_least holds }
{
    if holds { Some(true) } else { None }
}

/// A test that applies at most where that holds.
fn at_most(holds: bool) -> Option<bool>
    ensures { result ≡ at_most holds }
{
    if holds { None } else { Some(false) }
}

fn of_activate(system: &System, node: &Node, task: Option<TaskId>) -> Refusals
    ensures { Refuse system.now (node_by node.now) result (Service.ActivateTask task) }
{
    match task {
        None => [(Some(true), Status::Id), NEVER, NEVER],
        Some(task) => {
            let full = is_only_job(system, node, task);
            [(at_least(full), Status::Limit), NEVER, NEVER]
        }
    }
}

fn of_chain(node: &Node, task: Option<TaskId>) -> Refusals
    ensures { (S : System) → Refuse S (node_by node.now) result (Service.ChainTask task) }
{
    let level = (Some(by_routine(node)), Status::CallLevel);
    match task {
        None => [level, (Some(true), Status::Id), NEVER],
        Some(task) => {
            let resource = (Some(holds_any(node)), Status::Resource);
            let other = !is_own_task(node, task);
            [level, resource, (at_most(other), Status::Limit)]
        }
    }
}

fn of_get_resource(system: &System, node: &Node, resource: &Option<ResId>) -> Refusals
    ensures { Refuse system.now (node_by node.now) result (Service.GetResource resource.now) }
{
    match resource {
        None => [(Some(true), Status::Id), NEVER, NEVER],
        Some(resource) => {
            let level = (Some(by_routine(node)), Status::Access);
            let unlisted = !caller_may_take(system, node, resource);
            let own = caller_holds(node, resource);
            [
                level,
                (Some(unlisted), Status::Access),
                (Some(own), Status::Access),
            ]
        }
    }
}

fn of_release_resource(system: &System, node: &Node, resource: &Option<ResId>) -> Refusals
    ensures { Refuse system.now (node_by node.now) result (Service.ReleaseResource resource.now) }
{
    match resource {
        None => [(Some(true), Status::Id), NEVER, NEVER],
        Some(resource) => {
            let level = (Some(by_routine(node)), Status::Access);
            let above = is_above_ceiling(system, node, resource);
            let other = !got_last(node, resource);
            [
                level,
                (Some(above), Status::Access),
                (Some(other), Status::NoFunc),
            ]
        }
    }
}

fn of_load(node: &Node, resource: &Option<ResId>) -> Refusals
    ensures { (S : System) (index : ℕ) → Refuse S (node_by node.now) result
        (Service.LoadShared resource.now index) }
{
    match resource {
        None => [(Some(true), Status::Id), NEVER, NEVER],
        Some(resource) => of_shared(node, resource),
    }
}

fn of_store(node: &Node, resource: &Option<ResId>) -> Refusals
    ensures { (S : System) (index value : ℕ) → Refuse S (node_by node.now) result
        (Service.StoreShared resource.now index value) }
{
    match resource {
        None => [(Some(true), Status::Id), NEVER, NEVER],
        Some(resource) => of_shared(node, resource),
    }
}

/// What is refused of the window of a resource.
fn of_shared(node: &Node, resource: &ResId) -> Refusals
    ensures { result
        ≡ (Some (by_routine (caller_at (node_by node.now))), Status.Access)
        ∷ (Some (same_resource ResId.Scheduler resource.now), Status.Access)
        ∷ (Some (not (caller_holds (caller_at (node_by node.now)) resource.now)), Status.Access)
        ∷ [] }
{
    let level = (Some(by_routine(node)), Status::Access);
    let scheduler = same_resource(&ResId::Scheduler, resource);
    let other = !caller_holds(node, resource);
    [
        level,
        (Some(scheduler), Status::Access),
        (Some(other), Status::Access),
    ]
}

fn of_set_event(system: &System, node: &Node, task: Option<TaskId>) -> Refusals
    ensures { (mask : ℕ) → Refuse system.now (node_by node.now) result
        (Service.SetEvent task mask) }
{
    match task {
        None => [(Some(true), Status::Id), NEVER, NEVER],
        Some(task) => of_events(system, node, task),
    }
}

fn of_get_event(system: &System, node: &Node, task: Option<TaskId>) -> Refusals
    ensures { Refuse system.now (node_by node.now) result (Service.GetEvent task) }
{
    match task {
        None => [(Some(true), Status::Id), NEVER, NEVER],
        Some(task) => of_events(system, node, task),
    }
}

/// What is refused of the events of a task.
fn of_events(system: &System, node: &Node, task: TaskId) -> Refusals
    ensures { result
        ≡ (Some (not (is_extended system.now task)), Status.Access)
        ∷ (at_most (not (is_own_task (caller_at (node_by node.now)) task)), Status.State)
        ∷ (Some false, Status.Ok) ∷ [] }
{
    let basic = !system.is_extended(task);
    let other = !is_own_task(node, task);
    [
        (Some(basic), Status::Access),
        (at_most(other), Status::State),
        NEVER,
    ]
}

/// What TerminateTask and Schedule refuse.
fn of_ending(node: &Node) -> Refusals
    ensures { result
        ≡ (Some (by_routine (caller_at (node_by node.now))), Status.CallLevel)
        ∷ (Some (holds_any (caller_at (node_by node.now))), Status.Resource)
        ∷ (Some false, Status.Ok) ∷ [] }
{
    let level = (Some(by_routine(node)), Status::CallLevel);
    let resource = (Some(holds_any(node)), Status::Resource);
    [level, resource, NEVER]
}

fn of_clear_event(system: &System, node: &Node) -> Refusals
    ensures { (mask : ℕ) → Refuse system.now (node_by node.now) result (Service.ClearEvent mask) }
{
    let level = (Some(by_routine(node)), Status::CallLevel);
    let basic = (Some(is_basic_caller(system, node)), Status::Access);
    [level, basic, NEVER]
}

fn of_wait_event(system: &System, node: &Node) -> Refusals
    ensures { (mask : ℕ) → Refuse system.now (node_by node.now) result (Service.WaitEvent mask) }
{
    let level = (Some(by_routine(node)), Status::CallLevel);
    let basic = (Some(is_basic_caller(system, node)), Status::Access);
    let resource = (Some(holds_any(node)), Status::Resource);
    [level, basic, resource]
}

/// Where the operand alone decides: INVALID is refused.
fn of_operand(exists: bool) -> Refusals
    ensures { result
        ≡ (Some (not exists), Status.Id) ∷ (Some false, Status.Ok) ∷ (Some false, Status.Ok) ∷ [] }
{
    [(Some(!exists), Status::Id), NEVER, NEVER]
}

/// Where INVALID is refused, and an alarm maybe that isn't in use.
fn of_alarm(exists: bool) -> Refusals
    ensures { result
        ≡ (Some (not exists), Status.Id) ∷ (None, Status.NoFunc) ∷ (Some false, Status.Ok) ∷ [] }
{
    [(Some(!exists), Status::Id), (None, Status::NoFunc), NEVER]
}

/// What a service refuses at a node: what may be the first of these that applies is exactly what
/// may be the first refusal.
pub(crate) fn refusals_of(system: &System, node: &Node, service: &Service<Register>) -> Refusals
    ensures { Refuse system.now (node_by node.now) result service.now }
{
    match *service {
        Service::ActivateTask(task) => of_activate(system, node, task),
        Service::TerminateTask => of_ending(node),
        Service::ChainTask(task) => of_chain(node, task),
        Service::Schedule => of_ending(node),
        Service::GetTaskId => of_operand(true),
        Service::GetTaskState(task) => of_operand(task.is_some()),
        Service::GetResource(resource) => of_get_resource(system, node, &resource),
        Service::ReleaseResource(resource) => of_release_resource(system, node, &resource),
        Service::LoadShared(resource, _) => of_load(node, &resource),
        Service::StoreShared(resource, _, _) => of_store(node, &resource),
        Service::SetEvent(task, _) => of_set_event(system, node, task),
        Service::ClearEvent(_) => of_clear_event(system, node),
        Service::GetEvent(task) => of_get_event(system, node, task),
        Service::WaitEvent(_) => of_wait_event(system, node),
        Service::SetRelAlarm(alarm, increment, cycle) => {
            of_set_rel(system, node, alarm, increment, cycle)
        }
        Service::SetAbsAlarm(alarm, start, cycle) => of_set_abs(system, node, alarm, start, cycle),
        Service::CancelAlarm(alarm) => of_alarm(alarm.is_some()),
        Service::GetAlarm(alarm) => of_alarm(alarm.is_some()),
        Service::GetAlarmBase(alarm) => of_operand(alarm.is_some()),
    }
}
