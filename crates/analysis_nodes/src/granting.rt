//! OSEK/VDX OS: specification of operating system services. What becomes of who calls a service, by
//! each answer, and what the service starts.

ghost use Rattle.std.specs.Prelude.{ℕ, ◌≡◌, ◌<◌, IfOk, map};
ghost use Rattle.osek_base.specs.declared.instr.Service.{Service};
ghost use Rattle.osek_base.specs.declared.limits.TheConstants.{MAX_INSTRUCTIONS};
ghost use Rattle.osek_base.specs.Lists.{without_last};
ghost use Rattle.osek_base.specs.System.{System};
ghost use Rattle.law_nodes.specs.Services.{granted_by, job_granted, replied, set_by};
ghost use Rattle.analysis_nodes.specs.Nodes.{node_by};
ghost use Rattle.analysis_nodes.specs.Outcomes.{start_by, start_where};

use crate::node::Node;
use crate::outcome::Start;
use crate::results::{Known, answered_node, results_of};
use crate::showing::with_shown;
use crate::stepping::{alone, both, copied};
use osek_base::{
    AlarmId, MAX_INSTRUCTIONS, Owner, Register, ResId, Service, Status, System, TaskId,
};
use std::alloc::{AllocError, Global};

/// A job that chains a task ends.
fn chained(alloc: Global, node: Node, task: Option<TaskId>) -> Result<Vec<Node>, AllocError>
    ensures { (S : System) → IfOk result (λ nodes. map node_by nodes.items
        ≡ job_granted S (Service.ChainTask task) (node_by node)) }
{
    match task {
        None => alone(alloc, node),
        Some(_) => Ok(Vec::new(alloc)),
    }
}

/// A job gets a resource.
fn with_resource(
    alloc: Global,
    node: Node,
    resource: &Option<ResId>,
) -> Result<Vec<Node>, AllocError>
    ensures { (S : System) → IfOk result (λ nodes. map node_by nodes.items
        ≡ job_granted S (Service.GetResource resource.now) (node_by node)) }
{
    match resource {
        None => alone(alloc, node),
        Some(resource) => {
            let mut node = node;
            node.held.push(*resource)?;
            alone(alloc, node)
        }
    }
}

/// The last resource is released.
fn release_last(held: &mut Vec<ResId>)
    ensures { held.new.items ≡ without_last held.old.items }
{
    let _last = held.pop();
}

/// A job releases the resource that it got last.
fn without_resource(
    alloc: Global,
    node: Node,
    resource: &Option<ResId>,
) -> Result<Vec<Node>, AllocError>
    ensures { (S : System) → IfOk result (λ nodes. map node_by nodes.items
        ≡ job_granted S (Service.ReleaseResource resource.now) (node_by node)) }
{
    match resource {
        None => alone(alloc, node),
        Some(_) => {
            let mut node = node;
            release_last(&mut node.held);
            alone(alloc, node)
        }
    }
}

/// The used events, once a job sets some: those of its own task pay for nothing.
fn set_by(owner: Owner, task: TaskId, mask: u32, used: u32) -> u32
    ensures { result ≡ set_by owner task mask used }
{
    match owner {
        Owner::Task(own) => {
            if own.number() == task.number() {
                used | mask
            } else {
                used
            }
        }
        Owner::Routine(_) => used,
    }
}

/// A job sets events of a task.
fn with_set(
    alloc: Global,
    node: Node,
    task: Option<TaskId>,
    mask: u32,
) -> Result<Vec<Node>, AllocError>
    ensures { (S : System) → IfOk result (λ nodes. map node_by nodes.items
        ≡ job_granted S (Service.SetEvent task mask) (node_by node)) }
{
    match task {
        None => alone(alloc, node),
        Some(task) => {
            let mut node = node;
            node.used = set_by(node.owner, task, mask, node.used);
            alone(alloc, node)
        }
    }
}

/// A job clears events.
fn without_events(alloc: Global, node: Node, mask: u32) -> Result<Vec<Node>, AllocError>
    ensures { (S : System) → IfOk result (λ nodes. map node_by nodes.items
        ≡ job_granted S (Service.ClearEvent mask) (node_by node)) }
{
    let mut node = node;
    node.used = node.used ^ (node.used & mask);
    alone(alloc, node)
}

/// A job goes on or waits. Where it goes on, what it would wait for is used.
fn awaiting(alloc: Global, node: Node, mask: u32) -> Result<Vec<Node>, AllocError>
    ensures { (S : System) → IfOk result (λ nodes. map node_by nodes.items
        ≡ job_granted S (Service.WaitEvent mask) (node_by node)) }
{
    let mut waiting = copied(alloc, &node)?;
    waiting.waits_for = Some(mask);
    let mut going_on = node;
    going_on.used |= mask;
    both(alloc, going_on, waiting)
}

/// What a job becomes by a service that isn't refused, once that is answered: no node where it
/// ends, where it may wait, two, and where it gets the events of its own task, one for each set of
/// them that it may find.
fn job_granted(
    alloc: Global,
    system: &System,
    node: Node,
    service: &Service<Register>,
) -> Result<Vec<Node>, AllocError>
    ensures { IfOk result (λ nodes. map node_by nodes.items
        ≡ job_granted system.now service.now (node_by node)) }
{
    match *service {
        Service::TerminateTask => Ok(Vec::new(alloc)),
        Service::ChainTask(task) => chained(alloc, node, task),
        Service::GetResource(resource) => with_resource(alloc, node, &resource),
        Service::ReleaseResource(resource) => without_resource(alloc, node, &resource),
        Service::SetEvent(task, mask) => with_set(alloc, node, task, mask),
        Service::ClearEvent(mask) => without_events(alloc, node, mask),
        Service::GetEvent(task) => with_shown(alloc, system, node, task),
        Service::WaitEvent(mask) => awaiting(alloc, node, mask),
        _ => alone(alloc, node),
    }
}

/// The same of a routine too, which goes on.
fn granted_by(
    alloc: Global,
    system: &System,
    owner: Owner,
    node: Node,
    service: &Service<Register>,
) -> Result<Vec<Node>, AllocError>
    ensures { IfOk result (λ nodes. map node_by nodes.items
        ≡ granted_by system.now owner service.now (node_by node)) }
{
    match owner {
        Owner::Task(_) => job_granted(alloc, system, node, service),
        Owner::Routine(_) => alone(alloc, node),
    }
}

/// What becomes of who calls, where a refusal is the first that applies, and where none is.
pub(crate) fn replied(
    alloc: Global,
    system: &System,
    node: &Node,
    service: &Service<Register>,
    refusal: Option<Status>,
) -> Result<Vec<Node>, AllocError>
    requires { node.now.place < MAX_INSTRUCTIONS }
    ensures { IfOk result (λ nodes. map node_by nodes.items
        ≡ replied system.now (node_by node.now) service.now refusal) }
{
    match refusal {
        None => {
            let found = results_of(system, node, service);
            let next = answered_node(alloc, node, Status::Ok, found)?;
            granted_by(alloc, system, node.owner, next, service)
        }
        Some(status) => {
            let next = answered_node(alloc, node, status, Known::Nothing)?;
            alone(alloc, next)
        }
    }
}

/// An activation of a task, if there is one.
fn activation(task: Option<TaskId>) -> Start
    ensures activated { result ≡ start_by (Service.ActivateTask task) }
    ensures chained { result ≡ start_by (Service.ChainTask task) }
{
    match task {
        None => Start::Nothing,
        Some(task) => Start::Activates(task),
    }
}

/// Events of a task, if there is one.
fn events_set(task: Option<TaskId>, mask: u32) -> Start
    ensures { result ≡ start_by (Service.SetEvent task mask) }
{
    match task {
        None => Start::Nothing,
        Some(task) => Start::Sets(task, mask),
    }
}

/// An alarm that is set, if there is one.
fn alarm_set(alarm: Option<AlarmId>) -> Start
    ensures relative { (increment cycle : ℕ)
        → result ≡ start_by (Service.SetRelAlarm alarm increment cycle) }
    ensures absolute { (start cycle : ℕ)
        → result ≡ start_by (Service.SetAbsAlarm alarm start cycle) }
{
    match alarm {
        None => Start::Nothing,
        Some(alarm) => Start::SetsAlarm(alarm),
    }
}

/// What a service starts.
fn start_by(service: &Service<Register>) -> Start
    ensures { result ≡ start_by service.now }
{
    match *service {
        Service::ActivateTask(task) => activation(task),
        Service::ChainTask(task) => activation(task),
        Service::SetEvent(task, mask) => events_set(task, mask),
        Service::SetRelAlarm(alarm, _, _) => alarm_set(alarm),
        Service::SetAbsAlarm(alarm, _, _) => alarm_set(alarm),
        _ => Start::Nothing,
    }
}

/// What a service starts where it isn't refused.
pub(crate) fn start_where(refusal: Option<Status>, service: &Service<Register>) -> Start
    ensures { result ≡ start_where refusal service.now }
{
    match refusal {
        None => start_by(service),
        Some(_) => Start::Nothing,
    }
}
