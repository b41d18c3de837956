//! OSEK/VDX OS: system services. Results of services at a node, and the node behind an answer.

ghost use Rattle.std.specs.Prelude.{◌≡◌, ◌<◌, Some, None, IfOk, if◌then◌else◌, slice_set};
ghost use Rattle.osek_base.specs.declared.instr.Service.{Service};
ghost use Rattle.osek_base.specs.declared.limits.TheConstants.{MAX_INSTRUCTIONS};
ghost use Rattle.osek_base.specs.Tick.{status_number};
ghost use Rattle.osek_base.specs.System.{System};
ghost use Rattle.law_nodes.specs.Services.{Found, answered_node, caller_at, results_of, running_by, with_found};
ghost use Rattle.analysis_nodes.specs.Found.{found_by};
ghost use Rattle.analysis_nodes.specs.Nodes.{node_by};

use crate::calling::{counter_of, is_own_task};
use crate::node::Node;
use crate::stepping::next_node;
use crate::values::Registers;
use osek_base::{
    AlarmId, MAX_INSTRUCTIONS, Owner, Register, ResId, Service, Status, System, TaskId, TaskState,
};
use std::alloc::{AllocError, Global};

/// What is known of results, which go to r1, r2 and r3.
#[derive(Clone, Copy)]
pub(crate) enum Known {
    Nothing,
    One(Option<u32>),
    Three(Option<u32>, Option<u32>, Option<u32>),
}

/// The running task, which isn't known of a routine.
fn running_by(owner: Owner) -> Option<u32>
    ensures { result ≡ running_by owner }
{
    match owner {
        Owner::Task(task) => Some(u32::from(task.number())),
        Owner::Routine(_) => None,
    }
}

/// What is known of the state of a task.
fn state_known(node: &Node, task: Option<TaskId>) -> Known
    ensures { (S : System) → found_by result ≡ results_of S node.now.owner
        (caller_at (node_by node.now)) (Service.GetTaskState task) }
{
    match task {
        None => Known::Nothing,
        Some(task) => {
            if is_own_task(node, task) {
                Known::One(Some(u32::from(TaskState::Running.number())))
            } else {
                Known::One(None)
            }
        }
    }
}

/// What is known of the counter of an alarm.
fn base_known(system: &System, node: &Node, alarm: Option<AlarmId>) -> Known
    ensures { found_by result ≡ results_of system.now node.now.owner
        (caller_at (node_by node.now)) (Service.GetAlarmBase alarm) }
{
    match alarm {
        None => Known::Nothing,
        Some(alarm) => {
            let counter = counter_of(system, alarm);
            Known::Three(
                Some(counter.max_allowed_value),
                Some(counter.ticks_per_base),
                Some(counter.min_cycle),
            )
        }
    }
}

/// One value that isn't known, where the operand isn't INVALID.
fn unknown_where(exists: bool) -> Known
    ensures { found_by result ≡ (if exists then Found.One None else Found.Nothing) }
{
    if exists {
        Known::One(None)
    } else {
        Known::Nothing
    }
}

/// What is known of the results of a service that isn't refused.
pub(crate) fn results_of(system: &System, node: &Node, service: &Service<Register>) -> Known
    ensures { found_by result ≡ results_of system.now node.now.owner
        (caller_at (node_by node.now)) service.now }
{
    match *service {
        Service::GetTaskId => Known::One(running_by(node.owner)),
        Service::GetTaskState(task) => state_known(node, task),
        Service::LoadShared(resource, _) => unknown_where(resource.is_some()),
        Service::GetEvent(task) => unknown_where(task.is_some()),
        Service::GetAlarm(alarm) => unknown_where(alarm.is_some()),
        Service::GetAlarmBase(alarm) => base_known(system, node, alarm),
        _ => Known::Nothing,
    }
}

/// The registers with results.
fn with_found(registers: Registers, found: Known) -> Registers
    ensures { result ≡ with_found (found_by found) registers }
{
    let mut registers = registers;
    match found {
        Known::Nothing => registers,
        Known::One(first) => {
            registers[1] = first;
            registers
        }
        Known::Three(first, second, third) => {
            registers[1] = first;
            registers[2] = second;
            registers[3] = third;
            registers
        }
    }
}

/// The registers behind an answer: the status is in r0, and the results behind it.
fn registers_behind(registers: Registers, status: Status, found: Known) -> Registers
    ensures { result
        ≡ with_found (found_by found) (slice_set registers 0 (Some (status_number status))) }
{
    let mut answered = registers;
    answered[0] = Some(u32::from(status.number()));
    with_found(answered, found)
}

/// The node behind an answer.
pub(crate) fn answered_node(
    alloc: Global,
    node: &Node,
    status: Status,
    found: Known,
) -> Result<Node, AllocError>
    requires { node.now.place < MAX_INSTRUCTIONS }
    ensures { IfOk result (λ next. node_by next
        ≡ answered_node status (found_by found) (node_by node.now)) }
{
    let mut next = next_node(alloc, node)?;
    next.registers = registers_behind(node.registers, status, found);
    Ok(next)
}
