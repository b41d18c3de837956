//! OSEK/VDX OS: system services. What is known at a node of who calls.

ghost use Rattle.std.specs.Prelude.{◌≡◌, ◌&&◌, nat_le};
ghost use Rattle.std.specs.List.{list_any};
ghost use Rattle.osek_base.specs.Alarm.{is_bad_cycle};
ghost use Rattle.osek_base.specs.Lists.{last_of, same_resource};
ghost use Rattle.osek_base.specs.Service.{by_routine, caller_holds, caller_may_take, got_last, holds_any, is_above_ceiling, is_basic_caller, is_own_task, is_resource, may_take};
ghost use Rattle.osek_base.specs.System.{activation_of, counter, counter_of, priority_of};
ghost use Rattle.law_nodes.specs.Services.{caller_at};
ghost use Rattle.analysis_nodes.specs.Nodes.{node_by};

use crate::node::Node;
use osek_base::{AlarmId, Counter, CounterId, Owner, ResId, System, TaskId};

/// Whether a routine calls.
pub(crate) fn by_routine(node: &Node) -> bool
    ensures { result ≡ by_routine (caller_at (node_by node.now)) }
{
    match node.owner {
        Owner::Task(_) => false,
        Owner::Routine(_) => true,
    }
}

/// Whether the caller holds a resource, the internal one aside.
pub(crate) fn holds_any(node: &Node) -> bool
    ensures { result ≡ holds_any (caller_at (node_by node.now)) }
{
    match node.owner {
        Owner::Task(_) => !node.held.is_empty(),
        Owner::Routine(_) => false,
    }
}

/// Whether the caller is a job of the task.
pub(crate) fn is_own_task(node: &Node, task: TaskId) -> bool
    ensures { result ≡ is_own_task (caller_at (node_by node.now)) task }
{
    match node.owner {
        Owner::Task(own) => own.number() == task.number(),
        Owner::Routine(_) => false,
    }
}

/// The greatest number of jobs that a task may have at once, 0 where there is no such task.
fn activation_of(system: &System, task: TaskId) -> u8
    ensures { result ≡ activation_of system.now task }
{
    match system.parts().tasks.get(task.number() as usize) {
        None => 0,
        Some(task) => task.activation,
    }
}

/// Whether the caller is the one job that its task may have.
pub(crate) fn is_only_job(system: &System, node: &Node, task: TaskId) -> bool
    ensures { result ≡ (is_own_task (caller_at (node_by node.now)) task
        && nat_le (activation_of system.now task) 1) }
{
    let own = is_own_task(node, task);
    let one = activation_of(system, task) <= 1;
    own && one
}

/// Whether the caller is a job of a basic task.
pub(crate) fn is_basic_caller(system: &System, node: &Node) -> bool
    ensures { result ≡ is_basic_caller system.now (caller_at (node_by node.now)) }
{
    match node.owner {
        Owner::Task(own) => !system.is_extended(own),
        Owner::Routine(_) => false,
    }
}

/// Whether a task lists the resource. Each may take RES_SCHEDULER.
fn may_take(system: &System, task: TaskId, resource: &ResId) -> bool
    ensures { result ≡ may_take system.now task resource.now }
{
    match resource {
        ResId::Declared(number) => match system.parts().tasks.get(task.number() as usize) {
            None => false,
            Some(task) => task.lists(*number),
        },
        ResId::Scheduler => true,
    }
}

/// Whether the caller is a job whose task may take a resource.
pub(crate) fn caller_may_take(system: &System, node: &Node, resource: &ResId) -> bool
    ensures { result ≡ caller_may_take system.now (caller_at (node_by node.now)) resource.now }
{
    match node.owner {
        Owner::Task(own) => may_take(system, own, resource),
        Owner::Routine(_) => false,
    }
}

/// Whether two resources are the same.
pub(crate) fn same_resource(a: &ResId, b: &ResId) -> bool
    ensures { result ≡ same_resource a.now b.now }
{
    match a {
        ResId::Declared(m) => match b {
            ResId::Declared(n) => m.number() == n.number(),
            ResId::Scheduler => false,
        },
        ResId::Scheduler => match b {
            ResId::Declared(_) => false,
            ResId::Scheduler => true,
        },
    }
}

/// Whether a resource is in a list.
fn is_among(resource: &ResId, held: &[ResId]) -> bool
    ensures { result ≡ list_any (same_resource resource.now) held.now }
{
    match held.split_first() {
        None => false,
        Some((first, rest)) => {
            if same_resource(resource, first) {
                true
            } else {
                is_among(resource, rest)
            }
        }
    }
}

/// Whether the caller is a job that holds the resource.
pub(crate) fn caller_holds(node: &Node, resource: &ResId) -> bool
    ensures { result ≡ caller_holds (caller_at (node_by node.now)) resource.now }
{
    match node.owner {
        Owner::Task(_) => is_among(resource, &node.held),
        Owner::Routine(_) => false,
    }
}

/// The static priority of a task, 0 where there is no such task.
fn priority_of(system: &System, task: TaskId) -> u8
    ensures { result ≡ priority_of system.now task }
{
    match system.parts().tasks.get(task.number() as usize) {
        None => 0,
        Some(task) => task.priority,
    }
}

/// Whether a resource's ceiling is below the caller's static priority.
pub(crate) fn is_above_ceiling(system: &System, node: &Node, resource: &ResId) -> bool
    ensures { result ≡ is_above_ceiling system.now (caller_at (node_by node.now)) resource.now }
{
    match node.owner {
        Owner::Task(own) => system.ceiling(*resource) < priority_of(system, own),
        Owner::Routine(_) => false,
    }
}

/// Whether a resource is the last of a list.
fn is_last(resource: &ResId, held: &[ResId]) -> bool
    ensures { result ≡ is_resource (last_of held.now) resource.now }
{
    match held.split_first() {
        None => false,
        Some((first, rest)) => match rest.split_first() {
            None => same_resource(first, resource),
            Some(_) => is_last(resource, rest),
        },
    }
}

/// Whether a resource is the last that the caller got and still holds.
pub(crate) fn got_last(node: &Node, resource: &ResId) -> bool
    ensures { result ≡ got_last (caller_at (node_by node.now)) resource.now }
{
    match node.owner {
        Owner::Task(_) => is_last(resource, &node.held),
        Owner::Routine(_) => false,
    }
}

/// The counter of that number, all 0 where there is none.
fn counter(system: &System, number: CounterId) -> Counter
    ensures { result ≡ counter system.now number }
{
    match system.parts().counters.get(number.number() as usize) {
        None => Counter {
            max_allowed_value: 0,
            ticks_per_base: 0,
            min_cycle: 0,
        },
        Some(counter) => *counter,
    }
}

/// The counter of an alarm. An alarm that there isn't is on the first counter.
pub(crate) fn counter_of(system: &System, alarm: AlarmId) -> Counter
    ensures { result ≡ counter_of system.now alarm }
{
    match system.parts().alarms.get(alarm.number() as usize) {
        None => counter(system, CounterId::new(0)),
        Some(alarm) => counter(system, alarm.counter),
    }
}

/// Whether a cycle is refused.
pub(crate) fn is_bad_cycle(counter: &Counter, cycle: u32) -> bool
    ensures { result ≡ is_bad_cycle counter.now cycle }
{
    let short = cycle < counter.min_cycle;
    let long = counter.max_allowed_value < cycle;
    cycle != 0 && (short || long)
}
