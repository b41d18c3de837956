//! OSEK/VDX OS: alarms. What SetRelAlarm and SetAbsAlarm refuse at a node.

ghost use Rattle.std.specs.Prelude.{◌≡◌};
ghost use Rattle.osek_base.specs.declared.instr.Service.{Service};
ghost use Rattle.law_nodes.specs.Services.{is_bad_increment, is_bad_start};
ghost use Rattle.law_nodes.specs.Values.{of_known};
ghost use Rattle.analysis_nodes.specs.Nodes.{node_by};
ghost use Rattle.analysis_nodes.specs.Refusals.{Refuse};

use crate::calling::{counter_of, is_bad_cycle};
use crate::node::Node;
use crate::refusals::{NEVER, Refusals};
use crate::values::known;
use osek_base::{AlarmId, Register, Status, System};

/// Whether an increment and a cycle are refused.
fn is_bad_increment(system: &System, alarm: AlarmId, increment: u32, cycle: u32) -> bool
    ensures { result ≡ is_bad_increment system.now alarm increment cycle }
{
    let counter = counter_of(system, alarm);
    let long = counter.max_allowed_value < increment;
    let bad = is_bad_cycle(&counter, cycle);
    increment == 0 || long || bad
}

/// Whether a start and a cycle are refused.
fn is_bad_start(system: &System, alarm: AlarmId, start: u32, cycle: u32) -> bool
    ensures { result ≡ is_bad_start system.now alarm start cycle }
{
    let counter = counter_of(system, alarm);
    let long = counter.max_allowed_value < start;
    let bad = is_bad_cycle(&counter, cycle);
    long || bad
}

/// Whether an increment and a cycle are refused, where both are known.
fn bad_increment(
    system: &System,
    alarm: AlarmId,
    increment: Option<u32>,
    cycle: Option<u32>,
) -> Option<bool>
    ensures { result ≡ of_known (is_bad_increment system.now alarm) increment cycle }
{
    match increment {
        None => None,
        Some(increment) => match cycle {
            None => None,
            Some(cycle) => Some(is_bad_increment(system, alarm, increment, cycle)),
        },
    }
}

/// Whether a start and a cycle are refused, where both are known.
fn bad_start(
    system: &System,
    alarm: AlarmId,
    start: Option<u32>,
    cycle: Option<u32>,
) -> Option<bool>
    ensures { result ≡ of_known (is_bad_start system.now alarm) start cycle }
{
    match start {
        None => None,
        Some(start) => match cycle {
            None => None,
            Some(cycle) => Some(is_bad_start(system, alarm, start, cycle)),
        },
    }
}

pub(crate) fn of_set_rel(
    system: &System,
    node: &Node,
    alarm: Option<AlarmId>,
    increment: Register,
    cycle: Register,
) -> Refusals
    ensures { Refuse system.now (node_by node.now) result
        (Service.SetRelAlarm alarm increment cycle) }
{
    match alarm {
        None => [(Some(true), Status::Id), NEVER, NEVER],
        Some(alarm) => {
            let increment = known(&node.registers, increment);
            let cycle = known(&node.registers, cycle);
            let bad = bad_increment(system, alarm, increment, cycle);
            [(None, Status::State), (bad, Status::Value), NEVER]
        }
    }
}

pub(crate) fn of_set_abs(
    system: &System,
    node: &Node,
    alarm: Option<AlarmId>,
    start: Register,
    cycle: Register,
) -> Refusals
    ensures { Refuse system.now (node_by node.now) result (Service.SetAbsAlarm alarm start cycle) }
{
    match alarm {
        None => [(Some(true), Status::Id), NEVER, NEVER],
        Some(alarm) => {
            let start = known(&node.registers, start);
            let cycle = known(&node.registers, cycle);
            let bad = bad_start(system, alarm, start, cycle);
            [(None, Status::State), (bad, Status::Value), NEVER]
        }
    }
}
