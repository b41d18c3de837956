//! OSEK/VDX OS: alarms, counters and alarm management. Alarms that pay when they are set: each time
//! for a single expiry.

ghost use Rattle.std.specs.Prelude.{ℕ, ◌≡◌, ◌≤◌, ◌<◌, ◌==◌, ◌||◌, IsTrue, length, not, true};
ghost use Rattle.osek_base.specs.declared.instr.Instr.{Instr};
ghost use Rattle.law_nodes.specs.Setting.{are_set_once, is_zero, sets_once, starts_once};
ghost use Rattle.law_nodes.specs.Values.{known};
ghost use Rattle.analysis_nodes.specs.Graph.{table_of};
ghost use Rattle.analysis_nodes.specs.Nodes.{node_by};
ghost use Rattle.analysis_bounds.specs.Levels.{numbered, weights_of};
ghost use Rattle.analysis_bounds.specs.Paying.{NodeIsOnce, NodesAreOnce, StartsAreOnce};

use crate::circles::alarm_in_circle;
use crate::counting::worked_out;
use crate::level::Level;
use crate::slowness::{instruction_of, known};
use crate::ways::number_at;
use analysis_nodes::{Graph, Node};
use osek_base::{AlarmId, Instr, ModeId, REGISTERS, Register, Service, System};
use std::alloc::{AllocError, Global};

// ---- whether they are set so

/// Whether a cycle is known to be none.
fn is_zero(cycle: Option<u32>) -> bool
    ensures { result ≡ is_zero cycle }
{
    match cycle {
        None => false,
        Some(cycle) => cycle == 0,
    }
}

/// Whether boot sets an alarm to no cycle, or doesn't set it.
fn starts_once(start: Option<(u32, u32)>) -> bool
    ensures { result ≡ starts_once start }
{
    match start {
        None => true,
        Some((_, cycle)) => cycle == 0,
    }
}

/// Whether an alarm that is set doesn't pay, or gets no cycle.
fn alarm_is_once(alarms: &[u64], alarm: AlarmId, cycle: Option<u32>) -> bool
    ensures { IsTrue result → 1 ≤ numbered alarms.now alarm → is_zero cycle ≡ true }
{
    number_at(alarms, alarm.number() as usize) == 0 || is_zero(cycle)
}

/// Whether a service sets no alarm that pays to a cycle.
fn service_is_once(
    alarms: &[u64],
    registers: &[Option<u32>; REGISTERS],
    service: &Service<Register>,
) -> bool
    ensures { IsTrue result → (a : ℕ) → 1 ≤ numbered alarms.now a
        → sets_once a registers.now (Instr.Service service.now) ≡ true }
{
    match service {
        Service::SetRelAlarm(operand, _, cycle) => match operand {
            None => true,
            Some(alarm) => alarm_is_once(alarms, *alarm, known(registers, *cycle)),
        },
        Service::SetAbsAlarm(operand, _, cycle) => match operand {
            None => true,
            Some(alarm) => alarm_is_once(alarms, *alarm, known(registers, *cycle)),
        },
        _ => true,
    }
}

/// .. nor does who is at a node.
fn node_is_once(system: &System, alarms: &[u64], node: &Node) -> bool
    ensures { IsTrue result → NodeIsOnce system.now alarms.now (node_by node.now) }
{
    match instruction_of(system, node) {
        Instr::Service(service) => service_is_once(alarms, &node.registers, &service),
        _ => true,
    }
}

/// .. nor who is at any node.
fn nodes_are_once(system: &System, graph: &Graph, alarms: &[u64]) -> bool
    ensures { IsTrue result
        → NodesAreOnce system.now graph.now alarms.now (length graph.now.nodes.items) }
{
    for number in 0..graph.nodes.len() {
        let node = &graph.nodes[number];
        if !node_is_once(system, alarms, node) {
            return false;
        }
    }
    true
}

/// .. nor boot.
fn starts_are_once(system: &System, mode: ModeId, alarms: &[u64]) -> bool
    ensures { IsTrue result
        → StartsAreOnce system.now mode alarms.now (length system.now.alarms) }
{
    for number in 0..system.alarm_count() {
        let start = system.alarm_start(mode, AlarmId::new(number as u8));
        if number_at(alarms, number) != 0 && !starts_once(start) {
            return false;
        }
    }
    true
}

/// Whether each alarm of a level that pays is set to no cycle, by boot and by who is at a node; at
/// true it is.
pub(crate) fn are_set_once(system: &System, mode: ModeId, graph: &Graph, level: &Level) -> bool
    ensures { IsTrue result
        → are_set_once system.now mode (weights_of level.now) (table_of graph.now) ≡ true }
{
    starts_are_once(system, mode, &level.alarms) && nodes_are_once(system, graph, &level.alarms)
}

// ---- which ones may pay

/// Notes of an alarm that it is set at a node.
fn note_service(
    set: &mut [bool],
    cyclic: &mut [bool],
    registers: &[Option<u32>; REGISTERS],
    service: &Service<Register>,
) {
    let (alarm, cycle) = match service {
        Service::SetRelAlarm(Some(alarm), _, cycle) => (alarm.number() as usize, *cycle),
        Service::SetAbsAlarm(Some(alarm), _, cycle) => (alarm.number() as usize, *cycle),
        _ => return,
    };
    if alarm < set.len() && alarm < cyclic.len() {
        set[alarm] = true;
        cyclic[alarm] = cyclic[alarm] || !is_zero(known(registers, cycle));
    }
}

/// Whether each alarm may pay: programs set it, and it never gets a cycle. An error is want of
/// memory.
pub(crate) fn may_pay(
    alloc: Global,
    system: &System,
    mode: ModeId,
    graph: &Graph,
) -> Result<Vec<bool>, AllocError> {
    let mut set = Vec::new(alloc);
    let mut cyclic = Vec::new(alloc);
    for number in 0..system.alarm_count() {
        let start = system.alarm_start(mode, AlarmId::new(number as u8));
        set.push(false)?;
        cyclic.push(!starts_once(start))?;
    }
    for node in &graph.nodes {
        if let Instr::Service(service) = instruction_of(system, node) {
            note_service(&mut set, &mut cyclic, &node.registers, &service);
        }
    }
    for number in 0..set.len().min(cyclic.len()) {
        set[number] = set[number] && !cyclic[number];
    }
    Ok(set)
}

/// Those that pay at the level of a priority: of each circle that has such alarms one of them
/// doesn't. An error is want of memory.
pub(crate) fn paying_at(
    alloc: Global,
    system: &System,
    graph: &Graph,
    priority: u8,
    may_pay: &[bool],
) -> Result<Vec<bool>, AllocError> {
    let mut paying = Vec::new(alloc);
    for pays in may_pay {
        paying.push(*pays)?;
    }
    for _ in 0..may_pay.len() {
        let needs = worked_out(alloc, system, graph, priority, &paying)?;
        match alarm_in_circle(alloc, system, graph, priority, &needs)? {
            Some(alarm) if alarm < paying.len() => paying[alarm] = false,
            _ => break,
        }
    }
    Ok(paying)
}

/// Whether any pays.
pub(crate) fn is_any(paying: &[bool]) -> bool {
    for pays in paying {
        if *pays {
            return true;
        }
    }
    false
}

/// None pays. An error is want of memory.
pub(crate) fn none_of(alloc: Global, count: usize) -> Result<Vec<bool>, AllocError> {
    let mut paying = Vec::new(alloc);
    for _ in 0..count {
        paying.push(false)?;
    }
    Ok(paying)
}
