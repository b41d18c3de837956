//! OSEK/VDX OS: alarms, counters and alarm management. By how many counts alarms are set at least.

ghost use Rattle.std.specs.Prelude.{ℕ, ◌≡◌, ◌<◌, ◌&&◌, IsTrue, length, nat_le, true};
ghost use Rattle.osek_base.specs.declared.instr.Instr.{Instr};
ghost use Rattle.osek_base.specs.System.{instruction_at, instruction_in};
ghost use Rattle.law_nodes.specs.Setting.{is_slow, is_sure, sets_slowly, starts_slowly};
ghost use Rattle.law_nodes.specs.Values.{known, of_known};
ghost use Rattle.analysis_nodes.specs.Nodes.{node_by};
ghost use Rattle.analysis_bounds.specs.Levels.{numbered};
ghost use Rattle.analysis_bounds.specs.Pacing.{AreSlow, NodeIsSlow, NodesAreSlow, StartsAreSlow};

use crate::pacing::count_at;
use analysis_nodes::{Graph, Node};
use osek_base::{AlarmId, Instr, Line, ModeId, Owner, Plain, REGISTERS, Register, Service, System};
use std::alloc::{AllocError, Global};

/// The instruction at a place of a program; NOP where there is none.
fn instruction_in(lines: &[Line], place: usize) -> Instr
    ensures { result ≡ instruction_in lines.now place }
{
    match lines.get(place) {
        None => Instr::Plain(Plain::Nop),
        Some(line) => *line.instr(),
    }
}

/// The instruction at a node.
pub(crate) fn instruction_of(system: &System, node: &Node) -> Instr
    ensures { result ≡ instruction_at system.now node.now.owner node.now.place }
{
    let parts = system.parts();
    let place = node.place as usize;
    match &node.owner {
        Owner::Task(task) => match parts.tasks.get(task.number() as usize) {
            None => Instr::Plain(Plain::Nop),
            Some(task) => instruction_in(task.program.lines(), place),
        },
        Owner::Routine(routine) => match parts.routines.get(routine.number() as usize) {
            None => Instr::Plain(Plain::Nop),
            Some(routine) => instruction_in(routine.program.lines(), place),
        },
    }
}

/// The value of a register, if it is known.
pub(crate) fn known(registers: &[Option<u32>; REGISTERS], register: Register) -> Option<u32>
    ensures { result ≡ known registers.now register }
{
    registers[register.number() as usize]
}

/// Whether a cycle is of so many counts at least, or none.
fn is_slow(least: u32, cycle: u32) -> bool
    ensures { result ≡ is_slow least cycle }
{
    cycle == 0 || least <= cycle
}

/// Whether an increment and a cycle are known, and of so many counts at least.
fn are_slow_times(least: u32, increment: Option<u32>, cycle: Option<u32>) -> bool
    ensures { result ≡ is_sure (of_known (λ i c. nat_le least i && is_slow least c) increment cycle) }
{
    match increment {
        None => false,
        Some(increment) => match cycle {
            None => false,
            Some(cycle) => least <= increment && is_slow(least, cycle),
        },
    }
}

/// Whether a service sets its alarm by so many counts at least, where that is more than one.
fn service_is_slow(
    least: &[u32],
    registers: &[Option<u32>; REGISTERS],
    service: &Service<Register>,
) -> bool
    ensures { IsTrue result → (a : ℕ) → 1 < numbered least.now a
        → sets_slowly a (numbered least.now a) registers.now (Instr.Service service.now) ≡ true }
{
    match service {
        Service::SetRelAlarm(operand, increment, cycle) => match operand {
            None => true,
            Some(alarm) => {
                let few = count_at(least, alarm.number() as usize);
                few <= 1
                    || are_slow_times(few, known(registers, *increment), known(registers, *cycle))
            }
        },
        Service::SetAbsAlarm(operand, _, _) => match operand {
            None => true,
            Some(alarm) => count_at(least, alarm.number() as usize) <= 1,
        },
        _ => true,
    }
}

/// Whether who is at a node does.
fn node_is_slow(system: &System, least: &[u32], node: &Node) -> bool
    ensures { IsTrue result → NodeIsSlow system.now least.now (node_by node.now) }
{
    match instruction_of(system, node) {
        Instr::Service(service) => service_is_slow(least, &node.registers, &service),
        _ => true,
    }
}

/// Whether who is at any node does.
fn nodes_are_slow(system: &System, graph: &Graph, least: &[u32]) -> bool
    ensures { IsTrue result
        → NodesAreSlow system.now graph.now least.now (length graph.now.nodes.items) }
{
    for number in 0..graph.nodes.len() {
        let node = &graph.nodes[number];
        if !node_is_slow(system, least, node) {
            return false;
        }
    }
    true
}

/// Whether boot sets an alarm to a cycle of so many counts at least, or to none, or doesn't.
fn starts_slowly(least: u32, start: Option<(u32, u32)>) -> bool
    ensures { result ≡ starts_slowly least start }
{
    match start {
        None => true,
        Some((_, cycle)) => is_slow(least, cycle),
    }
}

/// Whether alarms are set by a count at least, and by boot so.
fn starts_are_slow(system: &System, mode: ModeId, least: &[u32]) -> bool
    ensures { IsTrue result
        → StartsAreSlow system.now mode least.now (length system.now.alarms) }
{
    for number in 0..system.alarm_count() {
        let few = count_at(least, number);
        if few < 1 {
            return false;
        }
        if !starts_slowly(few, system.alarm_start(mode, AlarmId::new(number as u8))) {
            return false;
        }
    }
    true
}

/// Whether each alarm is set by so many counts at least, by boot and by who is at a node; at true
/// it is, whatever its expiries cost.
pub fn are_slow(system: &System, mode: ModeId, graph: &Graph, least: &[u32]) -> bool
    ensures { IsTrue result → AreSlow system.now mode graph.now least.now }
{
    starts_are_slow(system, mode, least) && nodes_are_slow(system, graph, least)
}

// ---- how many counts that are

/// Lowers a number of a list, at least to 1.
fn lower(least: &mut [u32], number: usize, counts: u32) {
    if number < least.len() {
        least[number] = least[number].min(counts.max(1));
    }
}

/// Lowers the number of an alarm that is set at a node.
fn note_service(
    least: &mut [u32],
    registers: &[Option<u32>; REGISTERS],
    service: &Service<Register>,
) {
    match service {
        Service::SetRelAlarm(Some(alarm), increment, cycle) => {
            let number = alarm.number() as usize;
            lower(least, number, known(registers, *increment).unwrap_or(1));
            let cycle = known(registers, *cycle).unwrap_or(1);
            if cycle > 0 {
                lower(least, number, cycle);
            }
        }
        Service::SetAbsAlarm(Some(alarm), _, _) => lower(least, alarm.number() as usize, 1),
        _ => {}
    }
}

/// The cycle to which boot sets an alarm, if it does.
fn cycle_of_boot(start: Option<(u32, u32)>) -> u32 {
    match start {
        Some((_, cycle)) if cycle > 0 => cycle,
        _ => u32::MAX,
    }
}

/// By how many counts each alarm is set at least: by the increments and cycles that are known at
/// nodes, and by the cycle of AUTOSTART; 1 where one isn't known. An error is want of memory.
pub(crate) fn least_counts(
    alloc: Global,
    system: &System,
    mode: ModeId,
    graph: &Graph,
) -> Result<Vec<u32>, AllocError> {
    let mut least = Vec::new(alloc);
    for number in 0..system.alarm_count() {
        let start = system.alarm_start(mode, AlarmId::new(number as u8));
        least.push(cycle_of_boot(start))?;
    }
    for node in &graph.nodes {
        if let Instr::Service(service) = instruction_of(system, node) {
            note_service(&mut least, &node.registers, &service);
        }
    }
    Ok(least)
}
