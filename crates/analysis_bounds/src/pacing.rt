//! OSEK/VDX OS: alarms, counters and alarm management. How soon alarms are set, and how often they
//! expire.

ghost use Rattle.std.specs.Prelude.{ℕ, ◌*◌, ◌≡◌, ◌==◌, ◌<◌, IfOk, length};
ghost use Rattle.std.specs.List.{list_all};
ghost use Rattle.osek_base.specs.declared.instr.Instr.{Instr};
ghost use Rattle.osek_base.specs.System.{Routine, Task};
ghost use Rattle.law_alarms.specs.Setting.{is_never_set, leaves_alarm, sets_alarm};
ghost use Rattle.law_windows.specs.Expiring.{most_expiries, most_of_boot};
ghost use Rattle.analysis_bounds.specs.Levels.{numbered};
ghost use Rattle.analysis_bounds.specs.Pacing.{ArePaces, most_at};

use osek_base::{AlarmId, Instr, Line, ModeId, Register, Service, System};
use std::alloc::{AllocError, Global};

/// How often an alarm expires at most.
#[derive(Clone, Copy)]
pub enum Pace {
    Never,
    Once,
    /// So many ticks lie between two expiries.
    Each(u64),
}

/// Whether it is the alarm of that number.
fn is_alarm(alarm: usize, other: AlarmId) -> bool
    ensures { result ≡ (other == alarm) }
{
    other.number() as usize == alarm
}

/// Whether a service sets an alarm.
fn service_sets(alarm: usize, service: &Service<Register>) -> bool
    ensures { result ≡ sets_alarm alarm (Instr.Service service.now) }
{
    match service {
        Service::SetRelAlarm(operand, _, _) => match operand {
            None => false,
            Some(other) => is_alarm(alarm, *other),
        },
        Service::SetAbsAlarm(operand, _, _) => match operand {
            None => false,
            Some(other) => is_alarm(alarm, *other),
        },
        _ => false,
    }
}

/// Whether an instruction sets an alarm.
fn sets_alarm(alarm: usize, instr: &Instr) -> bool
    ensures { result ≡ sets_alarm alarm instr.now }
{
    match instr {
        Instr::Service(service) => service_sets(alarm, service),
        _ => false,
    }
}

/// Whether a program sets no alarm of that number.
fn leaves_alarm(alarm: usize, lines: &[Line]) -> bool
    ensures { result ≡ leaves_alarm alarm lines.now }
{
    lines.iter().all(|line| !sets_alarm(alarm, line.instr()))
}

/// Whether no task's program sets an alarm.
fn tasks_leave(system: &System, alarm: usize) -> bool
    ensures { result
        ≡ list_all (λ (t : Task). leaves_alarm alarm t.program) system.now.tasks }
{
    let tasks = &system.parts().tasks;
    tasks
        .iter()
        .all(|task| leaves_alarm(alarm, task.program.lines()))
}

/// Whether no routine's program sets an alarm.
fn routines_leave(system: &System, alarm: usize) -> bool
    ensures { result
        ≡ list_all (λ (r : Routine). leaves_alarm alarm r.program) system.now.routines }
{
    let routines = &system.parts().routines;
    routines
        .iter()
        .all(|routine| leaves_alarm(alarm, routine.program.lines()))
}

/// Whether no program sets an alarm.
pub(crate) fn is_never_set(system: &System, alarm: usize) -> bool
    ensures { result ≡ is_never_set system.now alarm }
{
    let by_tasks = tasks_leave(system, alarm);
    let by_routines = routines_leave(system, alarm);
    by_tasks && by_routines
}

/// How many ticks some counts take.
pub(crate) fn ticks_of(counts: u32, base: u32) -> u64
    ensures { result ≡ counts * base }
{
    u64::from(counts) * u64::from(base)
}

/// How often an alarm expires that boot alone starts.
fn pace_of_boot(base: u32, start: Option<(u32, u32)>) -> Pace
    ensures { (count : ℕ) → most_at result count ≡ most_of_boot base count start }
{
    match start {
        None => Pace::Never,
        Some((_, cycle)) => {
            if cycle == 0 {
                Pace::Once
            } else {
                Pace::Each(ticks_of(cycle, base))
            }
        }
    }
}

/// How often an alarm expires that is set by so many counts at least, where programs set it.
fn pace_of(system: &System, mode: ModeId, least: &[u32], alarm: AlarmId) -> Pace
    requires { alarm < length system.now.alarms }
    ensures { (count : ℕ)
        → most_at result count ≡ most_expiries system.now mode (numbered least.now) count alarm }
{
    let base = system.counter_of(alarm).ticks_per_base;
    let number = alarm.number() as usize;
    if is_never_set(system, number) {
        pace_of_boot(base, system.alarm_start(mode, alarm))
    } else {
        Pace::Each(ticks_of(count_at(least, number), base))
    }
}

/// The count at a place of a list, 0 where there is none.
pub(crate) fn count_at(list: &[u32], number: usize) -> u32
    ensures { result ≡ numbered list.now number }
{
    if number < list.len() { list[number] } else { 0 }
}

/// How often each alarm expires at most. An error is want of memory.
pub(crate) fn paces_of(
    alloc: Global,
    system: &System,
    mode: ModeId,
    least: &[u32],
) -> Result<Vec<Pace>, AllocError>
    ensures { IfOk result (λ paces. ArePaces system.now mode least.now paces.items) }
{
    let mut paces = Vec::new(alloc);
    for number in 0..system.alarm_count() {
        paces.push(pace_of(system, mode, least, AlarmId::new(number as u8)))?;
    }
    Ok(paces)
}
