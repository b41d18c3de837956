//! Of which counters the value is needed: a program sets an alarm to it.

ghost use Rattle.std.specs.Prelude.{ℕ, ◌≡◌, ◌<◌, IsTrue, Some, length, slice_get};
ghost use Rattle.std.specs.Option.{option_map};
ghost use Rattle.osek_base.specs.Proper.{IsProper};
ghost use Rattle.osek_base.specs.System.{Alarm};
ghost use Rattle.law_future.specs.Need.{HaveAsked, asked_by, asked_by_service};
ghost use Rattle.search_needs.specs.Table.{has};
ghost use Rattle.search_needs.specs.Asked.{LinesAsk, RoutinesAsk, TasksAsk};

use crate::closed::{routine_lines, task_lines};
use crate::numbers::Numbers;
use osek_base::{AlarmId, CounterId, Instr, Line, Register, Service, System};

/// The counter of an alarm, if there is that alarm.
fn counter_of(system: &System, alarm: AlarmId) -> Option<CounterId>
    ensures { result ≡ option_map (λ (x : Alarm). x.counter) (slice_get system.now.alarms alarm) }
{
    match system.parts().alarms.get(alarm.number() as usize) {
        None => None,
        Some(alarm) => Some(alarm.counter),
    }
}

/// The counter whose value a service asks for.
fn asked_by_service(system: &System, service: &Service<Register>) -> Option<CounterId>
    ensures { result ≡ asked_by_service system.now service.now }
{
    match service {
        Service::SetAbsAlarm(operand, _, _) => match operand {
            None => None,
            Some(alarm) => counter_of(system, *alarm),
        },
        _ => None,
    }
}

/// The counter whose value an instruction asks for.
fn asked_by(system: &System, instr: &Instr) -> Option<CounterId>
    ensures { result ≡ asked_by system.now instr.now }
{
    match instr {
        Instr::Service(service) => asked_by_service(system, service),
        _ => None,
    }
}

/// The counters whose values a program asks for.
fn add_asked(system: &System, counters: &mut Numbers, lines: &[Line]) {
    for line in lines {
        if let Some(counter) = asked_by(system, line.instr()) {
            counters.add(counter.number());
        }
    }
}

/// The counters whose values programs ask for.
pub(crate) fn add_all_asked(system: &System, counters: &mut Numbers) {
    for number in 0..system.task_count() {
        add_asked(system, counters, task_lines(system, number));
    }
    for number in 0..system.routine_count() {
        add_asked(system, counters, routine_lines(system, number));
    }
}

/// Whether the counter whose value an instruction asks for is among some, or it asks for none; at
/// true it is so.
fn is_among(system: &System, counters: Numbers, instr: &Instr) -> bool
    ensures { IsTrue result → (c : ℕ) → asked_by system.now instr.now ≡ Some c
        → IsTrue (has counters c) }
{
    match asked_by(system, instr) {
        None => true,
        Some(counter) => counters.has(counter.number()),
    }
}

/// Whether all are whose values a program asks for.
fn lines_among(system: &System, counters: Numbers, lines: &[Line]) -> bool
    ensures { IsTrue result → LinesAsk system.now (has counters) lines.now (length lines.now) }
{
    for place in 0..lines.len() {
        let line = &lines[place];
        if !is_among(system, counters, line.instr()) {
            return false;
        }
    }
    true
}

fn tasks_among(system: &System, counters: Numbers) -> bool
    ensures { IsTrue result → TasksAsk system.now (has counters) (length system.now.tasks) }
{
    for number in 0..system.task_count() {
        if !lines_among(system, counters, task_lines(system, number)) {
            return false;
        }
    }
    true
}

fn routines_among(system: &System, counters: Numbers) -> bool
    ensures { IsTrue result → RoutinesAsk system.now (has counters) (length system.now.routines) }
{
    for number in 0..system.routine_count() {
        if !lines_among(system, counters, routine_lines(system, number)) {
            return false;
        }
    }
    true
}

/// Whether all counters whose values programs ask for are among some; at true they are.
pub(crate) fn all_among(system: &System, counters: Numbers) -> bool
    ensures { IsTrue result → HaveAsked system.now (has counters) }
{
    if !tasks_among(system, counters) {
        return false;
    }
    routines_among(system, counters)
}

fn counter_count(system: &System) -> usize
    ensures value { result ≡ length system.now.counters }
    ensures proper { IsProper system.now }
{
    system.parts().counters.len()
}

/// All counters.
pub(crate) fn all_counters(system: &System) -> Numbers
    ensures { HaveAsked system.now (has result) }
{
    Numbers::below(counter_count(system))
}
