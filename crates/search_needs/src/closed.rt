//! Whether a table is closed: each instruction of each program is respected.

ghost use Rattle.std.specs.Prelude.{ℕ, ◌≡◌, ◌<◌, IsTrue, length, nat_lt};
ghost use Rattle.osek_base.specs.declared.ids.Owner.{Owner};
ghost use Rattle.osek_base.specs.System.{program};
ghost use Rattle.law_future.specs.Need.{Respects, Suffices};
ghost use Rattle.search_needs.specs.Table.{has, allows, need_by, need_of};
ghost use Rattle.search_needs.specs.Entries.{
  EntryRespects,
  PlacesRespect,
  TaskRespects,
  TasksRespect,
  RoutineRespects,
  RoutinesRespect,
};
ghost use Rattle.search_needs.specs.Within.{IsWithin};

use crate::counters::all_among;
use crate::data::{data_follows, service_follows};
use crate::indices::{all_pass, answers_follow, indices_follow, may_hold};
use crate::numbers::Numbers;
use crate::table::{Needs, OwnerNeeds, Row};
use osek_base::{Instr, Line, REGISTERS, Register, System, WINDOW_WORDS};

/// Whether an instruction is respected; at true it is.
fn respects(own: &OwnerNeeds, shared: Numbers, place: usize, instr: &Instr) -> bool
    requires { place < length own.now.indices.items }
    ensures { IsTrue result → (who : Owner)
        → Respects (need_by own.now shared) who place instr.now }
{
    match instr {
        Instr::Plain(plain) => {
            if !data_follows(own, place, plain) {
                return false;
            }
            indices_follow(&own.indices, place, plain)
        }
        Instr::Service(service) => {
            if !service_follows(own, shared, service) {
                return false;
            }
            answers_follow(&own.indices, place)
        }
        Instr::Control(_) => all_pass(&own.indices, place, place + 1),
    }
}

/// Whether each instruction of a program is respected.
fn places_respected(own: &OwnerNeeds, shared: Numbers, lines: &[Line]) -> bool
    requires { length lines.now ≡ length own.now.indices.items }
    ensures { IsTrue result → PlacesRespect own.now shared lines.now (length lines.now) }
{
    for place in 0..lines.len() {
        let line = &lines[place];
        if !respects(own, shared, place, line.instr()) {
            return false;
        }
    }
    true
}

/// Whether each register may have 0 at the first place.
fn zeros_may_stand(rows: &[Row]) -> bool
    ensures { IsTrue result → (r : ℕ) → IsTrue (allows rows.now 0 r 0) }
{
    for number in 0..REGISTERS {
        if !may_hold(rows, 0, Register::new(number as u8), 0) {
            return false;
        }
    }
    true
}

/// Whether what is needed of a task or routine is within its registers and words, and closed under
/// its program.
pub(crate) fn entry_respects(own: &OwnerNeeds, shared: Numbers, lines: &[Line]) -> bool
    ensures { IsTrue result → EntryRespects own.now shared lines.now }
{
    if lines.len() != own.indices.len() {
        return false;
    }
    if !own.registers.is_within(Numbers::below(REGISTERS)) {
        return false;
    }
    if !own.words.is_within(Numbers::below(WINDOW_WORDS)) {
        return false;
    }
    if !zeros_may_stand(&own.indices) {
        return false;
    }
    places_respected(own, shared, lines)
}

/// The program of a task.
pub(crate) fn task_lines(system: &System, number: usize) -> &[Line]
    requires { number < length system.now.tasks }
    ensures { result.now ≡ program system.now (Owner.Task number) }
{
    let task = &system.parts().tasks[number];
    task.program.lines()
}

/// The program of a routine.
pub(crate) fn routine_lines(system: &System, number: usize) -> &[Line]
    requires { number < length system.now.routines }
    ensures { result.now ≡ program system.now (Owner.Routine number) }
{
    let routine = &system.parts().routines[number];
    routine.program.lines()
}

fn task_respects(system: &System, needs: &Needs, number: usize) -> bool
    requires task { number < length system.now.tasks }
    requires entry { number < length needs.now.tasks.items }
    ensures { IsTrue result → TaskRespects system.now needs.now number }
{
    let own = &needs.tasks[number];
    entry_respects(own, needs.shared, task_lines(system, number))
}

fn routine_respects(system: &System, needs: &Needs, number: usize) -> bool
    requires routine { number < length system.now.routines }
    requires entry { number < length needs.now.routines.items }
    ensures { IsTrue result → RoutineRespects system.now needs.now number }
{
    let own = &needs.routines[number];
    entry_respects(own, needs.shared, routine_lines(system, number))
}

fn tasks_respect(system: &System, needs: &Needs) -> bool
    requires { length needs.now.tasks.items ≡ length system.now.tasks }
    ensures { IsTrue result → TasksRespect system.now needs.now (length system.now.tasks) }
{
    for number in 0..needs.tasks.len() {
        if !task_respects(system, needs, number) {
            return false;
        }
    }
    true
}

fn routines_respect(system: &System, needs: &Needs) -> bool
    requires { length needs.now.routines.items ≡ length system.now.routines }
    ensures { IsTrue result → RoutinesRespect system.now needs.now (length system.now.routines) }
{
    for number in 0..needs.routines.len() {
        if !routine_respects(system, needs, number) {
            return false;
        }
    }
    true
}

/// Whether each entry belongs to a task or routine, and needs no window but of declared resources.
fn belongs(system: &System, needs: &Needs) -> bool
    ensures tasks { IsTrue result → length needs.now.tasks.items ≡ length system.now.tasks }
    ensures routines { IsTrue result
        → length needs.now.routines.items ≡ length system.now.routines }
    ensures shared { IsTrue result → (r : ℕ) → IsTrue (has needs.now.shared r)
        → r < length system.now.resources }
{
    if needs.tasks.len() != system.task_count() {
        return false;
    }
    if needs.routines.len() != system.routine_count() {
        return false;
    }
    needs.shared.is_within(declared_resources(system))
}

/// The numbers of the declared resources.
pub(crate) fn declared_resources(system: &System) -> Numbers
    ensures { (r : ℕ) → has result r ≡ nat_lt r (length system.now.resources) }
{
    Numbers::below(system.resource_count())
}

/// Whether a table is closed for a system, and needs nothing that the system hasn't; at true both
/// hold.
pub(crate) fn is_closed(system: &System, needs: &Needs) -> bool
    ensures closed { IsTrue result → Suffices system.now (need_of needs.now) }
    ensures within { IsTrue result → IsWithin system.now (need_of needs.now) }
{
    if !belongs(system, needs) {
        return false;
    }
    if !tasks_respect(system, needs) {
        return false;
    }
    if !routines_respect(system, needs) {
        return false;
    }
    all_among(system, needs.counters)
}
