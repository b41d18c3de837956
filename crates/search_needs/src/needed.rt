//! What a system needs, by passes over its programs until the table is closed.

ghost use Rattle.std.specs.Prelude.{ℕ, ◌≡◌, ◌≤◌, IfOk, length};
ghost use Rattle.law_future.specs.Need.{Suffices};
ghost use Rattle.search_needs.specs.Table.{has, need_of};
ghost use Rattle.search_needs.specs.Everything.{IsAll, AreAll};
ghost use Rattle.search_needs.specs.Within.{IsWithin};

use crate::closed::{declared_resources, is_closed};
use crate::counters::all_counters;
use crate::numbers::Numbers;
use crate::passes::add_all;
use crate::table::{Needs, OwnerNeeds};
use osek_base::{Program, REGISTERS, System, WINDOW_WORDS};
use std::alloc::{AllocError, Global};

/// How often all programs are gone over at most.
const PASSES: usize = 1024;

/// Nothing of a task or routine, whose registers have 0 at its first place.
pub(crate) fn none_of_owner(alloc: Global, program: &Program) -> Result<OwnerNeeds, AllocError> {
    let mut indices = Vec::with_capacity(alloc, program.len())?;
    for place in 0..program.len() {
        let count = if place == 0 { 1 } else { 0 };
        indices.push([Numbers::below(count); REGISTERS])?;
    }
    Ok(OwnerNeeds {
        registers: Numbers::below(0),
        words: Numbers::below(0),
        indices,
    })
}

/// The table in which nothing is needed.
fn nothing(alloc: Global, system: &System) -> Result<Needs, AllocError> {
    let parts = system.parts();
    let mut tasks = Vec::with_capacity(alloc, parts.tasks.len())?;
    for number in 0..parts.tasks.len() {
        let task = &parts.tasks[number];
        tasks.push(none_of_owner(alloc, &task.program)?)?;
    }
    let mut routines = Vec::with_capacity(alloc, parts.routines.len())?;
    for number in 0..parts.routines.len() {
        let routine = &parts.routines[number];
        routines.push(none_of_owner(alloc, &routine.program)?)?;
    }
    Ok(Needs {
        tasks,
        routines,
        shared: Numbers::below(0),
        counters: Numbers::below(0),
    })
}

/// All of a task or routine.
fn all_of_owner(alloc: Global) -> OwnerNeeds
    ensures { IsAll result }
{
    OwnerNeeds {
        registers: Numbers::below(REGISTERS),
        words: Numbers::below(WINDOW_WORDS),
        indices: Vec::new(alloc),
    }
}

/// All of as many tasks or routines.
fn all_of_owners(alloc: Global, count: usize) -> Result<Vec<OwnerNeeds>, AllocError>
    ensures all { IfOk result (λ owners. AreAll owners.items) }
    ensures count { IfOk result (λ owners. length owners.items ≡ count) }
{
    let mut owners = Vec::with_capacity(alloc, count)?;
    while owners.len() < count {
        owners.push(all_of_owner(alloc))?;
    }
    Ok(owners)
}

/// The table in which all is needed that the system has.
fn everything(alloc: Global, system: &System) -> Result<Needs, AllocError>
    ensures closed { IfOk result (λ needs. Suffices system.now (need_of needs)) }
    ensures within { IfOk result (λ needs. IsWithin system.now (need_of needs)) }
{
    let tasks = all_of_owners(alloc, system.task_count())?;
    let routines = all_of_owners(alloc, system.routine_count())?;
    let shared = declared_resources(system);
    let counters = all_counters(system);
    Ok(Needs {
        tasks,
        routines,
        shared,
        counters,
    })
}

/// What a system needs: what its jumps compare and its alarms are set to, what these are worked out
/// from, and the values of counters that an alarm is set to. Where that isn't found by as many passes as are made, all is needed.
pub fn needed_data(alloc: Global, system: &System) -> Result<Needs, AllocError>
    ensures closed { IfOk result (λ needs. Suffices system.now (need_of needs)) }
    ensures within { IfOk result (λ needs. IsWithin system.now (need_of needs)) }
{
    let mut needs = nothing(alloc, system)?;
    for _ in 0..PASSES {
        if is_closed(system, &needs) {
            return Ok(needs);
        }
        add_all(system, &mut needs);
    }
    everything(alloc, system)
}
