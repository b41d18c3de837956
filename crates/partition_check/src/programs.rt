//! Partitions. The rules on programs: lower programs, upper programs, and those of routines.

ghost use Rattle.std.specs.Prelude.{◌≡◌, ◌<◌, Some, None, IfSome, if◌then◌else◌, map, length};
ghost use Rattle.osek_base.specs.declared.ids.Owner.{Owner};
ghost use Rattle.osek_base.specs.System.{program, instruction_at};
ghost use Rattle.osek_base.specs.Separable.{IsOwner};
ghost use Rattle.partition_check.specs.Partition.{rule_number, forbids, is_of_part, tasks_from, routines_from, first_place, first_broken, denial_of, told};

use crate::denial::{Denial, Rule};
use crate::instructions::forbids;
use crate::upper::is_upper_task;
use osek_base::{IsrId, Owner, Place, System, TaskId};

/// Whether a rule forbids the instruction at a place.
fn is_broken_at(system: &System, p: u8, rule: Rule, owner: Owner, place: u16) -> bool
    requires owner { IsOwner system.now owner }
    requires place { place < length (program system.now owner) }
    ensures { result ≡ forbids system.now p rule (instruction_at system.now owner place) }
{
    system.shows_proper();
    let instr = system.instruction_at(owner, Place::new(place));
    forbids(system, p, rule, &instr)
}

fn denial_at(rule: Rule, owner: Owner, place: u16) -> Denial
    ensures { result ≡ record { rule = rule; subject = owner; place = Some place } }
{
    Denial {
        rule,
        subject: owner,
        place: Some(place),
    }
}

/// The first place, from one on, of a program at which a rule is broken.
fn first_in_program(system: &System, p: u8, rule: Rule, owner: &Owner, place: u16) -> Option<Denial>
    requires { IsOwner system.now owner.now }
    ensures first { told result ≡ first_place system.now p rule owner.now place }
    ensures subject { IfSome result (λ d. IsOwner system.now d.subject) }
{
    system.shows_proper();
    if (place as usize) >= system.program_len(*owner) {
        return None;
    }
    if is_broken_at(system, p, rule, *owner, place) {
        return Some(denial_at(rule, *owner, place));
    }
    first_in_program(system, p, rule, owner, place + 1)
}

/// The first place of a task's program at which a rule is broken, where the task is of those that the rule is about.
fn first_in_task(
    system: &System,
    p: u8,
    rule: Rule,
    is_subject: bool,
    task: TaskId,
) -> Option<Denial>
    requires { task < length system.now.tasks }
    ensures first { told result
        ≡ (if is_subject then first_place system.now p rule (Owner.Task task) 0 else None) }
    ensures subject { IfSome result (λ d. IsOwner system.now d.subject) }
{
    if !is_subject {
        return None;
    }
    first_in_program(system, p, rule, &Owner::Task(task), 0)
}

/// Whether a task is of the upper part, or of the lower one.
fn is_of_part(system: &System, p: u8, is_upper: bool, task: TaskId) -> bool
    ensures { result ≡ is_of_part system.now p is_upper task }
{
    if is_upper {
        is_upper_task(system, p, task)
    } else {
        !is_upper_task(system, p, task)
    }
}

/// The first task of the upper part, or of the lower one, of those from a number on, whose program breaks a rule, with the first
/// place.
pub(crate) fn first_in_tasks(
    system: &System,
    p: u8,
    is_upper: bool,
    rule: Rule,
    number: usize,
) -> Option<Denial>
    ensures first { told result
        ≡ first_broken system.now p rule
        (map Owner.Task (tasks_from system.now p is_upper number)) }
    ensures subject { IfSome result (λ d. IsOwner system.now d.subject) }
{
    if number >= system.task_count() {
        return None;
    }
    let task = TaskId::new(number as u8);
    let is_subject = is_of_part(system, p, is_upper, task);
    let first = first_in_task(system, p, rule, is_subject, task);
    first.or(first_in_tasks(system, p, is_upper, rule, number + 1))
}

/// The first routine, of those from a number on, whose program breaks a rule, with the first place.
pub(crate) fn first_in_routines(system: &System, p: u8, rule: Rule, number: usize) -> Option<Denial>
    ensures first { told result
        ≡ first_broken system.now p rule (map Owner.Routine (routines_from system.now number)) }
    ensures subject { IfSome result (λ d. IsOwner system.now d.subject) }
{
    if number >= system.routine_count() {
        return None;
    }
    let routine = IsrId::new(number as u8);
    first_in_program(system, p, rule, &Owner::Routine(routine), 0).or(first_in_routines(
        system,
        p,
        rule,
        number + 1,
    ))
}
