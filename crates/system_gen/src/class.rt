//! OSEK/VDX OS: conformance classes.

ghost use Rattle.std.specs.Prelude.{◌≡◌, ◌<◌, ◌≤◌, ◌-◌, length, drop, map, nat_le};
ghost use Rattle.std.specs.List.{list_all};
ghost use Rattle.osek_base.specs.Lists.{is_in, is_empty};
ghost use Rattle.osek_base.specs.Classes.{are_distinct, is_basic, is_single, class_of};

use osek_base::{Class, System, TaskId};

/// The conformance class of a system: the first of BCC1, BCC2, ECC1 and ECC2 that allows its
/// extended tasks, its tasks of equal priority and its ACTIVATION values.
pub fn class_of(system: &System) -> Class
    ensures { result ≡ class_of system.now }
{
    match (is_basic_from(system, 0), is_single(system)) {
        (true, true) => Class::Bcc1,
        (true, false) => Class::Bcc2,
        (false, true) => Class::Ecc1,
        (false, false) => Class::Ecc2,
    }
}

/// Whether each task from that number on is basic.
fn is_basic_from(system: &System, number: usize) -> bool
    ensures { result ≡ list_all (λ a. is_empty a.events) (drop number system.now.tasks) }
{
    if number >= system.task_count() {
        return true;
    }
    !system.is_extended(TaskId::new(number as u8)) && is_basic_from(system, number + 1)
}

/// Whether each task from that number on has ACTIVATION 1.
fn is_single_job_from(system: &System, number: usize) -> bool
    ensures { result ≡ list_all (λ a. nat_le a.activation 1) (drop number system.now.tasks) }
{
    if number >= system.task_count() {
        return true;
    }
    system.activation_of(TaskId::new(number as u8)) <= 1 && is_single_job_from(system, number + 1)
}

/// Whether a task from that number on has the priority.
fn has_priority_from(system: &System, priority: u8, number: usize) -> bool
    ensures { result ≡ is_in priority (map (λ a. a.priority) (drop number system.now.tasks)) }
{
    if number >= system.task_count() {
        return false;
    }
    system.priority_of(TaskId::new(number as u8)) == priority
        || has_priority_from(system, priority, number + 1)
}

/// Whether the tasks from that number on have priorities of their own.
fn are_distinct_from(system: &System, number: usize) -> bool
    ensures { result ≡ are_distinct (map (λ a. a.priority) (drop number system.now.tasks)) }
{
    if number >= system.task_count() {
        return true;
    }
    let priority = system.priority_of(TaskId::new(number as u8));
    !has_priority_from(system, priority, number + 1) && are_distinct_from(system, number + 1)
}

fn is_single(system: &System) -> bool
    ensures { result ≡ is_single system.now }
{
    is_single_job_from(system, 0) && are_distinct_from(system, 0)
}
