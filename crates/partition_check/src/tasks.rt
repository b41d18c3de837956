//! Partitions. The rules on what lower tasks are and list.

ghost use Rattle.std.specs.Prelude.{◌≡◌, ◌<◌, None, IfSome, not, ◌&&◌, nat_le, length};
ghost use Rattle.std.specs.List.{list_any};
ghost use Rattle.osek_base.specs.declared.ids.Owner.{Owner};
ghost use Rattle.osek_base.specs.Ceiling.{declared_ceiling};
ghost use Rattle.osek_base.specs.Upper.{is_upper_task};
ghost use Rattle.osek_base.specs.Separable.{IsOwner, is_full_schedule, lists_upper, task_denial};
ghost use Rattle.partition_check.specs.Partition.{rule_number, denial_of, told, is_not_full, lower_from, first_breaking};

use crate::denial::{Denial, Rule};
use crate::upper::is_upper_task;
use osek_base::{Owner, ResId, ResourceNumber, Schedule, System, TaskId};

/// Whether one of some resources has a ceiling of p or more.
fn has_upper(system: &System, p: u8, resources: &[ResourceNumber]) -> bool
    ensures { result ≡ list_any (λ r. nat_le p (declared_ceiling system.now r)) resources.now }
{
    resources
        .iter()
        .any(|resource| system.ceiling(ResId::Declared(*resource)) >= p)
}

fn is_full(schedule: Schedule) -> bool
    ensures { result ≡ is_full_schedule schedule }
{
    match schedule {
        Schedule::Full => true,
        Schedule::Non => false,
    }
}

fn denial_of(rule: Rule, task: TaskId) -> Denial
    ensures { result ≡ record { rule = rule; subject = Owner.Task task; place = None } }
{
    Denial {
        rule,
        subject: Owner::Task(task),
        place: None,
    }
}

/// Whether a task below p isn't FULL.
fn breaks_schedule(system: &System, p: u8, task: TaskId) -> bool
    requires { task < length system.now.tasks }
    ensures { result ≡ (not (is_upper_task system.now p task) && is_not_full system.now task) }
{
    !is_upper_task(system, p, task) && !is_full(system.schedule_of(task))
}

/// Whether a task below p lists a resource of ceiling p or more.
fn breaks_resources(system: &System, p: u8, task: TaskId) -> bool
    requires { task < length system.now.tasks }
    ensures { result ≡ (not (is_upper_task system.now p task) && lists_upper system.now p task) }
{
    !is_upper_task(system, p, task) && has_upper(system, p, system.resources_of(task))
}

/// The first task below p, of those from a number on, that isn't FULL.
pub(crate) fn first_not_full(system: &System, p: u8, number: usize) -> Option<Denial>
    ensures first { told result
        ≡ first_breaking 1 (is_not_full system.now) (lower_from system.now p number) }
    ensures subject { IfSome result (λ d. IsOwner system.now d.subject) }
{
    if number >= system.task_count() {
        return None;
    }
    let task = TaskId::new(number as u8);
    if breaks_schedule(system, p, task) {
        return Some(denial_of(Rule::FullPreemption, task));
    }
    first_not_full(system, p, number + 1)
}

/// The first task below p, of those from a number on, that lists a resource of ceiling p or more.
pub(crate) fn first_listing(system: &System, p: u8, number: usize) -> Option<Denial>
    ensures first { told result
        ≡ first_breaking 2 (lists_upper system.now p) (lower_from system.now p number) }
    ensures subject { IfSome result (λ d. IsOwner system.now d.subject) }
{
    if number >= system.task_count() {
        return None;
    }
    let task = TaskId::new(number as u8);
    if breaks_resources(system, p, task) {
        return Some(denial_of(Rule::LowerResources, task));
    }
    first_listing(system, p, number + 1)
}
