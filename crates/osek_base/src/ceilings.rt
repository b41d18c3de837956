//! OSEK/VDX OS: resource management, priority ceiling protocol; internal resources. The ceilings of a system.

ghost use Rattle.std.specs.Prelude.{◌≡◌, map};
ghost use Rattle.std.specs.List.{filter};
ghost use Rattle.osek_base.specs.Lists.{greatest};
ghost use Rattle.osek_base.specs.System.{lists};
ghost use Rattle.osek_base.specs.Ceiling.{top_priority, declared_ceiling, internal_ceiling};
ghost use Rattle.osek_base.specs.declared.limits.TheConstants.{MAX_TASKS, MAX_RESOURCES};
ghost use Rattle.osek_base.specs.KeptCeilings.{HasCeilings, HasInternal, AreCeilings};

use crate::ids::{ResourceNumber, TaskId};
use crate::limits::{MAX_RESOURCES, MAX_TASKS};
use crate::parts::Parts;
use crate::task::{Schedule, Task};

/// The ceilings of a system's resources and tasks.
#[derive(Drop)]
pub(crate) struct Ceilings {
    /// Of each resource number.
    pub(crate) declared: [u8; MAX_RESOURCES],
    /// Of RES_SCHEDULER.
    pub(crate) top: u8,
    /// Of each task number, the internal ceiling.
    pub(crate) internal: [Option<u8>; MAX_TASKS],
}

impl Ceilings {
    /// The ceilings of these parts.
    pub(crate) fn of(parts: &Parts) -> Self
        ensures { AreCeilings parts.now result }
    {
        Ceilings {
            declared: declared_ceilings(parts),
            top: highest(parts.tasks.as_slice()),
            internal: internal_ceilings(parts),
        }
    }
}

fn declared_ceilings(parts: &Parts) -> [u8; MAX_RESOURCES]
    ensures { HasCeilings parts.now result MAX_RESOURCES }
{
    let mut ceilings = [0; MAX_RESOURCES];
    for number in 0..MAX_RESOURCES as u8 {
        ceilings[number as usize] = declared_ceiling(parts, ResourceNumber::new(number));
    }
    ceilings
}

fn declared_ceiling(parts: &Parts, resource: ResourceNumber) -> u8
    ensures { result ≡ declared_ceiling parts.now resource }
{
    highest_that_lists(resource, parts.tasks.as_slice())
}

fn internal_ceilings(parts: &Parts) -> [Option<u8>; MAX_TASKS]
    ensures { HasInternal parts.now result MAX_TASKS }
{
    let mut ceilings = [None; MAX_TASKS];
    for number in 0..MAX_TASKS as u8 {
        ceilings[number as usize] = internal_ceiling(parts, TaskId::new(number));
    }
    ceilings
}

fn internal_ceiling(parts: &Parts, task: TaskId) -> Option<u8>
    ensures { result ≡ internal_ceiling parts.now task }
{
    match parts.tasks.get(task.number() as usize) {
        None => None,
        Some(task) => match task.schedule {
            Schedule::Non => Some(highest(parts.tasks.as_slice())),
            Schedule::Full => match parts.first_internal(task.resources.as_slice()) {
                None => None,
                Some(resource) => Some(declared_ceiling(parts, resource)),
            },
        },
    }
}

fn highest(tasks: &[Task]) -> u8
    ensures { result ≡ greatest (map (λ a. a.priority) tasks.now) }
{
    match tasks.split_first() {
        None => 0,
        Some((task, rest)) => highest(rest).max(task.priority),
    }
}

fn highest_that_lists(resource: ResourceNumber, tasks: &[Task]) -> u8
    ensures { result ≡ greatest (map (λ a. a.priority) (filter (lists resource) tasks.now)) }
{
    match tasks.split_first() {
        None => 0,
        Some((task, rest)) => {
            let others = highest_that_lists(resource, rest);
            if task.lists(resource) {
                others.max(task.priority)
            } else {
                others
            }
        }
    }
}
