//! OIL: standard objects and their attributes. The parts of a system.

ghost use Rattle.std.specs.Prelude.{◌≡◌};
ghost use Rattle.std.specs.List.{find};
ghost use Rattle.osek_base.specs.System.{is_extended, counter};
ghost use Rattle.osek_base.specs.Ceiling.{is_internal, is_internal_property};

use crate::ids::{CounterId, ResourceNumber, TaskId};
use crate::names::Names;
use crate::task::{Alarm, Counter, Hooks, Property, Routine, Task};
use std::marker::Model;

/// What a system is made of, checked or not. Tasks stand by their numbers, all else as declared; a resource is its
/// property, an event its mask.
#[derive(Drop)]
pub struct Parts {
    pub names: Names,
    pub tasks: Vec<Task>,
    pub routines: Vec<Routine>,
    pub resources: Vec<Property>,
    pub events: Vec<u32>,
    pub counters: Vec<Counter>,
    pub alarms: Vec<Alarm>,
    pub hooks: Hooks,
    pub use_res_scheduler: bool,
}

impl Model for Parts {
    ghost use Rattle.osek_base.specs.System.{System as Configured};

    ghost Value = { Configured };

    ghost view = { λ p. record {
      names = p.names;
      tasks = p.tasks.items;
      routines = p.routines.items;
      resources = p.resources.items;
      events = p.events.items;
      counters = p.counters.items;
      alarms = p.alarms.items;
      hooks = p.hooks;
      use_res_scheduler = p.use_res_scheduler;
    } };
}

fn is_internal_property(property: Property) -> bool
    ensures { result ≡ is_internal_property property }
{
    match property {
        Property::Internal => true,
        Property::Standard => false,
    }
}

impl Parts {
    pub(crate) fn is_internal(&self, resource: ResourceNumber) -> bool
        ensures { result ≡ is_internal self.now resource }
    {
        match self.resources.get(resource.number() as usize) {
            None => false,
            Some(property) => is_internal_property(*property),
        }
    }

    pub(crate) fn first_internal(&self, resources: &[ResourceNumber]) -> Option<ResourceNumber>
        ensures { result ≡ find (is_internal self.now) resources.now }
    {
        match resources.split_first() {
            None => None,
            Some((first, rest)) => {
                if self.is_internal(*first) {
                    Some(*first)
                } else {
                    self.first_internal(rest)
                }
            }
        }
    }

    pub(crate) fn is_extended(&self, task: TaskId) -> bool
        ensures { result ≡ is_extended self.now task }
    {
        match self.tasks.get(task.number() as usize) {
            None => false,
            Some(task) => !task.events.is_empty(),
        }
    }

    pub(crate) fn counter(&self, id: CounterId) -> Counter
        ensures { result ≡ counter self.now id }
    {
        match self.counters.get(id.number() as usize) {
            None => Counter {
                max_allowed_value: 0,
                ticks_per_base: 0,
                min_cycle: 0,
            },
            Some(counter) => *counter,
        }
    }
}
