//! OIL: standard objects. What is declared, to be looked up by name.

ghost use Rattle.std.specs.Prelude.{◌≡◌, ◌≤◌, IfOk, length};
ghost use Rattle.system_gen.specs.DeclaredNames.{AreDistinct, declared_by, number};
ghost use Rattle.system_gen.specs.References.{is_res_scheduler};

use crate::table::NameTable;
use osek_base::{
    AlarmId, CounterId, MAX_ALARMS, MAX_COUNTERS, MAX_MODES, MAX_RESOURCES, MAX_TASKS, ModeId,
    Name, Names, ResourceNumber, TaskId,
};
use std::alloc::{AllocError, Global};
use std::marker::Model;

/// The declared names by kind. Tasks stand by their numbers, all else in the order of declaration.
#[derive(Drop)]
pub(crate) struct Declared<'a> {
    pub modes: NameTable<'a>,
    pub tasks: NameTable<'a>,
    pub routines: NameTable<'a>,
    pub resources: NameTable<'a>,
    pub events: NameTable<'a>,
    pub counters: NameTable<'a>,
    pub alarms: NameTable<'a>,
}

impl<'a> Model for Declared<'a> {
    ghost use Rattle.system_gen.specs.DeclaredNames.{Declared as Names};

    ghost Value = { Names };

    ghost view = { λ d. record {
      modes = d.modes;
      tasks = d.tasks;
      routines = d.routines;
      resources = d.resources;
      events = d.events;
      counters = d.counters;
      alarms = d.alarms;
    } };
}

/// The modes, and the tasks and routines that run in them.
#[derive(Drop)]
struct Owners<'a> {
    modes: NameTable<'a>,
    tasks: NameTable<'a>,
    routines: NameTable<'a>,
}

/// What tasks list.
#[derive(Drop)]
struct Listed<'a> {
    resources: NameTable<'a>,
    events: NameTable<'a>,
}

/// What counts, and what is counted to.
#[derive(Drop)]
struct Timers<'a> {
    counters: NameTable<'a>,
    alarms: NameTable<'a>,
}

impl<'a> Declared<'a> {
    /// What has these names, and those of the counters. No name of a kind stands twice.
    pub(crate) fn new(
        alloc: Global,
        names: &'a Names,
        counters: &'a [Name],
    ) -> Result<Self, AllocError>
        requires { AreDistinct (declared_by names.now counters.now) }
        ensures { IfOk result (λ declared. declared ≡ declared_by names.now counters.now) }
    {
        let owners = owner_tables(alloc, names, counters)?;
        let listed = listed_tables(alloc, names, counters)?;
        let timers = timer_tables(alloc, names, counters)?;
        Ok(joined(owners, listed, timers))
    }

    /// The number of the application mode of that name, 0 where there is none; so for the other
    /// kinds.
    pub(crate) fn mode(&self, name: &Name) -> ModeId
        requires { length self.now.modes ≤ MAX_MODES }
        ensures { result ≡ number self.now.modes name.now }
    {
        ModeId::new(self.modes.number(name) as u8)
    }

    pub(crate) fn task(&self, name: &Name) -> TaskId
        requires { length self.now.tasks ≤ MAX_TASKS }
        ensures { result ≡ number self.now.tasks name.now }
    {
        TaskId::new(self.tasks.number(name) as u8)
    }

    pub(crate) fn resource(&self, name: &Name) -> ResourceNumber
        requires { length self.now.resources ≤ MAX_RESOURCES }
        ensures { result ≡ number self.now.resources name.now }
    {
        ResourceNumber::new(self.resources.number(name) as u8)
    }

    pub(crate) fn counter(&self, name: &Name) -> CounterId
        requires { length self.now.counters ≤ MAX_COUNTERS }
        ensures { result ≡ number self.now.counters name.now }
    {
        CounterId::new(self.counters.number(name) as u8)
    }

    pub(crate) fn alarm(&self, name: &Name) -> AlarmId
        requires { length self.now.alarms ≤ MAX_ALARMS }
        ensures { result ≡ number self.now.alarms name.now }
    {
        AlarmId::new(self.alarms.number(name) as u8)
    }
}

fn owner_tables<'a>(
    alloc: Global,
    names: &'a Names,
    counters: &[Name],
) -> Result<Owners<'a>, AllocError>
    requires { AreDistinct (declared_by names.now counters.now) }
    ensures { IfOk result
        (λ t. (t.modes ≡ names.now.modes) × (t.tasks ≡ names.now.tasks)
        × (t.routines ≡ names.now.routines)) }
{
    let modes = NameTable::new(alloc, names.modes.as_slice())?;
    let tasks = NameTable::new(alloc, names.tasks.as_slice())?;
    let routines = NameTable::new(alloc, names.routines.as_slice())?;
    Ok(Owners {
        modes,
        tasks,
        routines,
    })
}

fn listed_tables<'a>(
    alloc: Global,
    names: &'a Names,
    counters: &[Name],
) -> Result<Listed<'a>, AllocError>
    requires { AreDistinct (declared_by names.now counters.now) }
    ensures { IfOk result
        (λ t. (t.resources ≡ names.now.resources) × (t.events ≡ names.now.events)) }
{
    let resources = NameTable::new(alloc, names.resources.as_slice())?;
    let events = NameTable::new(alloc, names.events.as_slice())?;
    Ok(Listed { resources, events })
}

fn timer_tables<'a>(
    alloc: Global,
    names: &'a Names,
    counters: &'a [Name],
) -> Result<Timers<'a>, AllocError>
    requires { AreDistinct (declared_by names.now counters.now) }
    ensures { IfOk result (λ t. (t.counters ≡ counters.now) × (t.alarms ≡ names.now.alarms)) }
{
    let counters = NameTable::new(alloc, counters)?;
    let alarms = NameTable::new(alloc, names.alarms.as_slice())?;
    Ok(Timers { counters, alarms })
}

fn joined<'a>(owners: Owners<'a>, listed: Listed<'a>, timers: Timers<'a>) -> Declared<'a>
    ensures { result ≡ record {
      modes = owners.entry.modes;
      tasks = owners.entry.tasks;
      routines = owners.entry.routines;
      resources = listed.entry.resources;
      events = listed.entry.events;
      counters = timers.entry.counters;
      alarms = timers.entry.alarms;
    } }
{
    let Owners {
        modes,
        tasks,
        routines,
    } = owners;
    let Listed { resources, events } = listed;
    let Timers { counters, alarms } = timers;
    Declared {
        modes,
        tasks,
        routines,
        resources,
        events,
        counters,
        alarms,
    }
}

/// Whether a name is that of the scheduler's resource.
pub(crate) fn is_res_scheduler(name: &Name) -> bool
    ensures { result ≡ is_res_scheduler name.now }
{
    name.as_str() == "RES_SCHEDULER"
}
