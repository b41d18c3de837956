//! OIL: standard objects. What a file holds, one list a kind in the order of declaration.

ghost use Rattle.std.specs.Prelude.{◌≡◌, IsTrue};
ghost use Rattle.oil_reader.specs.Checked.{
  is_name,
  is_checked_os,
  are_checked_modes,
  are_checked_tasks,
  are_checked_isrs,
  are_checked_resources,
  are_checked_events,
  are_checked_counters,
  are_checked_alarms,
  is_checked,
  CheckedParts,
};

use osek_base::{Counter, Hooks, Name, Property, Schedule};
use std::marker::Model;

/// The OS object: its hooks, and whether RES_SCHEDULER may be got.
#[derive(Drop)]
pub struct Os {
    pub name: Name,
    pub hooks: Hooks,
    pub use_res_scheduler: bool,
}

impl Model for Os {
    ghost use Rattle.oil_reader.specs.Configuration.{OsRecord};

    ghost Value = { OsRecord };

    ghost view = { λ o. record { name = o.name; hooks = o.hooks; use_res_scheduler = o.use_res_scheduler } };
}

/// A TASK. It starts by itself in the application modes of `autostart`, which are none at AUTOSTART = FALSE.
#[derive(Drop)]
pub struct TaskObject {
    pub name: Name,
    /// 0 to [`MAX_TASK_PRIORITY`](osek_base::MAX_TASK_PRIORITY); 0 is the lowest.
    pub priority: u8,
    pub schedule: Schedule,
    /// How many jobs it may have at once, 1 to [`MAX_ACTIVATION`](osek_base::MAX_ACTIVATION).
    pub activation: u8,
    pub autostart: Vec<Name>,
    pub resources: Vec<Name>,
    pub events: Vec<Name>,
}

impl Model for TaskObject {
    ghost use Rattle.oil_reader.specs.Configuration.{TaskRecord};

    ghost Value = { TaskRecord };

    ghost view = { λ t. record {
      name = t.name;
      priority = t.priority;
      schedule = t.schedule;
      activation = t.activation;
      autostart = t.autostart.items;
      resources = t.resources.items;
      events = t.events.items;
    } };
}

/// An ISR of category 2, with its PRIORITY (which is no attribute of OIL 2.5, and 0 where it is left out).
#[derive(Drop)]
pub struct IsrObject {
    pub name: Name,
    pub priority: u8,
}

impl Model for IsrObject {
    ghost use Rattle.oil_reader.specs.Configuration.{IsrRecord};

    ghost Value = { IsrRecord };

    ghost view = { λ i. record { name = i.name; priority = i.priority } };
}

/// A RESOURCE with its RESOURCEPROPERTY.
#[derive(Drop)]
pub struct ResourceObject {
    pub name: Name,
    pub property: Property,
}

impl Model for ResourceObject {
    ghost use Rattle.oil_reader.specs.Configuration.{ResourceRecord};

    ghost Value = { ResourceRecord };

    ghost view = { λ r. record { name = r.name; property = r.property } };
}

/// The MASK of an event: to be chosen, or these bits, of which there is at least one.
#[derive(Clone, Copy)]
pub enum Mask {
    Auto,
    Bits(u32),
}

/// An EVENT.
#[derive(Drop)]
pub struct EventObject {
    pub name: Name,
    pub mask: Mask,
}

impl Model for EventObject {
    ghost use Rattle.oil_reader.specs.Configuration.{EventRecord};

    ghost Value = { EventRecord };

    ghost view = { λ e. record { name = e.name; mask = e.mask } };
}

/// A COUNTER with its MAXALLOWEDVALUE, TICKSPERBASE and MINCYCLE.
#[derive(Drop)]
pub struct CounterObject {
    pub name: Name,
    pub counter: Counter,
}

impl Model for CounterObject {
    ghost use Rattle.oil_reader.specs.Configuration.{CounterRecord};

    ghost Value = { CounterRecord };

    ghost view = { λ c. record { name = c.name; counter = c.counter } };
}

/// The ACTION of an alarm, by the names of its block.
#[derive(Drop)]
pub enum ActionObject {
    ActivateTask { task: Name },
    SetEvent { task: Name, event: Name },
}

/// The block of an alarm's AUTOSTART = TRUE. Times are counts of the alarm's counter.
#[derive(Drop)]
pub struct AlarmStartObject {
    pub alarm_time: u32,
    pub cycle_time: u32,
    pub app_modes: Vec<Name>,
}

impl Model for AlarmStartObject {
    ghost use Rattle.oil_reader.specs.Configuration.{AlarmStartRecord};

    ghost Value = { AlarmStartRecord };

    ghost view = { λ a. record { alarm_time = a.alarm_time; cycle_time = a.cycle_time; app_modes = a.app_modes.items } };
}

/// An ALARM on the counter of that name.
#[derive(Drop)]
pub struct AlarmObject {
    pub name: Name,
    pub counter: Name,
    pub action: ActionObject,
    /// None at AUTOSTART = FALSE.
    pub autostart: Option<AlarmStartObject>,
}

impl Model for AlarmObject {
    ghost use Rattle.oil_reader.specs.Configuration.{AlarmRecord};

    ghost Value = { AlarmRecord };

    ghost view = { λ a. record { name = a.name; counter = a.counter; action = a.action; autostart = a.autostart } };
}

/// What a file holds, by value. An object's place in its list is the order of declaration within its kind.
#[derive(Drop)]
pub struct OilParts {
    pub cpu: Name,
    pub os: Os,
    pub app_modes: Vec<Name>,
    pub tasks: Vec<TaskObject>,
    pub routines: Vec<IsrObject>,
    pub resources: Vec<ResourceObject>,
    pub events: Vec<EventObject>,
    pub counters: Vec<CounterObject>,
    pub alarms: Vec<AlarmObject>,
}

impl Model for OilParts {
    ghost use Rattle.oil_reader.specs.Configuration.{Configuration};

    ghost Value = { Configuration };

    ghost view = { λ f. record {
      cpu = f.cpu;
      os = f.os;
      app_modes = f.app_modes.items;
      tasks = f.tasks.items;
      routines = f.routines.items;
      resources = f.resources.items;
      events = f.events.items;
      counters = f.counters.items;
      alarms = f.alarms.items;
    } };
}

/// A file that was read. Names are words of the grammar and not reserved, and none stands twice in one kind or list.
/// Numbers are in range. There is an application mode, and an alarm that starts by itself has one.
#[derive(Drop)]
pub struct OilFile {
    parts: OilParts,
}

impl Model for OilFile {
    ghost use Rattle.std.specs.Prelude.{IsTrue};
    ghost use Rattle.oil_reader.specs.Configuration.{Configuration};
    ghost use Rattle.oil_reader.specs.Checked.{is_checked};

    ghost Value = { Configuration };

    ghost view = { λ f. f.parts };

    ghost invariant = { λ f. IsTrue (is_checked f.parts) };
}

impl OilFile {
    /// The file of these parts.
    pub(crate) fn new(parts: OilParts) -> Self
        requires { IsTrue (is_checked parts) }
        ensures { result ≡ parts }
    {
        OilFile { parts }
    }

    /// All that it holds, each part of it checked.
    fn parts(&self) -> &OilParts
        ensures value { result.now ≡ self.now }
        ensures checked { CheckedParts result.now }
    {
        &self.parts
    }

    /// The name of the CPU.
    pub fn cpu(&self) -> &Name
        ensures value { result.now ≡ self.now.cpu }
        ensures checked { IsTrue (is_name result.now) }
    {
        &self.parts().cpu
    }

    /// The OS object.
    pub fn os(&self) -> &Os
        ensures value { result.now ≡ self.now.os }
        ensures checked { IsTrue (is_checked_os result.now) }
    {
        &self.parts().os
    }

    /// The names of the application modes, APPMODE.
    pub fn app_modes(&self) -> &[Name]
        ensures value { result.now ≡ self.now.app_modes }
        ensures checked { IsTrue (are_checked_modes result.now) }
    {
        &self.parts().app_modes
    }

    /// The objects of kind TASK.
    pub fn tasks(&self) -> &[TaskObject]
        ensures value { result.now ≡ self.now.tasks }
        ensures checked { IsTrue (are_checked_tasks result.now) }
    {
        &self.parts().tasks
    }

    /// The objects of kind ISR.
    pub fn routines(&self) -> &[IsrObject]
        ensures value { result.now ≡ self.now.routines }
        ensures checked { IsTrue (are_checked_isrs result.now) }
    {
        &self.parts().routines
    }

    /// The objects of kind RESOURCE.
    pub fn resources(&self) -> &[ResourceObject]
        ensures value { result.now ≡ self.now.resources }
        ensures checked { IsTrue (are_checked_resources result.now) }
    {
        &self.parts().resources
    }

    /// The objects of kind EVENT.
    pub fn events(&self) -> &[EventObject]
        ensures value { result.now ≡ self.now.events }
        ensures checked { IsTrue (are_checked_events result.now) }
    {
        &self.parts().events
    }

    /// The objects of kind COUNTER.
    pub fn counters(&self) -> &[CounterObject]
        ensures value { result.now ≡ self.now.counters }
        ensures checked { IsTrue (are_checked_counters result.now) }
    {
        &self.parts().counters
    }

    /// The objects of kind ALARM.
    pub fn alarms(&self) -> &[AlarmObject]
        ensures value { result.now ≡ self.now.alarms }
        ensures checked { IsTrue (are_checked_alarms result.now) }
    {
        &self.parts().alarms
    }

    /// The content by value.
    pub fn into_parts(self) -> OilParts
        ensures value { result ≡ self }
        ensures checked { IsTrue (is_checked result) }
    {
        let OilFile { parts } = self;
        parts
    }
}
