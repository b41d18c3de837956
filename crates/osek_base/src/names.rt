//! OIL: names of objects. Names of 1 to 32 bytes, and the names of a system.

ghost use Rattle.std.specs.Prelude.{◌≡◌, ◌<◌, ◌↔◌, IsTrue, IsSome, IfSome, length, bytes_eq, ◌≤◌};
ghost use Rattle.osek_base.specs.Names.{
  HasOwner,
  HasResource,
  owner_name,
  resource_name,
  alarm_name,
  is_proper_name,
  number_of,
};

use crate::ids::{AlarmId, ModeId, Owner, ResId};
use crate::limits::{MAX_MODES, MAX_NAME};
use arrayvec::ArrayString;
use std::marker::Model;

/// A name of 1 to 32 bytes, seen as its bytes.
#[derive(Clone, Debug, Drop)]
pub struct Name {
    text: ArrayString<MAX_NAME>,
}

impl Model for Name {
    ghost use Rattle.std.specs.Prelude.{List, ℕ, IsTrue};
    ghost use Rattle.osek_base.specs.Names.{is_proper_name};

    ghost Value = { List ℕ };

    ghost view = { λ n. n.text.bytes };

    ghost invariant = { λ n. IsTrue (is_proper_name n.text.bytes) };
}

impl Name {
    /// The name with that text, where it has 1 to 32 bytes.
    pub fn new(text: &str) -> Option<Self>
        ensures proper { IsSome result ↔ IsTrue (is_proper_name text.now) }
        ensures value { IfSome result (λ n. n ≡ text.now) }
    {
        if text.is_empty() || text.len() > MAX_NAME {
            return None;
        }
        match ArrayString::from(text) {
            Ok(text) => Some(Name { text }),
            Err(_) => None,
        }
    }

    /// The text of the name.
    pub fn as_str(&self) -> &str
        ensures value { result.now ≡ self.now }
        ensures proper { IsTrue (is_proper_name self.now) }
    {
        self.text.as_str()
    }

    fn is(&self, text: &str) -> bool
        ensures { result ≡ bytes_eq self.now text.now }
    {
        self.as_str() == text
    }
}

fn number_of(text: &str, names: &[Name]) -> Option<usize>
    ensures value { result ≡ number_of text.now names.now }
    ensures bound { IfSome result (λ n. n < length names.now) }
{
    match names.split_first() {
        None => None,
        Some((name, rest)) => {
            if name.is(text) {
                Some(0)
            } else {
                match number_of(text, rest) {
                    None => None,
                    Some(number) => Some(number + 1),
                }
            }
        }
    }
}

/// The names of a system's objects, each at its number.
#[derive(Drop)]
pub struct Names {
    pub tasks: Vec<Name>,
    pub routines: Vec<Name>,
    pub resources: Vec<Name>,
    pub events: Vec<Name>,
    pub alarms: Vec<Name>,
    pub modes: Vec<Name>,
}

impl Model for Names {
    ghost use Rattle.osek_base.specs.Names.{Names as Configured};

    ghost Value = { Configured };

    ghost view = { λ n. record {
      tasks = n.tasks.items;
      routines = n.routines.items;
      resources = n.resources.items;
      events = n.events.items;
      alarms = n.alarms.items;
      modes = n.modes.items;
    } };
}

impl Names {
    /// The name of a task or routine.
    pub fn of(&self, owner: Owner) -> &str
        requires { HasOwner self.now owner }
        ensures { result.now ≡ owner_name self.now owner }
    {
        match owner {
            Owner::Task(task) => self.tasks[task.number() as usize].as_str(),
            Owner::Routine(routine) => self.routines[routine.number() as usize].as_str(),
        }
    }

    /// The name of a resource, also of RES_SCHEDULER.
    pub fn resource(&self, resource: ResId) -> &str
        requires { HasResource self.now resource }
        ensures { result.now ≡ resource_name self.now resource }
    {
        match resource {
            ResId::Declared(number) => self.resources[number.number() as usize].as_str(),
            ResId::Scheduler => "RES_SCHEDULER",
        }
    }

    /// The name of an alarm.
    pub fn alarm(&self, alarm: AlarmId) -> &str
        requires { alarm < length self.now.alarms }
        ensures { result.now ≡ alarm_name self.now alarm }
    {
        self.alarms[alarm.number() as usize].as_str()
    }

    /// The application mode of that name.
    pub fn mode(&self, name: &str) -> Option<ModeId>
        requires { length self.now.modes ≤ MAX_MODES }
        ensures { result ≡ number_of name.now self.now.modes }
    {
        match number_of(name, self.modes.as_slice()) {
            None => None,
            Some(number) => Some(ModeId::new(number as u8)),
        }
    }
}
