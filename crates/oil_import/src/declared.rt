//! OIL: standard objects. The objects that are declared, as far as the limits of a system allow
//! them.

use crate::attributes::{is_object_name, kind_of};
use crate::braces::inside;
use crate::items::{Item, Written};
use crate::long_names::reason_against_name;
use crate::reasons;
use oil_reader::Kind;
use osek_base::{
    MAX_ALARMS, MAX_COUNTERS, MAX_EVENTS, MAX_MODES, MAX_RESOURCES, MAX_ROUTINES, MAX_TASKS,
};
use std::alloc::{AllocError, Global};

/// The mode that is there without being declared.
pub(crate) const DEFAULT_MODE: &str = "OSDEFAULTAPPMODE";

/// The resource that is there without being declared.
const SCHEDULER: &str = "RES_SCHEDULER";

/// An object that is declared.
#[derive(Clone, Copy)]
pub(crate) struct Declared<'a> {
    pub kind: Kind,
    pub name: &'a str,
    /// Whether it lists an event.
    has_events: bool,
    /// The number of its item.
    pub number: usize,
}

/// The objects that are declared, each name of a kind once.
#[derive(Drop)]
pub(crate) struct DeclaredObjects<'a> {
    list: Vec<Declared<'a>>,
    /// The names of the alarms that stand for actions of schedule tables.
    made: Vec<String>,
}

/// Whether an object is the resource that is there without being declared.
pub(crate) fn is_scheduler(kind: Kind, name: &str) -> bool {
    kind == Kind::Resource && name == SCHEDULER
}

/// How many objects of a kind there are at most.
fn limit_of(kind: Kind) -> usize {
    match kind {
        Kind::Os => 1,
        Kind::AppMode => MAX_MODES,
        Kind::Task => MAX_TASKS,
        Kind::Isr => MAX_ROUTINES,
        Kind::Resource => MAX_RESOURCES,
        Kind::Event => MAX_EVENTS,
        Kind::Counter => MAX_COUNTERS,
        Kind::Alarm => MAX_ALARMS,
    }
}

/// What is said where there are more.
fn reason_of(kind: Kind) -> &'static str {
    match kind {
        Kind::Os => reasons::ONE_OS,
        Kind::AppMode => reasons::TOO_MANY_MODES,
        Kind::Task | Kind::Alarm => reasons::TOO_MANY_TASKS,
        Kind::Isr => reasons::TOO_MANY_ROUTINES,
        Kind::Resource | Kind::Event => reasons::TOO_MANY_RESOURCES,
        Kind::Counter => reasons::TOO_MANY_COUNTERS,
    }
}

/// Whether an event is listed among the attributes of an object, which lie at that depth.
fn lists_events(attributes: &[Item<'_>], depth: usize) -> bool {
    for item in attributes {
        if item.depth == depth && item.word == "EVENT" {
            return true;
        }
    }
    false
}

impl<'a> DeclaredObjects<'a> {
    /// The objects among items, which lie at that depth.
    pub(crate) fn new(alloc: Global, items: &[Item<'a>], depth: usize) -> Result<Self, AllocError> {
        let mut objects = DeclaredObjects {
            list: Vec::new(alloc),
            made: Vec::new(alloc),
        };
        for (number, item) in items.iter().enumerate() {
            if item.depth == depth {
                let attributes = inside(items, number, depth);
                let has_events = lists_events(attributes, depth.saturating_add(1));
                objects.declare(item, number, has_events)?;
            }
        }
        Ok(objects)
    }

    fn declare(
        &mut self,
        item: &Item<'a>,
        number: usize,
        has_events: bool,
    ) -> Result<(), AllocError> {
        let Some(kind) = kind_of(item.word) else {
            return Ok(());
        };
        let Written::Name(name) = item.written else {
            return Ok(());
        };
        if !is_scheduler(kind, name) && self.refusal(kind, name).is_none() {
            self.list.push(Declared {
                kind,
                name,
                has_events,
                number,
            })?;
        }
        Ok(())
    }

    /// Declares an alarm that stands for an action of a schedule table.
    pub(crate) fn make(&mut self, name: String) -> Result<(), AllocError> {
        self.made.push(name)?;
        Ok(())
    }

    /// Whether an object of that kind has that name.
    pub(crate) fn has(&self, kind: Kind, name: &str) -> bool {
        let is_made = kind == Kind::Alarm && self.made.iter().any(|made| made.as_str() == name);
        is_made || self.find(kind, name).is_some()
    }

    /// Why no object of that kind and name can be declared besides.
    pub(crate) fn refusal(&self, kind: Kind, name: &str) -> Option<&'static str> {
        if !is_object_name(name) {
            return Some(reason_against_name(name));
        }
        if self.has(kind, name) {
            return Some(reasons::TWICE);
        }
        (self.count(kind) >= limit_of(kind)).then_some(reason_of(kind))
    }

    /// The object of that kind and name.
    pub(crate) fn find(&self, kind: Kind, name: &str) -> Option<Declared<'a>> {
        for object in &self.list {
            if object.kind == kind && object.name == name {
                return Some(*object);
            }
        }
        None
    }

    /// How many objects of a kind there are.
    pub(crate) fn count(&self, kind: Kind) -> usize {
        let mut count: usize = if kind == Kind::Alarm {
            self.made.len()
        } else {
            0
        };
        for object in &self.list {
            if object.kind == kind {
                count = count.saturating_add(1);
            }
        }
        count
    }

    /// The only mode: the one that is declared, or where none is, the one that is there without.
    pub(crate) fn only_mode(&self) -> Option<&'a str> {
        match self.count(Kind::AppMode) {
            0 => Some(DEFAULT_MODE),
            1 => self.first_mode(),
            _ => None,
        }
    }

    fn first_mode(&self) -> Option<&'a str> {
        for object in &self.list {
            if object.kind == Kind::AppMode {
                return Some(object.name);
            }
        }
        None
    }

    /// Whether a task of that name is declared and lists no event.
    pub(crate) fn is_basic(&self, task: &str) -> bool {
        match self.find(Kind::Task, task) {
            Some(object) => !object.has_events,
            None => false,
        }
    }
}
