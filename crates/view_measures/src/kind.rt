//! The kinds of things of which figures are told.

ghost use Rattle.std.specs.Prelude.{◌≡◌, ◌<◌, ◌^◌, ◌-◌, length};
ghost use Rattle.std.specs.Option.{option_map};
ghost use Rattle.view_figures.specs.FigureSums.{held_count};
ghost use Rattle.view_measures.specs.Kinds.{
  count_of,
  declared_names,
  kind_word,
  last_name,
  name_of,
  names_of,
};
ghost use Rattle.view_measures.specs.Measures.{measures_of};

use crate::measure::Measure;
use osek_base::{Name, System};

/// The name of the resource behind the declared ones.
const RES_SCHEDULER: &str = "RES_SCHEDULER";

/// The name of what may end a run.
const SHUTDOWN: &str = "ShutdownOS";

/// A kind of things.
#[derive(Clone, Copy)]
pub enum Kind {
    Task,
    Routine,
    /// A declared resource, or RES_SCHEDULER behind them where the system uses it.
    Resource,
    Alarm,
    /// The system itself, which is one thing; it is called by what may end a run.
    System,
}

/// All of them, in the order in which they stand.
pub const KINDS: [Kind; 5] = [
    Kind::Task,
    Kind::Routine,
    Kind::Resource,
    Kind::Alarm,
    Kind::System,
];

/// How many resources can be held.
pub fn held_count(system: &System) -> usize
    ensures { result ≡ held_count system.now }
{
    let declared = system.resource_count();
    if system.has_res_scheduler() {
        declared + 1
    } else {
        declared
    }
}

impl Kind {
    /// Its word.
    pub fn word(self) -> &'static str
        ensures { result.now ≡ kind_word self }
    {
        match self {
            Kind::Task => "task",
            Kind::Routine => "routine",
            Kind::Resource => "resource",
            Kind::Alarm => "alarm",
            Kind::System => "system",
        }
    }

    /// What is told of each of its things.
    pub fn measures(self) -> &'static [Measure]
        ensures { result.now ≡ measures_of self }
    {
        match self {
            Kind::Task => &[
                Measure::Response,
                Measure::Blocked,
                Measure::Blockers,
                Measure::Jobs,
                Measure::Refusal,
                Measure::Errors,
            ],
            Kind::Routine => &[Measure::Latency, Measure::Loss, Measure::RoutineErrors],
            Kind::Resource => &[Measure::Hold],
            Kind::Alarm => &[Measure::RefusedAction],
            Kind::System => &[Measure::Shutdown],
        }
    }

    /// The names of its declared things.
    fn names(self, system: &System) -> &[Name]
        ensures value { result.now ≡ declared_names system.now.names self }
        ensures few { length result.now < 2 ^ 64 - 1 }
    {
        let names = system.names();
        match self {
            Kind::Task => names.tasks.as_slice(),
            Kind::Routine => names.routines.as_slice(),
            Kind::Resource => names.resources.as_slice(),
            Kind::Alarm => names.alarms.as_slice(),
            Kind::System => &[],
        }
    }

    /// The name of what stands behind the declared things.
    fn last_name(self, system: &System) -> Option<&'static str>
        ensures { option_map (λ name. name.now) result ≡ last_name system.now self }
    {
        match self {
            Kind::Resource if system.has_res_scheduler() => Some(RES_SCHEDULER),
            Kind::System => Some(SHUTDOWN),
            _ => None,
        }
    }

    /// How many things of it a system has: as many as have names.
    pub fn count(self, system: &System) -> usize
        ensures value { result ≡ count_of system.now self }
        ensures names { result ≡ length (names_of system.now self) }
    {
        system.shows_proper();
        match self {
            Kind::Task => system.task_count(),
            Kind::Routine => system.routine_count(),
            Kind::Resource => held_count(system),
            Kind::Alarm => system.alarm_count(),
            Kind::System => 1,
        }
    }

    /// The name of a thing of it, empty where there is none of that number.
    pub fn name(self, system: &System, number: usize) -> &str
        ensures { result.now ≡ name_of system.now self number }
    {
        let names = self.names(system);
        match names.get(number) {
            Some(name) => name.as_str(),
            None if number == names.len() => self.last_name(system).unwrap_or(""),
            None => "",
        }
    }

    /// How many bytes the longest of its names and a least width have.
    fn width(self, system: &System, least: usize) -> usize {
        let mut width = least;
        for name in self.names(system) {
            width = width.max(name.as_str().len());
        }
        width
    }
}

/// How many bytes the longest name has, no fewer than RES_SCHEDULER has.
pub fn width_of(system: &System) -> usize {
    let mut width = RES_SCHEDULER.len();
    for kind in &KINDS {
        width = kind.width(system, width);
    }
    width
}
