//! OIL: standard objects. How many objects of a kind there may be.

ghost use Rattle.std.specs.Prelude.{◌≡◌};
ghost use Rattle.system_gen.specs.Checks.{beyond_limit};

use crate::fault::ObjectKind;
use oil_reader::OilFile;
use osek_base::{
    MAX_ALARMS, MAX_COUNTERS, MAX_EVENTS, MAX_MODES, MAX_RESOURCES, MAX_ROUTINES, MAX_TASKS,
};

/// The first kind of which there are more objects than a system may have.
pub(crate) fn beyond_limit(file: &OilFile) -> Option<ObjectKind>
    ensures { result ≡ beyond_limit file.now }
{
    if file.app_modes().len() > MAX_MODES {
        Some(ObjectKind::AppMode)
    } else if file.tasks().len() > MAX_TASKS {
        Some(ObjectKind::Task)
    } else if file.routines().len() > MAX_ROUTINES {
        Some(ObjectKind::Isr)
    } else if file.resources().len() > MAX_RESOURCES {
        Some(ObjectKind::Resource)
    } else if file.events().len() > MAX_EVENTS {
        Some(ObjectKind::Event)
    } else if file.counters().len() > MAX_COUNTERS {
        Some(ObjectKind::Counter)
    } else if file.alarms().len() > MAX_ALARMS {
        Some(ObjectKind::Alarm)
    } else {
        None
    }
}
