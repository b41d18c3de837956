//! What the OIL file beside a work file tells: its tasks and routines by name, priorities, and the
//! alarms that make jobs.

use make_descriptions::description::{Action, Alarm};
use oil_reader::{ActionObject, OilFile};
use std::alloc::{AllocError, Global};

/// The priority that the OIL file gives a task, 0 where there is no such task.
pub(crate) fn priority_of(file: &OilFile, name: &str) -> u32 {
    for task in file.tasks() {
        if task.name.as_str() == name {
            return task.priority as u32;
        }
    }
    0
}

/// In how many ticks a counter grows once.
fn ticks_per_count(file: &OilFile, name: &str) -> u32 {
    for counter in file.counters() {
        if counter.name.as_str() == name {
            return counter.counter.ticks_per_base;
        }
    }
    1
}

/// The alarms of an OIL file that activate a task again and again from the beginning.
pub(crate) fn cyclic_alarms<'a>(
    alloc: Global,
    file: &'a OilFile,
) -> Result<Vec<Alarm<'a>>, AllocError> {
    let mut alarms = Vec::new(alloc);
    for alarm in file.alarms() {
        if let (Some(start), ActionObject::ActivateTask { task }) = (
            &alarm.autostart,
            &alarm.action,
        ) {
            if start.cycle_time > 0 {
                let base = ticks_per_count(file, alarm.counter.as_str());
                alarms.push(Alarm {
                    name: alarm.name.as_str(),
                    place: 0,
                    action_place: 0,
                    period: start.cycle_time.saturating_mul(base),
                    offset: start.alarm_time.saturating_mul(base),
                    modes: None,
                    action: Action::Activate(task.as_str()),
                })?;
            }
        }
    }
    Ok(alarms)
}

/// Whether the OIL file has a task of that name.
pub(crate) fn has_task(file: &OilFile, name: &str) -> bool {
    for task in file.tasks() {
        if task.name.as_str() == name {
            return true;
        }
    }
    false
}

/// Whether the OIL file has a routine of that name.
pub(crate) fn has_routine(file: &OilFile, name: &str) -> bool {
    for routine in file.routines() {
        if routine.name.as_str() == name {
            return true;
        }
    }
    false
}
