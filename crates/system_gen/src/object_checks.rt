//! OIL: standard objects and their attributes; OSEK/VDX OS: constraints. What generation refuses in
//! an OIL file.

ghost use Rattle.std.specs.Prelude.{◌≡◌, Some, None};
ghost use Rattle.std.specs.List.{list_any};
ghost use Rattle.osek_base.specs.Proper.{has_two};
ghost use Rattle.system_gen.specs.Checks.{
  Answers,
  has_proper_activation,
  is_internal,
  is_internal_named,
  is_single_internal,
  has_proper_values,
  fits,
  fits_on,
  has_proper_start,
  is_extended_named,
  has_proper_action,
  is_proper_alarm,
  activation_fault,
  resource_fault,
  counter_fault,
  alarm_fault,
};

use crate::fault::GenFault;
use oil_reader::{
    ActionObject, AlarmObject, AlarmStartObject, CounterObject, OilFile, ResourceObject, TaskObject,
};
use osek_base::{Counter, MAX_COUNTS, Name, Property, Schedule};

/// An extended task has one activation at most.
pub(crate) fn check_activations(tasks: &[TaskObject]) -> Result<(), GenFault>
    ensures { Answers (activation_fault tasks.now) result }
{
    for task in tasks {
        if !has_proper_activation(task) {
            return Err(GenFault::ExtendedActivation(task.name.clone()?));
        }
    }
    Ok(())
}

fn has_proper_activation(task: &TaskObject) -> bool
    ensures { result ≡ has_proper_activation task.now }
{
    task.events.is_empty() || task.activation <= 1
}

/// A task lists one internal resource at most, and with SCHEDULE NON none.
pub(crate) fn check_internal_resources(
    resources: &[ResourceObject],
    tasks: &[TaskObject],
) -> Result<(), GenFault>
    ensures { Answers (resource_fault resources.now tasks.now) result }
{
    for task in tasks {
        if !is_single_internal(resources, task.schedule, task.resources.as_slice()) {
            return Err(GenFault::TwoInternal(task.name.clone()?));
        }
    }
    Ok(())
}

fn is_single_internal(resources: &[ResourceObject], schedule: Schedule, names: &[Name]) -> bool
    ensures { result ≡ is_single_internal resources.now schedule names.now }
{
    match schedule {
        Schedule::Full => !has_two_internal(resources, names),
        Schedule::Non => !has_internal(resources, names),
    }
}

fn has_two_internal(resources: &[ResourceObject], names: &[Name]) -> bool
    ensures { result ≡ has_two (is_internal resources.now) names.now }
{
    match names.split_first() {
        None => false,
        Some((name, rest)) => {
            if is_internal(resources, name) {
                has_internal(resources, rest)
            } else {
                has_two_internal(resources, rest)
            }
        }
    }
}

fn has_internal(resources: &[ResourceObject], names: &[Name]) -> bool
    ensures { result ≡ list_any (is_internal resources.now) names.now }
{
    for name in names {
        if is_internal(resources, name) {
            return true;
        }
    }
    false
}

/// Whether a name is that of an internal resource.
pub(crate) fn is_internal(resources: &[ResourceObject], name: &Name) -> bool
    ensures { result ≡ is_internal resources.now name.now }
{
    for resource in resources {
        if is_internal_named(name, resource) {
            return true;
        }
    }
    false
}

fn is_internal_named(name: &Name, resource: &ResourceObject) -> bool
    ensures { result ≡ is_internal_named name.now resource.now }
{
    match resource.property {
        Property::Internal => resource.name.as_str() == name.as_str(),
        Property::Standard => false,
    }
}

/// A counter counts, and cycles fit between its MINCYCLE and its MAXALLOWEDVALUE.
pub(crate) fn check_counters(counters: &[CounterObject]) -> Result<(), GenFault>
    ensures { Answers (counter_fault counters.now) result }
{
    for object in counters {
        if !has_proper_values(&object.counter) {
            return Err(GenFault::Counter(object.name.clone()?));
        }
    }
    Ok(())
}

fn has_proper_values(counter: &Counter) -> bool
    ensures { result ≡ has_proper_values counter.now }
{
    let top = 1 <= counter.max_allowed_value && counter.max_allowed_value <= MAX_COUNTS;
    let cycle = 1 <= counter.min_cycle && counter.min_cycle <= counter.max_allowed_value;
    top && cycle && 1 <= counter.ticks_per_base
}

/// An alarm starts with times that its counter has, and sets events of extended tasks alone.
pub(crate) fn check_alarms(file: &OilFile) -> Result<(), GenFault>
    ensures { Answers (alarm_fault file.now file.now.alarms) result }
{
    for alarm in file.alarms() {
        if !is_proper_alarm(file, alarm) {
            return Err(GenFault::Alarm(alarm.name.clone()?));
        }
    }
    Ok(())
}

fn is_proper_alarm(file: &OilFile, alarm: &AlarmObject) -> bool
    ensures { result ≡ is_proper_alarm file.now alarm.now }
{
    let start = has_proper_start(file.counters(), &alarm.counter, &alarm.autostart);
    let action = has_proper_action(file.tasks(), &alarm.action);
    start && action
}

fn has_proper_start(
    counters: &[CounterObject],
    name: &Name,
    start: &Option<AlarmStartObject>,
) -> bool
    ensures { result ≡ has_proper_start counters.now name.now start.now }
{
    match start {
        None => true,
        Some(start) => has_fitting(counters, name, start),
    }
}

/// Whether the counter of that name has the times of a start.
fn has_fitting(counters: &[CounterObject], name: &Name, start: &AlarmStartObject) -> bool
    ensures { result ≡ list_any (fits_on name.now start.now) counters.now }
{
    for object in counters {
        if fits_on(name, start, object) {
            return true;
        }
    }
    false
}

fn fits_on(name: &Name, start: &AlarmStartObject, object: &CounterObject) -> bool
    ensures { result ≡ fits_on name.now start.now object.now }
{
    object.name.as_str() == name.as_str() && fits(&object.counter, start)
}

/// Whether a counter has the times of a start.
fn fits(counter: &Counter, start: &AlarmStartObject) -> bool
    ensures { result ≡ fits counter.now start.now }
{
    let time = 1 <= start.alarm_time && start.alarm_time <= counter.max_allowed_value;
    let cycle = start.cycle_time == 0
        || (counter.min_cycle <= start.cycle_time && start.cycle_time <= counter.max_allowed_value);
    time && cycle
}

fn has_proper_action(tasks: &[TaskObject], action: &ActionObject) -> bool
    ensures { result ≡ has_proper_action tasks.now action.now }
{
    match action {
        ActionObject::ActivateTask { .. } => true,
        ActionObject::SetEvent { task, .. } => has_extended(tasks, task),
    }
}

/// Whether the task of that name is extended.
fn has_extended(tasks: &[TaskObject], name: &Name) -> bool
    ensures { result ≡ list_any (is_extended_named name.now) tasks.now }
{
    for task in tasks {
        if is_extended_named(name, task) {
            return true;
        }
    }
    false
}

fn is_extended_named(name: &Name, task: &TaskObject) -> bool
    ensures { result ≡ is_extended_named name.now task.now }
{
    task.name.as_str() == name.as_str() && !task.events.is_empty()
}
