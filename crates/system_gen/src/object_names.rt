//! OIL: names of objects. The names of the objects of a file, kind by kind.

ghost use Rattle.std.specs.Prelude.{◌≡◌, ◌<◌, ℕ, List, IfOk, length, map};
ghost use Rattle.system_gen.specs.ObjectNames.{names_of, order_of, task_name};
ghost use Rattle.system_gen.specs.Order.{ArePlaces};

use oil_reader::{
    AlarmObject, CounterObject, EventObject, IsrObject, OilFile, ResourceObject, TaskObject,
};
use osek_base::{Name, Names};
use std::alloc::{AllocError, Global};

/// The names that a system keeps: of tasks by their numbers, of all else in the order of
/// declaration.
pub(crate) fn names_of(alloc: Global, file: &OilFile, order: &[usize]) -> Result<Names, AllocError>
    requires places { ArePlaces (length file.now.tasks) order.now }
    requires order { order.now ≡ order_of file.now.tasks }
    ensures { IfOk result (λ names. names ≡ names_of file.now) }
{
    let tasks = task_names_of(alloc, file.tasks(), order)?;
    let routines = names_in_order(alloc, file.routines())?;
    let resources = names_in_order(alloc, file.resources())?;
    let events = names_in_order(alloc, file.events())?;
    let alarms = names_in_order(alloc, file.alarms())?;
    let modes = names_in_order(alloc, file.app_modes())?;
    Ok(Names {
        tasks,
        routines,
        resources,
        events,
        alarms,
        modes,
    })
}

/// The names of the tasks by their numbers.
fn task_names_of(
    alloc: Global,
    tasks: &[TaskObject],
    order: &[usize],
) -> Result<Vec<Name>, AllocError>
    requires { ArePlaces (length tasks.now) order.now }
    ensures { IfOk result (λ names. names.items ≡ map (task_name tasks.now) order.now) }
{
    let mut names = Vec::new(alloc);
    for place in order {
        names.push(task_name_at(tasks, *place)?)?;
    }
    Ok(names)
}

/// The name of the task at a declared place.
fn task_name_at(tasks: &[TaskObject], place: usize) -> Result<Name, AllocError>
    requires { place < length tasks.now }
    ensures { IfOk result (λ name. name ≡ task_name tasks.now place) }
{
    match tasks.get(place) {
        Some(task) => task.name.clone(),
        None => unreachable!(),
    }
}

/// What has a name: the objects of a file, and a name itself.
pub(crate) trait Named {
    ghost name_of: { Self → List ℕ };

    fn name(&self) -> &Name
        ensures { result.now ≡ name_of self.now };
}

impl Named for Name {
    ghost name_of = { λ name. name };

    fn name(&self) -> &Name {
        self
    }
}

impl Named for IsrObject {
    ghost name_of = { λ object. object.name };

    fn name(&self) -> &Name {
        &self.name
    }
}

impl Named for ResourceObject {
    ghost name_of = { λ object. object.name };

    fn name(&self) -> &Name {
        &self.name
    }
}

impl Named for EventObject {
    ghost name_of = { λ object. object.name };

    fn name(&self) -> &Name {
        &self.name
    }
}

impl Named for CounterObject {
    ghost name_of = { λ object. object.name };

    fn name(&self) -> &Name {
        &self.name
    }
}

impl Named for AlarmObject {
    ghost name_of = { λ object. object.name };

    fn name(&self) -> &Name {
        &self.name
    }
}

/// The names of some objects, in their order.
pub(crate) fn names_in_order<T: Named>(
    alloc: Global,
    objects: &[T],
) -> Result<Vec<Name>, AllocError>
    ensures { IfOk result (λ names. names.items ≡ map T.name_of objects.now) }
{
    let mut names = Vec::new(alloc);
    for object in objects {
        names.push(object.name().clone()?)?;
    }
    Ok(names)
}
