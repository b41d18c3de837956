//! OIL: standard objects; OSEK/VDX OS: system generation. From an OIL file and its programs to a
//! system.

ghost use Rattle.std.specs.Prelude.{◌≡◌, ◌<◌, IfOk, IfErr, OnOk, IsTrue, None, length, map};
ghost use Rattle.std.specs.Option.{option_map};
ghost use Rattle.oil_reader.specs.Checked.{is_checked};
ghost use Rattle.system_gen.specs.declared.fault.GenFault.TheVariants.{Limit};
ghost use Rattle.system_gen.specs.Checks.{Answers, IsFoundOrMemory, beyond_limit};
ghost use Rattle.system_gen.specs.ObjectNames.{order_of, names_of};
ghost use Rattle.system_gen.specs.DeclaredNames.{AreDistinct, declared_in, counter_names};
ghost use Rattle.system_gen.specs.Generated.{
  AreObjectsOf,
  known_of,
  masks_of,
  task_declared,
  resolved_routine,
  resolved_alarm,
  generated,
};
ghost use Rattle.system_gen.specs.Faults.{
  generation_fault,
  declaration_fault,
  program_fault,
  value_fault,
};
ghost use Rattle.system_gen.specs.Order.{ArePlaces};
ghost use Rattle.system_gen.specs.Typed.{are_typed};

use crate::declared_names::Declared;
use crate::fault::GenFault;
use crate::limits::beyond_limit;
use crate::masks::masks;
use crate::object_checks::{
    check_activations, check_alarms, check_counters, check_internal_resources,
};
use crate::object_names::{names_in_order, names_of};
use crate::program_checks::{
    check_ends, check_returns, check_routine_programs, check_task_programs,
};
use crate::references::check_references;
use crate::resolver::Resolver;
use oil_reader::{AlarmObject, CounterObject, IsrObject, OilFile, ResourceObject, TaskObject};
use osek_base::{Alarm, Counter, Name, Names, Parts, Property, Routine, System, Task, task_order};
use std::alloc::{AllocError, Global};
use std::marker::Model;
use task_asm::NamedProgram;

/// The objects of a system whose references are numbers.
#[derive(Drop)]
struct Objects {
    tasks: Vec<Task>,
    routines: Vec<Routine>,
    alarms: Vec<Alarm>,
}

impl Model for Objects {
    ghost use Rattle.system_gen.specs.Generated.{Objects as Resolved};

    ghost Value = { Resolved };

    ghost view = { λ o. record { tasks = o.tasks.items; routines = o.routines.items; alarms = o.alarms.items } };
}

/// The system that an OIL file and its programs name, or the first fault of the lowest number.
#[tactic(auto, unfolding(crate::specs::Generated::generated))]
pub fn generate(
    alloc: Global,
    file: OilFile,
    programs: Vec<NamedProgram>,
) -> Result<System, GenFault>
    ensures made { IfOk result (λ s. s ≡ generated file programs.items) }
    ensures sound { OnOk result (generation_fault file programs.items ≡ None) }
    ensures fault { IfErr result (IsFoundOrMemory (generation_fault file programs.items)) }
{
    stays_checked(&file);
    let parts = parts_of(alloc, &file, programs.as_slice())?;
    Ok(System::new(parts))
}

/// For the prover alone: all of a file is as its reader has checked it, by its type.
fn stays_checked(file: &OilFile)
    ensures { IsTrue (is_checked file.now) }
{
    file.cpu();
    file.os();
    file.app_modes();
    file.tasks();
    file.routines();
    file.resources();
    file.events();
    file.counters();
    file.alarms();
}

/// The parts of the system.
#[tactic(auto, unfolding(crate::specs::Generated::generated))]
fn parts_of(alloc: Global, file: &OilFile, programs: &[NamedProgram]) -> Result<Parts, GenFault>
    ensures made { IfOk result (λ s. s ≡ generated file.now programs.now) }
    ensures sound { OnOk result (generation_fault file.now programs.now ≡ None) }
    ensures typed { OnOk result (IsTrue (are_typed programs.now)) }
    ensures fault { IfErr result (IsFoundOrMemory (generation_fault file.now programs.now)) }
{
    stays_checked(file);
    let order = order_of(alloc, file.tasks())?;
    let names = names_of(alloc, file, order.as_slice())?;
    let counters = names_in_order(alloc, file.counters())?;
    let (objects, events) = resolve(alloc, file, programs, &names, &counters, &order)?;
    let resources = properties_of(alloc, file.resources())?;
    let counters = counters_of(alloc, file.counters())?;
    let Objects {
        tasks,
        routines,
        alarms,
    } = objects;
    Ok(Parts {
        names,
        tasks,
        routines,
        resources,
        events,
        counters,
        alarms,
        hooks: file.os().hooks,
        use_res_scheduler: file.os().use_res_scheduler,
    })
}

/// Checks the file and its programs, and resolves their names: the objects and the masks of the
/// events.
fn resolve<'a>(
    alloc: Global,
    file: &OilFile,
    programs: &[NamedProgram],
    names: &'a Names,
    counters: &'a [Name],
    order: &[usize],
) -> Result<(Objects, Vec<u32>), GenFault>
    requires places { ArePlaces (length file.now.tasks) order.now }
    requires order { order.now ≡ order_of file.now.tasks }
    requires names { names.now ≡ names_of file.now }
    requires counters { counters.now ≡ counter_names file.now.counters }
    requires distinct { AreDistinct (declared_in file.now) }
    ensures made { IfOk result (λ r. AreObjectsOf (known_of file.now) file.now programs.now r.0) }
    ensures masks { IfOk result (λ r. r.1.items ≡ masks_of file.now.events) }
    ensures sound { OnOk result (generation_fault file.now programs.now ≡ None) }
    ensures typed { OnOk result (IsTrue (are_typed programs.now)) }
    ensures fault { IfErr result (IsFoundOrMemory (generation_fault file.now programs.now)) }
{
    let declared = Declared::new(alloc, names, counters)?;
    resolve_by(alloc, &declared, file, programs, order)
}

/// The same, by what is declared.
fn resolve_by(
    alloc: Global,
    declared: &Declared,
    file: &OilFile,
    programs: &[NamedProgram],
    order: &[usize],
) -> Result<(Objects, Vec<u32>), GenFault>
    requires places { ArePlaces (length file.now.tasks) order.now }
    requires order { order.now ≡ order_of file.now.tasks }
    requires declared { declared.now ≡ declared_in file.now }
    ensures made { IfOk result (λ r. AreObjectsOf (known_of file.now) file.now programs.now r.0) }
    ensures masks { IfOk result (λ r. r.1.items ≡ masks_of file.now.events) }
    ensures sound { OnOk result (generation_fault file.now programs.now ≡ None) }
    ensures typed { OnOk result (IsTrue (are_typed programs.now)) }
    ensures fault { IfErr result (IsFoundOrMemory (generation_fault file.now programs.now)) }
{
    let masks = checked(alloc, declared, file, programs)?;
    let objects = {
        let resolver = Resolver::new(declared, masks.as_slice());
        objects_of(alloc, &resolver, file, programs, order)?
    };
    Ok((objects, masks))
}

/// The objects of the system: tasks by their numbers, all else in the order of declaration.
fn objects_of(
    alloc: Global,
    resolver: &Resolver,
    file: &OilFile,
    programs: &[NamedProgram],
    order: &[usize],
) -> Result<Objects, AllocError>
    requires places { ArePlaces (length file.now.tasks) order.now }
    requires order { order.now ≡ order_of file.now.tasks }
    ensures { IfOk result (AreObjectsOf resolver.now file.now programs.now) }
{
    let tasks = tasks_of(alloc, resolver, file.tasks(), programs, order)?;
    let routines = routines_of(alloc, resolver, file.routines(), programs)?;
    let alarms = alarms_of(alloc, resolver, file.alarms())?;
    Ok(Objects {
        tasks,
        routines,
        alarms,
    })
}

/// The masks of the events, once the ten checks have passed.
#[tactic(auto, unfolding(crate::specs::Faults::generation_fault))]
fn checked(
    alloc: Global,
    declared: &Declared,
    file: &OilFile,
    programs: &[NamedProgram],
) -> Result<Vec<u32>, GenFault>
    requires { declared.now ≡ declared_in file.now }
    ensures sound { OnOk result (generation_fault file.now programs.now ≡ None) }
    ensures typed { OnOk result (IsTrue (are_typed programs.now)) }
    ensures limits { OnOk result (beyond_limit file.now ≡ None) }
    ensures fault { IfErr result (IsFoundOrMemory (generation_fault file.now programs.now)) }
    ensures masks { IfOk result (λ masks. masks.items ≡ masks_of file.now.events) }
{
    check_declarations(declared, file, programs)?;
    check_programs(file, programs)?;
    checked_values(alloc, file)
}

/// Faults 1 to 4.
fn check_declarations(
    declared: &Declared,
    file: &OilFile,
    programs: &[NamedProgram],
) -> Result<(), GenFault>
    requires { declared.now ≡ declared_in file.now }
    ensures answers { Answers (declaration_fault file.now programs.now) result }
    ensures typed { OnOk result (IsTrue (are_typed programs.now)) }
    ensures limits { OnOk result (beyond_limit file.now ≡ None) }
{
    check_references(declared, file, programs)?;
    check_limits(file)?;
    check_activations(file.tasks())?;
    check_internal_resources(file.resources(), file.tasks())
}

/// Faults 5 to 7.
fn check_programs(file: &OilFile, programs: &[NamedProgram]) -> Result<(), GenFault>
    ensures { Answers (program_fault file.now programs.now) result }
{
    check_task_programs(file.tasks(), programs)?;
    check_routine_programs(file.routines(), programs)?;
    check_ends(programs)?;
    check_returns(programs)
}

/// The masks of the events, without faults 8 to 10.
fn checked_values(alloc: Global, file: &OilFile) -> Result<Vec<u32>, GenFault>
    ensures answers { Answers (value_fault file.now) result }
    ensures masks { IfOk result (λ masks. masks.items ≡ masks_of file.now.events) }
{
    let masks = masks(alloc, file.events())?;
    check_counters(file.counters())?;
    check_alarms(file)?;
    Ok(masks)
}

fn check_limits(file: &OilFile) -> Result<(), GenFault>
    ensures passed { OnOk result (beyond_limit file.now ≡ None) }
    ensures refused { IfErr result (IsFoundOrMemory (option_map Limit (beyond_limit file.now))) }
{
    match beyond_limit(file) {
        Some(kind) => Err(GenFault::Limit(kind)),
        None => Ok(()),
    }
}

/// The declared places of the tasks in the order of their numbers.
fn order_of(alloc: Global, tasks: &[TaskObject]) -> Result<Vec<usize>, AllocError>
    ensures order { IfOk result (λ order. order.items ≡ order_of tasks.now) }
    ensures places { IfOk result (λ order. ArePlaces (length tasks.now) order.items) }
{
    let priorities = priorities_of(alloc, tasks)?;
    Ok(task_order(alloc, priorities.as_slice())?)
}

fn priorities_of(alloc: Global, tasks: &[TaskObject]) -> Result<Vec<u8>, AllocError>
    ensures { IfOk result (λ priorities. priorities.items ≡ map (λ t. t.priority) tasks.now) }
{
    let mut priorities = Vec::new(alloc);
    for task in tasks {
        priorities.push(task.priority)?;
    }
    Ok(priorities)
}

fn tasks_of(
    alloc: Global,
    resolver: &Resolver,
    objects: &[TaskObject],
    programs: &[NamedProgram],
    order: &[usize],
) -> Result<Vec<Task>, AllocError>
    requires { ArePlaces (length objects.now) order.now }
    ensures { IfOk result
        (λ tasks. tasks.items
        ≡ map (task_declared resolver.now programs.now objects.now) order.now) }
{
    let mut tasks = Vec::new(alloc);
    for place in order {
        tasks.push(task_at(alloc, resolver, objects, programs, *place)?)?;
    }
    Ok(tasks)
}

/// The task that is declared at a place.
fn task_at(
    alloc: Global,
    resolver: &Resolver,
    objects: &[TaskObject],
    programs: &[NamedProgram],
    place: usize,
) -> Result<Task, AllocError>
    requires { place < length objects.now }
    ensures { IfOk result
        (λ task. task ≡ task_declared resolver.now programs.now objects.now place) }
{
    match objects.get(place) {
        Some(object) => resolver.task(alloc, object, programs),
        None => unreachable!(),
    }
}

fn routines_of(
    alloc: Global,
    resolver: &Resolver,
    objects: &[IsrObject],
    programs: &[NamedProgram],
) -> Result<Vec<Routine>, AllocError>
    ensures { IfOk result
        (λ routines. routines.items
        ≡ map (resolved_routine resolver.now programs.now) objects.now) }
{
    let mut routines = Vec::new(alloc);
    for object in objects {
        routines.push(resolver.routine(alloc, object, programs)?)?;
    }
    Ok(routines)
}

fn alarms_of(
    alloc: Global,
    resolver: &Resolver,
    objects: &[AlarmObject],
) -> Result<Vec<Alarm>, AllocError>
    ensures { IfOk result (λ alarms. alarms.items ≡ map (resolved_alarm resolver.now) objects.now) }
{
    let mut alarms = Vec::new(alloc);
    for object in objects {
        alarms.push(resolver.alarm(alloc, object)?)?;
    }
    Ok(alarms)
}

fn properties_of(alloc: Global, objects: &[ResourceObject]) -> Result<Vec<Property>, AllocError>
    ensures { IfOk result (λ properties. properties.items ≡ map (λ r. r.property) objects.now) }
{
    let mut properties = Vec::new(alloc);
    for object in objects {
        properties.push(object.property)?;
    }
    Ok(properties)
}

fn counters_of(alloc: Global, objects: &[CounterObject]) -> Result<Vec<Counter>, AllocError>
    ensures { IfOk result (λ counters. counters.items ≡ map (λ c. c.counter) objects.now) }
{
    let mut counters = Vec::new(alloc);
    for object in objects {
        counters.push(object.counter)?;
    }
    Ok(counters)
}
