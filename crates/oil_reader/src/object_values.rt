//! OIL: standard objects. From the tree of a text without a fault to what its file holds.

ghost use Rattle.std.specs.Prelude.{◌≡◌, [], ◌∷◌, IsTrue, IfOk, OnOk, IfSome, option_map};
ghost use Rattle.oil_reader.specs.Attributes.{IsSoundObject, IsSoundFile};
ghost use Rattle.oil_reader.specs.Spelled.{is_spelled};
ghost use Rattle.oil_reader.specs.Checks.{has_kind};
ghost use Rattle.oil_reader.specs.declared.syntax.Kind.TheVariants as kind;
ghost use Rattle.oil_reader.specs.declared.table.AttributeName.TheVariants.{ActionTask, ActionEvent};
ghost use Rattle.oil_reader.specs.Trees.{value_of, settings_of, attributes_of, object_of, objects_of, file_of};
ghost use Rattle.oil_reader.specs.Meaning.{
  value_at,
  block_at,
  says,
  is_true,
  number_at,
  name_at,
  names_at,
  has_name,
  hooks_by,
  os_record,
  os_among,
  task_record,
  isr_record,
  resource_record,
  event_record,
  counter_record,
  action_by,
  start_record,
  alarm_record,
  with_object,
  configuration_of,
};

use crate::file::{
    ActionObject, AlarmObject, AlarmStartObject, CounterObject, EventObject, IsrObject, Mask,
    OilFile, OilParts, Os, ResourceObject, TaskObject,
};
use crate::ident::Ident;
use crate::object_faults::{is_os, settings_in};
use crate::syntax::{Attribute, Kind, Object, Setting, SyntaxTree, Value};
use crate::table::AttributeName;
use osek_base::{Counter, Hooks, Name, Property, Schedule};
use std::alloc::{AllocError, Global};

fn name_of(ident: Ident<'_>) -> Name
    ensures { result ≡ ident.entry.text.now }
{
    Name::new(ident.text).unwrap()
}

/// The value of an attribute, where it stands.
fn value_at<'a>(settings: &[Setting<'a>], attribute: AttributeName) -> Option<Value<'a>>
    ensures { option_map value_of result ≡ value_at attribute (settings_of settings.now) }
{
    for first in settings {
        if attribute.word() == first.name.text {
            return Some(first.value);
        }
    }
    None
}

/// The settings in the block behind an attribute; none where it has no block.
fn block_at<'t, 'a>(attributes: &'t [Attribute<'a>], name: AttributeName) -> &'t [Setting<'a>]
    ensures { settings_of result.now ≡ block_at name (attributes_of attributes.now) }
{
    for attribute in attributes {
        if name.word() == attribute.setting.name.text {
            return match &attribute.block {
                Some(block) => block.settings.as_slice(),
                None => &[],
            };
        }
    }
    &[]
}

fn says(settings: &[Setting<'_>], attribute: AttributeName, word: &str) -> bool
    ensures { result ≡ says (value_at attribute (settings_of settings.now)) word.now }
{
    match value_at(settings, attribute) {
        Some(Value::Name(name)) => name.text == word,
        _ => false,
    }
}

fn is_true(settings: &[Setting<'_>], attribute: AttributeName) -> bool
    ensures { result ≡ is_true attribute (settings_of settings.now) }
{
    says(settings, attribute, "TRUE")
}

fn number_at(settings: &[Setting<'_>], attribute: AttributeName) -> u32
    ensures { result ≡ number_at attribute (settings_of settings.now) }
{
    match value_at(settings, attribute) {
        Some(Value::Number(number)) => number,
        _ => 0,
    }
}

fn name_at(settings: &[Setting<'_>], attribute: AttributeName) -> Name
    requires { IsTrue (has_name attribute (settings_of settings.now)) }
    ensures { result ≡ name_at attribute (settings_of settings.now) }
{
    match value_at(settings, attribute) {
        Some(Value::Name(name)) => name_of(name),
        _ => unreachable!(),
    }
}

/// The names of a list attribute, in their order.
fn names_at(
    alloc: Global,
    settings: &[Setting<'_>],
    attribute: AttributeName,
) -> Result<Vec<Name>, AllocError>
    ensures { IfOk result (λ names. names.items ≡ names_at attribute (settings_of settings.now)) }
{
    let mut names = Vec::new(alloc);
    for setting in settings {
        if attribute.word() == setting.name.text {
            if let Value::Name(name) = setting.value {
                names.push(name_of(name))?;
            }
        }
    }
    Ok(names)
}

fn hooks(settings: &[Setting<'_>]) -> Hooks
    ensures { result ≡ hooks_by (settings_of settings.now) }
{
    Hooks {
        startup: is_true(settings, AttributeName::StartupHook),
        error: is_true(settings, AttributeName::ErrorHook),
        shutdown: is_true(settings, AttributeName::ShutdownHook),
        pre_task: is_true(settings, AttributeName::PreTaskHook),
        post_task: is_true(settings, AttributeName::PostTaskHook),
    }
}

fn os_object(alloc: Global, object: &Object<'_>) -> Result<Os, AllocError>
    ensures { IfOk result (λ os. os ≡ os_record (object_of object.now)) }
{
    let settings = settings_in(alloc, &object.attributes)?;
    Ok(Os {
        name: name_of(object.name),
        hooks: hooks(&settings),
        use_res_scheduler: !says(&settings, AttributeName::UseResScheduler, "FALSE"),
    })
}

fn task_object(alloc: Global, object: &Object<'_>) -> Result<TaskObject, AllocError>
    requires sound { IsSoundObject (object_of object.now) }
    requires kind { object.now.kind ≡ kind.Task }
    ensures { IfOk result (λ task. task ≡ task_record (object_of object.now)) }
{
    let settings = settings_in(alloc, &object.attributes)?;
    let is_non = says(&settings, AttributeName::Schedule, "NON");
    let autostart = if is_true(&settings, AttributeName::TaskAutostart) {
        let block = block_at(&object.attributes, AttributeName::TaskAutostart);
        names_at(alloc, block, AttributeName::StartMode)?
    } else {
        Vec::new(alloc)
    };
    Ok(TaskObject {
        name: name_of(object.name),
        priority: number_at(&settings, AttributeName::TaskPriority) as u8,
        schedule: if is_non {
            Schedule::Non
        } else {
            Schedule::Full
        },
        activation: number_at(&settings, AttributeName::Activation) as u8,
        autostart,
        resources: names_at(alloc, &settings, AttributeName::TaskResource)?,
        events: names_at(alloc, &settings, AttributeName::TaskEvent)?,
    })
}

fn isr_object(alloc: Global, object: &Object<'_>) -> Result<IsrObject, AllocError>
    requires sound { IsSoundObject (object_of object.now) }
    requires kind { object.now.kind ≡ kind.Isr }
    ensures { IfOk result (λ isr. isr ≡ isr_record (object_of object.now)) }
{
    let settings = settings_in(alloc, &object.attributes)?;
    Ok(IsrObject {
        name: name_of(object.name),
        priority: number_at(&settings, AttributeName::IsrPriority) as u8,
    })
}

fn resource_object(alloc: Global, object: &Object<'_>) -> Result<ResourceObject, AllocError>
    ensures { IfOk result (λ resource. resource ≡ resource_record (object_of object.now)) }
{
    let settings = settings_in(alloc, &object.attributes)?;
    let is_internal = says(&settings, AttributeName::ResourceProperty, "INTERNAL");
    Ok(ResourceObject {
        name: name_of(object.name),
        property: if is_internal {
            Property::Internal
        } else {
            Property::Standard
        },
    })
}

fn event_object(alloc: Global, object: &Object<'_>) -> Result<EventObject, AllocError>
    ensures { IfOk result (λ event. event ≡ event_record (object_of object.now)) }
{
    let settings = settings_in(alloc, &object.attributes)?;
    let mask = match value_at(&settings, AttributeName::EventMask) {
        Some(Value::Number(bits)) => Mask::Bits(bits),
        _ => Mask::Auto,
    };
    Ok(EventObject {
        name: name_of(object.name),
        mask,
    })
}

fn counter_object(alloc: Global, object: &Object<'_>) -> Result<CounterObject, AllocError>
    ensures { IfOk result (λ counter. counter ≡ counter_record (object_of object.now)) }
{
    let settings = settings_in(alloc, &object.attributes)?;
    Ok(CounterObject {
        name: name_of(object.name),
        counter: Counter {
            max_allowed_value: number_at(&settings, AttributeName::MaxAllowedValue),
            ticks_per_base: number_at(&settings, AttributeName::TicksPerBase),
            min_cycle: number_at(&settings, AttributeName::MinCycle),
        },
    })
}

/// The ACTION of an alarm, by its block.
fn action_object(sets_event: bool, block: &[Setting<'_>]) -> ActionObject
    requires task { IsTrue (has_name ActionTask (settings_of block.now)) }
    requires event { IsTrue sets_event → IsTrue (has_name ActionEvent (settings_of block.now)) }
    ensures { result ≡ action_by sets_event (settings_of block.now) }
{
    let task = name_at(block, AttributeName::ActionTask);
    if sets_event {
        let event = name_at(block, AttributeName::ActionEvent);
        ActionObject::SetEvent { task, event }
    } else {
        ActionObject::ActivateTask { task }
    }
}

/// The AUTOSTART = TRUE of an alarm, by its block.
fn alarm_start(alloc: Global, block: &[Setting<'_>]) -> Result<AlarmStartObject, AllocError>
    ensures { IfOk result (λ start. start ≡ start_record (settings_of block.now)) }
{
    Ok(AlarmStartObject {
        alarm_time: number_at(block, AttributeName::AlarmTime),
        cycle_time: number_at(block, AttributeName::CycleTime),
        app_modes: names_at(alloc, block, AttributeName::StartMode)?,
    })
}

fn alarm_object(alloc: Global, object: &Object<'_>) -> Result<AlarmObject, AllocError>
    requires sound { IsSoundObject (object_of object.now) }
    requires kind { object.now.kind ≡ kind.Alarm }
    ensures { IfOk result (λ alarm. alarm ≡ alarm_record (object_of object.now)) }
{
    let settings = settings_in(alloc, &object.attributes)?;
    let sets_event = says(&settings, AttributeName::AlarmAction, "SETEVENT");
    let block = block_at(&object.attributes, AttributeName::AlarmAction);
    let autostart = if is_true(&settings, AttributeName::AlarmAutostart) {
        let block = block_at(&object.attributes, AttributeName::AlarmAutostart);
        Some(alarm_start(alloc, block)?)
    } else {
        None
    };
    Ok(AlarmObject {
        name: name_of(object.name),
        counter: name_at(&settings, AttributeName::AlarmCounter),
        action: action_object(sets_event, block),
        autostart,
    })
}

impl OilParts {
    /// One more object, at the end of its kind's list; the OS object has none.
    fn add(&mut self, alloc: Global, object: &Object<'_>) -> Result<(), AllocError>
        requires { IsSoundObject (object_of object.now) }
        ensures { OnOk result (self.new ≡ with_object self.old (object_of object.now)) }
    {
        match object.kind {
            Kind::Os => {}
            Kind::AppMode => self.app_modes.push(name_of(object.name))?,
            Kind::Task => self.tasks.push(task_object(alloc, object)?)?,
            Kind::Isr => self.routines.push(isr_object(alloc, object)?)?,
            Kind::Resource => self.resources.push(resource_object(alloc, object)?)?,
            Kind::Event => self.events.push(event_object(alloc, object)?)?,
            Kind::Counter => self.counters.push(counter_object(alloc, object)?)?,
            Kind::Alarm => self.alarms.push(alarm_object(alloc, object)?)?,
        }
        Ok(())
    }
}

/// The OS object, of which there is one.
fn os_among(alloc: Global, objects: &[Object<'_>]) -> Result<Os, AllocError>
    requires { IsTrue (has_kind kind.Os (objects_of objects.now)) }
    ensures { IfOk result (λ os. os ≡ os_among (objects_of objects.now)) }
{
    for object in objects {
        if is_os(object.kind) {
            return os_object(alloc, object);
        }
    }
    unreachable!()
}

/// What a file without a fault holds.
pub fn oil_file(alloc: Global, tree: &SyntaxTree<'_>) -> Result<OilFile, AllocError>
    requires sound { IsSoundFile (file_of tree.now) }
    requires spelled { IsTrue (is_spelled (file_of tree.now)) }
    ensures { IfOk result (λ file. file ≡ configuration_of (file_of tree.now)) }
{
    let mut parts = OilParts {
        cpu: name_of(tree.cpu),
        os: os_among(alloc, &tree.objects)?,
        app_modes: Vec::new(alloc),
        tasks: Vec::new(alloc),
        routines: Vec::new(alloc),
        resources: Vec::new(alloc),
        events: Vec::new(alloc),
        counters: Vec::new(alloc),
        alarms: Vec::new(alloc),
    };
    for object in &tree.objects {
        parts.add(alloc, object)?;
    }
    Ok(OilFile::new(parts))
}
