//! OIL: standard objects and their attributes. Each kind of object as text.

ghost use Rattle.std.specs.Prelude.{◌≡◌, ◌++◌, codes, OnOk};
ghost use Rattle.std.specs.String.{string_bytes};
ghost use Rattle.oil_reader.specs.Grammar.{Named};
ghost use Rattle.oil_printer.specs.Layout.{attribute_text, object_start, object_end, object_text};
ghost use Rattle.oil_printer.specs.Printed.{
  line,
  os_object,
  mode_object,
  task_start,
  schedule_word,
  task_object,
  isr_object,
  resource_object,
  property_word,
  mask_value,
  event_object,
  counter_object,
  action_line,
  alarm_start,
  alarm_object,
};

use crate::layout::{
    close_block, open_block, push_line, push_lines, push_number_line, push_number_sub, push_sub,
    push_subs, push_switch,
};
use crate::printed_object::PrintedObject;
use oil_reader::{
    ActionObject, AlarmObject, AlarmStartObject, CounterObject, EventObject, IsrObject, Mask, Os,
    ResourceObject, TaskObject,
};
use osek_base::{Name, Property, Schedule};
use std::alloc::AllocError;

/// The first line of an object.
#[tactic(auto, unfolding(crate::specs::Layout::object_start))]
fn open_object(text: &mut String, kind: &str, name: &Name) -> Result<(), AllocError>
    ensures { OnOk result
        (string_bytes text.new ≡ string_bytes text.old ++ object_start kind.now name.now) }
{
    text.push_str("  ")?;
    text.push_str(kind)?;
    text.push_str(" ")?;
    text.push_str(name.as_str())?;
    text.push_str(" {\n")
}

/// The last line of an object.
#[tactic(auto, unfolding(crate::specs::Layout::object_end))]
fn close_object(text: &mut String) -> Result<(), AllocError>
    ensures { OnOk result (string_bytes text.new ≡ string_bytes text.old ++ object_end) }
{
    text.push_str("  };\n")
}

/// The OS object.
#[tactic(auto, unfolding(crate::specs::Layout::object_text))]
pub fn push_os(text: &mut String, os: &Os) -> Result<(), AllocError>
    ensures { OnOk result
        (string_bytes text.new ≡ string_bytes text.old ++ object_text (os_object os.now)) }
{
    open_object(text, "OS", &os.name)?;
    push_line(text, "STATUS", "EXTENDED")?;
    push_switch(text, "STARTUPHOOK", os.hooks.startup)?;
    push_switch(text, "ERRORHOOK", os.hooks.error)?;
    push_switch(text, "SHUTDOWNHOOK", os.hooks.shutdown)?;
    push_switch(text, "PRETASKHOOK", os.hooks.pre_task)?;
    push_switch(text, "POSTTASKHOOK", os.hooks.post_task)?;
    push_switch(text, "USERESSCHEDULER", os.use_res_scheduler)?;
    close_object(text)
}

impl PrintedObject for Name {
    ghost object_of = { mode_object };

    #[tactic(auto, unfolding(crate::specs::Layout::object_text))]
    fn push(&self, text: &mut String) -> Result<(), AllocError> {
        open_object(text, "APPMODE", self)?;
        close_object(text)
    }
}

/// AUTOSTART of a task that starts by itself in these modes.
fn push_task_start(text: &mut String, modes: &[Name]) -> Result<(), AllocError>
    ensures { OnOk result
        (string_bytes text.new ≡ string_bytes text.old ++ attribute_text (task_start modes.now)) }
{
    if modes.is_empty() {
        return push_switch(text, "AUTOSTART", false);
    }
    open_block(text, "AUTOSTART", "TRUE")?;
    push_subs(text, "APPMODE", modes)?;
    close_block(text)
}

fn push_schedule(text: &mut String, schedule: Schedule) -> Result<(), AllocError>
    ensures { OnOk result
        (string_bytes text.new
        ≡ string_bytes text.old
        ++ attribute_text (line (codes "SCHEDULE") (Named (schedule_word schedule)))) }
{
    match schedule {
        Schedule::Non => push_line(text, "SCHEDULE", "NON"),
        Schedule::Full => push_line(text, "SCHEDULE", "FULL"),
    }
}

impl PrintedObject for TaskObject {
    ghost object_of = { task_object };

    #[tactic(auto, unfolding(crate::specs::Layout::object_text))]
    fn push(&self, text: &mut String) -> Result<(), AllocError> {
        open_object(text, "TASK", &self.name)?;
        push_number_line(text, "PRIORITY", self.priority as u32)?;
        push_schedule(text, self.schedule)?;
        push_number_line(text, "ACTIVATION", self.activation as u32)?;
        push_task_start(text, &self.autostart)?;
        push_lines(text, "RESOURCE", &self.resources)?;
        push_lines(text, "EVENT", &self.events)?;
        close_object(text)
    }
}

impl PrintedObject for IsrObject {
    ghost object_of = { isr_object };

    #[tactic(auto, unfolding(crate::specs::Layout::object_text))]
    fn push(&self, text: &mut String) -> Result<(), AllocError> {
        open_object(text, "ISR", &self.name)?;
        push_number_line(text, "CATEGORY", 2)?;
        push_number_line(text, "PRIORITY", self.priority as u32)?;
        close_object(text)
    }
}

fn push_property(text: &mut String, property: Property) -> Result<(), AllocError>
    ensures { OnOk result
        (string_bytes text.new
        ≡ string_bytes text.old
        ++ attribute_text (line (codes "RESOURCEPROPERTY") (Named (property_word property)))) }
{
    match property {
        Property::Standard => push_line(text, "RESOURCEPROPERTY", "STANDARD"),
        Property::Internal => push_line(text, "RESOURCEPROPERTY", "INTERNAL"),
    }
}

impl PrintedObject for ResourceObject {
    ghost object_of = { resource_object };

    #[tactic(auto, unfolding(crate::specs::Layout::object_text))]
    fn push(&self, text: &mut String) -> Result<(), AllocError> {
        open_object(text, "RESOURCE", &self.name)?;
        push_property(text, self.property)?;
        close_object(text)
    }
}

fn push_mask(text: &mut String, mask: Mask) -> Result<(), AllocError>
    ensures { OnOk result
        (string_bytes text.new
        ≡ string_bytes text.old ++ attribute_text (line (codes "MASK") (mask_value mask))) }
{
    match mask {
        Mask::Auto => push_line(text, "MASK", "AUTO"),
        Mask::Bits(bits) => push_number_line(text, "MASK", bits),
    }
}

impl PrintedObject for EventObject {
    ghost object_of = { event_object };

    #[tactic(auto, unfolding(crate::specs::Layout::object_text))]
    fn push(&self, text: &mut String) -> Result<(), AllocError> {
        open_object(text, "EVENT", &self.name)?;
        push_mask(text, self.mask)?;
        close_object(text)
    }
}

impl PrintedObject for CounterObject {
    ghost object_of = { counter_object };

    #[tactic(auto, unfolding(crate::specs::Layout::object_text))]
    fn push(&self, text: &mut String) -> Result<(), AllocError> {
        let values = self.counter;
        open_object(text, "COUNTER", &self.name)?;
        push_number_line(text, "MAXALLOWEDVALUE", values.max_allowed_value)?;
        push_number_line(text, "TICKSPERBASE", values.ticks_per_base)?;
        push_number_line(text, "MINCYCLE", values.min_cycle)?;
        close_object(text)
    }
}

fn push_action(text: &mut String, action: &ActionObject) -> Result<(), AllocError>
    ensures { OnOk result
        (string_bytes text.new ≡ string_bytes text.old ++ attribute_text (action_line action.now)) }
{
    match action {
        ActionObject::ActivateTask { task } => {
            open_block(text, "ACTION", "ACTIVATETASK")?;
            push_sub(text, "TASK", task.as_str())?;
            close_block(text)
        }
        ActionObject::SetEvent { task, event } => {
            open_block(text, "ACTION", "SETEVENT")?;
            push_sub(text, "TASK", task.as_str())?;
            push_sub(text, "EVENT", event.as_str())?;
            close_block(text)
        }
    }
}

/// AUTOSTART of an alarm.
fn push_alarm_start(
    text: &mut String,
    autostart: &Option<AlarmStartObject>,
) -> Result<(), AllocError>
    ensures { OnOk result
        (string_bytes text.new
        ≡ string_bytes text.old ++ attribute_text (alarm_start autostart.now)) }
{
    match autostart {
        None => push_switch(text, "AUTOSTART", false),
        Some(start) => {
            open_block(text, "AUTOSTART", "TRUE")?;
            push_number_sub(text, "ALARMTIME", start.alarm_time)?;
            push_number_sub(text, "CYCLETIME", start.cycle_time)?;
            push_subs(text, "APPMODE", &start.app_modes)?;
            close_block(text)
        }
    }
}

impl PrintedObject for AlarmObject {
    ghost object_of = { alarm_object };

    #[tactic(auto, unfolding(crate::specs::Layout::object_text))]
    fn push(&self, text: &mut String) -> Result<(), AllocError> {
        open_object(text, "ALARM", &self.name)?;
        push_line(text, "COUNTER", self.counter.as_str())?;
        push_action(text, &self.action)?;
        push_alarm_start(text, &self.autostart)?;
        close_object(text)
    }
}
