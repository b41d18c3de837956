//! What an OIL file declares.

use oil_reader::{Attribute, Kind, Object, Setting, SyntaxTree, Value};

/// The object of that kind and name.
pub fn object<'t, 'a>(tree: &'t SyntaxTree<'a>, kind: Kind, name: &str) -> Option<&'t Object<'a>> {
    for object in &tree.objects {
        if object.kind == kind && object.name.text == name {
            return Some(object);
        }
    }
    None
}

/// The attribute of that word.
pub fn attribute<'t, 'a>(object: &'t Object<'a>, word: &str) -> Option<&'t Attribute<'a>> {
    for attribute in &object.attributes {
        if attribute.setting.name.text == word {
            return Some(attribute);
        }
    }
    None
}

/// The setting of that word behind the value of an attribute.
pub fn inner<'a>(object: &Object<'a>, word: &str, inner: &str) -> Option<Setting<'a>> {
    let attribute = attribute(object, word)?;
    let block = attribute.block.as_ref()?;
    for setting in &block.settings {
        if setting.name.text == inner {
            return Some(*setting);
        }
    }
    None
}

/// The word of a value, empty where it is a number.
pub fn word_of<'a>(value: Value<'a>) -> &'a str {
    match value {
        Value::Name(word) => word.text,
        Value::Number(_) => "",
    }
}

/// The number of a value, 0 where it is a word.
pub fn number_of(value: Value<'_>) -> u32 {
    match value {
        Value::Name(_) => 0,
        Value::Number(number) => number,
    }
}

/// The number that an attribute has as its value, 0 where there is none.
pub fn number_in(object: &Object<'_>, word: &str) -> u32 {
    match attribute(object, word) {
        Some(attribute) => number_of(attribute.setting.value),
        None => 0,
    }
}

/// Whether an attribute has that word as its value.
pub fn is_set(object: &Object<'_>, word: &str, value: &str) -> bool {
    for attribute in &object.attributes {
        let setting = attribute.setting;
        if setting.name.text == word && word_of(setting.value) == value {
            return true;
        }
    }
    false
}

/// Whether a resource is internal.
pub fn is_internal(tree: &SyntaxTree<'_>, name: &str) -> bool {
    match object(tree, Kind::Resource, name) {
        Some(resource) => is_set(resource, "RESOURCEPROPERTY", "INTERNAL"),
        None => false,
    }
}

/// Whether RES_SCHEDULER exists.
pub fn has_scheduler(tree: &SyntaxTree<'_>) -> bool {
    for object in &tree.objects {
        if object.kind == Kind::Os && is_set(object, "USERESSCHEDULER", "FALSE") {
            return false;
        }
    }
    true
}

/// The priority of the task of that name, 0 where there is none.
fn priority_of(tree: &SyntaxTree<'_>, name: &str) -> u32 {
    match object(tree, Kind::Task, name) {
        Some(task) => number_in(task, "PRIORITY"),
        None => 0,
    }
}

/// The ceiling of a resource: the greatest priority of the tasks that list it, or of all tasks for
/// RES_SCHEDULER.
fn ceiling(tree: &SyntaxTree<'_>, resource: &str) -> u32 {
    let is_scheduler = resource == "RES_SCHEDULER";
    let mut ceiling = 0;
    for task in &tree.objects {
        if task.kind == Kind::Task && (is_scheduler || is_set(task, "RESOURCE", resource)) {
            ceiling = number_in(task, "PRIORITY").max(ceiling);
        }
    }
    ceiling
}

/// The name of the task that an alarm acts on, empty where there is none.
fn target<'a>(tree: &SyntaxTree<'a>, alarm: &str) -> &'a str {
    let Some(alarm) = object(tree, Kind::Alarm, alarm) else {
        return "";
    };
    match inner(alarm, "ACTION", "TASK") {
        Some(setting) => word_of(setting.value),
        None => "",
    }
}

/// By what an object is upper or lower: the priority of a task, the ceiling of a resource, the
/// priority of the task that an alarm acts on; 0 for all else.
pub fn level(tree: &SyntaxTree<'_>, kind: Kind, name: &str) -> u32 {
    match kind {
        Kind::Task => priority_of(tree, name),
        Kind::Resource => ceiling(tree, name),
        Kind::Alarm => priority_of(tree, target(tree, name)),
        _ => 0,
    }
}
