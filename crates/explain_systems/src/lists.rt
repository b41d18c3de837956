//! Lists of names in an OIL file.

use crate::declared::{attribute, is_internal, is_set, word_of};
use oil_reader::{Kind, Object, SyntaxTree};
use std::alloc::{AllocError, Global};

/// What an object names in attributes of that word.
pub(crate) fn listed<'a>(
    alloc: Global,
    object: &Object<'a>,
    word: &str,
) -> Result<Vec<&'a str>, AllocError> {
    let mut names = Vec::new(alloc);
    for attribute in &object.attributes {
        if attribute.setting.name.text == word {
            names.push(word_of(attribute.setting.value))?;
        }
    }
    Ok(names)
}

/// The resources that a task lists: the internal ones, or the others.
pub(crate) fn resources<'a>(
    alloc: Global,
    tree: &SyntaxTree<'_>,
    task: &Object<'a>,
    are_internal: bool,
) -> Result<Vec<&'a str>, AllocError> {
    let mut names = Vec::new(alloc);
    for name in listed(alloc, task, "RESOURCE")? {
        if is_internal(tree, name) == are_internal {
            names.push(name)?;
        }
    }
    Ok(names)
}

/// The tasks whose attributes of that word name an object, in declaration order.
pub(crate) fn tasks_with<'a>(
    alloc: Global,
    tree: &SyntaxTree<'a>,
    word: &str,
    name: &str,
) -> Result<Vec<&'a str>, AllocError> {
    let mut tasks = Vec::new(alloc);
    for task in &tree.objects {
        if task.kind == Kind::Task && is_set(task, word, name) {
            tasks.push(task.name.text)?;
        }
    }
    Ok(tasks)
}

/// The modes in which a task or an alarm starts by itself.
pub(crate) fn modes<'a>(alloc: Global, object: &Object<'a>) -> Result<Vec<&'a str>, AllocError> {
    let mut names = Vec::new(alloc);
    let Some(autostart) = attribute(object, "AUTOSTART") else {
        return Ok(names);
    };
    if let Some(block) = &autostart.block {
        for setting in &block.settings {
            if setting.name.text == "APPMODE" {
                names.push(word_of(setting.value))?;
            }
        }
    }
    Ok(names)
}
