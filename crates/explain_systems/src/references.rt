//! Names that stand for objects, in the order in which generation looks them up.

use crate::declared::{has_scheduler, is_internal, object, word_of};
use crate::instructions::named_kind;
use crate::parsed::Parsed;
use explain_texts::Piece::{self, Named, Text};
use explain_texts::{CodeWord, Part, Source, names, write_choice, write_names};
use oil_reader::{Attribute, Kind, Object, Setting, SyntaxTree, Value};
use std::alloc::{AllocError, Global};
use std::io::{self, Write};
use task_asm::ProgramKind;

/// A name that stands for an object of a kind, and its place.
#[derive(Clone, Copy)]
struct Reference<'a> {
    kind: Kind,
    name: &'a str,
    place: usize,
}

/// What a setting of that word names, where no object of the kind has the name.
fn unknown<'a>(
    tree: &SyntaxTree<'_>,
    setting: Setting<'a>,
    word: &str,
    kind: Kind,
) -> Option<Reference<'a>> {
    match setting.value {
        Value::Name(name) if setting.name.text == word => {
            if object(tree, kind, name.text).is_some() {
                return None;
            }
            Some(Reference {
                kind,
                name: name.text,
                place: setting.value_place,
            })
        }
        _ => None,
    }
}

/// The first unknown name in attributes of that word.
fn unknown_outer<'a>(
    tree: &SyntaxTree<'_>,
    object: &Object<'a>,
    word: &str,
    kind: Kind,
) -> Option<Reference<'a>> {
    for attribute in &object.attributes {
        let found = unknown(tree, attribute.setting, word, kind);
        if found.is_some() {
            return found;
        }
    }
    None
}

/// The first unknown name in settings of that word in the block of an attribute.
fn unknown_in_block<'a>(
    tree: &SyntaxTree<'_>,
    attribute: &Attribute<'a>,
    word: &str,
    kind: Kind,
) -> Option<Reference<'a>> {
    for setting in &attribute.block.as_ref()?.settings {
        let found = unknown(tree, *setting, word, kind);
        if found.is_some() {
            return found;
        }
    }
    None
}

/// The first unknown name in settings of that word in the blocks of an object.
fn unknown_inner<'a>(
    tree: &SyntaxTree<'_>,
    object: &Object<'a>,
    word: &str,
    kind: Kind,
) -> Option<Reference<'a>> {
    for attribute in &object.attributes {
        let found = unknown_in_block(tree, attribute, word, kind);
        if found.is_some() {
            return found;
        }
    }
    None
}

/// The first unknown name of a task.
fn unknown_of_task<'a>(tree: &SyntaxTree<'_>, task: &Object<'a>) -> Option<Reference<'a>> {
    unknown_inner(tree, task, "APPMODE", Kind::AppMode)
        .or(unknown_outer(tree, task, "RESOURCE", Kind::Resource))
        .or(unknown_outer(tree, task, "EVENT", Kind::Event))
}

/// The first unknown name of an alarm.
fn unknown_of_alarm<'a>(tree: &SyntaxTree<'_>, alarm: &Object<'a>) -> Option<Reference<'a>> {
    unknown_outer(tree, alarm, "COUNTER", Kind::Counter)
        .or(unknown_inner(tree, alarm, "TASK", Kind::Task))
        .or(unknown_inner(tree, alarm, "EVENT", Kind::Event))
        .or(unknown_inner(tree, alarm, "APPMODE", Kind::AppMode))
}

/// The first unknown name of the tasks, or else of the alarms, whichever kind is asked for.
fn unknown_of<'a>(tree: &SyntaxTree<'a>, kind: Kind) -> Option<Reference<'a>> {
    for object in &tree.objects {
        if object.kind == kind {
            let found = match kind {
                Kind::Task => unknown_of_task(tree, object),
                _ => unknown_of_alarm(tree, object),
            };
            if found.is_some() {
                return found;
            }
        }
    }
    None
}

/// The kind of object that a word of a program text stands for, where it stands for one.
fn kind_of(word: CodeWord<'_>) -> Option<Kind> {
    match word.part {
        Part::Owner(ProgramKind::Task) => Some(Kind::Task),
        Part::Owner(ProgramKind::Routine) => Some(Kind::Isr),
        Part::Operand { mnemonic, number } => {
            let kind = named_kind(mnemonic, number)?;
            if word.text == "INVALID" && kind != Kind::Event {
                return None;
            }
            Some(kind)
        }
        Part::Label | Part::Mnemonic => None,
    }
}

/// Whether a program may name an object of that kind and name.
fn is_known(tree: &SyntaxTree<'_>, kind: Kind, name: &str) -> bool {
    if kind != Kind::Resource {
        return object(tree, kind, name).is_some();
    }
    if name == "RES_SCHEDULER" && has_scheduler(tree) {
        return true;
    }
    object(tree, kind, name).is_some() && !is_internal(tree, name)
}

/// The first name in programs that stands for nothing.
fn unknown_in_code<'a>(tree: &SyntaxTree<'_>, words: &[CodeWord<'a>]) -> Option<Reference<'a>> {
    for word in words {
        if let Some(kind) = kind_of(*word) {
            if !is_known(tree, kind, word.text) {
                return Some(Reference {
                    kind,
                    name: word.text,
                    place: word.place,
                });
            }
        }
    }
    None
}

/// The names of the objects of a kind that programs may name.
fn known_in_code<'a>(
    alloc: Global,
    tree: &SyntaxTree<'a>,
    kind: Kind,
) -> Result<Vec<&'a str>, AllocError> {
    let mut known = Vec::new(alloc);
    for name in names(alloc, tree, kind)? {
        if kind != Kind::Resource || !is_internal(tree, name) {
            known.push(name)?;
        }
    }
    if kind == Kind::Resource && has_scheduler(tree) {
        known.push("RES_SCHEDULER")?;
    }
    Ok(known)
}

/// Explains a name that stands for nothing, where these do.
fn explain_reference<W: Write>(
    alloc: Global,
    source: Source<'_>,
    tree: &SyntaxTree<'_>,
    reference: Reference<'_>,
    known: &[&str],
    out: &mut W,
) -> io::Result<()> {
    let Reference { kind, name, place } = reference;
    let object = Named(kind, name);
    let what: [Piece<'_>; 2] = if kind == Kind::Resource && is_internal(tree, name) {
        [object, Text(" is internal, so no program names it")]
    } else {
        [Text("there is no "), object]
    };
    source.tell(place, &what, out)?;
    write_choice(alloc, name, known, out)?;
    if name != "RES_SCHEDULER" {
        return Ok(());
    }
    let why = "no task lists it, and programs name it unless USERESSCHEDULER is FALSE";
    write_names("RES_SCHEDULER", &[why], out)
}

/// Explains the first name of the OIL file or of the programs that stands for nothing.
pub(crate) fn explain_unknown_name<W: Write>(
    alloc: Global,
    parsed: Parsed<'_, '_>,
    out: &mut W,
) -> io::Result<()> {
    let tree = parsed.tree;
    if let Some(found) = unknown_of(tree, Kind::Task).or(unknown_of(tree, Kind::Alarm)) {
        let known = names(alloc, tree, found.kind)?;
        return explain_reference(alloc, parsed.oil, tree, found, &known, out);
    }
    let Some(found) = unknown_in_code(tree, parsed.words) else {
        return Ok(());
    };
    let known = known_in_code(alloc, tree, found.kind)?;
    explain_reference(alloc, parsed.asm, tree, found, &known, out)
}
