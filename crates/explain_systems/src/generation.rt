//! Faults of generation.

use crate::declared::{attribute, is_internal, is_set, object, word_of};
use crate::instructions::{first_of, last_mnemonic, owner_word};
use crate::parsed::{Parsed, Parts};
use crate::references::explain_unknown_name;
use crate::times::{explain_alarm, explain_counter};
use explain_texts::Piece::{self, Named, Number, Text};
use explain_texts::{CodeWord, Source, kind_word};
use oil_reader::{Attribute, Kind, Object, SyntaxTree};
use osek_base::{
    MAX_ALARMS, MAX_COUNTERS, MAX_EVENTS, MAX_MODES, MAX_RESOURCES, MAX_ROUTINES, MAX_TASKS,
};
use std::alloc::Global;
use std::io::{self, Write};
use system_gen::{GenFault, ObjectKind};
use task_asm::ProgramKind;

/// The kind of objects of which there are too many, and how many are allowed.
fn limit(kind: ObjectKind) -> (Kind, usize) {
    match kind {
        ObjectKind::AppMode => (Kind::AppMode, MAX_MODES),
        ObjectKind::Task => (Kind::Task, MAX_TASKS),
        ObjectKind::Isr => (Kind::Isr, MAX_ROUTINES),
        ObjectKind::Resource => (Kind::Resource, MAX_RESOURCES),
        ObjectKind::Event => (Kind::Event, MAX_EVENTS),
        ObjectKind::Counter => (Kind::Counter, MAX_COUNTERS),
        ObjectKind::Alarm => (Kind::Alarm, MAX_ALARMS),
    }
}

/// The object of a kind behind so many of it.
fn object_behind<'t, 'a>(
    tree: &'t SyntaxTree<'a>,
    kind: Kind,
    count: usize,
) -> Option<&'t Object<'a>> {
    let mut left = count;
    for object in &tree.objects {
        if object.kind == kind {
            if left == 0 {
                return Some(object);
            }
            left = left.saturating_sub(1);
        }
    }
    None
}

/// Explains the first object that is too many.
fn explain_limit<W: Write>(
    parsed: Parsed<'_, '_>,
    fault: ObjectKind,
    out: &mut W,
) -> io::Result<()> {
    let (kind, most) = limit(fault);
    let Some(object) = object_behind(parsed.tree, kind, most) else {
        return Ok(());
    };
    let what = [Text("too many objects of kind "), Text(kind_word(kind))];
    parsed
        .oil
        .note(object.place, &what, "allowed", &[Number(most)], out)
}

/// Explains an attribute, at its value.
fn explain_attribute<W: Write>(
    oil: Source<'_>,
    attribute: Option<&Attribute<'_>>,
    what: &[Piece<'_>],
    allowed: &str,
    out: &mut W,
) -> io::Result<()> {
    match attribute {
        Some(attribute) => {
            let place = attribute.setting.value_place;
            oil.note(place, what, "allowed", &[Text(allowed)], out)
        }
        None => Ok(()),
    }
}

fn explain_activation<W: Write>(parsed: Parsed<'_, '_>, name: &str, out: &mut W) -> io::Result<()> {
    let Some(task) = object(parsed.tree, Kind::Task, name) else {
        return Ok(());
    };
    let what = [
        Named(Kind::Task, name),
        Text(" lists an event and has several activations"),
    ];
    let found = attribute(task, "ACTIVATION");
    explain_attribute(parsed.oil, found, &what, "1, or no event", out)
}

/// The last internal resource that a task lists.
fn internal<'t, 'a>(tree: &SyntaxTree<'_>, task: &'t Object<'a>) -> Option<&'t Attribute<'a>> {
    let mut found = None;
    for attribute in &task.attributes {
        let setting = attribute.setting;
        if setting.name.text == "RESOURCE" && is_internal(tree, word_of(setting.value)) {
            found = Some(attribute);
        }
    }
    found
}

fn explain_internal<W: Write>(parsed: Parsed<'_, '_>, name: &str, out: &mut W) -> io::Result<()> {
    let Some(task) = object(parsed.tree, Kind::Task, name) else {
        return Ok(());
    };
    let (end, allowed) = if is_set(task, "SCHEDULE", "NON") {
        (
            " is NON and lists an internal resource",
            "an internal resource with FULL",
        )
    } else {
        (" lists a second internal resource", "one internal resource")
    };
    let what = [Named(Kind::Task, name), Text(end)];
    explain_attribute(parsed.oil, internal(parsed.tree, task), &what, allowed, out)
}

/// The kind of an object that has no program, and the directive of such programs.
fn without_program(parsed: Parsed<'_, '_>, name: &str) -> (Kind, &'static str) {
    let is_task = object(parsed.tree, Kind::Task, name).is_some();
    if is_task && owner_word(parsed.words, ProgramKind::Task, name).is_none() {
        (Kind::Task, ".task ")
    } else {
        (Kind::Isr, ".isr ")
    }
}

/// Explains a task or routine that has no program.
fn explain_no_program<'a, W: Write>(
    parsed: Parsed<'_, 'a>,
    name: &'a str,
    out: &mut W,
) -> io::Result<()> {
    let (kind, directive) = without_program(parsed, name);
    let Some(owner) = object(parsed.tree, kind, name) else {
        return Ok(());
    };
    let what = [Named(kind, name), Text(" has no program")];
    let wanted = [
        Text(directive),
        Text(name),
        Text(" in "),
        Text(parsed.asm.name),
    ];
    parsed.oil.note(owner.place, &what, "wanted", &wanted, out)
}

/// The place of the end of a program that can be left there: of its last mnemonic, or else of its
/// name.
fn open_end(words: &[CodeWord<'_>], kind: ProgramKind, name: &str) -> Option<usize> {
    let owner = owner_word(words, kind, name)?;
    match last_mnemonic(words, owner.program) {
        Some(last) if last.text == "JMP" || last.text == "RETI" => None,
        Some(last) => Some(last.place),
        None => Some(owner.place),
    }
}

/// Explains a program that can be left at its end: that of the task of a name, or else that of the
/// routine.
fn explain_last<W: Write>(parsed: Parsed<'_, '_>, name: &str, out: &mut W) -> io::Result<()> {
    let words = parsed.words;
    let of_task = open_end(words, ProgramKind::Task, name);
    let Some(place) = of_task.or(open_end(words, ProgramKind::Routine, name)) else {
        return Ok(());
    };
    let what = [
        Text("the program of "),
        Text(name),
        Text(" can be left at its end"),
    ];
    let wanted = Text("JMP or RETI as its last instruction");
    parsed.asm.note(place, &what, "wanted", &[wanted], out)
}

/// Where RETI stands in a task's program.
fn return_of(words: &[CodeWord<'_>], task: &str) -> Option<usize> {
    let owner = owner_word(words, ProgramKind::Task, task)?;
    Some(first_of(words, owner.program, "RETI")?.place)
}

/// Explains RETI in a task's program.
fn explain_return<W: Write>(parsed: Parsed<'_, '_>, name: &str, out: &mut W) -> io::Result<()> {
    let Some(place) = return_of(parsed.words, name) else {
        return Ok(());
    };
    let what = [Text("RETI in the program of "), Named(Kind::Task, name)];
    let allowed = Text("RETI in programs of routines; tasks end with TERM or CHAIN");
    parsed.asm.note(place, &what, "allowed", &[allowed], out)
}

fn explain_mask<W: Write>(parsed: Parsed<'_, '_>, name: &str, out: &mut W) -> io::Result<()> {
    let Some(event) = object(parsed.tree, Kind::Event, name) else {
        return Ok(());
    };
    let what = [Text("no bit is free for "), Named(Kind::Event, name)];
    let found = attribute(event, "MASK");
    explain_attribute(parsed.oil, found, &what, "a MASK written as a number", out)
}

fn explain_fault<'a, W: Write>(
    alloc: Global,
    parsed: Parsed<'_, 'a>,
    fault: &'a GenFault,
    out: &mut W,
) -> io::Result<()> {
    let Parsed { oil, tree, .. } = parsed;
    match fault {
        GenFault::UnknownName(_) => explain_unknown_name(alloc, parsed, out),
        GenFault::Limit(kind) => explain_limit(parsed, *kind, out),
        GenFault::ExtendedActivation(name) => explain_activation(parsed, name.as_str(), out),
        GenFault::TwoInternal(name) => explain_internal(parsed, name.as_str(), out),
        GenFault::NoProgram(name) => explain_no_program(parsed, name.as_str(), out),
        GenFault::LastNotJump(name) => explain_last(parsed, name.as_str(), out),
        GenFault::RetiInTask(name) => explain_return(parsed, name.as_str(), out),
        GenFault::Mask(name) => explain_mask(parsed, name.as_str(), out),
        GenFault::Counter(name) => explain_counter(oil, tree, name.as_str(), out),
        GenFault::Alarm(name) => explain_alarm(oil, tree, name.as_str(), out),
        GenFault::Memory => Ok(()),
    }
}

/// Explains why an OIL file and its programs, each without a fault of its own, make no system. Want
/// of memory has no explanation. An error is a failed write, or want of memory for the explanation.
pub fn explain_generation<'a, W: Write>(
    alloc: Global,
    oil: Source<'a>,
    asm: Source<'a>,
    fault: &'a GenFault,
    out: &mut W,
) -> io::Result<()> {
    let Some(parts) = Parts::of(alloc, oil, asm)? else {
        return Ok(());
    };
    explain_fault(alloc, parts.parsed(oil, asm), fault, out)
}
