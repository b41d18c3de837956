//! Denied partitions: what is named or listed, and what would be allowed.

use crate::declared::{attribute, level, object, word_of};
use crate::instructions::{mnemonic_at, named_kind, operand_of, owner_word};
use crate::parsed::{Parsed, Parts};
use explain_texts::Piece::{self, Named, Number, Text};
use explain_texts::{CodeWord, Source, names, write_first_names};
use oil_reader::{Kind, Object, Setting, SyntaxTree};
use osek_base::Owner;
use partition_check::{NamedDenial, Rule};
use std::alloc::{AllocError, Global};
use std::io::{self, Write};
use task_asm::ProgramKind;

/// A denial at a priority.
#[derive(Drop)]
struct Cut<'d> {
    p: u8,
    /// What stands behind the place, before what is wrong there.
    lead: &'d str,
    rule: Rule,
    subject: Owner,
    place: Option<u16>,
    /// The name of the subject.
    name: &'d str,
}

fn cut_of<'d>(p: u8, lead: &'d str, denial: &'d NamedDenial) -> Cut<'d> {
    let denied = denial.denial;
    Cut {
        p,
        lead,
        rule: denied.rule,
        subject: denied.subject,
        place: denied.place,
        name: denial.name.as_str(),
    }
}

/// The names of the objects of a kind that a rule allows: the upper ones for upper programs, or
/// else the lower ones.
fn allowed<'a>(
    alloc: Global,
    tree: &SyntaxTree<'a>,
    cut: &Cut<'_>,
    kind: Kind,
) -> Result<Vec<&'a str>, AllocError> {
    let is_upper = cut.rule == Rule::UpperNames;
    let mut found = Vec::new(alloc);
    for name in names(alloc, tree, kind)? {
        if (level(tree, kind, name) >= cut.p as u32) == is_upper {
            found.push(name)?;
        }
    }
    Ok(found)
}

/// An object, and what it is upper or lower by.
fn leveled<'a>(tree: &SyntaxTree<'_>, kind: Kind, name: &'a str) -> [Piece<'a>; 3] {
    let by = match kind {
        Kind::Task => ", of priority ",
        Kind::Resource => ", of ceiling ",
        _ => ", which acts on a task of priority ",
    };
    let level = level(tree, kind, name);
    [Named(kind, name), Text(by), Number(level as usize)]
}

/// Explains a lower task that is NON.
fn explain_schedule<'a, W: Write>(
    parsed: Parsed<'_, 'a>,
    cut: &Cut<'a>,
    task: &Object<'a>,
    out: &mut W,
) -> io::Result<()> {
    let Some(schedule) = attribute(task, "SCHEDULE") else {
        return Ok(());
    };
    let [name, by, level] = leveled(parsed.tree, Kind::Task, task.name.text);
    let p = Number(cut.p as usize);
    let lead = Text(cut.lead);
    let below = Text(", is below ");
    let what = [lead, name, by, level, below, p, Text(" and NON")];
    let place = schedule.setting.value_place;
    parsed
        .oil
        .note(place, &what, "allowed", &[Text("FULL")], out)
}

/// The first resource with an upper ceiling that a task lists.
fn listed<'a>(tree: &SyntaxTree<'_>, task: &Object<'a>, p: u8) -> Option<Setting<'a>> {
    for attribute in &task.attributes {
        let setting = attribute.setting;
        if setting.name.text == "RESOURCE"
            && level(tree, Kind::Resource, word_of(setting.value)) >= p as u32
        {
            return Some(setting);
        }
    }
    None
}

/// Explains a lower task that lists a resource with an upper ceiling.
fn explain_listed<'a, W: Write>(
    alloc: Global,
    parsed: Parsed<'_, 'a>,
    cut: &Cut<'a>,
    task: &Object<'a>,
    out: &mut W,
) -> io::Result<()> {
    let Some(setting) = listed(parsed.tree, task, cut.p) else {
        return Ok(());
    };
    let [task, by, level] = leveled(parsed.tree, Kind::Task, task.name.text);
    let [listed, with, ceiling] = leveled(parsed.tree, Kind::Resource, word_of(setting.value));
    let below = Text(", is below ");
    let p = Number(cut.p as usize);
    let what = [
        Text(cut.lead),
        task,
        by,
        level,
        below,
        p,
        Text(" and lists "),
        listed,
        with,
        ceiling,
    ];
    parsed.oil.tell(setting.value_place, &what, out)?;
    write_first_names(
        "allowed",
        &allowed(alloc, parsed.tree, cut, Kind::Resource)?,
        out,
    )
}

/// The mnemonic of the instruction at a place of a task's or routine's program.
fn instruction<'a>(parsed: Parsed<'_, 'a>, cut: &Cut<'_>) -> Option<CodeWord<'a>> {
    let kind = match cut.subject {
        Owner::Task(_) => ProgramKind::Task,
        Owner::Routine(_) => ProgramKind::Routine,
    };
    let owner = owner_word(parsed.words, kind, cut.name)?;
    mnemonic_at(parsed.words, owner.program, cut.place.unwrap_or(0) as usize)
}

/// Explains an instruction that names an object of the other part, or RES_SCHEDULER.
fn explain_named<'a, W: Write>(
    alloc: Global,
    parsed: Parsed<'_, '_>,
    cut: &Cut<'a>,
    mnemonic: CodeWord<'a>,
    operand: CodeWord<'a>,
    out: &mut W,
) -> io::Result<()> {
    let Some(kind) = named_kind(mnemonic.text, 0) else {
        return Ok(());
    };
    let [named, by, level] = leveled(parsed.tree, kind, operand.text);
    let side = match cut.rule {
        Rule::UpperNames => ", below ",
        _ => ", not below ",
    };
    let name = Text(cut.name);
    let p = Number(cut.p as usize);
    let names = Text(" names ");
    let what = [Text(cut.lead), name, names, named, by, level, Text(side), p];
    parsed.asm.tell(operand.place, &what, out)?;
    write_first_names("allowed", &allowed(alloc, parsed.tree, cut, kind)?, out)
}

/// Explains an instruction that no lower program may have.
fn explain_lower<W: Write>(
    parsed: Parsed<'_, '_>,
    cut: &Cut<'_>,
    place: usize,
    out: &mut W,
) -> io::Result<()> {
    let end = Text(", turns interrupts off or on, or shuts down");
    let what = [
        Text(cut.lead),
        Text(cut.name),
        Text(", below "),
        Number(cut.p as usize),
        end,
    ];
    let allowed = Text("every instruction but DAI EAI SAI RAI SOI ROI SHUT");
    parsed.asm.note(place, &what, "allowed", &[allowed], out)
}

/// Explains an instruction that no routine may have.
fn explain_task_id<W: Write>(
    parsed: Parsed<'_, '_>,
    cut: &Cut<'_>,
    place: usize,
    out: &mut W,
) -> io::Result<()> {
    let what = [
        Text(cut.lead),
        Text("routine "),
        Text(cut.name),
        Text(" asks which task runs"),
    ];
    let allowed = Text("every instruction but GTID");
    parsed.asm.note(place, &what, "allowed", &[allowed], out)
}

/// Whether a rule is on what programs name.
fn is_on_names(rule: Rule) -> bool {
    matches!(
        rule,
        Rule::NoScheduler | Rule::LowerNames | Rule::UpperNames
    )
}

/// Explains a denial by the rules on programs.
fn explain_program<'a, W: Write>(
    alloc: Global,
    parsed: Parsed<'_, 'a>,
    cut: &Cut<'a>,
    out: &mut W,
) -> io::Result<()> {
    let Some(mnemonic) = instruction(parsed, cut) else {
        return Ok(());
    };
    if is_on_names(cut.rule) {
        if let Some(operand) = operand_of(parsed.words, mnemonic) {
            return explain_named(alloc, parsed, cut, mnemonic, operand, out);
        }
    }
    match cut.rule {
        Rule::NoTaskId => explain_task_id(parsed, cut, mnemonic.place, out),
        _ => explain_lower(parsed, cut, mnemonic.place, out),
    }
}

fn explain_cut<'a, W: Write>(
    alloc: Global,
    parsed: Parsed<'_, 'a>,
    cut: &Cut<'a>,
    out: &mut W,
) -> io::Result<()> {
    let Some(task) = object(parsed.tree, Kind::Task, cut.name) else {
        return explain_program(alloc, parsed, cut, out);
    };
    match cut.rule {
        Rule::FullPreemption => explain_schedule(parsed, cut, task, out),
        Rule::LowerResources => explain_listed(alloc, parsed, cut, task, out),
        _ => explain_program(alloc, parsed, cut, out),
    }
}

/// Explains denials at a priority, of the system of an OIL file and its programs: what is named or
/// listed, where, and what would be allowed. They stand one behind the other, and the lead behind
/// the place of each. An error is a failed write, or want of memory for the explanation.
pub fn explain_denials<'a, W: Write>(
    alloc: Global,
    oil: Source<'a>,
    asm: Source<'a>,
    p: u8,
    lead: &'a str,
    denials: &'a [NamedDenial],
    out: &mut W,
) -> io::Result<()> {
    let Some(parts) = Parts::of(alloc, oil, asm)? else {
        return Ok(());
    };
    for denial in denials {
        let cut = cut_of(p, lead, denial);
        explain_cut(alloc, parts.parsed(oil, asm), &cut, out)?;
    }
    Ok(())
}

/// Explains one denial at a priority.
pub fn explain_denial<'a, W: Write>(
    alloc: Global,
    oil: Source<'a>,
    asm: Source<'a>,
    p: u8,
    denial: &'a NamedDenial,
    out: &mut W,
) -> io::Result<()> {
    let Some(parts) = Parts::of(alloc, oil, asm)? else {
        return Ok(());
    };
    let cut = cut_of(p, "", denial);
    explain_cut(alloc, parts.parsed(oil, asm), &cut, out)
}
