//! Figures as comma-separated values, a line a figure. Names have no comma, so nothing is quoted.

ghost use Rattle.std.specs.Prelude.{◌≡◌, ◌++◌, IfOk, OnOk};
ghost use Rattle.std.specs.String.{string_bytes};
ghost use Rattle.std.specs.List.{flat_map};
ghost use Rattle.view_figure_texts.specs.Csv.{
  csv_line,
  csv_text as told_values,
  object_lines,
  section_lines,
};
ghost use Rattle.view_figure_texts.specs.Sections.{sections};

use crate::entry::Entry;
use crate::section::{SECTIONS, Section};
use osek_base::System;
use std::alloc::{AllocError, Global};
use view_figures::Figures;

/// Appends a line: kind, name, figure and value.
#[tactic(auto, unfolding(crate::specs::Csv::csv_line))]
fn push_line(kind: &str, name: &str, entry: Entry, text: &mut String) -> Result<(), AllocError>
    ensures { OnOk result
        (string_bytes text.new ≡ string_bytes text.old ++ csv_line kind.now name.now entry) }
{
    let (word, cell) = (entry.word.text(), entry.cell);
    writeln!(text, "{kind},{name},{word},{cell}")
}

/// Appends the lines of some figures of an object.
fn push_lines(
    kind: &str,
    name: &str,
    entries: &[Entry],
    text: &mut String,
) -> Result<(), AllocError>
    ensures { OnOk result
        (string_bytes text.new
        ≡ string_bytes text.old ++ flat_map (csv_line kind.now name.now) entries.now) }
{
    for entry in entries {
        push_line(kind, name, *entry, text)?;
    }
    Ok(())
}

/// Appends the lines of the object of a number.
#[tactic(auto, unfolding(crate::specs::Csv::object_lines))]
fn push_object(
    alloc: Global,
    system: &System,
    figures: &Figures,
    section: Section,
    number: usize,
    text: &mut String,
) -> Result<(), AllocError>
    ensures { OnOk result
        (string_bytes text.new
        ≡ string_bytes text.old ++ object_lines system.now figures.now section number) }
{
    let entries = section.entries(alloc, figures, number)?;
    let name = section.name(system, number);
    push_lines(section.word(), name, entries.as_slice(), text)
}

/// Appends the lines of a section.
#[tactic(auto, unfolding(crate::specs::Csv::section_lines))]
fn push_section(
    alloc: Global,
    system: &System,
    figures: &Figures,
    section: Section,
    text: &mut String,
) -> Result<(), AllocError>
    ensures { OnOk result
        (string_bytes text.new
        ≡ string_bytes text.old ++ section_lines system.now figures.now section) }
{
    for number in 0..section.count(figures) {
        push_object(alloc, system, figures, section, number, text)?;
    }
    Ok(())
}

/// Appends the lines of all sections.
fn push_sections(
    alloc: Global,
    system: &System,
    figures: &Figures,
    text: &mut String,
) -> Result<(), AllocError>
    ensures { OnOk result
        (string_bytes text.new
        ≡ string_bytes text.old ++ flat_map (section_lines system.now figures.now) sections) }
{
    for section in &SECTIONS {
        push_section(alloc, system, figures, *section, text)?;
    }
    Ok(())
}

/// The heading, and the lines of all sections.
#[tactic(auto, unfolding(crate::specs::Csv::csv_text))]
pub fn csv_text(alloc: Global, system: &System, figures: &Figures) -> Result<Vec<u8>, AllocError>
    ensures { IfOk result (λ text. text.items ≡ told_values system.now figures.now) }
{
    let mut text = String::new(alloc);
    text.push_str("kind,name,figure,value\n")?;
    push_sections(alloc, system, figures, &mut text)?;
    Ok(text.into_bytes())
}
