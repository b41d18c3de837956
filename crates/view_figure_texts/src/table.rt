//! Figures as tables for people: names at the left, figures at the right of 11 columns.

use crate::entry::Entry;
use crate::section::{SECTIONS, Section};
use osek_base::System;
use std::alloc::{AllocError, Global};
use std::io::{self, Write};
use view_figures::Figures;
use view_measures::width_of;

/// Figures of a run, and how they are laid out.
#[derive(Clone, Copy)]
struct Layout<'a> {
    system: &'a System,
    figures: &'a Figures,
    /// How many bytes the longest name has.
    width: usize,
}

fn write_name<W: Write>(name: &str, width: usize, out: &mut W) -> io::Result<()> {
    out.write_all(name.as_bytes())?;
    for _missing in name.len()..width {
        out.write_all(b" ")?;
    }
    Ok(())
}

fn write_line<W: Write>(
    name: &str,
    entries: &[Entry],
    width: usize,
    out: &mut W,
) -> io::Result<()> {
    write_name(name, width, out)?;
    for entry in entries {
        entry.cell.write_aligned(out)?;
    }
    out.write_all(b"\n")
}

fn write_heading<W: Write>(
    kind: &str,
    entries: &[Entry],
    width: usize,
    out: &mut W,
) -> io::Result<()> {
    write_name(kind, width, out)?;
    for entry in entries {
        let word = entry.word.text();
        write!(out, " {word:>11}")?;
    }
    out.write_all(b"\n")
}

// The heading has the words of the first object's figures, as each one has them.
fn write_section<W: Write>(
    alloc: Global,
    layout: Layout<'_>,
    section: Section,
    out: &mut W,
) -> io::Result<()> {
    for number in 0..section.count(layout.figures) {
        let entries = section.entries(alloc, layout.figures, number)?;
        if number == 0 {
            write_heading(section.word(), entries.as_slice(), layout.width, out)?;
        }
        let name = section.name(layout.system, number);
        write_line(name, entries.as_slice(), layout.width, out)?;
    }
    Ok(())
}

// Writes the sections that have lines, an empty line between two.
fn write_table<W: Write>(alloc: Global, layout: Layout<'_>, out: &mut W) -> io::Result<()> {
    for (number, section) in SECTIONS.iter().enumerate() {
        if number > 0 && section.count(layout.figures) > 0 {
            out.write_all(b"\n")?;
        }
        write_section(alloc, layout, *section, out)?;
    }
    Ok(())
}

/// The text of all sections.
pub fn table_text(
    alloc: Global,
    system: &System,
    figures: &Figures,
) -> Result<Vec<u8>, AllocError> {
    let layout = Layout {
        system,
        figures,
        width: width_of(system),
    };
    let mut text = Vec::new(alloc);
    match write_table(alloc, layout, &mut text) {
        Ok(()) => Ok(text),
        Err(_) => Err(AllocError),
    }
}
