//! Figures as JSON: an object by kinds, and in each one by names, or the figures themselves of the
//! run.

use crate::cells::Cell;
use crate::entry::Entry;
use crate::section::{SECTIONS, Section};
use osek_base::System;
use serde_json::{Map, Value};
use std::alloc::{AllocError, Global};
use std::num::nearest_u64_to_f64;
use view_figures::Figures;

fn value_of(cell: Cell) -> Value {
    match cell {
        Cell::Count(count) => Value::from(count),
        Cell::Tenths(tenths) => Value::from(nearest_u64_to_f64(tenths) / 10.0),
        Cell::Nothing => Value::Null,
    }
}

fn put(
    alloc: Global,
    object: &mut Map<String, Value>,
    key: &str,
    value: Value,
) -> Result<(), AllocError> {
    let key = String::from_str(alloc, key)?;
    drop(object.insert(key, value)?);
    Ok(())
}

fn put_cells(
    alloc: Global,
    object: &mut Map<String, Value>,
    entries: &[Entry],
) -> Result<(), AllocError> {
    for entry in entries {
        put(alloc, object, entry.word.text(), value_of(entry.cell))?;
    }
    Ok(())
}

// The figures of the object of that number, of all sections of its kind.
fn object(
    alloc: Global,
    figures: &Figures,
    kind: &str,
    number: usize,
) -> Result<Value, AllocError> {
    let mut object = Map::new(alloc);
    for section in &SECTIONS {
        if section.word() == kind {
            let entries = section.entries(alloc, figures, number)?;
            put_cells(alloc, &mut object, entries.as_slice())?;
        }
    }
    Ok(Value::Object(object))
}

// The objects of the kind of a section, by names.
fn objects(
    alloc: Global,
    system: &System,
    figures: &Figures,
    section: Section,
) -> Result<Value, AllocError> {
    let mut objects = Map::new(alloc);
    for number in 0..section.count(figures) {
        let object = object(alloc, figures, section.word(), number)?;
        put(alloc, &mut objects, section.name(system, number), object)?;
    }
    Ok(Value::Object(objects))
}

// A section of each kind of objects.
const KINDS: [Section; 4] = [
    Section::Jobs,
    Section::Routines,
    Section::Resources,
    Section::Alarms,
];

fn kinds(alloc: Global, system: &System, figures: &Figures) -> Result<Value, AllocError> {
    let mut kinds = Map::new(alloc);
    let run = object(alloc, figures, Section::Run.word(), 0)?;
    put(alloc, &mut kinds, Section::Run.word(), run)?;
    for section in &KINDS {
        let objects = objects(alloc, system, figures, *section)?;
        put(alloc, &mut kinds, section.word(), objects)?;
    }
    Ok(Value::Object(kinds))
}

/// The text of all sections.
pub fn json_text(alloc: Global, system: &System, figures: &Figures) -> Result<Vec<u8>, AllocError> {
    let mut text = kinds(alloc, system, figures)?.to_vec_pretty(alloc)?;
    text.push(b'\n')?;
    Ok(text)
}
