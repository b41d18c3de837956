//! Bounds as JSON: an object by kinds, in each one by names, and in each of these one by columns;
//! and how interrupts come.

use crate::arriving::said_of;
use crate::cells::Cell;
use crate::failed_service::name_of;
use crate::told::{cell, service_standing};
use cli_requests::SaidArriving;
use osek_base::System;
use search_witnesses::Findings;
use seen_ticks::Failure;
use serde_json::{Map, Value};
use std::alloc::{AllocError, Global};
use view_figure_texts::measure_word;
use view_measures::{Figure, KINDS, Kind};

fn put(
    alloc: Global,
    object: &mut Map<String, Value>,
    key: &str,
    value: Value,
) -> Result<(), AllocError> {
    let key = String::from_str(alloc, key)?;
    drop(object.insert(key, value)?);
    Ok(())
}

fn number_of(cell: Cell) -> Value {
    match cell {
        Cell::Time { ticks, .. } => Value::from(ticks),
        Cell::Count { value, .. } => Value::from(value),
        Cell::Above | Cell::Unbounded => Value::Null,
        Cell::Coming { comes, .. } => Value::from(u32::from(comes)),
    }
}

/// The value of a figure, and what is promised of it.
fn value_of(alloc: Global, cell: Cell) -> Result<Value, AllocError> {
    let mut told = Map::new(alloc);
    put(alloc, &mut told, "value", number_of(cell))?;
    let standing = String::from_str(alloc, cell.standing())?;
    put(alloc, &mut told, "standing", Value::String(standing))?;
    Ok(Value::Object(told))
}

fn object(alloc: Global, found: &Findings, kind: Kind, number: usize) -> Result<Value, AllocError> {
    let mut figures = Map::new(alloc);
    for measure in kind.measures() {
        let figure = Figure {
            measure: *measure,
            number,
        };
        let value = value_of(alloc, cell(found, figure))?;
        put(alloc, &mut figures, measure_word(*measure), value)?;
    }
    Ok(Value::Object(figures))
}

fn objects(
    alloc: Global,
    system: &System,
    found: &Findings,
    kind: Kind,
) -> Result<Value, AllocError> {
    let mut objects = Map::new(alloc);
    for number in 0..kind.count(system) {
        let figures = object(alloc, found, kind, number)?;
        put(alloc, &mut objects, kind.name(system, number), figures)?;
    }
    Ok(Value::Object(objects))
}

/// A service that may be answered other than E_OK: whose it is, its place, the number of the
/// status, and what is promised of it.
fn service(
    alloc: Global,
    system: &System,
    failure: &Failure,
    standing: &str,
) -> Result<Value, AllocError> {
    let mut told = Map::new(alloc);
    let name = String::from_str(alloc, name_of(system, failure.owner))?;
    put(alloc, &mut told, "name", Value::String(name))?;
    let place = u32::from(failure.place.number());
    put(alloc, &mut told, "place", Value::from(place))?;
    let status = u32::from(failure.status.number());
    put(alloc, &mut told, "status", Value::from(status))?;
    let standing = String::from_str(alloc, standing)?;
    put(alloc, &mut told, "standing", Value::String(standing))?;
    Ok(Value::Object(told))
}

fn services(alloc: Global, system: &System, found: &Findings) -> Result<Value, AllocError> {
    let mut services = Vec::new(alloc);
    for (number, failure) in found.bounds.peaks.failures().iter().enumerate() {
        services.push(service(alloc, system, failure, service_standing(found, number))?)?;
    }
    Ok(Value::Array(services))
}

/// How interrupts of a routine come: their period, and whether it is said, their jitter and least
/// distance, and whether none comes.
fn coming(alloc: Global, said: SaidArriving<'_>, name: &str) -> Result<Value, AllocError> {
    let mut told = Map::new(alloc);
    let period = said_of(said.apart, name);
    put(alloc, &mut told, "ticks", Value::from(period.unwrap_or(1)))?;
    put(alloc, &mut told, "said", Value::Bool(period.is_some()))?;
    let jitter = said_of(said.jitter, name).unwrap_or(0);
    put(alloc, &mut told, "jitter", Value::from(jitter))?;
    let least = said_of(said.least, name).unwrap_or(1);
    put(alloc, &mut told, "least", Value::from(least))?;
    let never = said_of(said.never, name).is_some();
    put(alloc, &mut told, "never", Value::Bool(never))?;
    Ok(Value::Object(told))
}

/// How those of all routines come, by names.
fn comings(alloc: Global, system: &System, said: SaidArriving<'_>) -> Result<Value, AllocError> {
    let mut comings = Map::new(alloc);
    for name in &system.names().routines {
        let told = coming(alloc, said, name.as_str())?;
        put(alloc, &mut comings, name.as_str(), told)?;
    }
    Ok(Value::Object(comings))
}

/// The text of how interrupts come, of all figures, and of the services that may be answered other than
/// E_OK.
pub fn json_of(
    alloc: Global,
    system: &System,
    said: SaidArriving<'_>,
    found: &Findings,
) -> Result<Vec<u8>, AllocError> {
    let mut kinds = Map::new(alloc);
    for kind in &KINDS {
        let objects = objects(alloc, system, found, *kind)?;
        put(alloc, &mut kinds, kind.word(), objects)?;
    }
    let services = services(alloc, system, found)?;
    put(alloc, &mut kinds, "service", services)?;
    put(alloc, &mut kinds, "apart", comings(alloc, system, said)?)?;
    let mut text = Value::Object(kinds).to_vec_pretty(alloc)?;
    text.push(b'\n')?;
    Ok(text)
}
