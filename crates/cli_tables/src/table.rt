//! Bounds as tables for people: names at the left, figures at the right of 11 columns.

use crate::cells::Cell;
use crate::failed_services::write_services;
use crate::told::cell;
use itoa::Buffer;
use osek_base::System;
use search_witnesses::Findings;
use std::io::{self, Write};
use view_figure_texts::measure_word;
use view_measures::{Figure, KINDS, Kind, width_of};

/// How many bytes a column has, with the space before it.
const WIDTH: usize = 12;

fn write_name<W: Write>(name: &str, width: usize, out: &mut W) -> io::Result<()> {
    out.write_all(name.as_bytes())?;
    for _missing in name.len()..width {
        out.write_all(b" ")?;
    }
    Ok(())
}

/// Writes a cell at the right of its column.
fn write_cell<W: Write>(cell: Cell, out: &mut W) -> io::Result<()> {
    let mut digits = Buffer::new();
    let (sign, rest) = cell.shown(&mut digits);
    for _missing in sign.len().saturating_add(rest.len())..WIDTH {
        out.write_all(b" ")?;
    }
    out.write_all(sign.as_bytes())?;
    out.write_all(rest.as_bytes())
}

fn write_heading<W: Write>(kind: Kind, width: usize, out: &mut W) -> io::Result<()> {
    write_name(kind.word(), width, out)?;
    for measure in kind.measures() {
        write!(out, " {:>11}", measure_word(*measure))?;
    }
    out.write_all(b"\n")
}

fn write_line<W: Write>(
    system: &System,
    found: &Findings,
    kind: Kind,
    number: usize,
    width: usize,
    out: &mut W,
) -> io::Result<()> {
    write_name(kind.name(system, number), width, out)?;
    for measure in kind.measures() {
        let figure = Figure {
            measure: *measure,
            number,
        };
        write_cell(cell(found, figure), out)?;
    }
    out.write_all(b"\n")
}

/// Writes a heading and a line for each object of a kind, behind an empty line.
fn write_kind<W: Write>(
    system: &System,
    found: &Findings,
    kind: Kind,
    width: usize,
    out: &mut W,
) -> io::Result<()> {
    out.write_all(b"\n")?;
    write_heading(kind, width, out)?;
    for number in 0..kind.count(system) {
        write_line(system, found, kind, number, width, out)?;
    }
    Ok(())
}

/// Writes the tables of all kinds of which there are objects, and the services that may be answered
/// other than E_OK. An error is a failed write.
pub fn write_tables<W: Write>(system: &System, found: &Findings, out: &mut W) -> io::Result<()> {
    let width = width_of(system);
    for kind in &KINDS {
        if kind.count(system) > 0 {
            write_kind(system, found, *kind, width, out)?;
        }
    }
    write_services(system, found, out)
}
