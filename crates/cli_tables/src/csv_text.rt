//! Bounds as comma-separated values, a line a figure. Names have no comma, so nothing is quoted.

ghost use Rattle.std.specs.Prelude.{◌≡◌, ◌++◌, IfOk, OnOk, codes, length};
ghost use Rattle.std.specs.List.{flat_map};
ghost use Rattle.std.specs.String.{string_bytes};
ghost use Rattle.view_measures.specs.Kinds.{kind_word, kinds, name_of as thing_name};
ghost use Rattle.view_figure_texts.specs.Tables.{measure_word as word_of_measure};
ghost use Rattle.cli_tables.specs.Cells.{cell_of};
ghost use Rattle.cli_tables.specs.CsvText.{
  csv_text,
  failure_line,
  figure_line,
  kind_lines,
  line,
  object_lines,
  service_line,
};
ghost use Rattle.cli_tables.specs.Texts.{each_below, number_text, standing_of};

use crate::failed_service::name_of;
use crate::told::{cell, service_standing};
use itoa::Buffer;
use osek_base::System;
use search_witnesses::Findings;
use seen_ticks::Failure;
use std::alloc::{AllocError, Global};
use view_figure_texts::measure_word;
use view_measures::{Figure, KINDS, Kind};

/// Appends the line of a figure of a thing of a kind.
#[tactic(auto, unfolding(crate::specs::CsvText::line))]
fn push_line_of(
    text: &mut String,
    system: &System,
    found: &Findings,
    kind: Kind,
    figure: Figure,
) -> Result<(), AllocError>
    ensures { OnOk result (string_bytes text.new
        ≡ string_bytes text.old ++ line (kind_word kind) (thing_name system.now kind figure.number)
        (word_of_measure figure.measure) (number_text (cell_of found.now figure))
        (standing_of (cell_of found.now figure))) }
{
    let cell = cell(found, figure);
    text.push_str(kind.word())?;
    text.push_str(",")?;
    text.push_str(kind.name(system, figure.number))?;
    text.push_str(",")?;
    text.push_str(measure_word(figure.measure))?;
    text.push_str(",")?;
    cell.push_number(text)?;
    text.push_str(",")?;
    text.push_str(cell.standing())?;
    text.push_str("\n")
}

/// Appends the line of a figure.
#[tactic(auto, unfolding(crate::specs::CsvText::figure_line))]
fn push_figure(
    text: &mut String,
    system: &System,
    found: &Findings,
    figure: Figure,
) -> Result<(), AllocError>
    ensures { OnOk result (string_bytes text.new
        ≡ string_bytes text.old ++ figure_line system.now found.now figure.number figure.measure) }
{
    push_line_of(text, system, found, figure.measure.kind(), figure)
}

/// Appends the lines of an object.
#[tactic(auto, unfolding(crate::specs::CsvText::object_lines))]
fn push_object(
    text: &mut String,
    system: &System,
    found: &Findings,
    kind: Kind,
    number: usize,
) -> Result<(), AllocError>
    ensures { OnOk result (string_bytes text.new
        ≡ string_bytes text.old ++ object_lines system.now found.now kind number) }
{
    for measure in kind.measures() {
        let figure = Figure {
            measure: *measure,
            number,
        };
        push_figure(text, system, found, figure)?;
    }
    Ok(())
}

/// Appends the lines of all objects of a kind.
#[tactic(auto, unfolding(crate::specs::CsvText::kind_lines), using(crate::proofs::TextLemmas::each_more))]
fn push_kind(
    text: &mut String,
    system: &System,
    found: &Findings,
    kind: Kind,
) -> Result<(), AllocError>
    ensures { OnOk result (string_bytes text.new
        ≡ string_bytes text.old ++ kind_lines system.now found.now kind) }
{
    for number in 0..kind.count(system) {
        push_object(text, system, found, kind, number)?;
    }
    Ok(())
}

/// Appends the lines of all figures.
fn push_kinds(text: &mut String, system: &System, found: &Findings) -> Result<(), AllocError>
    ensures { OnOk result (string_bytes text.new
        ≡ string_bytes text.old ++ flat_map (kind_lines system.now found.now) kinds) }
{
    for kind in &KINDS {
        push_kind(text, system, found, *kind)?;
    }
    Ok(())
}

/// Appends a value and the comma behind it.
fn push_value(text: &mut String, value: &str) -> Result<(), AllocError>
    ensures { OnOk result
        (string_bytes text.new ≡ string_bytes text.old ++ value.now ++ codes ",") }
{
    text.push_str(value)?;
    text.push_str(",")
}

/// Appends a line of five values.
#[tactic(auto, unfolding(crate::specs::CsvText::line))]
fn push_line(
    text: &mut String,
    kind: &str,
    name: &str,
    figure: &str,
    value: &str,
    standing: &str,
) -> Result<(), AllocError>
    ensures { OnOk result (string_bytes text.new ≡ string_bytes text.old
        ++ line kind.now name.now figure.now value.now standing.now) }
{
    push_value(text, kind)?;
    push_value(text, name)?;
    push_value(text, figure)?;
    push_value(text, value)?;
    text.push_str(standing)?;
    text.push_str("\n")
}

/// Appends the line of a service that may be answered other than E_OK: whose it is, its place, the
/// number of the status, and what is promised of it.
#[tactic(auto, unfolding(crate::specs::CsvText::failure_line))]
fn push_service(
    text: &mut String,
    system: &System,
    failure: &Failure,
    standing: &str,
) -> Result<(), AllocError>
    ensures { OnOk result (string_bytes text.new
        ≡ string_bytes text.old ++ failure_line system.now failure.now standing.now) }
{
    let name = name_of(system, failure.owner);
    let mut place = Buffer::new();
    let mut status = Buffer::new();
    push_line(
        text,
        "service",
        name,
        place.format(failure.place.number()),
        status.format(failure.status.number()),
        standing,
    )
}

/// Appends the line of the service of a number, where there is one.
#[tactic(auto, unfolding(crate::specs::CsvText::service_line))]
fn push_numbered(
    text: &mut String,
    system: &System,
    found: &Findings,
    number: usize,
) -> Result<(), AllocError>
    ensures { OnOk result (string_bytes text.new
        ≡ string_bytes text.old ++ service_line system.now found.now number) }
{
    match found.bounds.peaks.failures().get(number) {
        Some(failure) => push_service(text, system, failure, service_standing(found, number)),
        None => Ok(()),
    }
}

/// Appends the lines of the services that may be answered other than E_OK.
#[tactic(auto, using(crate::proofs::TextLemmas::each_more))]
fn push_services(text: &mut String, system: &System, found: &Findings) -> Result<(), AllocError>
    ensures { OnOk result (string_bytes text.new ≡ string_bytes text.old
        ++ each_below (service_line system.now found.now)
        (length found.now.bounds.peaks.failures)) }
{
    for number in 0..found.bounds.peaks.failures().len() {
        push_numbered(text, system, found, number)?;
    }
    Ok(())
}

/// The heading and the lines. The only error is want of memory.
pub fn csv_of(alloc: Global, system: &System, found: &Findings) -> Result<String, AllocError>
    ensures { IfOk result (λ text. string_bytes text ≡ csv_text system.now found.now) }
{
    let mut text = String::new(alloc);
    text.push_str("kind,name,figure,value,standing\n")?;
    push_kinds(&mut text, system, found)?;
    push_services(&mut text, system, found)?;
    Ok(text)
}
