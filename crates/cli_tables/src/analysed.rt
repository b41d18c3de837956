//! What is written of an analysis: bounds that are counted.

use crate::asked::BoundsAsked;
use crate::coming::{write_coming, write_unsaid};
use crate::csv_text::csv_of;
use crate::found::held_to;
use crate::json_text::json_of;
use crate::levels::write_levels;
use crate::table::write_tables;
use analysis_bounds::{Analysis, MAX_NODES, TooMany, analyse};
use arrival_rules::ArrivalRule;
use cli_answers::Verdict;
use osek_base::{ModeId, System};
use search::{Outcome, Progress};
use search_nodes::{Bounds, Trails};
use search_witnesses::Findings;
use std::alloc::{AllocError, Global};
use std::io::{self, Write};
use tracer::RunFault;
use view_figure_texts::Form;

/// What an analysis tells, as it is written.
#[derive(Drop)]
pub struct Counted {
    /// Its bounds. They hold for ever, and no run is known that shows one.
    pub found: Findings,
    /// How many nodes were looked at.
    pub nodes: usize,
    /// A line for each level: the sum that bounds it, or why there is none.
    pub levels: Vec<u8>,
}

/// What an analysis tells, as findings of which no run is known. It leaves nothing open.
fn findings_of(alloc: Global, system: &System, analysis: Analysis) -> Result<Findings, AllocError> {
    let nodes = analysis.graph.nodes.len();
    let progress = Progress {
        nodes,
        open_nodes: 0,
        visits: 0,
        steps: 0,
        levels: 0,
    };
    let trails = Trails::new(alloc, system)?;
    let bounds = Bounds {
        outcome: Outcome::Decided(progress),
        peaks: analysis.peaks,
        cap: analysis.cap,
        trails,
    };
    Ok(Findings::untried(alloc, bounds))
}

/// What an analysis of a system tells, as it is written; None where it needs too many nodes.
pub fn counted_of(
    alloc: Global,
    system: &System,
    rules: &[ArrivalRule],
    analysis: Result<Analysis, TooMany>,
) -> Result<Option<Counted>, RunFault> {
    let Ok(analysis) = analysis else {
        return Ok(None);
    };
    let mut levels = Vec::new(alloc);
    // The only write that can fail there is for want of memory.
    if write_levels(system, rules, &analysis, &mut levels).is_err() {
        return Err(RunFault::Memory);
    }
    let nodes = analysis.graph.nodes.len();
    let found = findings_of(alloc, system, analysis)?;
    Ok(Some(Counted {
        found,
        nodes,
        levels,
    }))
}

/// Analyses a system, and gives what that tells as it is written; None where it needs too many
/// nodes.
pub fn count(
    alloc: Global,
    system: &System,
    mode: ModeId,
    rules: &[ArrivalRule],
) -> Result<Option<Counted>, RunFault> {
    let analysis = analyse(alloc, system, mode, rules)?;
    counted_of(alloc, system, rules, analysis)
}

/// Writes how many nodes an analysis has looked at, or that it needs too many. An error is a failed
/// write.
pub fn write_count<W: Write>(counted: Option<&Counted>, out: &mut W) -> io::Result<()> {
    match counted {
        Some(counted) => writeln!(out, "analysed: {} nodes", counted.nodes),
        None => writeln!(out, "not analysed: more than {MAX_NODES} nodes"),
    }
}

/// What is told of routines of which nothing is said, and where it's asked for of each level. The
/// only write that can fail there is for want of memory.
fn remarks_of(
    alloc: Global,
    system: &System,
    counted: Option<&Counted>,
    asked: BoundsAsked<'_>,
) -> Result<Vec<u8>, RunFault> {
    let mut remarks = Vec::new(alloc);
    if write_unsaid(system, asked.said, &mut remarks).is_err() {
        return Err(RunFault::Memory);
    }
    let Some(counted) = counted else {
        return Ok(remarks);
    };
    if asked.request.is_explained && remarks.write_all(&counted.levels).is_err() {
        return Err(RunFault::Memory);
    }
    Ok(remarks)
}

/// What is told on standard error, and by the exit status, of an analysis: which limits its bounds
/// break. Where there is none, no limit is told to be broken.
pub fn verdict_of_count<'v>(
    alloc: Global,
    system: &System,
    counted: Option<&Counted>,
    asked: BoundsAsked<'v>,
) -> Result<Verdict<'v>, RunFault> {
    let remarks = remarks_of(alloc, system, counted, asked)?;
    match counted {
        Some(counted) => held_to(alloc, system, &counted.found, asked, remarks),
        None => Ok(Verdict::Searched {
            is_decided: false,
            remarks,
        }),
    }
}

/// Writes bounds in the form that is asked for.
fn write_bounds<O: Write>(
    alloc: Global,
    system: &System,
    counted: &Counted,
    asked: BoundsAsked<'_>,
    out: &mut O,
) -> Result<(), RunFault> {
    let found = &counted.found;
    match asked.line.form {
        Form::Table => {
            write_count(Some(counted), out)?;
            write_coming(system, asked.said, out)?;
            write_tables(system, found, out)?;
        }
        Form::Csv => out.write_all(csv_of(alloc, system, found)?.as_bytes())?,
        Form::Json => out.write_all(json_of(alloc, system, asked.said, found)?.as_slice())?,
    }
    Ok(())
}

/// Writes the bounds of a system that an analysis tells, in the form that is asked for, and tells
/// which limits they break. What has no bound is above. Where there is no analysis that is written.
pub fn write_analysed<'v, O: Write>(
    alloc: Global,
    system: &System,
    counted: Option<&Counted>,
    asked: BoundsAsked<'v>,
    out: &mut O,
) -> Result<Verdict<'v>, RunFault> {
    let verdict = verdict_of_count(alloc, system, counted, asked)?;
    match counted {
        Some(counted) => write_bounds(alloc, system, counted, asked, out)?,
        None => write_count(None, out)?,
    }
    Ok(verdict)
}

/// Writes the tables of an analysis behind those of a search that stopped before its end; nothing
/// where there is no analysis.
pub(crate) fn write_counted<O: Write>(
    alloc: Global,
    system: &System,
    mode: ModeId,
    rules: &[ArrivalRule],
    out: &mut O,
) -> Result<(), RunFault> {
    let Some(counted) = count(alloc, system, mode, rules)? else {
        return Ok(());
    };
    out.write_all(b"\ncounted, for ever:\n")?;
    write_tables(system, &counted.found, out)?;
    Ok(())
}
