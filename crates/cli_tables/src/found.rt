//! What is written of what a search has found: bounds, the run that is wanted, or how far it came.

use crate::analysed::write_counted;
use crate::asked::BoundsAsked;
use crate::broken::broken_bounds;
use crate::coming::write_unsaid;
use crate::csv_text::csv_of;
use crate::json_text::json_of;
use crate::remarks::write_remarks;
use crate::storing::{Storing, store_all};
use crate::witnessing::write_witness;
use crate::writing::{write_decided, write_undecided, write_up_to};
use arrival_rules::ArrivalRule;
use cli_answers::{StoredRun, Verdict};
use osek_base::{ModeId, System};
use search::{Obstacle, Outcome, Progress};
use search_nodes::Bounds;
use search_witnesses::Findings;
use std::alloc::Global;
use std::io::Write;
use tracer::RunFault;
use view_figure_texts::Form;

/// Writes the bounds of a system in the form that is asked for.
fn write_bounds<O: Write>(
    alloc: Global,
    system: &System,
    found: &Findings,
    progress: Progress,
    asked: BoundsAsked<'_>,
    out: &mut O,
) -> Result<(), RunFault> {
    match asked.line.form {
        Form::Table => write_decided(system, asked.said, found, progress, out)?,
        Form::Csv => out.write_all(csv_of(alloc, system, found)?.as_bytes())?,
        Form::Json => out.write_all(json_of(alloc, system, asked.said, found)?.as_slice())?,
    }
    Ok(())
}

/// What is told of routines of which nothing is said, and of figures where it is asked for. The only write
/// that can fail there is for want of memory.
fn remarks_of(
    alloc: Global,
    system: &System,
    found: &Findings,
    asked: BoundsAsked<'_>,
) -> Result<Vec<u8>, RunFault> {
    let mut remarks = Vec::new(alloc);
    if write_unsaid(system, asked.said, &mut remarks).is_err() {
        return Err(RunFault::Memory);
    }
    if asked.request.is_explained && write_remarks(system, found, &mut remarks).is_err() {
        return Err(RunFault::Memory);
    }
    Ok(remarks)
}

/// What is told on standard error, and by the exit status, of a search that has come to its end or
/// not: which limits the bounds break. Of one that hasn't, nothing is promised of its figures, so
/// no limit is told to be broken.
pub fn verdict_of<'v>(
    alloc: Global,
    system: &System,
    found: &Findings,
    asked: BoundsAsked<'v>,
) -> Result<Verdict<'v>, RunFault> {
    let remarks = remarks_of(alloc, system, found, asked)?;
    if let Outcome::Undecided(..) = found.bounds.outcome {
        return Ok(Verdict::Searched {
            is_decided: false,
            remarks,
        });
    }
    held_to(alloc, system, found, asked, remarks)
}

/// Which limits bounds break, behind remarks.
pub(crate) fn held_to<'v>(
    alloc: Global,
    system: &System,
    found: &Findings,
    asked: BoundsAsked<'v>,
    remarks: Vec<u8>,
) -> Result<Verdict<'v>, RunFault> {
    let broken = broken_bounds(alloc, system, found, &asked.limits)?;
    if !broken.is_empty() {
        return Ok(Verdict::Exceeded { remarks, broken });
    }
    Ok(Verdict::Searched {
        is_decided: true,
        remarks,
    })
}

/// Writes how far a search came that stopped before its end, and at what; and, behind its tables,
/// those of an analysis.
fn write_open<'v, O: Write>(
    alloc: Global,
    system: &System,
    mode: ModeId,
    rules: &[ArrivalRule],
    bounds: Bounds,
    obstacle: Obstacle,
    progress: Progress,
    asked: BoundsAsked<'v>,
    out: &mut O,
) -> Result<Verdict<'v>, RunFault> {
    let found = Findings::untried(alloc, bounds);
    write_undecided(obstacle, progress, out)?;
    if asked.line.form == Form::Table && asked.line.witness.is_none() {
        write_up_to(system, asked.said, &found, progress, out)?;
        write_counted(alloc, system, mode, rules, out)?;
    }
    verdict_of(alloc, system, &found, asked)
}

/// Writes bounds, and tells which limits they break.
fn write_held<'v, O: Write>(
    alloc: Global,
    system: &System,
    found: &Findings,
    progress: Progress,
    asked: BoundsAsked<'v>,
    out: &mut O,
) -> Result<Verdict<'v>, RunFault> {
    let verdict = verdict_of(alloc, system, found, asked)?;
    write_bounds(alloc, system, found, progress, asked, out)?;
    Ok(verdict)
}

/// Writes what was found of a system: its bounds, or the run that is wanted, or how far the search
/// came. Runs that are to be stored are added.
pub fn write_found<'v, O: Write>(
    alloc: Global,
    system: &System,
    mode: ModeId,
    rules: &[ArrivalRule],
    bounds: Bounds,
    asked: BoundsAsked<'v>,
    runs: &mut Vec<StoredRun>,
    out: &mut O,
) -> Result<Verdict<'v>, RunFault> {
    let progress = match bounds.outcome {
        Outcome::Decided(progress) => progress,
        Outcome::Undecided(obstacle, progress) => {
            return write_open(
                alloc, system, mode, rules, bounds, obstacle, progress, asked, out,
            );
        }
    };
    if let Some(wanted) = asked.line.witness {
        return write_witness(
            alloc, system, mode, rules, &bounds, wanted, asked, runs, out,
        );
    }
    let found = Findings::of(alloc, system, mode, rules, bounds)?;
    if let Some(folder) = asked.line.witnesses {
        let storing = Storing {
            system,
            mode,
            rules,
            folder,
        };
        store_all(alloc, &storing, &found, runs)?;
    }
    write_held(alloc, system, &found, progress, asked, out)
}
