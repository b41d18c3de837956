//! The page, section by section.

use crate::bounds::write_bounds;
use crate::coming::write_coming;
use crate::cuts::write_cuts;
use crate::heading::{write_head, write_heading};
use crate::limits::write_limits;
use crate::pieces::{Piece, write_pieces};
use crate::report::Report;
use crate::script::SCRIPT;
use crate::system::write_system;
use crate::worst_cases::write_worst_cases;
use arrival_rules::ArrivalRule;
use cli_answers::{Texts, Verdict};
use cli_tables::{BoundsAsked, Counted, count, verdict_of, verdict_of_count};
use osek_base::{ModeId, System};
use search::Outcome;
use search_nodes::Bounds;
use search_witnesses::Findings;
use std::alloc::{AllocError, Global};
use std::io::{self, Write};
use tracer::RunFault;

/// What is known of bounds: where the search has come to its end, by runs that show them too.
fn findings_of(
    alloc: Global,
    system: &System,
    mode: ModeId,
    rules: &[ArrivalRule],
    bounds: Bounds,
) -> Result<Findings, AllocError> {
    match bounds.outcome {
        Outcome::Decided(_) => Findings::of(alloc, system, mode, rules, bounds),
        Outcome::Undecided(..) => Ok(Findings::untried(alloc, bounds)),
    }
}

/// What is counted behind a search that stopped before its end; None where it has come to it, or
/// where counting needs too many nodes.
fn counted_behind(
    alloc: Global,
    system: &System,
    mode: ModeId,
    rules: &[ArrivalRule],
    outcome: Outcome,
) -> Result<Option<Counted>, RunFault> {
    match outcome {
        Outcome::Decided(_) => Ok(None),
        Outcome::Undecided(..) => count(alloc, system, mode, rules),
    }
}

/// Writes what is told of all runs: bounds, limits, and how interrupts come.
fn write_all_runs<O: Write>(
    alloc: Global,
    report: &Report<'_>,
    out: &mut O,
) -> Result<(), RunFault> {
    write_bounds(alloc, report, out)?;
    write_limits(alloc, report, out)?;
    Ok(write_coming(report, out)?)
}

/// Writes the sections.
fn write_sections<O: Write>(
    alloc: Global,
    report: &Report<'_>,
    out: &mut O,
) -> Result<(), RunFault> {
    write_all_runs(alloc, report, out)?;
    write_worst_cases(alloc, report, out)?;
    write_cuts(alloc, report.whole, out)?;
    write_system(alloc, report, out)
}

/// Writes the end of the page. An error is a failed write.
fn write_end<O: Write>(out: &mut O) -> io::Result<()> {
    let pieces = [
        Piece::Own("</main>\n<script>\n"),
        Piece::Own(SCRIPT),
        Piece::Own("</script>\n</body>\n</html>\n"),
    ];
    write_pieces(&pieces, out)
}

/// Writes the page.
fn write_page<O: Write>(alloc: Global, report: &Report<'_>, out: &mut O) -> Result<(), RunFault> {
    write_head(report, out)?;
    write_heading(report, out)?;
    write_sections(alloc, report, out)?;
    Ok(write_end(out)?)
}

/// Writes the page of what a search for bounds in a mode, by rules of interrupts, has found of a
/// system, or of its upper part by itself, which `system` then is and not `whole`. Where it stopped
/// before its end, what is counted stands behind. The verdict tells, as that of the bounds
/// themselves, whether it has come to its end and which limits break.
pub fn write_report<'v, O: Write>(
    alloc: Global,
    texts: &Texts,
    whole: &System,
    system: &System,
    mode: ModeId,
    rules: &[ArrivalRule],
    bounds: Bounds,
    asked: BoundsAsked<'v>,
    out: &mut O,
) -> Result<Verdict<'v>, RunFault> {
    let found = findings_of(alloc, system, mode, rules, bounds)?;
    let counted = counted_behind(alloc, system, mode, rules, found.bounds.outcome)?;
    let verdict = verdict_of(alloc, system, &found, asked)?;
    let found = Some(found);
    let report = Report {
        texts,
        whole,
        system,
        mode,
        rules,
        found: &found,
        counted: &counted,
        asked,
    };
    write_page(alloc, &report, out)?;
    Ok(verdict)
}

/// Writes the page of what is counted in a mode, by rules of interrupts, of a system, or of its
/// upper part by itself, which `system` then is and not `whole`; or that it needs too many nodes.
/// The verdict tells, as that of the bounds themselves, which limits break.
pub fn write_counted_report<'v, O: Write>(
    alloc: Global,
    texts: &Texts,
    whole: &System,
    system: &System,
    mode: ModeId,
    rules: &[ArrivalRule],
    counted: Option<Counted>,
    asked: BoundsAsked<'v>,
    out: &mut O,
) -> Result<Verdict<'v>, RunFault> {
    let verdict = verdict_of_count(alloc, system, counted.as_ref(), asked)?;
    let unsearched: Option<Findings> = None;
    let report = Report {
        texts,
        whole,
        system,
        mode,
        rules,
        found: &unsearched,
        counted: &counted,
        asked,
    };
    write_page(alloc, &report, out)?;
    Ok(verdict)
}
