//! What is written of all runs of a system: bounds that are searched or counted, or how far the
//! search for them came.

ghost use Rattle.osek_base.specs.Separable.{Separable};

use analysis_bounds::{UpperAnalysis, analyse_upper};
use arrival_rules::ArrivalRule;
use cli_answers::{StoredRun, Texts, Verdict, system_of, write_denial};
use cli_report::{write_counted_report, write_report};
use cli_requests::Rules;
use cli_tables::{
    BoundsAsked, Counted, SearchWatch, all_rules, arriving_fault, count, counted_of, mode_id,
    unknown_figure, write_analysed, write_found,
};
use osek_base::{ModeId, System};
use partition_check::upper_only;
use partition_isolation::check_isolation;
use search_bounds::{UpperBounds, find_bounds, find_upper_bounds};
use search_nodes::{Bounds, Extent};
use std::alloc::{AllocError, Global};
use std::io::Write;
use tracer::RunFault;
use view_runs::{Limit, unknown_limit};

/// How many visits may be made for each state that may be kept.
const VISITS_OF_STATE: u64 = 100;

/// How far a search goes.
fn extent_of(rules: &Rules<'_>) -> Extent {
    let states = rules.most_states();
    Extent {
        nodes: states as usize,
        visits: VISITS_OF_STATE * u64::from(states),
        cap: rules.longest_time(),
    }
}

/// The name of the first limit that is of nothing in the part from a priority upward. An error is
/// want of memory.
fn unknown_above<'v>(
    alloc: Global,
    system: &System,
    priority: u8,
    times: &'v [Limit<'v>],
) -> Result<Option<&'v str>, AllocError>
    requires { Separable system.now priority }
{
    let part = upper_only(alloc, system, priority)?;
    Ok(unknown_limit(&part, times))
}

/// Writes what is counted of a system, or of its upper part by itself, which `system` then is and
/// not `whole`: as tables or as a page.
fn write_told<'v, O: Write>(
    alloc: Global,
    texts: &Texts,
    whole: &System,
    system: &System,
    mode: ModeId,
    arriving: &[ArrivalRule],
    told: Option<Counted>,
    asked: BoundsAsked<'v>,
    out: &mut O,
) -> Result<Verdict<'v>, RunFault> {
    match asked.line.page {
        Some(_) => write_counted_report(
            alloc, texts, whole, system, mode, arriving, told, asked, out,
        ),
        None => write_analysed(alloc, system, told.as_ref(), asked, out),
    }
}

/// Writes what a search has found of a system, or of its upper part by itself, which `system` then
/// is and not `whole`: as tables or as a page.
fn write_bounds<'v, O: Write>(
    alloc: Global,
    texts: &Texts,
    whole: &System,
    system: &System,
    mode: ModeId,
    arriving: &[ArrivalRule],
    bounds: Bounds,
    asked: BoundsAsked<'v>,
    runs: &mut Vec<StoredRun>,
    out: &mut O,
) -> Result<Verdict<'v>, RunFault> {
    match asked.line.page {
        Some(_) => write_report(
            alloc, texts, whole, system, mode, arriving, bounds, asked, out,
        ),
        None => write_found(alloc, system, mode, arriving, bounds, asked, runs, out),
    }
}

/// Writes what is counted of the part from a priority upward by itself.
fn write_upper_count<'v, O: Write>(
    alloc: Global,
    texts: &Texts,
    system: &System,
    priority: u8,
    mode: ModeId,
    arriving: &[ArrivalRule],
    asked: BoundsAsked<'v>,
    out: &mut O,
) -> Result<Verdict<'v>, RunFault>
    requires { Separable system.now priority }
{
    match analyse_upper(alloc, system, priority, mode, arriving)? {
        Ok(UpperAnalysis { part, analysis }) => {
            let told = counted_of(alloc, &part, arriving, Ok(analysis))?;
            write_told(
                alloc, texts, system, &part, mode, arriving, told, asked, out,
            )
        }
        Err(_) => write_told(
            alloc, texts, system, system, mode, arriving, None, asked, out,
        ),
    }
}

/// Writes the bounds of the part from a priority upward by itself, or the denial.
fn write_upper<'v, O: Write, E: Write>(
    alloc: Global,
    texts: &Texts,
    system: &System,
    priority: u8,
    asked: BoundsAsked<'v>,
    rules: &Rules<'_>,
    watch: &mut SearchWatch<'_, '_, E>,
    runs: &mut Vec<StoredRun>,
    out: &mut O,
) -> Result<Verdict<'v>, RunFault> {
    if let Err(denial) = check_isolation(system, priority) {
        return write_denial(priority, denial.named(system), out);
    }
    if let Some(name) = unknown_above(alloc, system, priority, asked.limits.times)? {
        return Ok(Verdict::NoLimit(name));
    }
    let mode = mode_id(alloc, texts, system, asked.line.mode)?;
    let arriving = all_rules(alloc, system, asked.said)?;
    if asked.line.is_analysed {
        return write_upper_count(alloc, texts, system, priority, mode, &arriving, asked, out);
    }
    let extent = extent_of(rules);
    let found = find_upper_bounds(alloc, system, priority, mode, &arriving, extent, watch)?;
    let UpperBounds { part, bounds } = found;
    write_bounds(
        alloc, texts, system, &part, mode, &arriving, bounds, asked, runs, out,
    )
}

/// Writes the bounds of all runs in a mode.
fn write_whole<'v, O: Write, E: Write>(
    alloc: Global,
    texts: &Texts,
    system: &System,
    asked: BoundsAsked<'v>,
    rules: &Rules<'_>,
    watch: &mut SearchWatch<'_, '_, E>,
    runs: &mut Vec<StoredRun>,
    out: &mut O,
) -> Result<Verdict<'v>, RunFault> {
    if let Some(name) = unknown_limit(system, asked.limits.times) {
        return Ok(Verdict::NoLimit(name));
    }
    let mode = mode_id(alloc, texts, system, asked.line.mode)?;
    let arriving = all_rules(alloc, system, asked.said)?;
    if asked.line.is_analysed {
        let told = count(alloc, system, mode, &arriving)?;
        return write_told(
            alloc, texts, system, system, mode, &arriving, told, asked, out,
        );
    }
    let extent = extent_of(rules);
    let found = find_bounds(alloc, system, mode, &arriving, extent, watch)?;
    write_bounds(
        alloc, texts, system, system, mode, &arriving, found, asked, runs, out,
    )
}

/// Writes the bounds that are asked for, or what names nothing of the system.
fn write_asked<'v, O: Write, E: Write>(
    alloc: Global,
    texts: &Texts,
    system: &System,
    asked: BoundsAsked<'v>,
    rules: &Rules<'v>,
    watch: &mut SearchWatch<'_, '_, E>,
    runs: &mut Vec<StoredRun>,
    out: &mut O,
) -> Result<Verdict<'v>, RunFault> {
    if let Some(fault) = arriving_fault(system, asked.said) {
        return Ok(Verdict::NoArriving(fault));
    }
    if let Some(wanted) = unknown_figure(system, asked.line) {
        return Ok(Verdict::NoFigure(wanted));
    }
    match asked.line.upper {
        Some(priority) => write_upper(
            alloc, texts, system, priority, asked, rules, watch, runs, out,
        ),
        None => write_whole(alloc, texts, system, asked, rules, watch, runs, out),
    }
}

/// Writes the bounds of all runs in a mode, or how far the search for them came. Adds runs that are
/// to be stored.
pub fn write_searched<'v, O: Write, E: Write>(
    alloc: Global,
    texts: &Texts,
    asked: BoundsAsked<'v>,
    rules: &Rules<'v>,
    watch: &mut SearchWatch<'_, '_, E>,
    runs: &mut Vec<StoredRun>,
    out: &mut O,
) -> Result<Verdict<'v>, RunFault> {
    let system = system_of(alloc, texts)?;
    write_asked(alloc, texts, &system, asked, rules, watch, runs, out)
}
