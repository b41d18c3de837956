//! What is written of a run: the lines of its trace, or how else it is shown.

use crate::inputs::{Texts, mode_of, system_of};
use crate::line_watch::LineWatch;
use crate::lines_from::LinesFrom;
use crate::partitions::write_denial;
use crate::verdict::Verdict;
use cli_requests::{Lines, RunLine, View};
use osek_base::{MAX_TICKS, System};
use std::alloc::Global;
use std::io::Write;
use tracer::{RunFault, StdSink, TraceInput, run, run_blocking, run_upper};
use view_runs::{
    Limits, Picture, Progress, RunInput, StatsInput, unknown_limit, unknown_row, write_stats,
    write_timeline, write_vcd,
};

/// Writes lines of the trace of a run, of the ticks from one on, or the first denial.
pub fn write_lines<O: Write, E: Write>(
    alloc: Global,
    texts: &Texts,
    line: RunLine<'_>,
    lines: Lines,
    from: u32,
    progress: &mut Progress<'_, E>,
    out: &mut O,
) -> Result<Verdict<'static>, RunFault> {
    let Texts {
        oil,
        asm,
        plain_irq,
        ..
    } = texts;
    let mode = mode_of(alloc, texts, line.mode)?;
    let ticks = line.ticks.min(MAX_TICKS);
    let input = TraceInput::new(oil, asm, plain_irq, mode.as_str(), ticks);
    let shown = LinesFrom::new(&mut *out, from);
    let mut sink = StdSink::new(LineWatch::new(shown, progress, ticks));
    match lines {
        Lines::All => run(alloc, &input, &mut sink)?,
        Lines::Blocking => run_blocking(alloc, &input, &mut sink)?,
        Lines::Upper { priority: p, alone } => {
            match run_upper(alloc, &input, p, alone, &mut sink) {
                Err(RunFault::Denied(denial)) => return write_denial(p, denial, out),
                outcome => outcome?,
            }
        }
    }
    Ok(Verdict::Done)
}

/// The first name of a list of rows, if there is one, that neither a task nor a routine has.
fn row_without_owner<'v>(system: &System, rows: Option<&'v str>) -> Option<&'v str> {
    unknown_row(system, rows?)
}

/// Writes the figures of a run, held to limits.
fn write_held<'v, O: Write, E: Write>(
    alloc: Global,
    system: &System,
    input: RunInput<'_>,
    asked: StatsInput<'v>,
    progress: &mut Progress<'_, E>,
    out: &mut O,
) -> Result<Verdict<'v>, RunFault> {
    if let Some(name) = unknown_limit(system, asked.limits.times) {
        return Ok(Verdict::NoLimit(name));
    }
    let lines = write_stats(alloc, system, input, asked, progress, out)?;
    if lines.is_empty() {
        Ok(Verdict::Done)
    } else {
        Ok(Verdict::Broken(lines))
    }
}

/// Writes what else is shown of a run of a system.
fn write_view_of<'v, O: Write, E: Write>(
    alloc: Global,
    system: &System,
    input: RunInput<'_>,
    view: View<'v>,
    limits: Limits<'v>,
    progress: &mut Progress<'_, E>,
    out: &mut O,
) -> Result<Verdict<'v>, RunFault> {
    match view {
        View::Vcd { from } => {
            let mut sink = StdSink::new(out);
            write_vcd(alloc, system, input, from, progress, &mut sink)?;
        }
        View::Timeline {
            from,
            rows,
            are_events,
        } => {
            if let Some(name) = row_without_owner(system, rows) {
                return Ok(Verdict::NoRow(name));
            }
            let picture = Picture {
                from,
                rows,
                are_events,
            };
            write_timeline(alloc, system, input, picture, progress, out)?;
        }
        View::Stats(stats) => {
            let asked = StatsInput {
                form: stats.form,
                from: stats.from,
                limits,
            };
            return write_held(alloc, system, input, asked, progress, out);
        }
    }
    Ok(Verdict::Done)
}

/// Writes what else is shown of a run.
pub fn write_view<'v, O: Write, E: Write>(
    alloc: Global,
    texts: &Texts,
    line: RunLine<'_>,
    view: View<'v>,
    limits: Limits<'v>,
    progress: &mut Progress<'_, E>,
    out: &mut O,
) -> Result<Verdict<'v>, RunFault> {
    let system = system_of(alloc, texts)?;
    let mode = mode_of(alloc, texts, line.mode)?;
    let input = RunInput {
        irqs: &texts.plain_irq,
        mode: mode.as_str(),
        ticks: line.ticks,
    };
    write_view_of(alloc, &system, input, view, limits, progress, out)
}
