//! The picture of a run.

ghost use Rattle.std.specs.Prelude.{IfErr, IfOk};
ghost use Rattle.view_runs.specs.Drawn.{IsDrawn};
ghost use Rattle.tracer.specs.WholeRuns.{RefusesStart};

use crate::beginning::{RunInput, begin};
use crate::progress::Progress;
use crate::ticks::{next_tick, pass_alike};
use kernel::NotCounted;
use osek_base::{System, TickRecord};
use std::alloc::Global;
use std::io::Write;
use tracer::RunFault;
use view_timelines::Timeline;

/// Which rows a picture has, and how it is written.
#[derive(Clone, Copy)]
pub struct Picture<'r> {
    /// The first tick that is drawn.
    pub from: u32,
    /// The names of the rows, with commas between them; None for all.
    pub rows: Option<&'r str>,
    /// Whether it is written as trace events, which Perfetto opens, in place of SVG.
    pub are_events: bool,
}

/// Runs a system and writes the picture of its ticks from one on, that of [`drawn_timeline`]. A
/// refusal comes before the first byte.
pub fn write_timeline<O: Write, E: Write>(
    alloc: Global,
    system: &System,
    input: RunInput<'_>,
    picture: Picture<'_>,
    progress: &mut Progress<'_, E>,
    out: &mut O,
) -> Result<(), RunFault> {
    let mut timeline = drawn_timeline(alloc, system, input, picture.from, progress)?;
    if let Some(list) = picture.rows {
        timeline.choose_rows(system, list);
    }
    if picture.are_events {
        let text = timeline.events_text(alloc, system)?;
        return Ok(out.write_all(text.as_slice())?);
    }
    Ok(timeline.write(system, out)?)
}

/// Runs a system. The rows of the picture show its ticks from `from` on, of
/// [`MAX_DRAWN`](crate::MAX_DRAWN) at most, as many as asked for, or up to a ShutdownOS, and the
/// marks what comes in them. A fault is the first refusal of the arrival list or the mode, or want
/// of memory.
pub fn drawn_timeline<E: Write>(
    alloc: Global,
    system: &System,
    input: RunInput<'_>,
    from: u32,
    progress: &mut Progress<'_, E>,
) -> Result<Timeline, RunFault>
    ensures drawn { IfOk result (IsDrawn system.now input.entry.irqs.now input.entry.mode.now
        input.entry.ticks from) }
    ensures refusal { IfErr result
        (RefusesStart system.now input.entry.irqs.now input.entry.mode.now) }
{
    let mut run = begin::<NotCounted>(alloc, system, input.irqs, input.mode)?;
    let mut timeline = Timeline::new(alloc, system, from, input.ticks)?;
    let mut records = TickRecord::new();
    'ticks: while next_tick(&mut run, input.ticks, progress) {
        run.records_into(&mut records);
        timeline.observe(system, run.observation(), &records)?;
        let Some(first) = pass_alike(&mut run, input.ticks) else {
            continue;
        };
        timeline.observe_alike(system, run.observation(), first, run.ticks_done())?;
    }
    Ok(timeline)
}
