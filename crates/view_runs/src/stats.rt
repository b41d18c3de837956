//! The figures of a run.

ghost use Rattle.std.specs.Prelude.{◌≡◌, ◌++◌, List, [], ◌∷◌, IfErr, IfOk, drop, length, reverse};
ghost use Rattle.osek_base.specs.System.{System};
ghost use Rattle.seen_ticks.specs.declared.observation.Observation.{Observation};
ghost use Rattle.std.specs.String.{string_bytes};
ghost use Rattle.view_figures.specs.FigureSums.{AreFigures, RunFigures};
ghost use Rattle.view_figure_texts.specs.Limits.{broken_text};
ghost use Rattle.view_runs.specs.Counted.{AreFiguresOfRun};
ghost use Rattle.tracer.specs.WholeRuns.{RefusesStart};

use crate::beginning::{RunInput, begin};
use crate::progress::Progress;
use crate::ticks::{next_tick, pass_alike};
use kernel::Counted;
use osek_base::System;
use seen_ticks::Observation;
use std::alloc::Global;
use std::io::Write;
use tracer::RunFault;
use view_figure_texts::{Form, Limits, broken_limits, figures_text};
use view_figures::Figures;

/// What is asked of the figures of a run.
#[derive(Clone, Copy)]
pub struct StatsInput<'a> {
    /// How they are written.
    pub form: Form,
    /// The first tick that counts. The run is from boot on.
    pub from: u32,
    /// What the run has to keep.
    pub limits: Limits<'a>,
}

/// Runs a system and writes the figures of its ticks from one on, those of [`counted_figures`]. A
/// refusal comes before the first byte. Answers the text of the broken limits, a line for each.
pub fn write_stats<O: Write, E: Write>(
    alloc: Global,
    system: &System,
    input: RunInput<'_>,
    asked: StatsInput<'_>,
    progress: &mut Progress<'_, E>,
    out: &mut O,
) -> Result<String, RunFault>
    ensures { IfOk result (λ lines. (f : RunFigures)
        × AreFiguresOfRun system.now input.entry.irqs.now input.entry.mode.now input.entry.ticks
        asked.entry.from f
        × (string_bytes lines ≡ broken_text system.now f asked.entry.limits)) }
{
    let figures = counted_figures(alloc, system, input, asked.from, progress)?;
    out.write_all(figures_text(alloc, system, &figures, asked.form)?.as_slice())?;
    Ok(broken_limits(alloc, system, &figures, &asked.limits)?)
}

/// Runs a system. The figures are those of its ticks from `from` on, as many as asked for, or up to
/// a ShutdownOS. A fault is the first refusal of the arrival list or the mode, or want of memory.
pub fn counted_figures<E: Write>(
    alloc: Global,
    system: &System,
    input: RunInput<'_>,
    from: u32,
    progress: &mut Progress<'_, E>,
) -> Result<Figures, RunFault>
    ensures counted { IfOk result (AreFiguresOfRun system.now input.entry.irqs.now
        input.entry.mode.now input.entry.ticks from) }
    ensures refusal { IfErr result
        (RefusesStart system.now input.entry.irqs.now input.entry.mode.now) }
{
    let mut run = begin::<Counted>(alloc, system, input.irqs, input.mode)?;
    let mut figures = Figures::new(system);
    'ticks: while next_tick(&mut run, input.ticks, progress) {
        count(&mut figures, run.observation(), from);
        let Some(first) = pass_alike(&mut run, input.ticks) else {
            continue;
        };
        figures.observe_alike(run.observation(), first.max(from), run.ticks_done());
    }
    Ok(figures)
}

/// Counts a tick, if it counts, behind those before it.
#[inline(always)]
fn count(figures: &mut Figures, seen: &Observation, from: u32)
    ensures { (S : System) (before : List Observation) → length before ≡ seen.now.tick
        → AreFigures S (reverse (drop from before)) figures.old
        → AreFigures S (reverse (drop from (before ++ seen.now ∷ []))) figures.new }
{
    if from <= seen.tick {
        figures.observe(seen);
    }
}
