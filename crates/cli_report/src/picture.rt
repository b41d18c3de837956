//! A run as a picture, and as a trace.

use crate::pieces::{Escaped, Piece, write_list, write_pieces, write_text};
use crate::report::{Report, mode_name};
use cli_answers::LinesFrom;
use cli_tables::{NamedFigure, ShownRun};
use osek_base::MAX_TICKS;
use std::alloc::Global;
use std::io::{self, Write};
use std::str;
use tracer::{RunFault, StdSink, TraceInput, run, run_upper};
use view_runs::{Picture, Progress, RunInput, Showing, write_timeline};

/// How many ticks a picture has at most: of what lasts longer the end is drawn.
const MOST: u32 = 1_000;

/// How many ticks are drawn before what is shown, and behind it.
const AROUND: u32 = 8;

/// The ticks of a run that are drawn: from one on, and before another.
#[derive(Clone, Copy)]
struct Window {
    from: u32,
    end: u32,
}

/// The ticks round what a run shows.
fn window_of(shown: &ShownRun) -> Window {
    let end = shown.end.saturating_add(AROUND).min(MAX_TICKS);
    let first = shown.first.saturating_sub(AROUND);
    Window {
        from: first.max(end.saturating_sub(MOST)),
        end,
    }
}

/// Writes what stands above a picture. An error is a failed write.
fn write_caption<O: Write>(
    named: NamedFigure,
    name: &str,
    shown: &ShownRun,
    out: &mut O,
) -> io::Result<()> {
    write_pieces(
        &[
            Piece::Own("<figure class=\"run\" id=\"worst-"),
            Piece::Own(named.kind),
            Piece::Own("-"),
            Piece::Text(name),
            Piece::Own("\">\n<figcaption><h3>"),
            Piece::Own(named.kind),
            Piece::Own(" "),
            Piece::Text(name),
            Piece::Own("</h3>\n"),
        ],
        out,
    )?;
    write_list(shown.lines.as_bytes(), out)?;
    out.write_all(b"</figcaption>\n")
}

/// The picture of some ticks of a run, as SVG.
fn svg_of(
    alloc: Global,
    report: &Report<'_>,
    shown: &ShownRun,
    window: Window,
) -> Result<Vec<u8>, RunFault> {
    let mut untold = Vec::new(alloc);
    let mut progress = Progress::new(&mut untold, Showing::Nowhere);
    let input = RunInput {
        irqs: shown.arrivals.as_bytes(),
        mode: mode_name(report),
        ticks: window.end,
    };
    let picture = Picture {
        from: window.from,
        rows: None,
        are_events: false,
    };
    let mut svg = Vec::new(alloc);
    match write_timeline(
        alloc,
        report.system,
        input,
        picture,
        &mut progress,
        &mut svg,
    ) {
        Ok(()) => Ok(svg),
        // The only write that can fail there is for want of memory.
        Err(RunFault::Write) => Err(RunFault::Memory),
        Err(fault) => Err(fault),
    }
}

/// The two parts of a picture round what is the same in all: its style and its patterns.
fn without_style(svg: &str) -> Option<(&str, &str)> {
    let (head, rest) = svg.split_once("<style>")?;
    let (_style, body) = rest.split_once("</defs>")?;
    Some((head, body))
}

/// Writes a picture into the page; what is the same in all, in the first alone. An error is a
/// failed write.
fn write_svg<O: Write>(svg: &str, is_first: bool, out: &mut O) -> io::Result<()> {
    match without_style(svg) {
        Some((head, body)) if !is_first => {
            out.write_all(head.as_bytes())?;
            out.write_all(body.as_bytes())
        }
        _ => out.write_all(svg.as_bytes()),
    }
}

/// Writes the trace of some ticks of a run, to be opened; of an upper part its view.
fn write_trace<O: Write>(
    alloc: Global,
    report: &Report<'_>,
    shown: &ShownRun,
    window: Window,
    out: &mut O,
) -> Result<(), RunFault> {
    let texts = report.texts;
    let irqs = shown.arrivals.as_bytes();
    let ticks = window.end.min(MAX_TICKS);
    let input = TraceInput::new(&texts.oil, &texts.asm, irqs, mode_name(report), ticks);
    out.write_all(b"<details><summary>Trace</summary><pre class=\"trace\">")?;
    let lines = LinesFrom::new(Escaped::new(&mut *out), window.from);
    let mut sink = StdSink::new(lines);
    match report.asked.line.upper {
        Some(priority) => run_upper(alloc, &input, priority, true, &mut sink)?,
        None => run(alloc, &input, &mut sink)?,
    }
    Ok(out.write_all(b"</pre></details>\n")?)
}

/// Writes the arrivals of a run, to be opened. An error is a failed write.
fn write_arrivals<O: Write>(shown: &ShownRun, out: &mut O) -> io::Result<()> {
    out.write_all(b"<details><summary>Arrivals</summary><pre>")?;
    write_text(shown.arrivals.as_bytes(), out)?;
    out.write_all(b"</pre></details>\n</figure>\n")
}

/// Writes a run that shows a figure of a thing of that name.
pub(crate) fn write_run<O: Write>(
    alloc: Global,
    report: &Report<'_>,
    named: NamedFigure,
    name: &str,
    shown: &ShownRun,
    is_first: bool,
    out: &mut O,
) -> Result<(), RunFault> {
    let window = window_of(shown);
    write_caption(named, name, shown, out)?;
    let svg = svg_of(alloc, report, shown, window)?;
    out.write_all(b"<div class=\"picture\">\n")?;
    write_svg(str::from_utf8(&svg).unwrap_or(""), is_first, out)?;
    out.write_all(b"</div>\n")?;
    write_trace(alloc, report, shown, window, out)?;
    Ok(write_arrivals(shown, out)?)
}
