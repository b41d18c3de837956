//! The lines of records.

use arrayvec::ArrayString;
use kernel::Kernel;
use osek_base::{System, TickRecord, TraceEvent};
use ready_queues::ReadyQueues;
use std::alloc::AllocError;
use trace_lines::line_text;

/// Adds the line of a record, with its line feed.
pub fn push_line(
    text: &mut String,
    system: &System,
    tick: u32,
    record: &TraceEvent,
) -> Result<(), AllocError> {
    let mut line = ArrayString::new();
    line_text(system.names(), tick, record, &mut line);
    text.push_str(line.as_str())?;
    text.push_str("\n")
}

/// Adds the lines of a tick's records.
pub fn push_lines(
    text: &mut String,
    system: &System,
    tick: u32,
    records: &TickRecord,
) -> Result<(), AllocError> {
    for entry in records.entries() {
        push_line(text, system, tick, entry.event())?;
    }
    Ok(())
}

/// Adds the lines of a kernel's next ticks, so many, or up to the end of the run. The first is tick
/// 0.
pub fn push_run<Q: ReadyQueues>(
    text: &mut String,
    system: &System,
    kernel: &mut Kernel<'_, Q>,
    ticks: u32,
) -> Result<(), AllocError> {
    for tick in 0..ticks {
        if !kernel.is_over() {
            push_lines(text, system, tick, &kernel.tick())?;
        }
    }
    Ok(())
}
