//! How far a trace is, by what is written of it.

use osek_base::words::number_at;
use std::io::{self, Write};
use view_runs::Progress;

/// A stream of a trace. What is written by one call begins with a line, and so with the number of a
/// tick.
#[derive(Drop)]
pub(crate) struct LineWatch<'w, 'e, O, E> {
    out: O,
    progress: &'w mut Progress<'e, E>,
    ticks: u32,
}

impl<'w, 'e, O, E> LineWatch<'w, 'e, O, E> {
    /// The trace of a run of so many ticks, which goes on to `out`.
    pub(crate) fn new(out: O, progress: &'w mut Progress<'e, E>, ticks: u32) -> Self {
        LineWatch {
            out,
            progress,
            ticks,
        }
    }
}

impl<O: Write, E: Write> Write for LineWatch<'_, '_, O, E> {
    fn write(&mut self, lines: &[u8]) -> io::Result<usize> {
        if self.progress.is_shown() {
            if let Some(tick) = number_at(lines) {
                self.progress.note(tick.value, self.ticks);
            }
        }
        self.out.write(lines)
    }

    fn flush(&mut self) -> io::Result<()> {
        self.out.flush()
    }
}
