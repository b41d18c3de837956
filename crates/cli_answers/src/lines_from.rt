//! The end of a trace.

use osek_base::words::number_at;
use std::io::{self, Write};

/// A stream of a trace, of which the lines of the ticks before one are left out. What is written by
/// one call begins with a line, until that tick is reached, and so with the number of a tick.
#[derive(Drop)]
pub struct LinesFrom<O> {
    out: O,
    from: u32,
}

impl<O> LinesFrom<O> {
    /// The lines of the ticks from `from` on go on to `out`; from 0 on all do.
    pub fn new(out: O, from: u32) -> Self {
        LinesFrom { out, from }
    }
}

/// Whether the line at the front is of a tick before one.
fn is_before(lines: &[u8], from: u32) -> bool {
    match number_at(lines) {
        Some(tick) => tick.value < from,
        None => false,
    }
}

impl<O: Write> Write for LinesFrom<O> {
    /// Of lines that begin with one to be left out it takes that one alone.
    fn write(&mut self, lines: &[u8]) -> io::Result<usize> {
        if is_before(lines, self.from) {
            for place in 0..lines.len() {
                if lines[place] == b'\n' {
                    return Ok(place + 1);
                }
            }
            return Ok(lines.len());
        }
        self.from = 0;
        self.out.write(lines)
    }

    fn flush(&mut self) -> io::Result<()> {
        self.out.flush()
    }
}
