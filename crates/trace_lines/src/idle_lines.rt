//! The lines of ticks in which nothing happens.

ghost use Rattle.std.specs.Prelude.{◌≡◌, ◌+◌, ◌≤◌, ◌++◌, length, codes, decimal, OnOk};
ghost use Rattle.osek_base.specs.Names.{Names};
ghost use Rattle.trace_lines.specs.Lines.{event_of, lines_from, same_ticks_text};
ghost use Rattle.sinks.specs.Sinks.{PutsBehind};

use crate::block::{BLOCK_SIZE, Block, RECORD_SIZE, make_room};
use crate::tick_text::TickText;
use osek_base::MAX_TICKS;
use sinks::{Sink, SinkFault};

/// What the line of a tick says in which nobody executes and nothing else is recorded.
#[derive(Clone, Copy)]
pub enum IdleWord {
    /// `idle`, where all is shown.
    Idle,
    /// `other`, in a view.
    Other,
}

/// Appends a line of a tick, which ends with as many bytes as are known when this is built.
#[inline(always)]
fn push_line<const N: usize>(tick: &TickText, ending: &[u8; N], text: &mut Block)
    requires room { length text.old + RECORD_SIZE ≤ BLOCK_SIZE }
    requires short { N ≤ 16 }
    ensures { text.new ≡ text.old ++ decimal tick.now ++ codes " " ++ ending.now }
{
    tick.push_to(text);
    text.push_array(ending);
}

/// Writes a line for each of some ticks by way of the block, all with the same ending.
#[inline(always)]
fn write_lines<const N: usize, S: Sink>(
    tick: &mut TickText,
    ticks: u32,
    ending: &[u8; N],
    text: &mut Block,
    out: &mut S,
) -> Result<(), SinkFault>
    requires few { tick.old + ticks ≤ MAX_TICKS }
    requires short { N ≤ 16 }
    ensures digits { OnOk result (tick.new ≡ tick.old + ticks) }
    ensures puts { PutsBehind S.taken S.has_failed out.old out.new text.old text.new
        (lines_from ending.now tick.old ticks) result }
{
    let mut done = 0;
    'lines: while done < ticks {
        make_room(text, out)?;
        push_line(tick, ending, text);
        tick.advance();
        done += 1;
    }
    Ok(())
}

/// Writes the lines of some ticks in each of which nobody executes and nothing else is recorded, by
/// way of the block. The digits go on to the tick behind them.
#[inline(never)]
pub fn write_idle_ticks<S: Sink>(
    tick: &mut TickText,
    ticks: u32,
    word: IdleWord,
    text: &mut Block,
    out: &mut S,
) -> Result<(), SinkFault>
    requires { tick.old + ticks ≤ MAX_TICKS }
    ensures digits { OnOk result (tick.new ≡ tick.old + ticks) }
    ensures puts { (names : Names)
        → PutsBehind S.taken S.has_failed out.old out.new text.old text.new
        (same_ticks_text names (event_of word) tick.old ticks) result }
{
    match word {
        IdleWord::Idle => write_lines(tick, ticks, b"idle\n", text, out),
        IdleWord::Other => write_lines(tick, ticks, b"other\n", text, out),
    }
}
