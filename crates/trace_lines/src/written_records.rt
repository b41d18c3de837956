//! The records of a tick as lines that are written.

ghost use Rattle.std.specs.Prelude.{◌≡◌, ◌≤◌, ◌+◌, ◌∷◌, ◌++◌, ℕ, length, IfSome, OnOk};
ghost use Rattle.std.specs.List.{AllByRecursion};
ghost use Rattle.osek_base.specs.declared.ids.Owner.{Owner};
ghost use Rattle.osek_base.specs.declared.instr.Instr.{Instr};
ghost use Rattle.osek_base.specs.declared.trace_event.Outcome.{Outcome};
ghost use Rattle.osek_base.specs.declared.trace_event.TraceEvent.{TraceEvent};
ghost use Rattle.osek_base.specs.BlockingText.{blockers_text};
ghost use Rattle.osek_base.specs.Text.{line};
ghost use Rattle.osek_base.specs.Executed.{StandsIn, executed_record, idle_or_executed};
ghost use Rattle.trace_lines.specs.Lines.{ended, record_text, tick_text};
ghost use Rattle.trace_lines.specs.Programs.{IsOfProgram};
ghost use Rattle.sinks.specs.Sinks.{PutsBehind};

use crate::block::{BLOCK_SIZE, Block, END_SIZE, RECORD_SIZE, make_room};
use crate::block_outcome::push_block_end;
use crate::blocker_number::BlockerNumber;
use crate::instruction_texts::InstructionTexts;
use crate::line::push_blockers;
use crate::text::Text;
use crate::tick_text::TickText;
use osek_base::{Entry, Executed, Outcome, TickRecord, TraceEvent};
use sinks::{Sink, SinkFault};

/// Appends the line of a record, the number of blockers where there is one, and the line's end.
#[inline(always)]
fn push_record(
    texts: &InstructionTexts<'_>,
    tick: &TickText,
    number: Option<u32>,
    event: &TraceEvent,
    text: &mut Block,
)
    requires listed { IsOfProgram texts.now event.now }
    requires room { length text.old + RECORD_SIZE ≤ BLOCK_SIZE }
    ensures { text.new ≡ text.old ++ record_text texts.now.names tick.now number event.now }
{
    texts.push_line(tick, event, text);
    push_blockers(text, number, event);
    text.push_str("\n");
}

/// Writes a record by way of the block.
#[inline(always)]
fn write_record<S: Sink>(
    texts: &InstructionTexts<'_>,
    tick: &TickText,
    number: Option<u32>,
    event: &TraceEvent,
    text: &mut Block,
    out: &mut S,
) -> Result<(), SinkFault>
    requires listed { IsOfProgram texts.now event.now }
    ensures { PutsBehind S.taken S.has_failed out.old out.new text.old text.new
        (record_text texts.now.names tick.now number event.now) result }
{
    make_room(text, out)?;
    push_record(texts, tick, number, event, text);
    Ok(())
}

/// Writes the lines of some records of a tick by way of the block.
#[inline(never)]
fn write_records<S: Sink>(
    texts: &InstructionTexts<'_>,
    tick: &TickText,
    number: Option<u32>,
    entries: &[Entry],
    text: &mut Block,
    out: &mut S,
) -> Result<(), SinkFault>
    requires listed { AllByRecursion (IsOfProgram texts.now) entries.now }
    ensures { PutsBehind S.taken S.has_failed out.old out.new text.old text.new
        (tick_text texts.now.names tick.now number entries.now) result }
{
    'records: for entry in entries {
        write_record(texts, tick, number, entry.event(), text, out)?;
    }
    Ok(())
}

/// Writes the lines of a tick by way of the block, with the number of blockers where there is one.
#[inline(always)]
pub fn write_tick<S: Sink>(
    texts: &InstructionTexts<'_>,
    tick: &TickText,
    number: Option<u32>,
    records: &TickRecord,
    text: &mut Block,
    out: &mut S,
) -> Result<(), SinkFault>
    requires listed { AllByRecursion (IsOfProgram texts.now) records.now }
    ensures { PutsBehind S.taken S.has_failed out.old out.new text.old text.new
        (tick_text texts.now.names tick.now number records.now) result }
{
    if records.len() == 0 {
        return Ok(());
    }
    write_records(texts, tick, number, records.entries(), text, out)
}

/// Writes the lines of some records of a tick by way of the block, where the number of blockers has
/// to be asked for.
#[inline(never)]
fn write_asked<N: BlockerNumber, S: Sink>(
    texts: &InstructionTexts<'_>,
    tick: &TickText,
    number: &N,
    records: &TickRecord,
    text: &mut Block,
    out: &mut S,
) -> Result<(), SinkFault>
    requires number { N.MayTell number.now }
    requires listed { AllByRecursion (IsOfProgram texts.now) records.now }
    ensures { PutsBehind S.taken S.has_failed out.old out.new text.old text.new
        (tick_text texts.now.names tick.now (N.told number.now) records.now) result }
{
    let number = number.number();
    write_tick(texts, tick, number, records, text, out)
}

/// Writes the lines of the records of a tick before or behind that of its instruction. Most ticks
/// have none, and for them the number of blockers isn't kept.
#[inline(always)]
fn write_beside<N: BlockerNumber, S: Sink>(
    texts: &InstructionTexts<'_>,
    tick: &TickText,
    number: &N,
    records: &TickRecord,
    text: &mut Block,
    out: &mut S,
) -> Result<(), SinkFault>
    requires number { N.MayTell number.now }
    requires listed { AllByRecursion (IsOfProgram texts.now) records.now }
    ensures { PutsBehind S.taken S.has_failed out.old out.new text.old text.new
        (tick_text texts.now.names tick.now (N.told number.now) records.now) result }
{
    if records.len() == 0 {
        return Ok(());
    }
    write_asked(texts, tick, number, records, text, out)
}

/// Writes the line of what a tick executed, but for its end, by way of the block.
#[inline(always)]
fn write_line_front<S: Sink>(
    texts: &InstructionTexts<'_>,
    tick: &TickText,
    executed: &Executed,
    text: &mut Block,
    out: &mut S,
) -> Result<(), SinkFault>
    requires placed { StandsIn texts.now executed.now }
    ensures room { OnOk result (length text.new + END_SIZE ≤ BLOCK_SIZE) }
    ensures puts { PutsBehind S.taken S.has_failed out.old out.new text.old text.new
        (line texts.now.names tick.now (executed_record texts.now executed.now)) result }
{
    make_room(text, out)?;
    texts.push_executed_line(tick, executed, text);
    Ok(())
}

/// As `write_line_front`. The ways of a plain instruction and of a service part before anything is
/// written: so a plain instruction, which most ticks execute, carries no status and no results.
#[inline(always)]
fn write_executed_front<S: Sink>(
    texts: &InstructionTexts<'_>,
    tick: &TickText,
    executed: &Executed,
    text: &mut Block,
    out: &mut S,
) -> Result<(), SinkFault>
    requires placed { StandsIn texts.now executed.now }
    ensures room { OnOk result (length text.new + END_SIZE ≤ BLOCK_SIZE) }
    ensures puts { PutsBehind S.taken S.has_failed out.old out.new text.old text.new
        (line texts.now.names tick.now (executed_record texts.now executed.now)) result }
{
    if let Outcome::Plain(_) = &executed.outcome {
        write_line_front(texts, tick, executed, text, out)
    } else {
        write_line_front(texts, tick, executed, text, out)
    }
}

/// Ends the line of an instruction that was executed, with the number of blockers where there is
/// one.
#[inline(always)]
fn push_end<N: BlockerNumber>(number: &N, text: &mut Block)
    requires number { N.MayTell number.now }
    requires room { length text.old + END_SIZE ≤ BLOCK_SIZE }
    ensures { (who : Owner) (place : ℕ) (what : Instr) (outcome : Outcome)
        → text.new
        ≡ text.old
        ++ ended (blockers_text (N.told number.now) (TraceEvent.Executed who place what outcome)) }
{
    let told = number.number();
    push_block_end(text, told);
}

/// As [`push_end`], and writes the records behind it by way of the block.
#[inline(always)]
fn write_executed_end<N: BlockerNumber, S: Sink>(
    texts: &InstructionTexts<'_>,
    tick: &TickText,
    number: &N,
    behind: &TickRecord,
    text: &mut Block,
    out: &mut S,
) -> Result<(), SinkFault>
    requires number { N.MayTell number.now }
    requires room { length text.old + END_SIZE ≤ BLOCK_SIZE }
    requires behind { AllByRecursion (IsOfProgram texts.now) behind.now }
    ensures { (who : Owner) (place : ℕ) (what : Instr) (outcome : Outcome)
        → PutsBehind S.taken S.has_failed out.old out.new text.old text.new
        (ended (blockers_text (N.told number.now) (TraceEvent.Executed who place what outcome))
        ++ tick_text texts.now.names tick.now (N.told number.now) behind.now) result }
{
    push_end(number, text);
    write_beside(texts, tick, number, behind, text, out)
}

/// Writes the lines of a tick of which that of what it executed is the first by way of the block.
/// The number of blockers is asked for when the line stands but for its end.
#[inline(always)]
pub fn write_from_executed<N: BlockerNumber, S: Sink>(
    texts: &InstructionTexts<'_>,
    tick: &TickText,
    number: &N,
    executed: &Executed,
    behind: &TickRecord,
    text: &mut Block,
    out: &mut S,
) -> Result<(), SinkFault>
    requires number { N.MayTell number.now }
    requires placed { StandsIn texts.now executed.now }
    requires behind { AllByRecursion (IsOfProgram texts.now) behind.now }
    ensures { PutsBehind S.taken S.has_failed out.old out.new text.old text.new
        (tick_text texts.now.names tick.now (N.told number.now)
        (executed_record texts.now executed.now ∷ behind.now)) result }
{
    write_executed_front(texts, tick, executed, text, out)?;
    write_executed_end(texts, tick, number, behind, text, out)
}

/// Writes the lines of a tick in which somebody executed by way of the block.
#[inline(always)]
fn write_executed_parts<N: BlockerNumber, S: Sink>(
    texts: &InstructionTexts<'_>,
    tick: &TickText,
    number: &N,
    before: &TickRecord,
    executed: &Executed,
    behind: &TickRecord,
    text: &mut Block,
    out: &mut S,
) -> Result<(), SinkFault>
    requires number { N.MayTell number.now }
    requires before { AllByRecursion (IsOfProgram texts.now) before.now }
    requires placed { StandsIn texts.now executed.now }
    requires behind { AllByRecursion (IsOfProgram texts.now) behind.now }
    ensures { PutsBehind S.taken S.has_failed out.old out.new text.old text.new
        (tick_text texts.now.names tick.now (N.told number.now)
        (before.now ++ executed_record texts.now executed.now ∷ behind.now)) result }
{
    write_beside(texts, tick, number, before, text, out)?;
    write_from_executed(texts, tick, number, executed, behind, text, out)
}

/// Writes the lines of a tick in which nobody executed by way of the block.
#[inline(never)]
fn write_idle_parts<S: Sink>(
    texts: &InstructionTexts<'_>,
    tick: &TickText,
    number: Option<u32>,
    before: &TickRecord,
    behind: &TickRecord,
    text: &mut Block,
    out: &mut S,
) -> Result<(), SinkFault>
    requires before { AllByRecursion (IsOfProgram texts.now) before.now }
    requires behind { AllByRecursion (IsOfProgram texts.now) behind.now }
    ensures { PutsBehind S.taken S.has_failed out.old out.new text.old text.new
        (tick_text texts.now.names tick.now number
        (before.now ++ TraceEvent.Idle ∷ behind.now)) result }
{
    write_tick(texts, tick, number, before, text, out)?;
    write_record(texts, tick, number, &TraceEvent::Idle, text, out)?;
    write_tick(texts, tick, number, behind, text, out)
}

/// As `write_idle_parts`, where the number has to be asked for.
#[inline(always)]
fn write_idle_asked<N: BlockerNumber, S: Sink>(
    texts: &InstructionTexts<'_>,
    tick: &TickText,
    number: &N,
    before: &TickRecord,
    behind: &TickRecord,
    text: &mut Block,
    out: &mut S,
) -> Result<(), SinkFault>
    requires number { N.MayTell number.now }
    requires before { AllByRecursion (IsOfProgram texts.now) before.now }
    requires behind { AllByRecursion (IsOfProgram texts.now) behind.now }
    ensures { PutsBehind S.taken S.has_failed out.old out.new text.old text.new
        (tick_text texts.now.names tick.now (N.told number.now)
        (before.now ++ TraceEvent.Idle ∷ behind.now)) result }
{
    let number = number.number();
    write_idle_parts(texts, tick, number, before, behind, text, out)
}

/// Writes the lines of a tick by way of the block: those before that of its instruction, which most
/// ticks don't have, this one, with the number of blockers where there is one, and those behind it.
#[inline(always)]
pub fn write_tick_parts<N: BlockerNumber, S: Sink>(
    texts: &InstructionTexts<'_>,
    tick: &TickText,
    number: &N,
    before: &TickRecord,
    executed: &Option<Executed>,
    behind: &TickRecord,
    text: &mut Block,
    out: &mut S,
) -> Result<(), SinkFault>
    requires number { N.MayTell number.now }
    requires before { AllByRecursion (IsOfProgram texts.now) before.now }
    requires placed { IfSome executed.now (StandsIn texts.now) }
    requires behind { AllByRecursion (IsOfProgram texts.now) behind.now }
    ensures { PutsBehind S.taken S.has_failed out.old out.new text.old text.new
        (tick_text texts.now.names tick.now (N.told number.now)
        (before.now ++ idle_or_executed texts.now executed.now ∷ behind.now)) result }
{
    match executed {
        None => write_idle_asked(texts, tick, number, before, behind, text, out),
        Some(executed) => {
            write_executed_parts(texts, tick, number, before, executed, behind, text, out)
        }
    }
}
