//! The ticks of a run that are written.

ghost use Rattle.std.specs.Prelude.{◌≡◌, ◌+◌, ◌≤◌, ◌-◌, [], ◌∷◌, ◌++◌, IfOk, IfSome, OnOk, false, true};
ghost use Rattle.std.specs.List.{AllByRecursion};
ghost use Rattle.osek_base.specs.Executed.{StandsIn, idle_or_executed};
ghost use Rattle.osek_base.specs.Trace.{run};
ghost use Rattle.kernel.specs.Progress.{run_of};
ghost use Rattle.trace_lines.specs.Lines.{event_of, same_ticks_text, tick_text};
ghost use Rattle.trace_lines.specs.Programs.{IsOfProgram};
ghost use Rattle.sinks.specs.Sinks.{Puts, PutsBehind};
ghost use Rattle.tracer.specs.declared.shown.Shown.{Shown};
ghost use Rattle.tracer.specs.Shown.{MayShow, is_view, number_by, numbers_shown, text_shown};
ghost use Rattle.tracer.specs.Ticks.{
  IdlePasses,
  MayPass,
  MayPassIdle,
  PassesIfOn,
  SameLines,
  TickPasses,
  idle_word,
};

use crate::parts::Parts;
use crate::shown::Shown;
use kernel::{Blockers, Kernel, Ticked};
use osek_base::{Executed, MAX_TICKS, TickRecord};
use ready_queues::LevelQueues;
use sinks::{Sink, SinkFault, flush};
use trace_lines::{
    Block, BlockerNumber, IdleWord, InstructionTexts, TickText, upper_view_into,
    write_from_executed, write_idle_ticks, write_tick, write_tick_parts,
};

/// What the lines of a run are made of besides its records: what is shown of it and the texts of
/// its instructions, which stay, and the digits of the tick whose lines come next.
#[derive(Drop)]
struct LineTexts<'t, 's> {
    texts: &'t InstructionTexts<'s>,
    digits: TickText,
    shown: Shown,
}

/// Room for what a tick did, in parts, and for the lines that wait to be written. Between ticks
/// there is nothing in `behind`.
#[derive(Drop)]
struct Room {
    before: TickRecord,
    behind: TickRecord,
    executed: Option<Executed>,
    text: Block,
}

/// Does a tick, and writes its records that are in the view at a priority by way of the block.
#[inline(always)]
fn write_viewed<B: Blockers, S: Sink>(
    kernel: &mut Kernel<'_, LevelQueues, B>,
    lines: &LineTexts<'_, '_>,
    p: u8,
    room: &mut Room,
    out: &mut S,
) -> Result<(), SinkFault>
    requires ready { MayPass lines.now.texts.now (Shown.View p) B.are_counted lines.now.digits
        kernel.old }
    requires on { (run_of kernel.old).state.over ≡ false }
    ensures passes { TickPasses S.taken S.has_failed lines.now.texts.now (Shown.View p) kernel.old
        kernel.new out.old out.new room.old.text room.new.text result }
    ensures empty { OnOk result (room.new.behind ≡ []) }
{
    kernel.tick_into(&mut room.before, &mut room.behind);
    upper_view_into(lines.texts.system(), p, &room.before, &mut room.behind);
    write_tick(
        lines.texts,
        &lines.digits,
        None,
        &room.behind,
        &mut room.text,
        out,
    )?;
    room.behind.clear();
    Ok(())
}

/// As `write_viewed`, if the run isn't over. Answers whether a tick was done.
#[inline(never)]
fn pass_viewed<B: Blockers, S: Sink>(
    kernel: &mut Kernel<'_, LevelQueues, B>,
    lines: &LineTexts<'_, '_>,
    p: u8,
    room: &mut Room,
    out: &mut S,
) -> Result<bool, SinkFault>
    requires { MayPass lines.now.texts.now (Shown.View p) B.are_counted lines.now.digits kernel.old }
    ensures passes { PassesIfOn S.taken S.has_failed lines.now.texts.now (Shown.View p) kernel.old
        kernel.new out.old out.new room.old.text room.new.text result }
    ensures empty { IfOk result (λ done. done ≡ true → room.new.behind ≡ []) }
{
    if kernel.is_shut_down() {
        return Ok(false);
    }
    write_viewed(kernel, lines, p, room, out)?;
    Ok(true)
}

/// What tells the number that is written behind the instruction of the last tick.
#[derive(Drop)]
struct LastNumber<'k, 's, B: Blockers> {
    kernel: &'k Kernel<'s, LevelQueues, B>,
}

impl<'k, 's, B: Blockers> BlockerNumber for LastNumber<'k, 's, B> {
    ghost use Rattle.tracer.specs.Shown.{number_by};

    ghost told = { λ n. number_by B.are_counted n.kernel.now };

    ghost MayTell = { λ n. 1 ≤ n.kernel.now.ticks };

    #[inline(always)]
    fn number(&self) -> Option<u32> {
        self.kernel.blockers()
    }
}

/// Writes all records of the last tick, which lie in the room, by way of the block.
#[inline(never)]
fn write_any<B: Blockers, S: Sink>(
    kernel: &Kernel<'_, LevelQueues, B>,
    lines: &LineTexts<'_, '_>,
    room: &mut Room,
    out: &mut S,
) -> Result<(), SinkFault>
    requires done { 1 ≤ kernel.now.ticks }
    requires before { AllByRecursion (IsOfProgram lines.now.texts.now) room.old.before }
    requires placed { IfSome room.old.executed (StandsIn lines.now.texts.now) }
    requires behind { AllByRecursion (IsOfProgram lines.now.texts.now) room.old.behind }
    ensures { PutsBehind S.taken S.has_failed out.old out.new room.old.text room.new.text
        (tick_text lines.now.texts.now.names lines.now.digits (number_by B.are_counted kernel.now)
        (room.old.before ++ idle_or_executed lines.now.texts.now room.old.executed
        ∷ room.old.behind)) result }
{
    let number = LastNumber { kernel };
    write_tick_parts(
        lines.texts,
        &lines.digits,
        &number,
        &room.before,
        &room.executed,
        &room.behind,
        &mut room.text,
        out,
    )
}

/// Does a tick, if the run isn't over, and writes all its records by way of the block. Of most
/// ticks that of the instruction is the first. Answers whether a tick was done.
/// `V` only makes a copy for each loop over ticks, so that each loop has its tick inlined.
#[inline(always)]
fn pass_whole<B: Blockers, V: Parts, S: Sink>(
    kernel: &mut Kernel<'_, LevelQueues, B>,
    lines: &LineTexts<'_, '_>,
    room: &mut Room,
    out: &mut S,
) -> Result<bool, SinkFault>
    requires ready { MayPass lines.now.texts.now lines.now.shown B.are_counted lines.now.digits
        kernel.old }
    requires whole { is_view lines.now.shown ≡ false }
    requires empty { room.old.behind ≡ [] }
    ensures passes { PassesIfOn S.taken S.has_failed lines.now.texts.now lines.now.shown kernel.old
        kernel.new out.old out.new room.old.text room.new.text result }
    ensures empty { IfOk result (λ done. done ≡ true → room.new.behind ≡ []) }
{
    match kernel.go_on(&mut room.before, &mut room.behind, &mut room.executed) {
        Ticked::Over => return Ok(false),
        Ticked::Any => write_any(kernel, lines, room, out)?,
        Ticked::First(executed) => {
            let number = LastNumber { kernel };
            write_from_executed(
                lines.texts,
                &lines.digits,
                &number,
                &executed,
                &room.behind,
                &mut room.text,
                out,
            )?
        }
    }
    room.behind.clear();
    Ok(true)
}

/// Does a tick, if the run isn't over, and writes what is shown of it by way of the block. Answers
/// whether a tick was done.
#[inline(always)]
fn pass_tick<B: Blockers, V: Parts, S: Sink>(
    kernel: &mut Kernel<'_, LevelQueues, B>,
    lines: &LineTexts<'_, '_>,
    room: &mut Room,
    out: &mut S,
) -> Result<bool, SinkFault>
    requires ready { MayPass lines.now.texts.now lines.now.shown B.are_counted lines.now.digits
        kernel.old }
    requires views { V.are_views ≡ is_view lines.now.shown }
    requires empty { room.old.behind ≡ [] }
    ensures passes { PassesIfOn S.taken S.has_failed lines.now.texts.now lines.now.shown kernel.old
        kernel.new out.old out.new room.old.text room.new.text result }
    ensures empty { IfOk result (λ done. done ≡ true → room.new.behind ≡ []) }
{
    if V::are_views()
        && let Shown::View(p) = lines.shown
    {
        return pass_viewed(kernel, lines, p, room, out);
    }
    pass_whole::<B, V, S>(kernel, lines, room, out)
}

/// What the line of a tick says in which nothing happens.
fn idle_word(shown: Shown) -> IdleWord
    ensures { result ≡ idle_word shown }
{
    match shown {
        Shown::View(_) => IdleWord::Other,
        Shown::All | Shown::Blocking => IdleWord::Idle,
    }
}

/// Writes the lines of some ticks in which nothing happens by way of the block. The digits go on to
/// the tick behind them.
#[inline(never)]
fn write_idle<S: Sink>(
    lines: &mut LineTexts<'_, '_>,
    ticks: u32,
    text: &mut Block,
    out: &mut S,
) -> Result<(), SinkFault>
    requires { lines.old.digits + ticks ≤ MAX_TICKS }
    ensures digits { OnOk result (lines.new.digits ≡ lines.old.digits + ticks) }
    ensures kept { SameLines lines.old.texts.now lines.new.texts.now lines.old.shown
        lines.new.shown }
    ensures puts { PutsBehind S.taken S.has_failed out.old out.new text.old text.new
        (same_ticks_text lines.old.texts.now.names (event_of (idle_word lines.old.shown))
        lines.old.digits ticks) result }
{
    write_idle_ticks(&mut lines.digits, ticks, idle_word(lines.shown), text, out)
}

/// Does the ticks that follow in which nothing happens, before as many as asked for are done, and
/// writes their lines by way of the block.
#[inline(always)]
fn pass_idle_ticks<B: Blockers, S: Sink>(
    kernel: &mut Kernel<'_, LevelQueues, B>,
    lines: &mut LineTexts<'_, '_>,
    ticks: u32,
    text: &mut Block,
    out: &mut S,
) -> Result<(), SinkFault>
    requires { MayPassIdle lines.old.digits ticks kernel.old }
    ensures digits { OnOk result (lines.new.digits ≡ kernel.new.ticks) }
    ensures kept { SameLines lines.old.texts.now lines.new.texts.now lines.old.shown
        lines.new.shown }
    ensures within { kernel.new.ticks ≤ ticks }
    ensures passed { IdlePasses S.taken S.has_failed lines.old.texts.now lines.old.shown kernel.old
        kernel.new out.old out.new text.old text.new result }
{
    let idle = kernel.pass_idle(ticks - kernel.ticks());
    if idle == 0 {
        return Ok(());
    }
    write_idle(lines, idle, text, out)
}

/// Writes the ticks of a run that has just begun, as many as asked for, or up to a shutdown.
pub(crate) fn write_ticks<B: Blockers, V: Parts, S: Sink>(
    kernel: &mut Kernel<'_, LevelQueues, B>,
    texts: &InstructionTexts<'_>,
    shown: Shown,
    ticks: u32,
    out: &mut S,
) -> Result<(), SinkFault>
    requires system { kernel.old.system ≡ texts.now }
    requires types { MayShow B.are_counted V.are_views shown }
    requires begun { kernel.old.ticks ≡ 0 }
    requires ticks { ticks ≤ MAX_TICKS }
    ensures { Puts S.taken S.has_failed out.old out.new
        (text_shown texts.now shown
        (numbers_shown shown kernel.old.system kernel.old.mode kernel.old.arrivals)
        (run kernel.old.system kernel.old.mode kernel.old.arrivals ticks)) result }
{
    let mut lines = LineTexts {
        texts,
        digits: TickText::new(),
        shown,
    };
    let mut room = Room {
        before: TickRecord::new(),
        behind: TickRecord::new(),
        executed: None,
        text: Block::new(),
    };
    'ticks: while kernel.ticks() < ticks {
        if !pass_tick::<B, V, S>(kernel, &lines, &mut room, out)? {
            break;
        }
        lines.digits.advance();
        pass_idle_ticks(kernel, &mut lines, ticks, &mut room.text, out)?;
    }
    flush(&mut room.text, out)
}
