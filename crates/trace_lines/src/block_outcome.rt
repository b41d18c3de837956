//! The outcomes of instructions in a block. What nearly all lines have, a number of one digit and
//! the sign before it, is appended as one array.

ghost use Rattle.std.specs.Prelude.{◌≡◌, ◌+◌, ◌≤◌, ◌++◌, ℕ, length, decimal, codes};
ghost use Rattle.osek_base.specs.BlockingText.{blockers_text};
ghost use Rattle.osek_base.specs.Text.{outcome_text};
ghost use Rattle.osek_base.specs.declared.ids.Owner.{Owner};
ghost use Rattle.osek_base.specs.declared.instr.Instr.{Instr};
ghost use Rattle.osek_base.specs.declared.trace_event.Outcome.{Outcome};
ghost use Rattle.osek_base.specs.declared.trace_event.TraceEvent.{TraceEvent};
ghost use Rattle.trace_lines.specs.Lines.{ended};
ghost use Rattle.osek_base.specs.Tick.{status_number};

use crate::block::{BLOCK_SIZE, Block, END_SIZE};
use crate::block_digits::{push_block_digits, push_block_number};
use crate::line::push_results;
use crate::text::Text;
use osek_base::{Effect, Outcome, Results, Status};

/// Appends ` = ` and the number of a status of two digits or more to a block, in a call, as it is
/// rare.
#[inline(never)]
fn push_long_status(text: &mut Block, number: u32)
    requires room { length text.old + 13 ≤ BLOCK_SIZE }
    requires more { 10 ≤ number }
    ensures same { text.new ≡ text.old ++ codes " = " ++ decimal number }
    ensures short { length text.new ≤ length text.old + 13 }
{
    text.push_str(" = ");
    push_block_digits(text, number);
}

/// Appends ` = ` and the number of a status to a block.
#[inline(always)]
fn push_status(text: &mut Block, status: Status)
    requires { length text.old + 48 ≤ BLOCK_SIZE }
    ensures same { text.new ≡ text.old ++ codes " = " ++ decimal (status_number status) }
    ensures short { length text.new ≤ length text.old + 13 }
{
    let number = status.number();
    if number < 10 {
        text.push_array(&[b' ', b'=', b' ', b'0' + number]);
    } else {
        push_long_status(text, number as u32);
    }
}

/// Appends ` -> ` and a value of two digits or more to a block.
#[inline(never)]
fn push_long_value(text: &mut Block, value: u32)
    requires room { length text.old + 14 ≤ BLOCK_SIZE }
    requires more { 10 ≤ value }
    ensures same { text.new ≡ text.old ++ codes " -> " ++ decimal value }
    ensures short { length text.new ≤ length text.old + 14 }
{
    text.push_str(" -> ");
    push_block_digits(text, value);
}

/// Appends ` -> ` and a value to a block.
#[inline(always)]
fn push_value(text: &mut Block, value: u32)
    requires { length text.old + 48 ≤ BLOCK_SIZE }
    ensures same { text.new ≡ text.old ++ codes " -> " ++ decimal value }
    ensures short { length text.new ≤ length text.old + 14 }
{
    if value < 10 {
        text.push_array(&[b' ', b'-', b'>', b' ', b'0' + value as u8]);
    } else {
        push_long_value(text, value);
    }
}

/// Appends ` -> ` with an index of two digits or more to a block.
#[inline(never)]
fn push_long_index(text: &mut Block, index: u32)
    requires room { length text.old + 17 ≤ BLOCK_SIZE }
    requires more { 10 ≤ index }
    ensures same { text.new ≡ text.old ++ codes " -> [" ++ decimal index ++ codes "] " }
    ensures short { length text.new ≤ length text.old + 17 }
{
    text.push_str(" -> [");
    push_block_digits(text, index);
    text.push_str("] ");
}

/// Appends ` -> ` with the index of a word that was stored to a block.
#[inline(always)]
fn push_index(text: &mut Block, index: u32)
    requires { length text.old + 48 ≤ BLOCK_SIZE }
    ensures same { text.new ≡ text.old ++ codes " -> [" ++ decimal index ++ codes "] " }
    ensures short { length text.new ≤ length text.old + 17 }
{
    if index < 10 {
        text.push_array(&[b' ', b'-', b'>', b' ', b'[', b'0' + index as u8, b']', b' ']);
    } else {
        push_long_index(text, index);
    }
}

/// Appends ` -> ` with the index of a word that was stored, and its value, to a block.
#[inline(always)]
fn push_stored(text: &mut Block, index: u32, value: u32)
    requires { length text.old + 48 ≤ BLOCK_SIZE }
    ensures same { text.new
        ≡ text.old ++ codes " -> [" ++ decimal index ++ codes "] " ++ decimal value }
    ensures short { length text.new ≤ length text.old + 48 }
{
    push_index(text, index);
    push_block_number(text, value);
}

/// Appends what a plain instruction did to a block.
#[inline(always)]
pub(crate) fn push_effect(text: &mut Block, effect: Effect)
    requires { length text.old + 48 ≤ BLOCK_SIZE }
    ensures same { text.new ≡ text.old ++ outcome_text (Outcome.Plain effect) }
    ensures short { length text.new ≤ length text.old + 48 }
{
    match effect {
        Effect::Nothing => {}
        Effect::Value(value) => push_value(text, value),
        Effect::Stored(index, value) => push_stored(text, index as u32, value),
    }
}

/// Appends what a service is answered.
#[inline(always)]
pub(crate) fn push_answer(text: &mut Block, status: Status, results: &Results)
    requires { length text.old + 48 ≤ BLOCK_SIZE }
    ensures same { text.new ≡ text.old ++ outcome_text (Outcome.Answer status results.now) }
    ensures short { length text.new ≤ length text.old + 48 }
{
    push_status(text, status);
    if !matches!(results, Results::Nothing) {
        push_results(text, *results);
    }
}

/// Appends what the line of an instruction has behind its operands.
#[inline(always)]
pub(crate) fn push_outcome(text: &mut Block, outcome: &Outcome)
    requires { length text.old + 48 ≤ BLOCK_SIZE }
    ensures same { text.new ≡ text.old ++ outcome_text outcome.now }
    ensures short { length text.new ≤ length text.old + 48 }
{
    if let Outcome::Plain(effect) = outcome {
        push_effect(text, *effect);
    } else if let Outcome::Answer(status, results) = outcome {
        push_answer(text, *status, results);
    }
}

/// Appends ` ! ` with a number of blockers of two digits or more, and the line's end, to a block, in
/// a call, as it is rare.
#[inline(never)]
fn push_many_blockers(text: &mut Block, number: u32)
    requires room { length text.old + END_SIZE ≤ BLOCK_SIZE }
    requires more { 10 ≤ number }
    ensures { text.new ≡ text.old ++ ended (codes " ! " ++ decimal number) }
{
    text.push_str(" ! ");
    push_block_digits(text, number);
    text.push_str("\n");
}

/// Appends ` ! ` with a number of blockers, and the line's end, to a block. Eight bytes are copied,
/// of which five count, so that a digit is one store.
#[inline(always)]
fn push_block_count(text: &mut Block, number: u32)
    requires { length text.old + END_SIZE ≤ BLOCK_SIZE }
    ensures { text.new ≡ text.old ++ ended (codes " ! " ++ decimal number) }
{
    if number < 10 {
        text.push_front(&[b' ', b'!', b' ', b'0' + number as u8, b'\n', 0, 0, 0], 5);
    } else {
        push_many_blockers(text, number);
    }
}

/// Appends the end of a line to a block: ` ! ` with a number of blockers, where one is told, and LF.
#[inline(always)]
pub(crate) fn push_block_end(text: &mut Block, number: Option<u32>)
    requires { length text.old + END_SIZE ≤ BLOCK_SIZE }
    ensures { (who : Owner) (place : ℕ) (what : Instr) (outcome : Outcome)
        → text.new
        ≡ text.old ++ ended (blockers_text number (TraceEvent.Executed who place what outcome)) }
{
    match number {
        None => text.push_array(&[b'\n']),
        Some(number) => push_block_count(text, number),
    }
}
