//! The lines of a trace.

ghost use Rattle.std.specs.Prelude.{◌≡◌, ◌+◌, ◌<◌, ◌≤◌, ◌++◌, ℕ, length, decimal, codes};
ghost use Rattle.osek_base.specs.declared.ids.Owner.{Owner};
ghost use Rattle.osek_base.specs.declared.instr.Instr.{Instr};
ghost use Rattle.osek_base.specs.declared.trace_event.Outcome.{Outcome};
ghost use Rattle.osek_base.specs.declared.trace_event.TraceEvent.{TraceEvent};
ghost use Rattle.trace_lines.specs.Lines.{executed_text};
ghost use Rattle.osek_base.specs.Names.{name_at, owner_name};
ghost use Rattle.osek_base.specs.BlockingText.{blockers_text};
ghost use Rattle.osek_base.specs.Text.{
  instruction_text,
  results_text,
  outcome_text,
  source_name,
  event_text,
  line,
};

use crate::text::Text;
use arrayvec::ArrayString;
use itoa::Buffer;
use osek_base::{
    Effect, Instr, Name, Names, Outcome, Owner, Place, Results, Source, Status, TraceEvent,
};
use task_asm::instr_text;

/// What a trace line is written to: it has room for whatever names of 32 bytes and numbers of 32
/// bits come together.
pub type LineText = ArrayString<256>;

/// The text of a number of one digit, which needs no division.
#[tactic(auto, using(std::proofs::lemmas::Fmt::decimal_digit))]
#[inline(always)]
fn digit_text(number: u32) -> &'static str
    requires { number < 10 }
    ensures same { result.now ≡ decimal number }
    ensures short { length result.now ≡ 1 }
{
    match number {
        0 => "0",
        1 => "1",
        2 => "2",
        3 => "3",
        4 => "4",
        5 => "5",
        6 => "6",
        7 => "7",
        8 => "8",
        _ => "9",
    }
}

#[inline(always)]
pub(crate) fn push_number<T: Text>(text: &mut T, number: u32)
    requires { length (T.bytes text.old) + 10 ≤ T.room }
    ensures same { T.bytes text.new ≡ T.bytes text.old ++ decimal number }
    ensures short { length (T.bytes text.new) ≤ length (T.bytes text.old) + 10 }
{
    if number < 10 {
        text.push_str(digit_text(number));
    } else {
        push_digits(text, number);
    }
}

/// The digits of a number. It is called, and not written out where it is used, so that the room for
/// them is filled with zeros in a call alone.
#[inline(never)]
pub(crate) fn push_digits<T: Text>(text: &mut T, number: u32)
    requires { length (T.bytes text.old) + 10 ≤ T.room }
    ensures same { T.bytes text.new ≡ T.bytes text.old ++ decimal number }
    ensures short { length (T.bytes text.new) ≤ length (T.bytes text.old) + 10 }
{
    let mut buffer = Buffer::new();
    text.push_str(buffer.format(number));
}

/// The name of that number, empty where there is none.
fn name_at(names: &[Name], number: usize) -> &str
    ensures same { result.now ≡ name_at names.now number }
    ensures short { length result.now ≤ 32 }
{
    match names.get(number) {
        Some(name) => name.as_str(),
        None => "",
    }
}

fn push_owner<T: Text>(text: &mut T, names: &Names, who: Owner)
    requires { length (T.bytes text.old) + 32 ≤ T.room }
    ensures same { T.bytes text.new ≡ T.bytes text.old ++ owner_name names.now who }
    ensures short { length (T.bytes text.new) ≤ length (T.bytes text.old) + 32 }
{
    match who {
        Owner::Task(task) => {
            text.push_str(name_at(names.tasks.as_slice(), task.number() as usize));
        }
        Owner::Routine(routine) => {
            text.push_str(name_at(names.routines.as_slice(), routine.number() as usize));
        }
    }
}

fn push_source<T: Text>(text: &mut T, names: &Names, who: Source)
    requires { length (T.bytes text.old) + 33 ≤ T.room }
    ensures same { T.bytes text.new ≡ T.bytes text.old ++ source_name names.now who }
    ensures short { length (T.bytes text.new) ≤ length (T.bytes text.old) + 33 }
{
    match who {
        Source::Owner(owner) => push_owner(text, names, owner),
        Source::Alarm(alarm) => {
            text.push_str("@");
            text.push_str(name_at(names.alarms.as_slice(), alarm.number() as usize));
        }
    }
}

fn push_instr<T: Text>(text: &mut T, names: &Names, what: &Instr)
    requires { length (T.bytes text.old) + 128 ≤ T.room }
    ensures same { T.bytes text.new ≡ T.bytes text.old ++ instruction_text names.now what.now }
    ensures short { length (T.bytes text.new) ≤ length (T.bytes text.old) + 128 }
{
    let mut operation = ArrayString::new();
    instr_text(what, names, &mut operation);
    text.push_str(operation.as_str());
}

/// Appends what the line of an instruction has between the tick and the outcome.
pub(crate) fn push_executed<T: Text>(
    text: &mut T,
    names: &Names,
    who: &Owner,
    place: Place,
    what: &Instr,
)
    requires { length (T.bytes text.old) + 172 ≤ T.room }
    ensures same { T.bytes text.new
        ≡ T.bytes text.old ++ executed_text names.now who.now place what.now }
    ensures short { length (T.bytes text.new) ≤ length (T.bytes text.old) + 172 }
{
    push_owner(text, names, *who);
    text.push_str(" ");
    push_number(text, place.number() as u32);
    text.push_str(" ");
    push_instr(text, names, what);
}

#[inline(never)]
pub(crate) fn push_results<T: Text>(text: &mut T, results: Results)
    requires { length (T.bytes text.old) + 35 ≤ T.room }
    ensures same { T.bytes text.new ≡ T.bytes text.old ++ results_text results }
    ensures short { length (T.bytes text.new) ≤ length (T.bytes text.old) + 35 }
{
    match results {
        Results::Nothing => {}
        Results::One(first) => {
            text.push_str(" : ");
            push_number(text, first);
        }
        Results::Three(first, second, third) => {
            text.push_str(" : ");
            push_number(text, first);
            text.push_str(" ");
            push_number(text, second);
            text.push_str(" ");
            push_number(text, third);
        }
    }
}

#[inline(always)]
fn push_effect<T: Text>(text: &mut T, effect: Effect)
    requires { length (T.bytes text.old) + 48 ≤ T.room }
    ensures same { T.bytes text.new ≡ T.bytes text.old ++ outcome_text (Outcome.Plain effect) }
    ensures short { length (T.bytes text.new) ≤ length (T.bytes text.old) + 48 }
{
    match effect {
        Effect::Nothing => {}
        Effect::Value(value) => {
            text.push_str(" -> ");
            push_number(text, value);
        }
        Effect::Stored(index, value) => {
            text.push_str(" -> [");
            push_number(text, index as u32);
            text.push_str("] ");
            push_number(text, value);
        }
    }
}

#[inline(always)]
fn push_outcome<T: Text>(text: &mut T, outcome: &Outcome)
    requires { length (T.bytes text.old) + 48 ≤ T.room }
    ensures same { T.bytes text.new ≡ T.bytes text.old ++ outcome_text outcome.now }
    ensures short { length (T.bytes text.new) ≤ length (T.bytes text.old) + 48 }
{
    match outcome {
        Outcome::Plain(effect) => push_effect(text, *effect),
        Outcome::Answer(status, results) => {
            text.push_str(" = ");
            push_number(text, status.number() as u32);
            if !matches!(results, Results::Nothing) {
                push_results(text, *results);
            }
        }
        Outcome::Control => {}
    }
}

#[inline(never)]
pub(crate) fn push_event<T: Text>(text: &mut T, names: &Names, event: &TraceEvent)
    requires { length (T.bytes text.old) + 220 ≤ T.room }
    ensures same { T.bytes text.new ≡ T.bytes text.old ++ event_text names.now event.now }
    ensures short { length (T.bytes text.new) ≤ length (T.bytes text.old) + 220 }
{
    match event {
        TraceEvent::Startup => text.push_str("startup"),
        TraceEvent::Pre(task) => {
            text.push_str("pre ");
            push_owner(text, names, Owner::Task(*task));
        }
        TraceEvent::Post(task) => {
            text.push_str("post ");
            push_owner(text, names, Owner::Task(*task));
        }
        TraceEvent::Executed(who, place, what, outcome) => {
            push_executed(text, names, who, *place, what);
            push_outcome(text, outcome);
        }
        TraceEvent::Idle => text.push_str("idle"),
        TraceEvent::Other => text.push_str("other"),
        TraceEvent::Error(who, what, status) => {
            text.push_str("error ");
            push_source(text, names, *who);
            text.push_str(" ");
            push_instr(text, names, what);
            text.push_str(" ");
            push_number(text, status.number() as u32);
        }
        TraceEvent::Shutdown(number) => {
            text.push_str("shutdown ");
            push_number(text, *number);
        }
    }
}

/// Appends what stands behind an instruction: ` ! ` and its number of blockers, where that is told.
#[inline(always)]
pub(crate) fn push_blocker_count<T: Text>(text: &mut T, number: Option<u32>)
    requires { length (T.bytes text.old) + 13 ≤ T.room }
    ensures same { (who : Owner) (place : ℕ) (what : Instr) (outcome : Outcome)
        → T.bytes text.new
        ≡ T.bytes text.old ++ blockers_text number (TraceEvent.Executed who place what outcome) }
    ensures short { length (T.bytes text.new) ≤ length (T.bytes text.old) + 13 }
{
    if let Some(number) = number {
        text.push_str(" ! ");
        push_number(text, number);
    }
}

/// Appends what stands behind a record where a number of blockers is told: ` ! ` and the number
/// behind an instruction.
#[inline(always)]
pub(crate) fn push_blockers<T: Text>(text: &mut T, number: Option<u32>, event: &TraceEvent)
    requires { length (T.bytes text.old) + 13 ≤ T.room }
    ensures same { T.bytes text.new ≡ T.bytes text.old ++ blockers_text number event.now }
    ensures short { length (T.bytes text.new) ≤ length (T.bytes text.old) + 13 }
{
    if let TraceEvent::Executed(_, _, _, _) = event {
        push_blocker_count(text, number);
    }
}

/// Appends the line of a record of that tick, without the line's end.
pub(crate) fn push_line<T: Text>(text: &mut T, names: &Names, tick: u32, event: &TraceEvent)
    requires { length (T.bytes text.old) + 231 ≤ T.room }
    ensures same { T.bytes text.new ≡ T.bytes text.old ++ line names.now tick event.now }
    ensures short { length (T.bytes text.new) ≤ length (T.bytes text.old) + 231 }
{
    push_number(text, tick);
    text.push_str(" ");
    push_event(text, names, event);
}

/// Replaces the content of `text` by the line of a record of that tick, without the line's end.
pub fn line_text(names: &Names, tick: u32, event: &TraceEvent, text: &mut LineText)
    ensures same { text.new.bytes ≡ line names.now tick event.now }
    ensures short { length text.new.bytes ≤ 231 }
{
    text.clear();
    push_line(text, names, tick, event);
}
