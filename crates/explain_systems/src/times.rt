//! Values of counters and alarms that generation refuses.

use crate::declared::{attribute, inner, number_in, number_of, object, word_of};
use explain_texts::Piece::{Named, Number, Text};
use explain_texts::Source;
use oil_reader::{Kind, Object, Setting, SyntaxTree};
use osek_base::MAX_COUNTS;
use std::io::{self, Write};

/// The values of a counter.
#[derive(Clone, Copy)]
struct CounterValues {
    most: u32,
    cycle: u32,
}

fn limits_of(counter: &Object<'_>) -> CounterValues {
    CounterValues {
        most: number_in(counter, "MAXALLOWEDVALUE"),
        cycle: number_in(counter, "MINCYCLE"),
    }
}

/// Explains a value that is out of its range.
fn explain_value<'a, W: Write>(
    source: Source<'_>,
    owner: &Object<'a>,
    setting: Setting<'a>,
    range: (u32, u32),
    out: &mut W,
) -> io::Result<()> {
    let (least, most) = range;
    let word = setting.name.text;
    let number = Number(number_of(setting.value) as usize);
    let what = [
        Text(word),
        Text(" of "),
        Text(owner.name.text),
        Text(" can't be "),
        number,
    ];
    let zero = match word {
        "CYCLETIME" => "0, or ",
        _ => "",
    };
    let allowed = [
        Text(zero),
        Number(least as usize),
        Text(" to "),
        Number(most as usize),
    ];
    source.note(setting.value_place, &what, "allowed", &allowed, out)
}

/// The attribute of a counter that is out of its range, and the range.
fn wrong_value(counter: &Object<'_>) -> (&'static str, (u32, u32)) {
    let CounterValues { most, cycle } = limits_of(counter);
    if most == 0 || most > MAX_COUNTS {
        ("MAXALLOWEDVALUE", (1, MAX_COUNTS))
    } else if cycle == 0 || cycle > most {
        ("MINCYCLE", (1, most))
    } else {
        ("TICKSPERBASE", (1, u32::MAX))
    }
}

/// Explains a counter with values that can't be.
pub(crate) fn explain_counter<W: Write>(
    source: Source<'_>,
    tree: &SyntaxTree<'_>,
    name: &str,
    out: &mut W,
) -> io::Result<()> {
    let Some(counter) = object(tree, Kind::Counter, name) else {
        return Ok(());
    };
    let (word, range) = wrong_value(counter);
    match attribute(counter, word) {
        Some(attribute) => explain_value(source, counter, attribute.setting, range, out),
        None => Ok(()),
    }
}

/// The counter of an alarm.
fn counter_of<'t, 'a>(tree: &'t SyntaxTree<'a>, alarm: &Object<'a>) -> Option<&'t Object<'a>> {
    let attribute = attribute(alarm, "COUNTER")?;
    object(tree, Kind::Counter, word_of(attribute.setting.value))
}

/// The time of an alarm that is out of its range, and the range.
fn wrong_time<'a>(alarm: &Object<'a>, counter: &Object<'a>) -> Option<(Setting<'a>, (u32, u32))> {
    let CounterValues { most, cycle } = limits_of(counter);
    let start = inner(alarm, "AUTOSTART", "ALARMTIME")?;
    let time = number_of(start.value);
    if time == 0 || time > most {
        return Some((start, (1, most)));
    }
    let period = inner(alarm, "AUTOSTART", "CYCLETIME")?;
    let time = number_of(period.value);
    if time != 0 && (time < cycle || time > most) {
        return Some((period, (cycle, most)));
    }
    None
}

/// Explains an alarm that sets an event of a basic task.
fn explain_basic<'a, W: Write>(
    source: Source<'a>,
    alarm: &Object<'a>,
    out: &mut W,
) -> io::Result<()> {
    let Some(task) = inner(alarm, "ACTION", "TASK") else {
        return Ok(());
    };
    let place = task.value_place;
    let alarm = Named(Kind::Alarm, alarm.name.text);
    let task = Named(Kind::Task, source.word(place));
    let what = [
        alarm,
        Text(" sets an event of "),
        task,
        Text(", which lists none"),
    ];
    source.note(
        place,
        &what,
        "allowed",
        &[Text("a task that lists an event")],
        out,
    )
}

/// Explains an alarm with times that its counter doesn't have, or that sets an event of a basic
/// task.
pub(crate) fn explain_alarm<'a, W: Write>(
    source: Source<'a>,
    tree: &SyntaxTree<'a>,
    name: &str,
    out: &mut W,
) -> io::Result<()> {
    let Some(alarm) = object(tree, Kind::Alarm, name) else {
        return Ok(());
    };
    let wrong = match counter_of(tree, alarm) {
        Some(counter) => wrong_time(alarm, counter),
        None => None,
    };
    match wrong {
        Some((setting, range)) => explain_value(source, alarm, setting, range, out),
        None => explain_basic(source, alarm, out),
    }
}
