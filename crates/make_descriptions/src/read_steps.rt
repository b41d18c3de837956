//! The steps of a body, as they stand in the text.

use crate::description::{Body, Does, Step};
use crate::fault::{Fault, Words, Wrong, tell};
use crate::lists::{NO_LIST, behind};
use crate::node::{Kind, Node};
use crate::read_lists::tell_names;
use crate::read_tables::{Found, Table};
use osek_base::MAX_TICKS;
use std::alloc::{AllocError, Global};

/// What a step may be, each the key that says so.
const STEPS: [&str; 11] = [
    "work", "get", "release", "activate", "chain", "set", "wait", "clear", "repeat", "suspend",
    "schedule",
];

/// The keys of each step.
const WORDS: [&str; 14] = [
    "work", "get", "release", "activate", "chain", "set", "wait", "clear", "repeat", "suspend",
    "schedule", "events", "body", "within",
];

/// The keys that say more of a step, each with the step that it stands beside.
const MORE: [(&str, &str); 3] = [("events", "set"), ("body", "repeat"), ("within", "wait")];

/// How many repeats a step may stand in: each has a register of its own to count its rounds.
const MOST_REPEATS: usize = 2;

/// The key that says what a step is, told where there is a second, or none and nothing was told of
/// an unknown one.
fn word_of<'a>(
    table: &Table<'a>,
    has_unknown: bool,
    faults: &mut Vec<Fault<'a>>,
) -> Result<Option<&'static str>, AllocError> {
    let mut found: Option<&'static str> = None;
    for word in &STEPS {
        if let Some(Found { node, .. }) = table.find(*word) {
            match found {
                None => found = Some(*word),
                Some(first) => tell(faults, node.key_place, Wrong::TwoSteps(first, *word))?,
            }
        }
    }
    if found.is_none() && !has_unknown {
        tell(faults, table.place, Wrong::EmptyStep(Words(&STEPS)))?;
    }
    Ok(found)
}

/// The number of the list of events at a key.
fn events<'a>(
    alloc: Global,
    table: &Table<'a>,
    key: &'static str,
    faults: &mut Vec<Fault<'a>>,
) -> Result<usize, AllocError> {
    if table.find(key).is_none() {
        tell(faults, table.place, Wrong::Missing(key))?;
    }
    match table.list(key, faults)? {
        Some(list) => {
            tell_names(alloc, table.nodes, list, "the name of an event", faults)?;
            Ok(list.at)
        }
        None => Ok(NO_LIST),
    }
}

/// Tells of each key that says more of another step than this.
fn tell_strays<'a>(
    table: &Table<'a>,
    word: &'static str,
    faults: &mut Vec<Fault<'a>>,
) -> Result<(), AllocError> {
    for more in &MORE {
        let (key, step) = *more;
        if let Some(Found { node, .. }) = table.find(key) {
            if word != step {
                tell(faults, node.key_place, Wrong::Beside(key, word))?;
            }
        }
    }
    Ok(())
}

/// Tells where a `repeat` has no list of steps.
fn tell_repeated<'a>(table: &Table<'a>, faults: &mut Vec<Fault<'a>>) -> Result<(), AllocError> {
    if table.find("body").is_none() {
        tell(faults, table.place, Wrong::Missing("body"))?;
    }
    let _ = table.list("body", faults)?;
    Ok(())
}

/// What a step does to what its key names.
fn named<'a>(
    alloc: Global,
    table: &Table<'a>,
    word: &'static str,
    faults: &mut Vec<Fault<'a>>,
) -> Result<Does<'a>, AllocError> {
    if word == "get" {
        return Ok(Does::Get(table.resource("get", faults)?.unwrap_or("")));
    }
    if word == "release" {
        return Ok(Does::Release(table.resource("release", faults)?.unwrap_or("")));
    }
    let name = table.name(word, faults)?.unwrap_or("");
    Ok(match word {
        "activate" => Does::Activate(name),
        "chain" => Does::Chain(name),
        _ => Does::Set(name, events(alloc, table, "events", faults)?),
    })
}

/// What a step does that a key says.
fn does<'a>(
    alloc: Global,
    table: &Table<'a>,
    word: &'static str,
    faults: &mut Vec<Fault<'a>>,
) -> Result<Does<'a>, AllocError> {
    if word == "work" {
        let ticks = table.ticks("work", (1, MAX_TICKS), faults)?;
        return Ok(Does::Work(ticks.unwrap_or(1)));
    }
    if word == "repeat" {
        tell_repeated(table, faults)?;
        let rounds = table.number("repeat", (1, MAX_TICKS), faults)?;
        return Ok(Does::Repeat(rounds.unwrap_or(1)));
    }
    if word == "wait" {
        let events = events(alloc, table, "wait", faults)?;
        let within = table.ticks("within", (1, MAX_TICKS), faults)?;
        return Ok(Does::Wait { events, within });
    }
    if word == "clear" {
        return Ok(Does::Clear(events(alloc, table, "clear", faults)?));
    }
    if word == "suspend" {
        let _ = table.list("suspend", faults)?;
        return Ok(Does::Suspend);
    }
    if word == "schedule" {
        table.tell_untrue("schedule", faults)?;
        return Ok(Does::Schedule);
    }
    named(alloc, table, word, faults)
}

/// What ends the steps that stand in one.
fn end_of(does: Does<'_>) -> Option<Does<'static>> {
    match does {
        Does::Repeat(_) => Some(Does::End),
        Does::Suspend => Some(Does::Resume),
        _ => None,
    }
}

/// Adds the step that a table is, and answers what ends the steps in it.
fn add_step<'a>(
    alloc: Global,
    table: &Table<'a>,
    steps: &mut Vec<Step<'a>>,
    faults: &mut Vec<Fault<'a>>,
) -> Result<Option<Does<'static>>, AllocError> {
    let has_unknown = table.tell_unknown(alloc, &WORDS, &[], "a step", faults)?;
    let Some(word) = word_of(table, has_unknown, faults)? else {
        return Ok(None);
    };
    tell_strays(table, word, faults)?;
    let place = match table.find(word) {
        Some(Found { node, .. }) => node.place,
        None => table.place,
    };
    let does = does(alloc, table, word, faults)?;
    steps.push(Step { place, does })?;
    Ok(end_of(does))
}

/// A step that others stand in: how deep it is, and what ends it.
#[derive(Clone, Copy)]
struct Open {
    depth: usize,
    end: Does<'static>,
}

/// Ends the steps that began at a depth or deeper and that others stand in.
fn end_open<'a>(
    open: &mut Vec<Open>,
    depth: usize,
    place: usize,
    steps: &mut Vec<Step<'a>>,
) -> Result<(), AllocError> {
    for _ in 0..open.len() {
        let Some(Open { depth: begun, end }) = open.last().copied() else {
            break;
        };
        if begun < depth {
            break;
        }
        let _ = open.pop();
        steps.push(Step { place, does: end })?;
    }
    Ok(())
}

/// How many repeats are open.
fn repeats(open: &[Open]) -> usize {
    let mut count: usize = 0;
    for one in open {
        if let Does::End = one.end {
            count = count.saturating_add(1);
        }
    }
    count
}

/// Adds a step, and opens it where others stand in it.
fn add_item<'a>(
    alloc: Global,
    table: &Table<'a>,
    depth: usize,
    open: &mut Vec<Open>,
    steps: &mut Vec<Step<'a>>,
    faults: &mut Vec<Fault<'a>>,
) -> Result<(), AllocError> {
    let Some(end) = add_step(alloc, table, steps, faults)? else {
        return Ok(());
    };
    open.push(Open { depth, end })?;
    if repeats(open.as_slice()) > MOST_REPEATS {
        tell(faults, table.place, Wrong::TooDeep)?;
    }
    Ok(())
}

/// The steps of a list, those that stand in one behind it.
fn steps_of<'a>(
    alloc: Global,
    nodes: &'a [Node],
    list: Found<'a>,
    faults: &mut Vec<Fault<'a>>,
) -> Result<Vec<Step<'a>>, AllocError> {
    let mut steps = Vec::new(alloc);
    let mut open: Vec<Open> = Vec::new(alloc);
    for at in list.at.saturating_add(1)..behind(nodes, list.at, list.node.depth) {
        let Some(node) = nodes.get(at) else {
            break;
        };
        end_open(&mut open, node.depth, node.place, &mut steps)?;
        let wanted = match open.last() {
            Some(one) => one.depth.saturating_add(2),
            None => list.node.depth.saturating_add(1),
        };
        if node.depth != wanted || !node.key.is_empty() {
            continue;
        }
        if node.kind == Kind::Table {
            let table = Table::of(nodes, at, node);
            add_item(alloc, &table, node.depth, &mut open, &mut steps, faults)?;
        } else {
            tell(faults, node.place, Wrong::NoStep)?;
        }
    }
    end_open(&mut open, 0, list.node.place, &mut steps)?;
    Ok(steps)
}

/// Whether the last step ends the job.
fn end_in_chain(steps: &[Step<'_>]) -> bool {
    match steps.last() {
        Some(last) => last.does.is_chain(),
        None => false,
    }
}

/// The steps of the list at the key `body`; none where there is no such key. A loop that comes to a
/// chain isn't repeated: the job ends there, even where the chain is refused.
pub fn body<'a>(
    alloc: Global,
    table: &Table<'a>,
    faults: &mut Vec<Fault<'a>>,
) -> Result<Body<'a>, AllocError> {
    let is_looped = table.is_true("loop", faults)?;
    match table.list("body", faults)? {
        Some(list) => {
            let steps = steps_of(alloc, table.nodes, list, faults)?;
            Ok(Body {
                place: list.node.place,
                is_looped: is_looped && !end_in_chain(steps.as_slice()),
                steps,
            })
        }
        None => Ok(Body {
            place: table.place,
            steps: Vec::new(alloc),
            is_looped,
        }),
    }
}
