//! Times in place of ticks: texts as `10ms`, where a description tells how long a tick is.

use crate::fault::{Fault, Wrong, tell};
use crate::node::{Kind, Node};
use crate::read_tables::{Found, Table};
use std::alloc::AllocError;
use std::fmt::{self, Display, Formatter, Write};

/// The keys at which ticks stand, in a list at the last.
const KEYS_OF_TICKS: [&str; 8] = [
    "period",
    "offset",
    "jitter",
    "least",
    "most",
    "deadline",
    "work",
    LIST_OF_TICKS,
];

const LIST_OF_TICKS: &str = "ticks";

/// A time in nanoseconds. It is shown in the greatest unit in which it is whole.
#[derive(Clone, Copy)]
pub struct Time(pub u64);

const UNITS: [(&str, u64); 4] = [
    ("s", 1_000_000_000),
    ("ms", 1_000_000),
    ("us", 1000),
    ("ns", 1),
];

impl Display for Time {
    fn fmt<W: Write>(&self, f: &mut Formatter<W>) -> fmt::Result {
        for (word, long) in &UNITS {
            if self.0.checked_rem(*long) == Some(0) {
                let count = self.0.checked_div(*long).unwrap_or(0);
                return write!(f, "{count}{}", *word);
            }
        }
        Ok(())
    }
}

/// How many nanoseconds a unit has.
fn unit(word: &str) -> Option<u64> {
    for (other, long) in &UNITS {
        if *other == word {
            return Some(*long);
        }
    }
    None
}

/// The nanoseconds of a text: a number, which may have a point in it, and one of the units, with at
/// most one space between.
pub fn nanoseconds(text: &str) -> Option<u64> {
    let mut number: u64 = 0;
    let mut scale: u64 = 1;
    let mut digits: usize = 0;
    let mut is_behind_point = false;
    for byte in text.as_bytes() {
        if byte.is_ascii_digit() {
            let digit = byte.saturating_sub(b'0') as u64;
            number = number.checked_mul(10)?.checked_add(digit)?;
            scale = scale.checked_mul(if is_behind_point { 10 } else { 1 })?;
        } else if *byte == b'.' && digits > 0 && !is_behind_point {
            is_behind_point = true;
        } else {
            break;
        }
        digits = digits.saturating_add(1);
    }
    if digits == 0 {
        return None;
    }
    let word = text.get(digits..)?;
    let long = unit(word.strip_prefix(" ").unwrap_or(word))?;
    let all = number.checked_mul(long)?;
    if all.checked_rem(scale) == Some(0) {
        all.checked_div(scale)
    } else {
        None
    }
}

/// How many nanoseconds a tick is, where a description tells it.
fn tick_of(nodes: &[Node]) -> Option<u64> {
    for node in nodes {
        if node.kind == Kind::Section {
            return None;
        }
        if node.depth == 0 && node.key.as_str() == "tick" && node.kind == Kind::Text {
            return match nanoseconds(node.text.as_str()) {
                Some(long) if long > 0 => Some(long),
                _ => None,
            };
        }
    }
    None
}

/// So many ticks as a time is, where it is whole ones.
fn whole_ticks(text: &str, tick: u64) -> Option<i64> {
    let time = nanoseconds(text)?;
    if time.checked_rem(tick)? != 0 {
        return None;
    }
    i64::try_from(time.checked_div(tick)?).ok()
}

fn is_key_of_ticks(key: &str) -> bool {
    for other in &KEYS_OF_TICKS {
        if *other == key {
            return true;
        }
    }
    false
}

/// Puts ticks in place of the times in a text, as far as they are whole ones. Their texts stay.
pub fn count_ticks(nodes: &mut [Node]) {
    let Some(tick) = tick_of(nodes) else {
        return;
    };
    let mut listed: Option<usize> = None;
    for node in nodes.iter_mut() {
        let is_listed = node.key.is_empty() && listed == Some(node.depth);
        if node.kind == Kind::List && node.key.as_str() == LIST_OF_TICKS {
            listed = Some(node.depth.saturating_add(1));
        } else if !is_listed {
            listed = None;
        }
        if node.kind == Kind::Text && (is_listed || is_key_of_ticks(node.key.as_str())) {
            if let Some(ticks) = whole_ticks(node.text.as_str(), tick) {
                node.kind = Kind::Number(ticks);
            }
        }
    }
}

/// What is wrong with a time that is wanted as a number of ticks in a range.
pub(crate) fn wrong_time<'a>(
    nodes: &'a [Node],
    text: &'a str,
    key: &'static str,
    range: (u32, u32),
) -> Wrong<'a> {
    let Some(time) = nanoseconds(text) else {
        return Wrong::NoTime(text);
    };
    let Some(tick) = tick_of(nodes) else {
        return Wrong::NoTick;
    };
    let ticks = time.checked_div(tick).unwrap_or(0);
    let below = ticks.saturating_mul(tick);
    if below == time {
        let (least, most) = range;
        return Wrong::TimeOutOfRange(text, ticks, key, least, most);
    }
    Wrong::BetweenTicks(
        text,
        Time(tick),
        Time(below),
        Time(below.saturating_add(tick)),
    )
}

/// Tells where the length of a tick is no time.
pub fn tell_tick<'a>(root: &Table<'a>, faults: &mut Vec<Fault<'a>>) -> Result<(), AllocError> {
    if let (Some(text), Some(Found { node, .. })) = (
        root.text("tick", faults)?,
        root.find("tick"),
    ) {
        if nanoseconds(text).unwrap_or(0) == 0 {
            tell(faults, node.place, Wrong::NoTime(text))?;
        }
    }
    Ok(())
}
