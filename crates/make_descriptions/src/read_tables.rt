//! The tables of a description, and what stands in them: each value is asked for by its key, and
//! told where it isn't of the kind or within the range that is wanted.

use crate::fault::{Fault, Nearest, Words, Wrong, tell};
use crate::lists::behind;
use crate::names::{SCHEDULER, is_among, nearest};
use crate::node::{Kind, Node, number_of};
use crate::times::wrong_time;
use osek_base::MAX_NAME;
use osek_base::words::is_word_byte;
use std::alloc::{AllocError, Global};

/// What can't be a name, since it means something in programs.
const WORDS_OF_PROGRAMS: [&str; 10] = [
    "INVALID", SCHEDULER, "r0", "r1", "r2", "r3", "r4", "r5", "r6", "r7",
];

/// A value, and its number among the nodes of its text.
#[derive(Clone, Copy)]
pub struct Found<'a> {
    pub node: &'a Node,
    pub at: usize,
}

/// What stands in a table: the nodes of its text, those in it, and how deep its own keys are.
#[derive(Clone, Copy)]
pub struct Table<'a> {
    pub nodes: &'a [Node],
    pub first: usize,
    pub behind: usize,
    pub depth: usize,
    /// The place of the table.
    pub place: usize,
}

impl<'a> Table<'a> {
    /// What stands in a node that is a table or begins a section.
    pub fn of(nodes: &'a [Node], at: usize, node: &'a Node) -> Table<'a> {
        Table {
            nodes,
            first: at.saturating_add(1),
            behind: behind(nodes, at, node.depth),
            depth: node.depth.saturating_add(1),
            place: node.place,
        }
    }

    /// The value at a key.
    pub fn find(&self, key: &str) -> Option<Found<'a>> {
        for at in self.first..self.behind {
            if let Some(node) = self.nodes.get(at) {
                if node.depth == self.depth && node.key.as_str() == key {
                    return Some(Found { node, at });
                }
            }
        }
        None
    }

    /// Tells of each key that is neither among those of such a table nor among others, of which
    /// something else is told. Whether there is one.
    pub fn tell_unknown(
        &self,
        alloc: Global,
        keys: &'static [&'static str],
        others: &[&str],
        whose: &'static str,
        faults: &mut Vec<Fault<'a>>,
    ) -> Result<bool, AllocError> {
        let before = faults.len();
        for at in self.first..self.behind {
            let Some(node) = self.nodes.get(at) else {
                break;
            };
            let key = node.key.as_str();
            if node.depth == self.depth && !is_among(keys, key) && !is_among(others, key) {
                let near = Nearest(nearest(alloc, key, keys)?);
                let wrong = Wrong::UnknownKey(key, whose, near, Words(keys));
                tell(faults, node.key_place, wrong)?;
            }
        }
        Ok(faults.len() > before)
    }

    /// The text at a key.
    pub fn text(
        &self,
        key: &'static str,
        faults: &mut Vec<Fault<'a>>,
    ) -> Result<Option<&'a str>, AllocError> {
        let Some(Found { node, .. }) = self.find(key) else {
            return Ok(None);
        };
        if node.kind == Kind::Text {
            return Ok(Some(node.text.as_str()));
        }
        tell(faults, node.place, Wrong::NoText(key))?;
        Ok(None)
    }

    /// The name at a key, told where it can't be a name of OIL.
    pub fn name(
        &self,
        key: &'static str,
        faults: &mut Vec<Fault<'a>>,
    ) -> Result<Option<&'a str>, AllocError> {
        let found = self.text(key, faults)?;
        if let (Some(text), Some(Found { node, .. })) = (found, self.find(key)) {
            if !is_name(text) {
                tell(faults, node.place, Wrong::NoName(text))?;
            }
        }
        Ok(found)
    }

    /// The same for the name of a resource, which may be RES_SCHEDULER besides.
    pub fn resource(
        &self,
        key: &'static str,
        faults: &mut Vec<Fault<'a>>,
    ) -> Result<Option<&'a str>, AllocError> {
        match self.find(key) {
            Some(Found { node, .. }) if node.text.as_str() == SCHEDULER => self.text(key, faults),
            _ => self.name(key, faults),
        }
    }

    /// The same for a name that has to be there; empty where it isn't.
    pub fn own_name(&self, faults: &mut Vec<Fault<'a>>) -> Result<&'a str, AllocError> {
        if self.find("name").is_none() {
            tell(faults, self.place, Wrong::Missing("name"))?;
        }
        Ok(self.name("name", faults)?.unwrap_or(""))
    }

    /// The number at a key, from one to another.
    pub fn number(
        &self,
        key: &'static str,
        range: (u32, u32),
        faults: &mut Vec<Fault<'a>>,
    ) -> Result<Option<u32>, AllocError> {
        let Some(Found { node, .. }) = self.find(key) else {
            return Ok(None);
        };
        number_in(node, key, range, faults)
    }

    /// The ticks at a key, from a number to another: a number, or a time.
    pub fn ticks(
        &self,
        key: &'static str,
        range: (u32, u32),
        faults: &mut Vec<Fault<'a>>,
    ) -> Result<Option<u32>, AllocError> {
        match self.find(key) {
            Some(Found { node, .. }) => ticks_of(self.nodes, node, key, range, faults),
            None => Ok(None),
        }
    }

    /// Whether a key is true. It is false where it isn't there.
    pub fn is_true(
        &self,
        key: &'static str,
        faults: &mut Vec<Fault<'a>>,
    ) -> Result<bool, AllocError> {
        let Some(Found { node, .. }) = self.find(key) else {
            return Ok(false);
        };
        if let Kind::Boolean(is_so) = node.kind {
            return Ok(is_so);
        }
        tell(faults, node.place, Wrong::NoBoolean(key))?;
        Ok(false)
    }

    /// Tells of a key that is anything but true.
    pub fn tell_untrue(
        &self,
        key: &'static str,
        faults: &mut Vec<Fault<'a>>,
    ) -> Result<(), AllocError> {
        if let Some(Found { node, .. }) = self.find(key) {
            if node.kind != Kind::Boolean(true) {
                tell(faults, node.place, Wrong::NoTrue(key))?;
            }
        }
        Ok(())
    }

    /// The list at a key.
    pub fn list(
        &self,
        key: &'static str,
        faults: &mut Vec<Fault<'a>>,
    ) -> Result<Option<Found<'a>>, AllocError> {
        let Some(found) = self.find(key) else {
            return Ok(None);
        };
        if found.node.kind == Kind::List {
            return Ok(Some(found));
        }
        tell(faults, found.node.place, Wrong::NoList(key))?;
        Ok(None)
    }
}

/// The number at a key, or another where none is there or it isn't in the range.
pub(crate) fn number_or<'a>(
    table: &Table<'a>,
    key: &'static str,
    range: (u32, u32),
    other: u32,
    faults: &mut Vec<Fault<'a>>,
) -> Result<u32, AllocError> {
    Ok(table.number(key, range, faults)?.unwrap_or(other))
}

/// Tells of a key that is missing.
pub(crate) fn want<'a>(
    table: &Table<'a>,
    key: &'static str,
    faults: &mut Vec<Fault<'a>>,
) -> Result<(), AllocError> {
    if table.find(key).is_none() {
        tell(faults, table.place, Wrong::Missing(key))?;
    }
    Ok(())
}

/// Tells of a key that can't stand beside another.
pub(crate) fn part<'a>(
    table: &Table<'a>,
    key: &'static str,
    other: &'static str,
    faults: &mut Vec<Fault<'a>>,
) -> Result<(), AllocError> {
    if let (Some(Found { node, .. }), Some(_)) = (table.find(key), table.find(other)) {
        tell(faults, node.key_place, Wrong::Beside(key, other))?;
    }
    Ok(())
}

/// Tells of a key that means nothing without another.
pub(crate) fn part_alone<'a>(
    table: &Table<'a>,
    key: &'static str,
    other: &'static str,
    faults: &mut Vec<Fault<'a>>,
) -> Result<(), AllocError> {
    if let (Some(Found { node, .. }), None) = (table.find(key), table.find(other)) {
        tell(faults, node.key_place, Wrong::Without(key, other))?;
    }
    Ok(())
}

/// The number that a value is, where it is in a range.
fn number_in<'a>(
    node: &'a Node,
    key: &'static str,
    range: (u32, u32),
    faults: &mut Vec<Fault<'a>>,
) -> Result<Option<u32>, AllocError> {
    let (least, most) = range;
    match number_of(node) {
        Some(number) if least <= number && number <= most => Ok(Some(number)),
        _ => {
            tell(faults, node.place, Wrong::NoNumber(key, least, most))?;
            Ok(None)
        }
    }
}

/// The ticks that a value is, where they are in a range.
pub(crate) fn ticks_of<'a>(
    nodes: &'a [Node],
    node: &'a Node,
    key: &'static str,
    range: (u32, u32),
    faults: &mut Vec<Fault<'a>>,
) -> Result<Option<u32>, AllocError> {
    let (least, most) = range;
    let text = node.text.as_str();
    match number_of(node) {
        Some(number) if least <= number && number <= most => Ok(Some(number)),
        _ if text.is_empty() => number_in(node, key, range, faults),
        _ => {
            tell(faults, node.place, wrong_time(nodes, text, key, range))?;
            Ok(None)
        }
    }
}

/// The ticks at a key, or another number where none are there or they aren't in the range.
pub(crate) fn ticks_or<'a>(
    table: &Table<'a>,
    key: &'static str,
    range: (u32, u32),
    other: u32,
    faults: &mut Vec<Fault<'a>>,
) -> Result<u32, AllocError> {
    Ok(table.ticks(key, range, faults)?.unwrap_or(other))
}

/// Whether a text can be the name of an object: a word, and none that means something in programs.
pub fn is_name(text: &str) -> bool {
    let bytes = text.as_bytes();
    let Some(first) = bytes.first() else {
        return false;
    };
    bytes.len() <= MAX_NAME
        && !first.is_ascii_digit()
        && bytes.iter().all(|byte| is_word_byte(*byte))
        && !is_among(&WORDS_OF_PROGRAMS, text)
}
