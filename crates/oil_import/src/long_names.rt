//! OIL: grammar. Names of objects that are longer than a name may be: their ends stand for them.

use crate::attributes::{are_word_bytes, is_cpu, kind_of};
use crate::items::{Item, Written};
use crate::messages::{Messages, Subject, Verdict};
use crate::reasons;
use osek_base::MAX_NAME;
use std::alloc::{AllocError, Global};
use std::collections::BTreeSet;

/// The names of all objects, the ends of those that are too long, and those of the ends that
/// several names have.
#[derive(Drop)]
struct LongNames<'a> {
    names: BTreeSet<&'a str>,
    ends: BTreeSet<&'a str>,
    shared: BTreeSet<&'a str>,
}

/// The name that an item gives an object or a CPU.
fn declared<'a>(item: &Item<'a>) -> Option<&'a str> {
    if kind_of(item.word).is_none() && !is_cpu(item.word) {
        return None;
    }
    match item.written {
        Written::Name(name) => Some(name),
        _ => None,
    }
}

/// Where the end of so many bytes begins that can be a name: with a word of the name, as behind a
/// `_`, or else with a letter.
fn beginning(bytes: &[u8], most: usize) -> Option<usize> {
    let from = bytes.len().saturating_sub(most);
    let mut letter = None;
    let mut before = b'_';
    for (at, byte) in bytes.iter().enumerate() {
        if at >= from && byte.is_ascii_alphabetic() {
            if before == b'_' {
                return Some(at);
            }
            letter = letter.or(Some(at));
        }
        before = *byte;
    }
    letter
}

/// The end that can stand for a name, where the name is too long.
fn end_of(name: &str) -> Option<&str> {
    let bytes = name.as_bytes();
    if bytes.len() <= MAX_NAME || !are_word_bytes(bytes) {
        return None;
    }
    name.get(beginning(bytes, MAX_NAME)?..)
}

/// A name, or where it has more than so many bytes the end that can stand for it.
pub(crate) fn end_within(name: &str, most: usize) -> Option<&str> {
    let bytes = name.as_bytes();
    if bytes.len() <= most {
        return Some(name);
    }
    name.get(beginning(bytes, most)?..)
}

/// Why a word is the name of no object. The end of a long one that may be a name stands for it.
pub(crate) fn reason_against_name(word: &str) -> &'static str {
    if word.len() > MAX_NAME {
        reasons::NO_END
    } else {
        reasons::BAD_NAME
    }
}

impl<'a> LongNames<'a> {
    fn of(alloc: Global, items: &[Item<'a>]) -> Result<Self, AllocError> {
        let mut found = LongNames {
            names: BTreeSet::new(alloc),
            ends: BTreeSet::new(alloc),
            shared: BTreeSet::new(alloc),
        };
        for item in items {
            if let Some(name) = declared(item) {
                found.add(name)?;
            }
        }
        Ok(found)
    }

    fn add(&mut self, name: &'a str) -> Result<(), AllocError> {
        if !self.names.insert(name)? {
            return Ok(());
        }
        if let Some(end) = end_of(name) {
            if !self.ends.insert(end)? {
                let _ = self.shared.insert(end)?;
            }
        }
        Ok(())
    }

    /// What stands for a name that is too long: its end, where that is no other object's.
    fn short(&self, name: &'a str) -> Option<&'a str> {
        let end = end_of(name)?;
        let is_other = self.names.contains(&end) || self.shared.contains(&end);
        (self.names.contains(&name) && !is_other).then_some(end)
    }

    /// What stands for what is written.
    fn written(&self, written: Written<'a>) -> Option<Written<'a>> {
        match written {
            Written::Name(name) => Some(Written::Name(self.short(name)?)),
            Written::Word(word) => Some(Written::Word(self.short(word)?)),
            Written::Nothing | Written::Text(_) => None,
        }
    }
}

/// Puts ends in place of names that are too long, where objects are declared and named. Of each
/// that is declared it is told.
pub(crate) fn shorten<'a>(
    alloc: Global,
    items: &mut Vec<Item<'a>>,
    messages: &mut Messages<'a>,
) -> Result<(), AllocError> {
    let names = LongNames::of(alloc, items)?;
    for item in items.iter_mut() {
        if let Some(written) = names.written(item.written) {
            if let (Some(long), Written::Name(short)) = (declared(item), written) {
                let subject = Subject::Shortened(item.word, long, short);
                messages.tell(item.written_place, Verdict::Kept, subject, reasons::LONG)?;
            }
            item.written = written;
        }
    }
    Ok(())
}
