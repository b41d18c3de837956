//! From a description to the four texts, or to all that is wrong with it.

use crate::arrival_text::{Arrivals, arrivals, write_arrivals};
use crate::load::load_lines;
use crate::nodes::nodes_of;
use crate::oil_text::write_oil;
use crate::program_text::write_programs;
use crate::rule_text::write_rules;
use make_descriptions::checks::tell_all;
use make_descriptions::described;
use make_descriptions::description::Described;
use make_descriptions::fault::{Fault, Wrong, tell};
use make_descriptions::node::Node;
use make_descriptions::times::count_ticks;
use osek_base::MAX_ARRIVALS;
use std::alloc::{AllocError, Global};
use std::collections::BTreeSet;
use std::io;
use toml_parser::ParseError;

/// The texts of a system.
#[derive(Drop)]
pub struct Made {
    pub oil: Vec<u8>,
    pub asm: Vec<u8>,
    pub irq: Vec<u8>,
    pub rules: Vec<u8>,
    /// What is told of the load, a line without its end each.
    pub load: Vec<String>,
}

/// What is wrong, and the place in bytes.
#[derive(Drop)]
pub struct Remark {
    pub place: usize,
    pub text: String,
}

/// What comes of a description.
#[derive(Drop)]
pub enum Answer {
    Made(Made),
    /// All that is wrong, by place.
    Refused(Vec<Remark>),
}

/// A text as it is shown: U+FFFD stands for what a name can't have and a terminal might obey.
fn shown(alloc: Global, text: &str) -> Result<String, AllocError> {
    let mut shown = String::new(alloc);
    for c in text.chars() {
        let is_plain = c == ' ' || c.is_ascii_graphic();
        shown.push(if is_plain { c } else { '\u{FFFD}' })?;
    }
    Ok(shown)
}

/// Faults as they are told, by place; of one place in the order in which they were found.
pub fn told(alloc: Global, faults: &[Fault<'_>]) -> Result<Vec<Remark>, AllocError> {
    let mut order = BTreeSet::new(alloc);
    for (number, fault) in faults.iter().enumerate() {
        let _ = order.insert((fault.place, number))?;
    }
    let mut remarks = Vec::new(alloc);
    for (_, number) in &order {
        if let Some(fault) = faults.get(*number) {
            let text = format!(in alloc; "{}", fault.wrong)?;
            remarks.push(Remark {
                place: fault.place,
                text: shown(alloc, text.as_str())?,
            })?;
        }
    }
    Ok(remarks)
}

/// A text that is no TOML.
fn refused(alloc: Global, place: usize, why: &str) -> Result<TomlText, AllocError> {
    Ok(TomlText::Refused(Remark {
        place,
        text: format!(in alloc; "this isn't TOML: {why}")?,
    }))
}

/// Writes the texts of a description that has nothing wrong.
fn written(
    alloc: Global,
    nodes: &[Node],
    described: &Described<'_>,
    arrivals: &Arrivals,
) -> io::Result<Made> {
    let mut oil = Vec::new(alloc);
    write_oil(alloc, nodes, described, &mut oil)?;
    let mut asm = Vec::new(alloc);
    write_programs(alloc, nodes, described, &mut asm)?;
    let mut irq = Vec::new(alloc);
    write_arrivals(alloc, described, arrivals, &mut irq)?;
    let mut rules = Vec::new(alloc);
    write_rules(alloc, described, &mut rules)?;
    Ok(Made {
        oil,
        asm,
        irq,
        rules,
        load: load_lines(alloc, described)?,
    })
}

/// Makes the texts of a text that is TOML.
fn make_nodes(alloc: Global, nodes: &[Node]) -> io::Result<Answer> {
    let mut faults = Vec::new(alloc);
    let described = described(alloc, nodes, &mut faults)?;
    tell_all(alloc, nodes, &described, &mut faults)?;
    let arrivals = arrivals(alloc, nodes, &described)?;
    if arrivals.is_none() {
        tell(&mut faults, 0, Wrong::TooMany(MAX_ARRIVALS, "arrivals"))?;
    }
    match arrivals {
        Some(arrivals) if faults.is_empty() => {
            Ok(Answer::Made(written(alloc, nodes, &described, &arrivals)?))
        }
        _ => Ok(Answer::Refused(told(alloc, faults.as_slice())?)),
    }
}

/// What comes of a text in TOML.
#[derive(Drop)]
pub enum TomlText {
    /// Its keys and values, with ticks in place of times.
    Nodes(Vec<Node>),
    /// The first place where it is no TOML.
    Refused(Remark),
}

/// Reads the keys and values of a text in TOML. An error is want of memory.
pub fn read_toml(alloc: Global, text: &[u8]) -> io::Result<TomlText> {
    match toml::table_from_slice(alloc, text) {
        Ok(_table) => {}
        Err(error) => match error.span() {
            Some(span) => return Ok(refused(alloc, span.start, error.message())?),
            None => return Err(AllocError.into()),
        },
    }
    let text = std::str::from_utf8(text).unwrap_or("");
    match nodes_of(alloc, text) {
        Ok(nodes) => {
            let mut nodes = nodes;
            count_ticks(&mut nodes);
            Ok(TomlText::Nodes(nodes))
        }
        Err(ParseError::OutOfMemory) => Err(AllocError.into()),
        Err(ParseError::At(kind, from, _)) => {
            let place = text.len().saturating_sub(from);
            Ok(refused(alloc, place, kind.description())?)
        }
    }
}

/// Makes the texts of a system from its description, or tells all that is wrong with it; of a text
/// that is no TOML only the first fault. An error is want of memory.
pub fn make(alloc: Global, text: &[u8]) -> io::Result<Answer> {
    match read_toml(alloc, text)? {
        TomlText::Nodes(nodes) => make_nodes(alloc, nodes.as_slice()),
        TomlText::Refused(remark) => {
            let mut remarks = Vec::new(alloc);
            remarks.push(remark)?;
            Ok(Answer::Refused(remarks))
        }
    }
}
