//! From a work file and its OIL file to the programs, the arrival list and the rules, or to all that
//! is wrong with the work file.

use crate::work_checks::tell_bodies;
use crate::work_file::{Bare, WorkFile, work_file};
use make_descriptions::fault::{Wrong, tell};
use make_descriptions::node::Node;
use make_systems::{
    Arrivals, Remark, TomlText, arrivals, load_lines, read_toml, told, write_arrivals,
    write_programs, write_rules,
};
use oil_reader::OilFile;
use osek_base::MAX_ARRIVALS;
use std::alloc::{AllocError, Global};
use std::io;

/// The texts beside an OIL file.
#[derive(Drop)]
pub struct WorkTexts {
    pub asm: Vec<u8>,
    pub irq: Vec<u8>,
    pub rules: Vec<u8>,
    /// A line without its end for each task and routine of which no work is told.
    pub bare: Vec<String>,
    /// What is told of the load, likewise.
    pub load: Vec<String>,
}

/// What comes of a work file.
#[derive(Drop)]
pub enum WorkAnswer {
    Made(WorkTexts),
    /// All that is wrong, by place.
    Refused(Vec<Remark>),
}

/// What is told of a task or a routine that works one tick.
fn bare_line(alloc: Global, bare: Bare<'_>) -> Result<String, AllocError> {
    let why = if bare.is_named {
        "it has no body"
    } else {
        "it isn't named"
    };
    format!(in alloc; "set: {} {}: work = 1: {why}", bare.kind, bare.name)
}

/// Writes the texts of a work file that has nothing wrong.
fn written(
    alloc: Global,
    nodes: &[Node],
    work: &WorkFile<'_>,
    arrivals: &Arrivals,
) -> io::Result<WorkTexts> {
    let mut asm = Vec::new(alloc);
    write_programs(alloc, nodes, &work.described, &mut asm)?;
    let mut irq = Vec::new(alloc);
    write_arrivals(alloc, &work.described, arrivals, &mut irq)?;
    let mut rules = Vec::new(alloc);
    write_rules(alloc, &work.described, &mut rules)?;
    let mut bare = Vec::new(alloc);
    for one in &work.bare {
        bare.push(bare_line(alloc, *one)?)?;
    }
    Ok(WorkTexts {
        asm,
        irq,
        rules,
        bare,
        load: load_lines(alloc, &work.described)?,
    })
}

/// Makes the texts of a work file that is TOML.
fn make_nodes(alloc: Global, nodes: &[Node], file: &OilFile) -> io::Result<WorkAnswer> {
    let mut faults = Vec::new(alloc);
    let work = work_file(alloc, nodes, file, &mut faults)?;
    tell_bodies(alloc, nodes, file, &work.described, &mut faults)?;
    let arrivals = arrivals(alloc, nodes, &work.described)?;
    if arrivals.is_none() {
        tell(&mut faults, 0, Wrong::TooMany(MAX_ARRIVALS, "arrivals"))?;
    }
    match arrivals {
        Some(arrivals) if faults.is_empty() => {
            Ok(WorkAnswer::Made(written(alloc, nodes, &work, &arrivals)?))
        }
        _ => Ok(WorkAnswer::Refused(told(alloc, faults.as_slice())?)),
    }
}

/// Makes the programs and the arrival list of the system of an OIL file from a work file, or tells
/// all that is wrong with the work file; of a text that is no TOML only the first fault. An error
/// is want of memory.
pub fn make_work(alloc: Global, text: &[u8], file: &OilFile) -> io::Result<WorkAnswer> {
    match read_toml(alloc, text)? {
        TomlText::Nodes(nodes) => make_nodes(alloc, nodes.as_slice(), file),
        TomlText::Refused(remark) => {
            let mut remarks = Vec::new(alloc);
            remarks.push(remark)?;
            Ok(WorkAnswer::Refused(remarks))
        }
    }
}
