//! What is shown of a system.

use crate::calls::warn_of_calls;
use crate::listing::write_listing;
use crate::parsed::{Parsed, Parts};
use crate::warnings::{Warnings, warn_of_objects};
use explain_texts::Source;
use osek_base::{Class, System};
use std::alloc::{AllocError, Global};
use std::io;

/// What is shown of a system, as texts.
#[derive(Drop)]
pub struct Shown {
    /// Its class, and a table for each kind of objects.
    pub listing: Vec<u8>,
    /// A line `FILE:LINE:COLUMN: warning: TEXT` for each mistake, those of the OIL file before
    /// those of the programs.
    pub warnings: Vec<u8>,
}

fn write_warnings(
    parsed: Parsed<'_, '_>,
    system: &System,
    are_explained: bool,
    out: &mut Vec<u8>,
) -> io::Result<()> {
    let mut warnings = Warnings { out, are_explained };
    warn_of_objects(parsed, system, &mut warnings)?;
    warn_of_calls(parsed, &mut warnings)
}

/// Shows the system, of that conformance class, that generation made of an OIL file and its
/// programs. Where it is asked for, the line of the text follows each warning. An error is want of
/// memory.
pub fn show(
    alloc: Global,
    system: &System,
    class: Class,
    oil: Source<'_>,
    asm: Source<'_>,
    are_explained: bool,
) -> Result<Shown, AllocError> {
    let Some(parts) = Parts::of(alloc, oil, asm)? else {
        return Err(AllocError);
    };
    let parsed = parts.parsed(oil, asm);
    let mut shown = Shown {
        listing: Vec::new(alloc),
        warnings: Vec::new(alloc),
    };
    let listed = write_listing(alloc, system, class, parsed.tree, &mut shown.listing);
    let warned = write_warnings(parsed, system, are_explained, &mut shown.warnings);
    if listed.is_err() || warned.is_err() {
        return Err(AllocError);
    }
    Ok(shown)
}
