//! Faults of an OIL text.

use crate::oil_objects::{explain_missing, explain_range, explain_twice, explain_unknown};
use crate::oil_texts::{explain_syntax, explain_token};
use crate::source::Source;
use crate::trees::tree_of;
use oil_reader::OilFault;
use std::alloc::Global;
use std::io::{self, Write};

/// Explains why a text is no OIL file. Want of memory has no explanation. An error is a failed
/// write, or want of memory for the explanation.
pub fn explain_oil<W: Write>(
    alloc: Global,
    source: Source<'_>,
    fault: OilFault,
    out: &mut W,
) -> io::Result<()> {
    let tree = match fault {
        OilFault::Token(place) => return explain_token(source, place, out),
        OilFault::Syntax(place) => return explain_syntax(alloc, source, place, out),
        _ => tree_of(alloc, source.text),
    };
    let Some(tree) = tree else {
        return Ok(());
    };
    match fault {
        OilFault::UnknownAttribute(place) => explain_unknown(alloc, source, &tree, place, out),
        OilFault::Missing(place) => explain_missing(alloc, source, &tree, place, out),
        OilFault::Twice(place) => explain_twice(source, &tree, place, out),
        OilFault::Range(place) => explain_range(source, &tree, place, out),
        OilFault::Token(_) | OilFault::Syntax(_) | OilFault::Memory => Ok(()),
    }
}
