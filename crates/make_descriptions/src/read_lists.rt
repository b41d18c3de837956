//! Lists of a description, as they stand in the text: names of events or modes, and ticks.

use crate::fault::{Fault, Wrong, tell};
use crate::lists::items;
use crate::node::{Kind, Node, number_of};
use crate::read_tables::{Found, is_name, ticks_of};
use osek_base::MAX_TICKS;
use std::alloc::{AllocError, Global};
use std::collections::BTreeSet;

/// Tells of each value of a list that is no name, and of a list that has none. `what` says of what
/// it is the name.
pub(crate) fn tell_names<'a>(
    alloc: Global,
    nodes: &'a [Node],
    list: Found<'a>,
    what: &'static str,
    faults: &mut Vec<Fault<'a>>,
) -> Result<(), AllocError> {
    let values = items(alloc, nodes, list.at)?;
    if values.is_empty() {
        tell(faults, list.node.place, Wrong::Missing(what))?;
    }
    for node in values {
        let place = node.place;
        if node.kind != Kind::Text {
            tell(faults, place, Wrong::NoText(what))?;
        } else if !is_name(node.text.as_str()) {
            tell(faults, place, Wrong::NoName(node.text.as_str()))?;
        }
    }
    Ok(())
}

/// Tells of each value of a list that is no tick.
pub(crate) fn tell_ticks<'a>(
    alloc: Global,
    nodes: &'a [Node],
    at: usize,
    faults: &mut Vec<Fault<'a>>,
) -> Result<(), AllocError> {
    for node in items(alloc, nodes, at)? {
        let _ = ticks_of(nodes, node, "a tick", (0, MAX_TICKS - 1), faults)?;
    }
    Ok(())
}

/// The first two different ticks of a list that are nearer than that, in their order.
pub(crate) fn nearer_ticks(
    alloc: Global,
    nodes: &[Node],
    at: usize,
    least: u32,
) -> Result<Option<(u32, u32)>, AllocError> {
    let mut ticks = BTreeSet::new(alloc);
    for node in items(alloc, nodes, at)? {
        if let Some(tick) = number_of(node) {
            let _ = ticks.insert(tick)?;
        }
    }
    let mut before: Option<u32> = None;
    for tick in &ticks {
        if let Some(last) = before {
            if tick.saturating_sub(last) < least {
                return Ok(Some((last, *tick)));
            }
        }
        before = Some(*tick);
    }
    Ok(None)
}
