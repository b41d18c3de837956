//! The way to a state that a search visits.

use crate::bases::Spot;
use crate::stops::Stops;
use search_nodes::Trails;
use std::alloc::AllocError;

/// A tick on the way.
#[derive(Clone, Copy)]
pub(crate) struct Passed {
    /// The routines that arrive.
    pub(crate) set: u64,
    /// The entry of the state that it makes.
    pub(crate) entry: usize,
}

/// Whose machine the way begins with.
#[derive(Clone, Copy)]
pub(crate) enum Start {
    /// That of the state that was visited last, which stands at a spot.
    Here(Spot),
    /// The one at a place of the stops.
    Stop(usize),
    /// The one from which that of the state is made, whose state stands at a spot.
    Base(Spot),
}

/// Where the state of an entry has a machine.
fn start_at(entry: usize, here: Option<Spot>, stops: &Stops<'_>, base: Spot) -> Option<Start> {
    match here {
        Some(spot) if spot.entry == entry => return Some(Start::Here(spot)),
        _ => {}
    }
    if let Some(place) = stops.find(entry) {
        return Some(Start::Stop(place));
    }
    if base.entry == entry {
        return Some(Start::Base(base));
    }
    None
}

/// Leaves the ticks from the nearest state that has a machine to that of an entry, the last tick
/// first, and answers where they start.
pub(crate) fn put_way(
    trails: &Trails,
    entry: usize,
    here: Option<Spot>,
    stops: &Stops<'_>,
    base: Spot,
    way: &mut Vec<Passed>,
) -> Result<Option<Start>, AllocError> {
    way.clear();
    let mut at = entry;
    for _entry in 0..trails.len() {
        if let Some(start) = start_at(at, here, stops, base) {
            return Ok(Some(start));
        }
        let Some((before, set)) = trails.last_tick(at) else {
            return Ok(None);
        };
        way.push(Passed { set, entry: at })?;
        at = before;
    }
    Ok(None)
}
