//! When interrupts arrive and jobs come about, as it stands in the text.

use crate::description::{Arriving, Release};
use crate::fault::{Fault, Wrong, tell};
use crate::read_lists::{nearer_ticks, tell_ticks};
use crate::read_tables::{Found, Table, number_or, part, part_alone, ticks_or, want};
use osek_base::MAX_TICKS;
use std::alloc::{AllocError, Global};

/// Arrivals a random distance apart.
fn random<'a>(table: &Table<'a>, faults: &mut Vec<Fault<'a>>) -> Result<Arriving, AllocError> {
    want(table, "least", faults)?;
    want(table, "most", faults)?;
    let least = ticks_or(table, "least", (1, MAX_TICKS), 1, faults)?;
    let most = table
        .ticks("most", (1, MAX_TICKS), faults)?
        .unwrap_or(least);
    if let Some(Found { node, .. }) = table.find("least") {
        if least > most {
            tell(faults, node.place, Wrong::LeastAboveMost)?;
        }
    }
    let seed = number_or(table, "seed", (0, u32::MAX), 0, faults)?;
    Ok(Arriving::Random { least, most, seed })
}

/// Arrivals a period apart.
fn periodic<'a>(table: &Table<'a>, faults: &mut Vec<Fault<'a>>) -> Result<Arriving, AllocError> {
    let period = ticks_or(table, "period", (1, MAX_TICKS), 1, faults)?;
    let jitter = ticks_or(table, "jitter", (0, MAX_TICKS), 0, faults)?;
    if let (Some(Found { node, .. }), true) = (table.find("jitter"), jitter >= period) {
        tell(faults, node.place, Wrong::JitterTooGreat)?;
    }
    Ok(Arriving::Periodic {
        period,
        offset: ticks_or(table, "offset", (0, MAX_TICKS), 0, faults)?,
        jitter,
        seed: number_or(table, "seed", (0, u32::MAX), 0, faults)?,
    })
}

/// Arrivals at listed ticks.
fn listed<'a>(
    alloc: Global,
    table: &Table<'a>,
    list: Found<'a>,
    faults: &mut Vec<Fault<'a>>,
) -> Result<Arriving, AllocError> {
    tell_ticks(alloc, table.nodes, list.at, faults)?;
    let least = table.ticks("least", (1, MAX_TICKS), faults)?;
    if let (Some(least), Some(Found { node, .. })) = (least, table.find("least")) {
        if let Some((tick, next)) = nearer_ticks(alloc, table.nodes, list.at, least)? {
            tell(
                faults,
                node.place,
                Wrong::NearerThanLeast(tick, next, least),
            )?;
        }
    }
    Ok(Arriving::Listed {
        list: list.at,
        least,
    })
}

/// When an interrupt arrives.
pub fn arriving<'a>(
    alloc: Global,
    table: &Table<'a>,
    faults: &mut Vec<Fault<'a>>,
) -> Result<Arriving, AllocError> {
    part(table, "ticks", "period", faults)?;
    part(table, "least", "period", faults)?;
    part(table, "most", "ticks", faults)?;
    if table.find("period").is_some() {
        return periodic(table, faults);
    }
    part_alone(table, "offset", "period", faults)?;
    part_alone(table, "jitter", "period", faults)?;
    if let Some(list) = table.list("ticks", faults)? {
        return listed(alloc, table, list, faults);
    }
    if table.find("least").is_some() || table.find("most").is_some() {
        return random(table, faults);
    }
    Ok(Arriving::Never)
}

/// How the jobs of a task come about.
pub(crate) fn release<'a>(
    table: &Table<'a>,
    faults: &mut Vec<Fault<'a>>,
) -> Result<Release, AllocError> {
    part(table, "least", "period", faults)?;
    if table.find("period").is_some() {
        return Ok(Release::Periodic {
            period: ticks_or(table, "period", (1, MAX_TICKS), 1, faults)?,
            offset: ticks_or(table, "offset", (0, MAX_TICKS), 0, faults)?,
        });
    }
    part_alone(table, "offset", "period", faults)?;
    if table.find("least").is_some() || table.find("most").is_some() {
        return Ok(Release::Sporadic(random(table, faults)?));
    }
    part_alone(table, "seed", "least", faults)?;
    Ok(Release::Others)
}
