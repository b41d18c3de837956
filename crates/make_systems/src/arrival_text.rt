//! The arrival list of a description.

use make_descriptions::description::{Arriving, Described};
use make_descriptions::lists::items;
use make_descriptions::node::{Node, number_of};
use make_descriptions::routines::routines;
use osek_base::MAX_ARRIVALS;
use rand_core::{Rng, SeedableRng};
use rand_pcg::Pcg32;
use std::alloc::{AllocError, Global};
use std::collections::BTreeSet;
use std::io::{self, Write};

/// Arrivals in their order: the tick, and the number of the routine.
pub type Arrivals = BTreeSet<(u32, usize)>;

/// Arrivals of one routine, before a tick.
#[derive(Clone, Copy)]
struct Source {
    routine: usize,
    end: u32,
}

/// A number from 0 to another.
fn up_to(rng: &mut Pcg32, most: u32) -> u32 {
    match most.checked_add(1) {
        Some(count) => rng.next_u32().checked_rem(count).unwrap_or(0),
        None => rng.next_u32(),
    }
}

impl Source {
    /// Adds an arrival. False where there is one more than a list may have.
    fn add(self, tick: u32, found: &mut Arrivals) -> Result<bool, AllocError> {
        if tick < self.end {
            let _ = found.insert((tick, self.routine))?;
        }
        Ok(found.len() <= MAX_ARRIVALS)
    }

    fn periodic(
        self,
        period: u32,
        offset: u32,
        jitter: u32,
        seed: u32,
        found: &mut Arrivals,
    ) -> Result<bool, AllocError> {
        let mut rng = Pcg32::seed_from_u64(seed as u64);
        let mut tick = offset;
        for _ in 0..self.end {
            if tick >= self.end {
                break;
            }
            let late = up_to(&mut rng, jitter);
            if !self.add(tick.saturating_add(late), found)? {
                return Ok(false);
            }
            tick = tick.saturating_add(period);
        }
        Ok(true)
    }

    fn random(
        self,
        least: u32,
        most: u32,
        seed: u32,
        found: &mut Arrivals,
    ) -> Result<bool, AllocError> {
        let mut rng = Pcg32::seed_from_u64(seed as u64);
        let mut tick: u32 = 0;
        for _ in 0..self.end {
            let more = up_to(&mut rng, most.saturating_sub(least));
            tick = tick.saturating_add(least).saturating_add(more);
            if tick >= self.end {
                break;
            }
            if !self.add(tick, found)? {
                return Ok(false);
            }
        }
        Ok(true)
    }

    /// Adds the arrivals at listed ticks, which are all before the end of every run.
    fn listed(
        self,
        alloc: Global,
        nodes: &[Node],
        list: usize,
        found: &mut Arrivals,
    ) -> Result<bool, AllocError> {
        for node in items(alloc, nodes, list)? {
            let _ = found.insert((number_of(node).unwrap_or(0), self.routine))?;
            if found.len() > MAX_ARRIVALS {
                return Ok(false);
            }
        }
        Ok(true)
    }

    fn add_all(
        self,
        alloc: Global,
        nodes: &[Node],
        arriving: Arriving,
        found: &mut Arrivals,
    ) -> Result<bool, AllocError> {
        match arriving {
            Arriving::Never => Ok(true),
            Arriving::Periodic {
                period,
                offset,
                jitter,
                seed,
            } => self.periodic(period, offset, jitter, seed, found),
            Arriving::Listed { list, .. } => self.listed(alloc, nodes, list, found),
            Arriving::Random { least, most, seed } => self.random(least, most, seed, found),
        }
    }
}

/// All arrivals of a description, none where there are more than a list may have.
pub fn arrivals(
    alloc: Global,
    nodes: &[Node],
    described: &Described<'_>,
) -> Result<Option<Arrivals>, AllocError> {
    let mut found = BTreeSet::new(alloc);
    let all = routines(alloc, described)?;
    for (number, routine) in all.iter().enumerate() {
        let source = Source {
            routine: number,
            end: described.ticks,
        };
        if !source.add_all(alloc, nodes, routine.arriving, &mut found)? {
            return Ok(None);
        }
    }
    Ok(Some(found))
}

/// Writes an arrival list. An error is a failed write or want of memory.
pub fn write_arrivals<W: Write>(
    alloc: Global,
    described: &Described<'_>,
    arrivals: &Arrivals,
    out: &mut W,
) -> io::Result<()> {
    let all = routines(alloc, described)?;
    for (tick, number) in arrivals {
        if let Some(routine) = all.get(*number) {
            writeln!(out, "{tick} {}{}", routine.front, routine.name)?;
        }
    }
    Ok(())
}
