//! How far a search for bounds came.

use crate::coming::write_coming;
use crate::table::write_tables;
use cli_requests::SaidArriving;
use osek_base::System;
use search::{Obstacle, Outcome, Progress};
use search_witnesses::Findings;
use std::io::{self, Write};

/// The word of what a search stopped at.
fn reason(obstacle: Obstacle) -> &'static str {
    match obstacle {
        Obstacle::Nodes => "states",
        Obstacle::Visits => "visits",
        Obstacle::NoPlace => "place",
    }
}

/// Writes how many states a system comes to. An error is a failed write.
fn write_end<W: Write>(progress: Progress, out: &mut W) -> io::Result<()> {
    writeln!(out, "decided: {} states", progress.nodes)
}

/// Writes whether a search has come to its end, and how many states it kept. An error is a failed
/// write.
pub fn write_outcome<W: Write>(outcome: Outcome, out: &mut W) -> io::Result<()> {
    match outcome {
        Outcome::Decided(progress) => write_end(progress, out),
        Outcome::Undecided(obstacle, progress) => write_undecided(obstacle, progress, out),
    }
}

/// Writes how many states a system comes to, how interrupts come, and the tables. An error is a
/// failed write.
pub fn write_decided<W: Write>(
    system: &System,
    said: SaidArriving<'_>,
    found: &Findings,
    progress: Progress,
    out: &mut W,
) -> io::Result<()> {
    write_end(progress, out)?;
    write_coming(system, said, out)?;
    write_tables(system, found, out)
}

/// Writes how interrupts come, and the tables of what no run of so many ticks shows more of as a search
/// that stopped before its end has tried, where these are any. An error is a failed write.
pub fn write_up_to<W: Write>(
    system: &System,
    said: SaidArriving<'_>,
    found: &Findings,
    progress: Progress,
    out: &mut W,
) -> io::Result<()> {
    write_coming(system, said, out)?;
    if progress.levels == 0 {
        return Ok(());
    }
    writeln!(out, "up to {} ticks:", progress.levels)?;
    write_tables(system, found, out)
}

/// Writes how far a search came that stopped before its end, and at what. An error is a failed
/// write.
pub fn write_undecided<W: Write>(
    obstacle: Obstacle,
    progress: Progress,
    out: &mut W,
) -> io::Result<()> {
    writeln!(
        out,
        "undecided: {} states, {} open: {}",
        progress.nodes,
        progress.open_nodes,
        reason(obstacle)
    )
}
