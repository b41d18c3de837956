//! How interrupts come, as a line or a file says it.

use crate::fault::Fault;
use crate::help;
use clap::ArgMatches;
use clap::error::ErrorKind;
use osek_base::MAX_TICKS;
use std::alloc::{AllocError, Global};

/// Ticks that are said of the routine of a name.
#[derive(Clone, Copy)]
pub struct RoutineTicks<'a> {
    pub routine: &'a str,
    pub ticks: u32,
}

/// What is said of how interrupts come, routine by routine; of which nothing is said, one may come
/// in each tick.
#[derive(Clone, Copy)]
pub struct SaidArriving<'a> {
    /// Their period: two come as many ticks apart, but for jitter; 1 to 1,000,000 ticks.
    pub apart: &'a [RoutineTicks<'a>],
    /// By how much each may come later than its period says, 0 to 1,000,000 ticks.
    pub jitter: &'a [RoutineTicks<'a>],
    /// How many ticks apart two come in any case, 1 to the period.
    pub least: &'a [RoutineTicks<'a>],
    /// Those that never come; their ticks are 0.
    pub never: &'a [RoutineTicks<'a>],
}

/// The ticks of a text, ROUTINE=TICKS, from the least on.
fn ticks_of(text: &str, least: u32) -> Option<RoutineTicks<'_>> {
    let (routine, ticks) = text.split_once('=')?;
    let ticks = ticks.parse::<u32>().ok()?;
    (least <= ticks && ticks <= MAX_TICKS).then_some(RoutineTicks { routine, ticks })
}

/// What a line says by an option; nothing where its subcommand has none of that name.
pub(crate) fn said_by<'a>(
    alloc: Global,
    matches: &ArgMatches<'a>,
    option: &str,
    least: u32,
    wrong: &'static str,
) -> Result<Vec<RoutineTicks<'a>>, Fault> {
    let mut said = Vec::new(alloc);
    if let Some(texts) = matches.get_strs(option) {
        for text in texts {
            match ticks_of(text, least) {
                Some(ticks) => said.push(ticks)?,
                None => return Err(Fault::Refused(ErrorKind::ValueValidation, wrong)),
            }
        }
    }
    Ok(said)
}

/// The routines that a line leaves out.
pub(crate) fn never<'a>(
    alloc: Global,
    matches: &ArgMatches<'a>,
) -> Result<Vec<RoutineTicks<'a>>, AllocError> {
    let mut never = Vec::new(alloc);
    if let Some(names) = matches.get_strs("never") {
        for name in names {
            never.push(RoutineTicks {
                routine: name,
                ticks: 0,
            })?;
        }
    }
    Ok(never)
}
