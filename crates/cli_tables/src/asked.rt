//! What is asked of bounds.

ghost use Rattle.std.specs.Prelude.{IfOk};
ghost use Rattle.cli_tables.specs.Modes.{IsModeAsked};

use crate::naming::is_known;
use cli_answers::{Texts, mode_of};
use cli_requests::{BoundsLine, Request, SaidArriving, Wanted};
use kernel::BootFault;
use osek_base::{ModeId, System};
use std::alloc::Global;
use tracer::RunFault;
use view_figure_texts::Limits;

/// What is asked of bounds, where interrupts come as is said, and what they are held to.
#[derive(Clone, Copy)]
pub struct BoundsAsked<'v> {
    /// What asks it: it tells whether it is said what the figures mean.
    pub request: &'v Request<'v>,
    pub line: BoundsLine<'v>,
    /// How interrupts come.
    pub said: SaidArriving<'v>,
    pub limits: Limits<'v>,
}

/// The mode that a line names, or else the only one.
pub fn mode_id(
    alloc: Global,
    texts: &Texts,
    system: &System,
    mode: Option<&str>,
) -> Result<ModeId, RunFault>
    ensures { IfOk result (IsModeAsked texts.now.oil.items system.now.names.modes mode.entry) }
{
    let name = mode_of(alloc, texts, mode)?;
    match system.names().mode(name.as_str()) {
        Some(mode) => Ok(mode),
        None => Err(RunFault::Boot(BootFault::UnknownMode)),
    }
}

/// The figure of which a run is wanted, where nothing of the system has it.
pub fn unknown_figure<'v>(system: &System, line: BoundsLine<'v>) -> Option<Wanted<'v>> {
    let wanted = line.witness?;
    if is_known(system, wanted.name, wanted.column) {
        None
    } else {
        Some(wanted)
    }
}
