//! OSEK/VDX OS: system services; the modelled processor. What a tick executes.

ghost use Rattle.std.specs.Prelude.{◌≡◌};
ghost use Rattle.osek_base.specs.Executed.{StandsIn, executed_record};

use crate::ids::{Owner, Place};
use crate::system::System;
use crate::trace_event::{Outcome, TraceEvent};

/// An instruction that was executed: by whom, at what place of the program, and what it came to.
#[derive(Clone, Copy)]
pub struct Executed {
    pub owner: Owner,
    pub place: Place,
    pub outcome: Outcome,
}

impl Executed {
    /// Its record, with the instruction that the system has at its place.
    pub fn record_in(&self, system: &System) -> TraceEvent
        requires { StandsIn system.now self.now }
        ensures { result ≡ executed_record system.now self.now }
    {
        let instruction = system.instruction_at(self.owner, self.place);
        TraceEvent::Executed(self.owner, self.place, instruction, self.outcome)
    }
}
