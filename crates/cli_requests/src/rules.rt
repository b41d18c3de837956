//! What bounds and figures go by: how interrupts come, what is held to, and how far a search goes.

use crate::arriving::{RoutineTicks, SaidArriving};
use crate::bounds_line::{USUAL_LONGEST, USUAL_STATES};
use std::alloc::{AllocError, Global};
use view_figure_texts::{Limit, Limits};

/// What a command line, or a file, says of how interrupts come, of limits, and of how far a search
/// goes.
#[derive(Drop)]
pub struct Rules<'a> {
    /// How interrupts come, as [`SaidArriving`] has it.
    pub apart: Vec<RoutineTicks<'a>>,
    pub jitter: Vec<RoutineTicks<'a>>,
    pub least: Vec<RoutineTicks<'a>>,
    pub never: Vec<RoutineTicks<'a>>,
    /// The limits on times that figures are held to.
    pub times: Vec<Limit<'a>>,
    /// Whether a lost interrupt is told by the exit status.
    pub no_loss: bool,
    /// Whether a refused activation or action is.
    pub no_refusal: bool,
    /// The time from which on none is told, 1 to 65,535 ticks; None where nothing is said.
    pub longest: Option<u32>,
    /// How many states may be kept, 1 to 100,000,000; None where nothing is said.
    pub states: Option<u32>,
}

/// Whether something is said of a routine.
fn is_said(said: &[RoutineTicks<'_>], routine: &str) -> bool {
    for ticks in said {
        if ticks.routine == routine {
            return true;
        }
    }
    false
}

/// Adds what is said, and behind it what others say of routines of which it says nothing.
fn add_said<'a>(
    all: &mut Vec<RoutineTicks<'a>>,
    said: &[RoutineTicks<'a>],
    others: &[RoutineTicks<'a>],
) -> Result<(), AllocError> {
    for ticks in said {
        all.push(*ticks)?;
    }
    for ticks in others {
        if !is_said(said, ticks.routine) {
            all.push(*ticks)?;
        }
    }
    Ok(())
}

impl<'a> Rules<'a> {
    /// Rules that say nothing.
    pub fn none(alloc: Global) -> Self {
        Rules {
            apart: Vec::new(alloc),
            jitter: Vec::new(alloc),
            least: Vec::new(alloc),
            never: Vec::new(alloc),
            times: Vec::new(alloc),
            no_loss: false,
            no_refusal: false,
            longest: None,
            states: None,
        }
    }

    /// How interrupts come.
    pub fn said(&'a self) -> SaidArriving<'a> {
        SaidArriving {
            apart: self.apart.as_slice(),
            jitter: self.jitter.as_slice(),
            least: self.least.as_slice(),
            never: self.never.as_slice(),
        }
    }

    /// What figures are held to.
    pub fn limits(&'a self) -> Limits<'a> {
        Limits {
            times: self.times.as_slice(),
            no_loss: self.no_loss,
            no_refusal: self.no_refusal,
        }
    }

    /// The time from which on none is told, in ticks.
    pub fn longest_time(&self) -> u32 {
        self.longest.unwrap_or(USUAL_LONGEST)
    }

    /// How many states may be kept.
    pub fn most_states(&self) -> u32 {
        self.states.unwrap_or(USUAL_STATES)
    }

    /// Whether a limit of that name is said.
    fn has_limit(&self, name: &str) -> bool {
        for limit in &self.times {
            if limit.name == name {
                return true;
            }
        }
        false
    }

    /// Adds what other rules say of that of which nothing is said here, but of how interrupts come.
    fn add(&mut self, others: &Rules<'a>) -> Result<(), AllocError> {
        for limit in &others.times {
            if !self.has_limit(limit.name) {
                self.times.push(*limit)?;
            }
        }
        self.no_loss = self.no_loss || others.no_loss;
        self.no_refusal = self.no_refusal || others.no_refusal;
        self.longest = self.longest.or(others.longest);
        self.states = self.states.or(others.states);
        Ok(())
    }

    /// These, in their order, and behind them what others say of that of which nothing is said
    /// here.
    pub fn over(&self, alloc: Global, others: &Rules<'a>) -> Result<Rules<'a>, AllocError> {
        let mut rules = Rules::none(alloc);
        add_said(&mut rules.apart, &self.apart, &others.apart)?;
        add_said(&mut rules.jitter, &self.jitter, &others.jitter)?;
        add_said(&mut rules.least, &self.least, &others.least)?;
        add_said(&mut rules.never, &self.never, &others.never)?;
        for limit in &self.times {
            rules.times.push(*limit)?;
        }
        rules.no_loss = self.no_loss;
        rules.no_refusal = self.no_refusal;
        rules.longest = self.longest;
        rules.states = self.states;
        rules.add(others)?;
        Ok(rules)
    }
}
