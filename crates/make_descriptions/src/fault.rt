//! What is wrong in a description, and where.

use crate::times::Time;
use osek_base::MAX_NAME;
use std::alloc::AllocError;
use std::fmt::{self, Debug, Display, Formatter, Write};
use thiserror::Error;

/// Words in a row: `a, b and c`.
#[derive(Clone, Copy)]
pub struct Words(pub &'static [&'static str]);

impl Display for Words {
    fn fmt<W: Write>(&self, f: &mut Formatter<W>) -> fmt::Result {
        let count = self.0.len();
        for (number, word) in self.0.iter().enumerate() {
            if number > 0 {
                f.write_str(if number.saturating_add(1) == count {
                    " and "
                } else {
                    ", "
                })?;
            }
            f.write_str(*word)?;
        }
        Ok(())
    }
}

/// The word that is nearest to a wrong one, where one is near: `; nearest: a`.
#[derive(Clone, Copy)]
pub struct Nearest(pub Option<&'static str>);

impl Display for Nearest {
    fn fmt<W: Write>(&self, f: &mut Formatter<W>) -> fmt::Result {
        match self.0 {
            Some(word) => write!(f, "; nearest: {word}"),
            None => Ok(()),
        }
    }
}

/// What is wrong at a place.
#[derive(Clone, Copy, Drop, Error)]
pub enum Wrong<'a> {
    #[error("unknown section {0}; there are [[task]], [[interrupt]] and [[alarm]]")]
    UnknownSection(&'a str),
    #[error("unknown section {0}; beside an OIL file there are [[task]] and [[interrupt]]")]
    UnknownWork(&'a str),
    #[error("unknown key {0} of {1}{2}; there are {3}")]
    UnknownKey(&'a str, &'static str, Nearest, Words),
    #[error("{0} of {1} is told by the OIL file, not here")]
    OfOil(&'static str, &'static str),
    #[error("{0} is missing here")]
    Missing(&'static str),
    #[error("{0} has to be a text in quotation marks")]
    NoText(&'static str),
    #[error("{0} has to be a whole number from {1} to {2}")]
    NoNumber(&'static str, u32, u32),
    #[error("{0} is no time: a number and ns, us, ms or s, as 250us")]
    NoTime(&'a str),
    #[error("a time needs the length of a tick before all sections, as tick = \"10us\"")]
    NoTick,
    #[error("{0} is no whole number of ticks of {1}; nearest: {2} and {3}")]
    BetweenTicks(&'a str, Time, Time, Time),
    #[error("{0} is {1} ticks; {2} has to be a whole number from {3} to {4}")]
    TimeOutOfRange(&'a str, u64, &'static str, u32, u32),
    #[error("{0} has to be true or false")]
    NoBoolean(&'static str),
    #[error("{0} has to be a list in [ ]")]
    NoList(&'static str),
    #[error("{0} is no name: 1 to {MAX_NAME} letters, digits and _, no digit first, and no word of programs")]
    NoName(&'a str),
    #[error("schedule is FULL or NON, not {0}")]
    NoSchedule(&'a str),
    #[error("a step is a table in braces, as {{ work = 10 }}")]
    NoStep,
    #[error("a step is one of {0}; this has none")]
    EmptyStep(Words),
    #[error("{0} has to be true, or to be left out")]
    NoTrue(&'static str),
    #[error("a step is one thing: {0} and {1} stand in one")]
    TwoSteps(&'static str, &'static str),
    #[error("{0} stands twice among the names of its kind")]
    Twice(&'a str),
    #[error("what is made for this task is called {0}{1}, and that name stands already")]
    MadeTwice(&'static str, &'a str),
    #[error("what is made for this task is called {0}{1}, which has more than {MAX_NAME} letters")]
    MadeTooLong(&'static str, &'a str),
    #[error("{0} can't stand beside {1}")]
    Beside(&'static str, &'static str),
    #[error("{0} means nothing without {1}")]
    Without(&'static str, &'static str),
    #[error("no task is called {0}")]
    UnknownTask(&'a str),
    #[error("task {0} neither waits for {1} nor clears it, so it doesn't have that event")]
    NotItsEvent(&'a str, &'a str),
    #[error("no interrupt routine is called {0}")]
    UnknownRoutine(&'a str),
    #[error("no resource is called {0}")]
    UnknownResource(&'a str),
    #[error("task {0} doesn't list the resource {1}")]
    UnlistedResource(&'a str, &'a str),
    #[error("{0} is an internal resource: its tasks have it without getting it")]
    InternalResource(&'a str),
    #[error("RES_SCHEDULER isn't there: USERESSCHEDULER is FALSE")]
    NoScheduler,
    #[error("no event is called {0}")]
    UnknownEvent(&'a str),
    #[error("task {0} doesn't list the event {1}")]
    UnlistedEvent(&'a str, &'a str),
    #[error("a routine can't {0}: {1}")]
    ByRoutine(&'static str, &'static str),
    #[error("a task that has events has activations = 1")]
    ExtendedActivations,
    #[error("within needs an alarm and an event that this file makes; an OIL file has its own")]
    LimitBesideOil,
    #[error("{0} is held already")]
    HeldAlready(&'a str),
    #[error("{0} isn't the resource that was got last and is held")]
    NotGotLast(&'a str),
    #[error("{0} is still held at the end of this body")]
    StillHeld(&'a str),
    #[error("{0} is held here, so the task can't wait, chain or schedule")]
    Holds(&'a str),
    #[error("interrupts are off here, so only work, repeat and suspend go on")]
    WhileSuspended,
    #[error("a task that is NON has no internal resource")]
    InternalOfNon,
    #[error("no mode is called {0}")]
    UnknownMode(&'a str),
    #[error("no step behind chain is reached")]
    BehindChain,
    #[error("repeat stands in at most one other repeat")]
    TooDeep,
    #[error("a body that is looped needs a step")]
    EmptyLoop,
    #[error("the program would have more than 1024 instructions")]
    TooLong,
    #[error("ticks {0} and {1} are nearer than least = {2}")]
    NearerThanLeast(u32, u32, u32),
    #[error("least is above most")]
    LeastAboveMost,
    #[error("jitter has to be below the period")]
    JitterTooGreat,
    #[error("there are more than {0} {1}")]
    TooMany(usize, &'static str),
}

impl Debug for Wrong<'_> {
    fn fmt<W: Write>(&self, f: &mut Formatter<W>) -> fmt::Result {
        Display::fmt(self, f)
    }
}

/// What is wrong, and the place in bytes.
#[derive(Clone, Copy, Drop)]
pub struct Fault<'a> {
    pub place: usize,
    pub wrong: Wrong<'a>,
}

/// Adds a fault to those that are told.
pub fn tell<'a>(
    faults: &mut Vec<Fault<'a>>,
    place: usize,
    wrong: Wrong<'a>,
) -> Result<(), AllocError> {
    faults.push(Fault { place, wrong })?;
    Ok(())
}
