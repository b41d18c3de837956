//! What is wrong in a body, step by step: what its caller may not do, and resources that aren't got
//! and released in pairs.

use crate::description::{Body, Does, LIMITED_WAIT};
use crate::fault::{Fault, Wrong, tell};
use crate::names::is_among;
use crate::work::Work;
use osek_base::MAX_INSTRUCTIONS;
use std::alloc::{AllocError, Global};

/// What is held at a step, and how much of it was held where each open repeat began.
#[derive(Drop)]
struct Holding<'a> {
    held: Vec<&'a str>,
    marks: Vec<usize>,
    /// Whether a release was wrong, so that what is held behind it isn't known.
    is_astray: bool,
}

impl<'a> Holding<'a> {
    fn new(alloc: Global) -> Self {
        Holding {
            held: Vec::new(alloc),
            marks: Vec::new(alloc),
            is_astray: false,
        }
    }

    fn get(&mut self, name: &'a str) -> Result<Option<Wrong<'a>>, AllocError> {
        if is_among(self.held.as_slice(), name) {
            return Ok(Some(Wrong::HeldAlready(name)));
        }
        self.held.push(name)?;
        Ok(None)
    }

    fn release(&mut self, name: &'a str) -> Option<Wrong<'a>> {
        let outside = self.marks.last().copied().unwrap_or(0);
        let is_last = match self.held.last() {
            Some(last) => *last == name && self.held.len() > outside,
            None => false,
        };
        if !is_last {
            self.is_astray = true;
            return Some(Wrong::NotGotLast(name));
        }
        let _ = self.held.pop();
        None
    }

    /// What is held more than where the repeat began that ends here.
    fn end(&mut self) -> Option<Wrong<'a>> {
        let outside = self.marks.pop().unwrap_or(0);
        let left = self.held.get(outside).copied()?;
        self.held.truncate(outside);
        Some(Wrong::StillHeld(left))
    }

    fn any(&self) -> Option<Wrong<'a>> {
        let last = self.held.last().copied()?;
        Some(Wrong::Holds(last))
    }

    /// What is wrong with a step of a task.
    fn step(&mut self, does: Does<'a>) -> Result<Option<Wrong<'a>>, AllocError> {
        match does {
            Does::Get(name) => self.get(name),
            Does::Release(name) => Ok(self.release(name)),
            Does::Wait { .. } | Does::Chain(_) | Does::Schedule => Ok(self.any()),
            Does::Repeat(_) => {
                self.marks.push(self.held.len())?;
                Ok(None)
            }
            Does::End => Ok(self.end()),
            _ => Ok(None),
        }
    }
}

/// What a routine can't do, and why.
fn barred<'a>(does: Does<'_>) -> Option<Wrong<'a>> {
    match does {
        Does::Get(_) => Some(Wrong::ByRoutine("get", RESOURCES_OF_TASKS)),
        Does::Release(_) => Some(Wrong::ByRoutine("release", RESOURCES_OF_TASKS)),
        Does::Wait { .. } => Some(Wrong::ByRoutine("wait", EVENTS_OF_TASKS)),
        Does::Clear(_) => Some(Wrong::ByRoutine("clear", EVENTS_OF_TASKS)),
        Does::Chain(_) => Some(Wrong::ByRoutine("chain", "it isn't a job of a task")),
        Does::Schedule => Some(Wrong::ByRoutine("schedule", "it isn't a job of a task")),
        _ => None,
    }
}

const RESOURCES_OF_TASKS: &str = "only tasks get resources";

const EVENTS_OF_TASKS: &str = "only tasks have events";

/// Tells what is wrong in the body of a routine.
pub fn tell_routine<'a>(body: &Body<'a>, faults: &mut Vec<Fault<'a>>) -> Result<(), AllocError> {
    for step in &body.steps {
        if let Some(wrong) = barred(step.does) {
            tell(faults, step.place, wrong)?;
        }
    }
    tell_suspended(body, faults)?;
    tell_length(body, faults)
}

/// Tells of each step that a service is while interrupts are off: it would be refused.
fn tell_suspended<'a>(body: &Body<'a>, faults: &mut Vec<Fault<'a>>) -> Result<(), AllocError> {
    let mut depth: usize = 0;
    for step in &body.steps {
        match step.does {
            Does::Suspend => depth = depth.saturating_add(1),
            Does::Resume => depth = depth.saturating_sub(1),
            Does::Work(_) | Does::Repeat(_) | Does::End => {}
            _ if depth > 0 => tell(faults, step.place, Wrong::WhileSuspended)?,
            _ => {}
        }
    }
    Ok(())
}

/// Tells of what is held at the end of a body, and of a loop without a step.
fn tell_end<'a>(
    body: &Body<'a>,
    holding: &Holding<'a>,
    faults: &mut Vec<Fault<'a>>,
) -> Result<(), AllocError> {
    let place = body.place;
    if let (Some(first), false) = (holding.held.first(), holding.is_astray) {
        tell(faults, place, Wrong::StillHeld(*first))?;
    }
    if body.is_looped && body.steps.is_empty() {
        tell(faults, place, Wrong::EmptyLoop)?;
    }
    Ok(())
}

/// Tells what is wrong in the body of a task.
pub fn tell_task<'a>(
    alloc: Global,
    body: &Body<'a>,
    faults: &mut Vec<Fault<'a>>,
) -> Result<(), AllocError> {
    let mut holding = Holding::new(alloc);
    let mut has_chained = false;
    for step in &body.steps {
        let place = step.place;
        if has_chained {
            tell(faults, place, Wrong::BehindChain)?;
        }
        has_chained = step.does.is_chain();
        if let Some(wrong) = holding.step(step.does)? {
            tell(faults, place, wrong)?;
        }
    }
    tell_end(body, &holding, faults)?;
    tell_suspended(body, faults)?;
    tell_length(body, faults)
}

/// How many instructions a step is.
fn instructions(does: Does<'_>) -> usize {
    match does {
        Does::Work(ticks) => Work::of(ticks).instructions(),
        Does::Repeat(_) | Does::End => 2,
        _ if does.is_limited_wait() => LIMITED_WAIT,
        _ => 1,
    }
}

/// Tells of a body whose program would be too long: behind the steps stand one or two instructions.
fn tell_length<'a>(body: &Body<'a>, faults: &mut Vec<Fault<'a>>) -> Result<(), AllocError> {
    let mut count: usize = if body.is_looped { 1 } else { 2 };
    for step in &body.steps {
        count = count.saturating_add(instructions(step.does));
    }
    if count > MAX_INSTRUCTIONS {
        let wrong = Wrong::TooLong;
        let place = body.place;
        tell(faults, place, wrong)?;
    }
    Ok(())
}
