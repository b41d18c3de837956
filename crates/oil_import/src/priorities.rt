//! Priorities that are greater than those here: only their order counts, so they are numbered anew.

use crate::attributes::value_of;
use crate::bends::is_bent_routine;
use crate::braces::inside;
use crate::defaults::Defaults;
use crate::items::{Item, value_in};
use oil_reader::{AttributeName, Value};
use osek_base::{MAX_ROUTINE_PRIORITY, MAX_TASK_PRIORITY};
use std::alloc::{AllocError, Global};
use std::collections::BTreeSet;

/// The different priorities of the tasks and of the routines of a file, each none where they stay as
/// they are.
#[derive(Drop)]
pub(crate) struct Priorities {
    tasks: BTreeSet<u32>,
    routines: BTreeSet<u32>,
    /// That of a routine of category 1 or 3 that says none: above all of category 2.
    above_all: u32,
}

/// What objects have that say no priority.
#[derive(Clone, Copy)]
struct Unsaid {
    usual: u32,
    /// A routine of category 1 or 3.
    of_bent: u32,
}

/// The number that a word is.
pub(crate) fn number(text: &str) -> Option<u32> {
    match value_of(text) {
        Some(Value::Number(number)) => Some(number),
        _ => None,
    }
}

/// The priority that stands among attributes, which lie at that depth.
fn said(attributes: &[Item<'_>], depth: usize) -> Option<u32> {
    number(value_in(attributes, depth, "PRIORITY")?)
}

/// The priority above all of those of routines of category 2, `usual` of one that says none.
fn above_all(items: &[Item<'_>], depth: usize, defaults: &Defaults<'_>, usual: u32) -> u32 {
    let own = depth.saturating_add(1);
    let mut above: u32 = 0;
    for (at, item) in items.iter().enumerate() {
        if item.depth == depth && item.word == "ISR" {
            let attributes = inside(items, at, depth);
            if !is_bent_routine(attributes, own, defaults) {
                let priority = said(attributes, own).unwrap_or(usual);
                above = above.max(priority.saturating_add(1));
            }
        }
    }
    above
}

/// The different priorities of the objects of that word. There are none where all are at most
/// `most`, and where there are too many to be numbered anew.
fn collected(
    alloc: Global,
    items: &[Item<'_>],
    depth: usize,
    word: &str,
    most: u32,
    unsaid: Unsaid,
    defaults: &Defaults<'_>,
) -> Result<BTreeSet<u32>, AllocError> {
    let own = depth.saturating_add(1);
    let mut found = BTreeSet::new(alloc);
    for (at, item) in items.iter().enumerate() {
        if item.depth == depth && item.word == word {
            let attributes = inside(items, at, depth);
            let missing = if is_bent_routine(attributes, own, defaults) {
                unsaid.of_bent
            } else {
                unsaid.usual
            };
            let _ = found.insert(said(attributes, own).unwrap_or(missing))?;
        }
    }
    let is_above = found.iter().any(|priority| *priority > most);
    if is_above && found.len() <= (most as usize).saturating_add(1) {
        return Ok(found);
    }
    Ok(BTreeSet::new(alloc))
}

/// The priority of an object that has none.
fn default_number(defaults: &Defaults<'_>, attribute: AttributeName) -> u32 {
    match defaults.of(attribute) {
        Some(value) => number(value).unwrap_or(0),
        None => 0,
    }
}

/// How many of some priorities are below one.
fn below(all: &BTreeSet<u32>, priority: u32) -> u32 {
    let mut below: u32 = 0;
    for other in all {
        if *other < priority {
            below = below.saturating_add(1);
        }
    }
    below
}

impl Priorities {
    /// Those of the objects among items, which lie at that depth.
    pub(crate) fn new(
        alloc: Global,
        items: &[Item<'_>],
        depth: usize,
        defaults: &Defaults<'_>,
        is_bending: bool,
    ) -> Result<Self, AllocError> {
        let usual = default_number(defaults, AttributeName::TaskPriority);
        let of_tasks = Unsaid {
            usual,
            of_bent: usual,
        };
        let usual = default_number(defaults, AttributeName::IsrPriority);
        let is_unsaid = defaults.of(AttributeName::IsrPriority).is_none();
        let of_bent = if is_bending && is_unsaid {
            above_all(items, depth, defaults, usual)
        } else {
            usual
        };
        let of_routines = Unsaid { usual, of_bent };
        let (tasks, routines) = (MAX_TASK_PRIORITY as u32, MAX_ROUTINE_PRIORITY as u32);
        Ok(Priorities {
            tasks: collected(alloc, items, depth, "TASK", tasks, of_tasks, defaults)?,
            routines: collected(alloc, items, depth, "ISR", routines, of_routines, defaults)?,
            above_all: of_bent,
        })
    }

    /// What becomes of the priority of a routine of category 1 or 3 that says none.
    pub(crate) fn of_bent_routine(&self) -> u32 {
        if self.routines.contains(&self.above_all) {
            below(&self.routines, self.above_all)
        } else {
            self.above_all
        }
    }

    /// What becomes of the value of an attribute, where it is numbered anew.
    pub(crate) fn renumbered(&self, attribute: AttributeName, value: &str) -> Option<u32> {
        let all = match attribute {
            AttributeName::TaskPriority => &self.tasks,
            AttributeName::IsrPriority => &self.routines,
            _ => return None,
        };
        let priority = number(value)?;
        if !all.contains(&priority) {
            return None;
        }
        Some(below(all, priority))
    }
}
