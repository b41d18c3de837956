//! How a search has come to what it tells, of which contracts see nothing: what is found by it is
//! tried by a run.

use crate::entry::{Entry, Kept, short};
use crate::raised::Raised;
use osek_base::System;
use search_peaks::Peaks;
use std::alloc::{AllocError, Global};
use view_measures::{Figure, figures_of};

/// What a tick came from: the entry of its node, if there is one, and the routines that arrive.
#[derive(Clone, Copy)]
struct Step {
    before: Option<usize>,
    set: u64,
}

/// The tick in which a figure was greatest first.
#[derive(Clone, Copy)]
struct Origin {
    figure: Figure,
    value: u32,
    step: Step,
}

/// How a search has come to each of its nodes, and to the greatest figures.
#[derive(Drop)]
pub struct Trails {
    entries: Vec<Kept>,
    raised: Vec<Raised>,
    origins: Vec<Origin>,
    /// The tick in which each service was answered other than E_OK first, in the order of the
    /// peaks.
    failed: Vec<Step>,
    last: Step,
}

/// No tick was made.
const NO_STEP: Step = Step {
    before: None,
    set: 0,
};

impl Trails {
    /// Nothing was searched yet.
    pub fn new(alloc: Global, system: &System) -> Result<Self, AllocError> {
        let mut origins = Vec::new(alloc);
        for figure in &figures_of(alloc, system)? {
            origins.push(Origin {
                figure: *figure,
                value: 0,
                step: NO_STEP,
            })?;
        }
        Ok(Trails {
            entries: Vec::new(alloc),
            raised: Vec::new(alloc),
            origins,
            failed: Vec::new(alloc),
            last: NO_STEP,
        })
    }

    /// A tick was made from the node of an entry, in which the routines of a set arrive. Where
    /// peaks rise by it, it is the first that shows them. An error is want of memory.
    pub fn came(
        &mut self,
        before: Option<usize>,
        set: u64,
        rises: bool,
        peaks: &Peaks,
    ) -> Result<(), AllocError> {
        self.last = Step { before, set };
        if rises { self.compare(peaks) } else { Ok(()) }
    }

    /// The last tick may have shown more than was seen before.
    fn compare(&mut self, peaks: &Peaks) -> Result<(), AllocError> {
        let step = self.last;
        for origin in self.origins.iter_mut() {
            let value = peaks.told(origin.figure);
            if value > origin.value {
                origin.value = value;
                origin.step = step;
            }
        }
        for _service in self.failed.len()..peaks.failures().len() {
            self.failed.push(step)?;
        }
        Ok(())
    }

    /// One more entry, and its number.
    fn push(&mut self, entry: Entry) -> Result<usize, AllocError> {
        let number = self.entries.len();
        self.entries.push(Kept::of(entry))?;
        Ok(number)
    }

    /// The node that the last tick has made is kept. Where it was joined with one that had an
    /// entry, it raised some labels of that. Answers the number of the entry that tells it.
    pub fn enter(
        &mut self,
        older: Option<usize>,
        raised: Option<Raised>,
    ) -> Result<usize, AllocError> {
        let step = self.last;
        let entry = match step.before {
            Some(before) => Entry::Tick {
                before: short(before as u64),
                set: short(step.set),
            },
            None => Entry::First,
        };
        let number = self.push(entry)?;
        match (older, raised) {
            (Some(older), Some(raised)) => {
                let place = self.raised.len();
                self.raised.push(raised)?;
                self.push(Entry::Joined {
                    older: short(older as u64),
                    raised: short(place as u64),
                })
            }
            _ => Ok(number),
        }
    }

    /// The tick in which a figure was greatest first; none where it is 0.
    fn origin(&self, figure: Figure) -> Option<Step> {
        for origin in &self.origins {
            if origin.figure.is_same(figure) && origin.value > 0 {
                return Some(origin.step);
            }
        }
        None
    }

    /// Which of two entries tells how the label of a figure came to be, if it goes by one.
    fn side(&self, number: usize, older: u32, raised: u32, figure: Option<Figure>) -> usize {
        match (self.raised.get(raised as usize), figure) {
            (Some(raised), Some(figure)) if raised.has(figure) => number.saturating_sub(1),
            _ => older as usize,
        }
    }

    /// How many entries there are.
    pub fn len(&self) -> usize {
        self.entries.len()
    }

    /// The entry of a number, if there is one.
    fn entry(&self, number: usize) -> Option<Entry> {
        let kept = self.entries.get(number)?;
        Some(kept.entry())
    }

    /// The tick by which the state of an entry was made last: the entry before it, and the set of
    /// routines that arrive. None for the first.
    pub fn last_tick(&self, number: usize) -> Option<(usize, u64)> {
        let made = match self.entry(number)? {
            Entry::Joined { .. } => self.entry(number.checked_sub(1)?)?,
            entry => entry,
        };
        match made {
            Entry::Tick { before, set } => Some((before as usize, u64::from(set))),
            Entry::First | Entry::Joined { .. } => None,
        }
    }

    /// The sets of routines that arrive in the ticks of a run that may show what is told of a
    /// figure, the last tick first. An error is want of memory.
    pub fn path(&self, alloc: Global, figure: Figure) -> Result<Vec<u64>, AllocError> {
        match self.origin(figure) {
            Some(step) => self.path_to(alloc, step, Some(figure)),
            None => Ok(Vec::new(alloc)),
        }
    }

    /// The same of a run in whose last tick the service of a number among the peaks' is answered
    /// other than E_OK.
    pub fn path_of_service(&self, alloc: Global, number: usize) -> Result<Vec<u64>, AllocError> {
        match self.failed.get(number) {
            Some(step) => self.path_to(alloc, *step, None),
            None => Ok(Vec::new(alloc)),
        }
    }

    /// The sets of routines that arrive in the ticks up to a step, the last tick first, by which
    /// the label of a figure came to be, if it goes by one.
    fn path_to(
        &self,
        alloc: Global,
        step: Step,
        figure: Option<Figure>,
    ) -> Result<Vec<u64>, AllocError> {
        let mut sets = Vec::new(alloc);
        sets.push(step.set)?;
        let mut at = step.before;
        for _entry in 0..self.entries.len() {
            let Some(number) = at else {
                return Ok(sets);
            };
            at = match self.entry(number) {
                Some(Entry::Tick { before, set }) => {
                    sets.push(u64::from(set))?;
                    Some(before as usize)
                }
                Some(Entry::Joined { older, raised }) => {
                    Some(self.side(number, older, raised, figure))
                }
                Some(Entry::First) | None => None,
            };
        }
        Ok(sets)
    }
}
