//! Figures: what measures tell of single things.

ghost use Rattle.std.specs.Prelude.{◌≡◌};
ghost use Rattle.view_measures.specs.Measures.{is_of, is_same};

use crate::kind::KINDS;
use crate::measure::Measure;
use osek_base::System;
use std::alloc::{AllocError, Global};

/// What a measure tells of a thing, by the thing's number in declaration order. RES_SCHEDULER
/// stands behind the declared resources; the system itself has the number 0.
#[derive(Clone, Copy)]
pub struct Figure {
    pub measure: Measure,
    pub number: usize,
}

impl Figure {
    /// Whether it is the same as another one.
    pub fn is_same(self, other: Figure) -> bool
        ensures { result ≡ is_same self other }
    {
        self.measure.place() == other.measure.place() && self.number == other.number
    }

    /// Whether a system has its thing.
    pub fn is_of(self, system: &System) -> bool
        ensures { result ≡ is_of system.now self }
    {
        self.number < self.measure.kind().count(system)
    }
}

/// The figures of all things of a system, kind by kind. An error is want of memory.
pub fn figures_of(alloc: Global, system: &System) -> Result<Vec<Figure>, AllocError> {
    let mut figures = Vec::new(alloc);
    for kind in &KINDS {
        for number in 0..kind.count(system) {
            for measure in kind.measures() {
                figures.push(Figure {
                    measure: *measure,
                    number,
                })?;
            }
        }
    }
    Ok(figures)
}
