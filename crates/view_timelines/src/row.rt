//! A row of a picture, tick by tick.

ghost use Rattle.std.specs.Prelude.{ℕ, ◌≡◌, ◌+◌, List, [], ◌∷◌, ◌++◌, length, OnOk, OnErr};
ghost use Rattle.std.specs.Option.{option_to_list};
ghost use Rattle.view_timelines.specs.declared.moment.Moment.{Moment};
ghost use Rattle.view_timelines.specs.Stretches.{added, stretches};

use crate::moment::Moment;
use crate::stretch::Stretch;
use std::alloc::{AllocError, Global};
use std::marker::Model;

/// A row of a picture. Contracts see its stretches, in their order.
#[derive(Drop)]
pub struct Row {
    closed: Vec<Stretch>,
    last: Option<Stretch>,
}

impl Model for Row {
    ghost use Rattle.std.specs.Prelude.{List, [], ◌++◌, ◌≡◌, IfNone};
    ghost use Rattle.std.specs.Option.{option_to_list};
    ghost use Rattle.view_timelines.specs.declared.stretch.Stretch.{Stretch};

    ghost Value = { List Stretch };

    ghost view = { λ r. r.closed.items ++ option_to_list r.last };

    ghost invariant = { λ r. IfNone r.last (r.closed.items ≡ []) };
}

impl Row {
    /// No tick yet.
    pub fn new(alloc: Global) -> Self
        ensures { result ≡ [] }
    {
        Row {
            closed: Vec::new(alloc),
            last: None,
        }
    }

    /// A tick more, which shows a moment. Where the ticks so far are those from `start` on, in order, and this is the next
    /// one, the stretches are those of all of them. An error is want of memory; then nothing changes.
    pub fn add(&mut self, tick: u32, moment: Moment) -> Result<(), AllocError>
        ensures step { OnOk result (self.new ≡ added tick moment self.old) }
        ensures stretches { (start : ℕ) (moments : List Moment)
            → self.old ≡ stretches start moments → tick ≡ start + length moments
            → OnOk result (self.new ≡ stretches start (moments ++ moment ∷ [])) }
        ensures unchanged { OnErr result (self.new ≡ self.old) }
    {
        match self.last {
            Some(last) => {
                if last.moment.is_same(moment) {
                    self.last = Some(last.until(tick));
                } else {
                    self.closed.push(last)?;
                    self.last = Some(Stretch::new(tick, moment));
                }
            }
            None => self.last = Some(Stretch::new(tick, moment)),
        }
        Ok(())
    }
    /// The stretches: those that are closed, and the last, if there is a tick.
    pub fn stretches(&self) -> (&[Stretch], Option<Stretch>)
        ensures { result.0.now ++ option_to_list result.1 ≡ self.now }
    {
        (self.closed.as_slice(), self.last)
    }
}
