//! What is kept of one task or routine.

ghost use Rattle.std.specs.Prelude.{
  ℕ,
  ◌≡◌,
  ◌<◌,
  ◌∷◌,
  [],
  OnOk,
  IfOk,
  if◌then◌else◌,
  replicate,
};
ghost use Rattle.view_timelines.specs.Moments.{begun_behind};
ghost use Rattle.view_timelines.specs.Stretches.{added};
ghost use Rattle.view_timelines.specs.Rows.{Kept, nothing_kept};
ghost use Rattle.view_timelines.specs.Marks.{on_row};
ghost use Rattle.view_timelines.specs.RowSteps.{AreSigned, signed};

use crate::begun::begun_behind;
use crate::mark::{Mark, Sign};
use crate::moment::Moment;
use crate::row::Row;
use seen_ticks::TaskSeen;
use std::alloc::{AllocError, Global};
use std::marker::Model;

/// What is kept of one task or routine: its stretches, and what came to it, by falling age.
/// Contracts see the stretches, what the task has begun, and the marks.
#[derive(Drop)]
pub(crate) struct Track {
    pub(crate) row: Row,
    pub(crate) marks: Vec<Mark>,
    /// Whether a task's oldest job has executed since it became ready; of a routine no.
    has_begun: bool,
    /// Whether its row is drawn.
    pub(crate) is_drawn: bool,
}

impl Model for Track {
    ghost use Rattle.view_timelines.specs.Rows.{Kept};

    ghost Value = { Kept };

    ghost view = { λ t. record {
      shown = record { row = t.row; begun = t.has_begun };
      marks = t.marks.items;
    } };
}

impl Track {
    pub(crate) fn new(alloc: Global) -> Self
        ensures { result ≡ nothing_kept }
    {
        Track {
            row: Row::new(alloc),
            marks: Vec::new(alloc),
            has_begun: false,
            is_drawn: true,
        }
    }

    pub(crate) fn has_begun(&self) -> bool
        ensures { result ≡ self.now.shown.begun }
    {
        self.has_begun
    }

    /// A tick more, which shows a moment. An error is want of memory.
    pub(crate) fn draw(&mut self, tick: u32, moment: Moment) -> Result<(), AllocError>
        ensures { OnOk result (self.new ≡ record self.old {
          shown = record self.old.shown { row = added tick moment self.old.shown.row };
        }) }
    {
        self.row.add(tick, moment)
    }

    /// Keeps what the task has begun behind a tick in which that is seen of it.
    pub(crate) fn keep_begun(&mut self, seen: TaskSeen)
        ensures { self.new ≡ record self.old {
          shown = record self.old.shown { begun = begun_behind self.old.shown.begun seen };
        } }
    {
        self.has_begun = begun_behind(self.has_begun, seen);
    }

    /// Marks what came in a tick. An error is want of memory.
    pub(crate) fn mark(&mut self, tick: u32, sign: Sign) -> Result<(), AllocError>
        ensures { OnOk result (self.new ≡ signed tick (sign ∷ []) self.old) }
    {
        self.marks.push(Mark { tick, sign })?;
        Ok(())
    }

    /// The same where the condition holds.
    pub(crate) fn mark_if(
        &mut self,
        condition: bool,
        tick: u32,
        sign: Sign,
    ) -> Result<(), AllocError>
        ensures { OnOk result
            (self.new ≡ signed tick (if condition then sign ∷ [] else []) self.old) }
    {
        if condition {
            return self.mark(tick, sign);
        }
        Ok(())
    }

    /// Whether the row is drawn.
    pub(crate) fn choose(&mut self, is_drawn: bool)
        ensures { self.new ≡ self.old }
    {
        self.is_drawn = is_drawn;
    }
}

/// So many tracks, with nothing on them.
pub(crate) fn bare_tracks(alloc: Global, count: usize) -> Result<Vec<Track>, AllocError>
    ensures { IfOk result (λ tracks. tracks.items ≡ replicate count nothing_kept) }
{
    let mut tracks = Vec::with_capacity(alloc, count)?;
    for _made in 0..count {
        tracks.push(Track::new(alloc))?;
    }
    Ok(tracks)
}

/// Marks what came to the task or routine of a number. An error is want of memory.
pub(crate) fn mark_at(
    tracks: &mut [Track],
    number: usize,
    tick: u32,
    sign: Sign,
) -> Result<(), AllocError>
    ensures { OnOk result (AreSigned tick (on_row number (sign ∷ [])) tracks.old tracks.new) }
{
    if number < tracks.len() {
        return tracks[number].mark(tick, sign);
    }
    Ok(())
}
