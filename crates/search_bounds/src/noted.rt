//! What a search has noted.

ghost use Rattle.std.specs.Prelude.{ℕ, ◌≡◌, ◌<◌, OnOk};
ghost use Rattle.std.specs.Int.{bit_at};
ghost use Rattle.osek_base.specs.declared.limits.TheConstants.{MAX_ROUTINES};
ghost use Rattle.view_figures.specs.FigureSums.{levels_of};
ghost use Rattle.view_measures.specs.declared.measure.Measure.{Measure};
ghost use Rattle.view_measures.specs.Measures.{figure};
ghost use Rattle.search_peaks.specs.Noting.{IsNoted, shown_by};
ghost use Rattle.search_peaks.specs.Peaks.{AreAtLeast, told};

use crate::ruling::Ruling;
use osek_base::System;
use search_labels::Labels;
use search_nodes::Trails;
use search_peaks::Peaks;
use seen_ticks::Observation;
use std::alloc::{AllocError, Global};

/// The greatest times that ticks have shown.
#[derive(Drop)]
pub(crate) struct Noted {
    pub(crate) peaks: Peaks,
    /// How the search came to all of these, of which contracts see nothing.
    pub(crate) trails: Trails,
}

impl Noted {
    /// No tick was made yet.
    pub(crate) fn new(alloc: Global, system: &System) -> Result<Self, AllocError> {
        let trails = Trails::new(alloc, system)?;
        Ok(Noted {
            peaks: Peaks::new(alloc),
            trails,
        })
    }

    /// Notes what a tick shows with the labels before it, and whether the run is over behind it. It
    /// was made from the node of an entry, if that has one, and the routines of a set arrive in it.
    pub(crate) fn note(
        &mut self,
        ruling: &Ruling<'_>,
        seen: &Observation,
        is_over: bool,
        labels: &Labels,
        before: Option<usize>,
        set: u64,
    ) -> Result<(), AllocError>
        ensures noted { OnOk result (IsNoted (levels_of ruling.now.system.now) ruling.now.cap
            self.new.peaks (shown_by seen.now is_over) labels.now) }
        ensures rises { AreAtLeast self.new.peaks self.old.peaks }
    {
        let rises = self
            .peaks
            .note(ruling.system, ruling.cap, seen, is_over, labels)?;
        self.trails.came(before, set, rises, &self.peaks)
    }

    /// Notes that the interrupts of some routines of the set are lost in such a tick.
    pub(crate) fn note_losses(
        &mut self,
        lost: u64,
        before: Option<usize>,
        set: u64,
    ) -> Result<(), AllocError>
        ensures losses { (i : ℕ) → i < MAX_ROUTINES
            → told self.new.peaks (figure Measure.Loss i) ≡ 0 → bit_at lost i ≡ 0 }
        ensures rises { AreAtLeast self.new.peaks self.old.peaks }
    {
        let rises = self.peaks.note_losses(lost);
        self.trails.came(before, set, rises, &self.peaks)
    }
}
