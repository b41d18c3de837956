//! The greatest numbers that ticks have shown.

ghost use Rattle.std.specs.Prelude.{ℕ, ◌≡◌, ◌<◌, IfOk, IsFalse};
ghost use Rattle.std.specs.Int.{bit_at};
ghost use Rattle.osek_base.specs.declared.limits.TheConstants.{MAX_ROUTINES};
ghost use Rattle.view_figures.specs.FigureSums.{levels_of};
ghost use Rattle.view_measures.specs.declared.measure.Measure.{Measure};
ghost use Rattle.view_measures.specs.Measures.{figure};
ghost use Rattle.search_peaks.specs.Noting.{IsNoted, shown_by};
ghost use Rattle.search_peaks.specs.Peaks.{AreAtLeast, no_peaks, told};

use crate::failures::note_failure;
use crate::noting::{note_figures, note_lost};
use crate::numbers::{MAX_THINGS, PLACES, number_in, raise};
use osek_base::System;
use search_labels::Labels;
use seen_ticks::{Failure, Observation};
use std::alloc::{AllocError, Global};
use std::marker::Model;
use view_measures::Figure;

/// The greatest number that ticks have shown of each figure, times in ticks and up to a cap, and
/// what has failed in any.
#[derive(Drop)]
pub struct Peaks {
    numbers: [u32; PLACES],
    /// The services that were answered other than E_OK, each once, in the order in which they came.
    failures: Vec<Failure>,
}

impl Model for Peaks {
    ghost use Rattle.search_peaks.specs.Peaks.{Peaks as Told};

    ghost Value = { Told };

    ghost view = { λ p. record { numbers = p.numbers; failures = p.failures.items } };
}

impl Peaks {
    /// No tick has shown anything.
    pub fn new(alloc: Global) -> Self
        ensures { result ≡ no_peaks }
    {
        Peaks {
            numbers: [0; PLACES],
            failures: Vec::new(alloc),
        }
    }

    /// Notes what a tick of a run of the system shows with the labels before it, up to a cap in
    /// ticks, and whether the run is over behind it; answers whether that is more than was noted
    /// before. An error is want of memory for a service more that is answered other than E_OK.
    pub fn note(
        &mut self,
        system: &System,
        cap: u32,
        seen: &Observation,
        is_over: bool,
        labels: &Labels,
    ) -> Result<bool, AllocError>
        ensures noted { IfOk result (λ _. IsNoted (levels_of system.now) cap self.new
            (shown_by seen.now is_over) labels.now) }
        ensures rises { AreAtLeast self.new self.old }
        ensures stays { IfOk result (λ rises. IsFalse rises → self.new ≡ self.old) }
    {
        let more = note_figures(&mut self.numbers, system, cap, seen, is_over, labels);
        let fails = note_failure(&mut self.failures, &seen.failure)?;
        Ok(more | fails)
    }

    /// Notes that interrupts of the routines of a set are lost, where bit i is set for routine i,
    /// and answers whether that is more than was noted before.
    pub fn note_losses(&mut self, set: u64) -> bool
        ensures losses { (i : ℕ) → i < MAX_ROUTINES → told self.new (figure Measure.Loss i) ≡ 0
            → bit_at set i ≡ 0 }
        ensures rises { AreAtLeast self.new self.old }
        ensures stays { IsFalse result → self.new ≡ self.old }
    {
        note_lost(&mut self.numbers, set)
    }

    /// Raises the number of a figure to one that isn't noted of a tick. Nothing changes where it is
    /// as great, or no system has so many things.
    pub fn raise(&mut self, figure: Figure, number: u32)
        ensures rises { AreAtLeast self.new self.old }
    {
        if figure.number < MAX_THINGS {
            raise(
                &mut self.numbers,
                figure.measure,
                figure.number,
                Some(number),
            );
        }
    }

    /// Adds a service that may be answered other than E_OK, if it isn't among them. An error is
    /// want of memory.
    pub fn add_failure(&mut self, failure: Failure) -> Result<(), AllocError>
        ensures rises { AreAtLeast self.new self.old }
    {
        note_failure(&mut self.failures, &Some(failure))?;
        Ok(())
    }

    /// The number of a figure: ticks of a time, how many, and of what comes or not 1 where it has
    /// come; 0 where no tick has shown it.
    pub fn told(&self, figure: Figure) -> u32
        ensures { result ≡ told self.now figure }
    {
        number_in(&self.numbers, figure)
    }

    /// The services that were answered other than E_OK, each once, in the order in which they came.
    pub fn failures(&self) -> &[Failure]
        ensures { result.now ≡ self.now.failures }
    {
        &self.failures
    }
}
