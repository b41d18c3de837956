//! Bounds, and what runs are known to show of them.

ghost use Rattle.std.specs.Prelude.{ℕ, ◌≡◌, ◌==◌, IfOk, List};
ghost use Rattle.std.specs.List.{list_any};
ghost use Rattle.osek_base.specs.System.{System};
ghost use Rattle.view_measures.specs.Measures.{is_same};
ghost use Rattle.search_peaks.specs.Peaks.{is_below};
ghost use Rattle.search_witnesses.specs.Findings.{
  AreFindings,
  AreUntried,
  is_endless,
  is_failing,
  is_reached,
};

use crate::endless::endless_tasks;
use crate::failing::failing_services;
use crate::reached::{is_below, reached_figures};
use arrival_rules::ArrivalRule;
use osek_base::{ModeId, System};
use search_nodes::Bounds;
use std::alloc::{AllocError, Global};
use view_measures::{Figure, Measure};

/// Bounds, and what runs are known to show of them.
#[derive(Drop)]
pub struct Findings {
    pub bounds: Bounds,
    /// The figures that a run is known to show as they are told, all below the cap.
    pub reached: Vec<Figure>,
    /// The tasks, by number, that are known as ones that can be kept from ending for as many ticks
    /// as one likes.
    pub endless: Vec<usize>,
    /// The services, by number among those of the bounds, that a run is known to answer other than
    /// E_OK as they tell.
    pub failing: Vec<usize>,
}

/// Whether a figure is among some.
fn is_among(known: &[Figure], figure: Figure) -> bool
    ensures { result ≡ list_any (λ (other : Figure). is_same other figure) known.now }
{
    known.iter().any(|other| other.is_same(figure))
}

/// Whether a number is among some.
fn is_numbered(known: &[usize], number: usize) -> bool
    ensures { result ≡ list_any (λ (other : ℕ). other == number) known.now }
{
    known.iter().any(|other| *other == number)
}

impl Findings {
    /// Bounds of a system in a mode, and what the runs show that are found of them. Interrupts keep
    /// the rules. An error is want of memory.
    pub fn of(
        alloc: Global,
        system: &System,
        mode: ModeId,
        rules: &[ArrivalRule],
        bounds: Bounds,
    ) -> Result<Self, AllocError>
        ensures bounds { IfOk result (λ found. found.bounds ≡ bounds) }
        ensures shown { IfOk result (AreFindings system.now mode rules.now) }
    {
        let reached = reached_figures(alloc, system, mode, rules, &bounds)?;
        let endless = endless_tasks(alloc, system, mode, rules, &bounds)?;
        let failing = failing_services(alloc, system, mode, rules, &bounds)?;
        Ok(Findings {
            bounds,
            reached,
            endless,
            failing,
        })
    }

    /// Bounds of which no run is known, such as those of a search that isn't decided.
    pub fn untried(alloc: Global, bounds: Bounds) -> Self
        ensures untried { AreUntried bounds result }
        ensures shown { (S : System) (mode : ℕ) (rules : List ArrivalRule)
            → AreFindings S mode rules result }
    {
        Findings {
            bounds,
            reached: Vec::new(alloc),
            endless: Vec::new(alloc),
            failing: Vec::new(alloc),
        }
    }

    /// Whether what is told of a figure is below the cap; so is all that isn't a time, and blockers
    /// where the cap isn't 0.
    pub fn is_below(&self, figure: Figure) -> bool
        ensures { result ≡ is_below self.now.bounds.cap self.now.bounds.peaks figure }
    {
        is_below(&self.bounds, figure)
    }

    /// Whether what is told of a figure is 0, or a run is known to show it.
    pub fn is_reached(&self, figure: Figure) -> bool
        ensures { result ≡ is_reached self.now figure }
    {
        self.bounds.peaks.told(figure) == 0 || is_among(&self.reached, figure)
    }

    /// Whether a figure is the time of a task that is known as one that can be kept from ending for
    /// as many ticks as one likes.
    pub fn is_endless(&self, figure: Figure) -> bool
        ensures { result ≡ is_endless self.now figure }
    {
        match figure.measure {
            Measure::Response => is_numbered(&self.endless, figure.number),
            _ => false,
        }
    }

    /// Whether a run is known that answers the service of a number as it is told.
    pub fn is_failing(&self, number: usize) -> bool
        ensures { result ≡ is_failing self.now number }
    {
        is_numbered(&self.failing, number)
    }
}
