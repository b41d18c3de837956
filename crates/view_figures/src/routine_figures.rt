//! OSEK/VDX OS: interrupt processing. Figures of an interrupt routine.

ghost use Rattle.std.specs.Prelude.{List, [], ◌∷◌, ◌≡◌};
ghost use Rattle.view_figures.specs.declared.routine_figures.RoutineTick.{RoutineTick};
ghost use Rattle.view_figures.specs.Reaching.{worse_of};
ghost use Rattle.view_figures.specs.RoutineSums.{routine_figures, since, still, latency, pending_age};

use crate::counts::{add_where, added};
use crate::reached::{Reached, note_first, raise, worse_of};
use seen_ticks::RoutineSeen;

/// What is seen of an interrupt routine in a tick, and the tick.
#[derive(Clone, Copy)]
pub struct RoutineTick {
    /// The number of the tick, from 0.
    pub tick: u32,
    /// What is seen of the routine.
    pub seen: RoutineSeen,
    /// Whether it executes the tick's instruction, and that is a service answered other than E_OK.
    pub has_failed: bool,
}

impl RoutineTick {
    // since when an interrupt is pending, where one was or is
    fn since(&self, pending: Option<u32>) -> Option<u32>
        ensures { result ≡ since self.now pending }
    {
        let mut since = pending;
        let is_asked = self.seen.is_pending || self.seen.is_started;
        note_first(&mut since, is_asked, self.tick);
        since
    }

    // what of it is left after the tick
    fn still(&self, since: Option<u32>) -> Option<u32>
        ensures { result ≡ still self.now since }
    {
        if self.seen.is_started { None } else { since }
    }

    // the ticks from that one to a start in this tick, where there is one
    fn latency(&self, since: Option<u32>) -> Option<Reached>
        ensures { result ≡ latency self.now since }
    {
        match since {
            Some(since) if self.seen.is_started => Some(Reached {
                ticks: self.tick.saturating_sub(since),
                at: self.tick,
            }),
            _ => None,
        }
    }
}

/// Figures of an interrupt routine.
#[derive(Clone, Copy, Default)]
pub struct RoutineFigures {
    /// How many interrupts arrived.
    pub arrivals: u32,
    /// How often the routine was started.
    pub starts: u32,
    /// How many of the arrivals were lost.
    pub losses: u32,
    /// How many services of the routine were answered other than E_OK.
    pub errors: u32,
    /// The greatest number of ticks in which an interrupt was pending before the tick of its start.
    pub latency: Option<Reached>,
    /// Since which tick an interrupt is pending, if one is.
    pub pending_since: Option<u32>,
    /// The first tick in which an interrupt was lost.
    pub first_loss: Option<u32>,
}

impl RoutineFigures {
    /// Nothing was seen.
    #[tactic(auto, unfolding(crate::specs::RoutineSums::routine_figures))]
    pub fn new() -> Self
        ensures { result ≡ routine_figures [] }
    {
        RoutineFigures {
            arrivals: 0,
            starts: 0,
            losses: 0,
            errors: 0,
            latency: None,
            pending_since: None,
            first_loss: None,
        }
    }

    /// A tick more is seen.
    pub fn observe(&mut self, tick: &RoutineTick)
        ensures { (before : List RoutineTick) → self.old ≡ routine_figures before
            → self.new ≡ routine_figures (tick.now ∷ before) }
    {
        self.arrivals = added(self.arrivals, tick.seen.arrived);
        self.losses = added(self.losses, tick.seen.lost);
        add_where(&mut self.starts, 1, tick.seen.is_started);
        let since = tick.since(self.pending_since);
        raise(&mut self.latency, tick.latency(since));
        self.pending_since = tick.still(since);
        add_where(&mut self.errors, 1, tick.has_failed);
        note_first(&mut self.first_loss, tick.seen.lost > 0, tick.tick);
    }

    /// The greatest latency, or the age of what is pending behind a last tick, if that is greater.
    pub fn worst(&self, last: u32) -> Option<Reached>
        ensures { result ≡ worse_of self.now.latency (pending_age last self.now.pending_since) }
    {
        worse_of(self.latency, pending_age(last, self.pending_since))
    }
}

// For how many ticks an interrupt is pending behind a tick.
fn pending_age(tick: u32, since: Option<u32>) -> Option<Reached>
    ensures { result ≡ pending_age tick since }
{
    match since {
        Some(since) => Some(Reached {
            ticks: tick.saturating_sub(since).saturating_add(1),
            at: tick,
        }),
        None => None,
    }
}
