//! OSEK/VDX OS: resource management. Figures of a resource.

ghost use Rattle.std.specs.Prelude.{List, [], ◌∷◌, ◌≡◌, ◌+◌, ◌-◌, ◌<◌, ◌^◌};
ghost use Rattle.std.specs.Prelude.{None, Some, is_some, true, false};
ghost use Rattle.view_figures.specs.declared.resource_figures.HolderTick.{HolderTick};
ghost use Rattle.view_figures.specs.ResourceSums.{resource_figures, is_same, is_got, hold_on, hold_at};
ghost use Rattle.view_figures.specs.Reaching.{worse_of};
ghost use Rattle.view_figures.specs.Calm.{held_on};

use crate::counts::{add_where, added};
use crate::reached::{Reached, raise, raise_rarely};
use seen_ticks::Holder;

// Whether a task holds it, and held it before.
fn is_same(holder: Holder, before: Holder) -> bool
    ensures { result ≡ is_same holder before }
{
    match (holder.task(), before.task()) {
        (Some(holder), Some(before)) => holder.number() == before.number(),
        _ => false,
    }
}

// Whether a task holds it that didn't before.
fn is_got(holder: Holder, before: Holder) -> bool
    ensures { result ≡ is_got holder before }
{
    holder.task().is_some() && !is_same(holder, before)
}

/// Who holds a resource in a tick, and the tick.
#[derive(Clone, Copy)]
pub struct HolderTick {
    /// The number of the tick, from 0.
    pub tick: u32,
    /// Who holds it when the tick's instruction is executed.
    pub holder: Holder,
}

impl HolderTick {
    // how long a hold is that the tick finds
    fn hold(&self, held: u32) -> Option<Reached>
        ensures { result ≡ hold_at self.now held }
    {
        match self.holder.task() {
            Some(_) => Some(Reached {
                ticks: held,
                at: self.tick,
            }),
            None => None,
        }
    }
}

/// Figures of a resource.
#[derive(Clone, Copy, Default)]
pub struct ResourceFigures {
    /// In how many ticks a task held it that hadn't in the tick before.
    pub gets: u32,
    /// The most ticks in a row with one holder.
    pub longest: Option<Reached>,
    /// The holder in the last tick.
    pub holder: Holder,
    /// How many ticks in a row have had it, 0 where there is none.
    pub held: u32,
}

impl ResourceFigures {
    /// Nothing was seen.
    #[tactic(auto, unfolding(crate::specs::ResourceSums::resource_figures))]
    pub fn new() -> Self
        ensures { result ≡ resource_figures [] }
    {
        ResourceFigures {
            gets: 0,
            longest: None,
            holder: Holder::new(None),
            held: 0,
        }
    }

    // The ticks in a row with a holder, this one counted.
    fn hold_on(&self, holder: Holder) -> u32
        ensures { result ≡ hold_on holder self.now.holder self.now.held }
    {
        if is_same(holder, self.holder) {
            self.held.saturating_add(1)
        } else if holder.task().is_some() {
            1
        } else {
            0
        }
    }

    /// A tick more is seen, in which nobody holds it.
    #[inline(always)]
    pub(crate) fn pass(&mut self)
        ensures { self.new ≡ record self.old { holder = None; held = 0 } }
    {
        self.holder = Holder::new(None);
        self.held = 0;
    }

    /// A tick more is seen.
    #[inline(always)]
    pub fn observe(&mut self, tick: &HolderTick)
        ensures { (before : List HolderTick) → self.old ≡ resource_figures before
            → self.new ≡ resource_figures (tick.now ∷ before) }
    {
        add_where(&mut self.gets, 1, is_got(tick.holder, self.holder));
        self.held = self.hold_on(tick.holder);
        raise(&mut self.longest, tick.hold(self.held));
        self.holder = tick.holder;
    }

    /// Whether a task holds it in a tick that held it before.
    #[inline(always)]
    pub(crate) fn has_before(&self, tick: &HolderTick) -> bool
        ensures { result ≡ is_same tick.now.holder self.now.holder }
    {
        is_same(tick.holder, self.holder)
    }

    // A hold is so long at a tick and some more: each finds a longer one than the one before, so
    // the last one tells how long it is.
    #[inline(always)]
    fn tell(&mut self, tick: u32, more: u32)
        requires { tick + more < 2 ^ 32 }
        ensures { self.new ≡ record self.old {
          longest = worse_of self.old.longest
              (Some (record { ticks = self.old.held; at = tick + more }));
        } }
    {
        raise_rarely(&mut self.longest, self.held, tick + more);
    }

    /// A tick and some more are seen, in all of which one task holds it that didn't before.
    #[inline(always)]
    pub(crate) fn get(&mut self, tick: &HolderTick, more: u32)
        requires ends { tick.now.tick + more < 2 ^ 32 }
        requires fits { more < 2 ^ 32 - 1 }
        requires some { is_some tick.now.holder ≡ true }
        requires other { is_same tick.now.holder self.old.holder ≡ false }
        ensures { self.new ≡ held_on tick.now more self.old }
    {
        self.gets = added(self.gets, 1);
        self.held = 1 + more;
        self.holder = tick.holder;
        self.tell(tick.tick, more);
    }

    /// A tick and some more are seen, in all of which the task holds it that did before.
    #[inline(always)]
    pub(crate) fn go_on(&mut self, tick: &HolderTick, more: u32)
        requires ends { tick.now.tick + more < 2 ^ 32 }
        requires fits { self.old.held + more < 2 ^ 32 - 1 }
        requires same { is_same tick.now.holder self.old.holder ≡ true }
        ensures { self.new ≡ held_on tick.now more self.old }
    {
        self.held += 1 + more;
        self.tell(tick.tick, more);
    }
}
