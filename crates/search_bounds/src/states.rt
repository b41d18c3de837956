//! The machines of the states that a search visits: one that is made again for each visit, and
//! some from which it is made.

ghost use Rattle.std.specs.Prelude.{◌≡◌, IfOk, IfSome};
ghost use Rattle.search_bounds.specs.Held.{IsIn, IsOf};

use crate::bases::{Bases, Spot, StateMachine};
use crate::origin::Origin;
use crate::stops::Stops;
use crate::way::{Passed, Start, put_way};
use osek_base::{ModeId, System};
use search_needs::Needs;
use search_nodes::{Effort, Trails};
use std::alloc::{AllocError, Global};
use std::marker::Model;

/// By how many ticks a machine is made again, at least, that is kept then.
const FAR: usize = 4;

/// How many machines may be kept whatever the number of entries of the trail.
const FEW: usize = 64;

/// Beyond those, one machine may be kept for so many entries.
const ENTRIES_OF_ONE: usize = 128;

/// But no more machines than have places in nodes.
const MANY: usize = 60_000;

/// The machine of the node that is visited, and machines from which such are made. How they are
/// found goes by a trail, of which contracts see nothing: what is made is known by its key.
#[derive(Drop)]
pub(crate) struct States<'s> {
    bases: Bases<'s>,
    stops: Stops<'s>,
    origin: Origin<'s>,
    /// Where the node that is visited stands, and the place of the machine that what comes of it is
    /// made from.
    here: Option<Spot>,
    base: Option<usize>,
    /// The ticks by which a machine is made again, the last one first.
    way: Vec<Passed>,
    effort: Effort,
}

impl<'s> Model for States<'s> {
    ghost use Rattle.std.specs.Prelude.{◌≡◌};
    ghost use Rattle.search_nodes.specs.Ground.{Ground};

    ghost Value = { Ground };

    ghost view = { λ s. s.origin };

    ghost invariant = { λ s. (s.bases ≡ s.origin.system) × (s.stops ≡ s.origin.system) };
}

impl<'s> States<'s> {
    /// Nothing is visited yet.
    pub(crate) fn new(
        alloc: Global,
        system: &'s System,
        needs: &'s Needs,
        mode: ModeId,
    ) -> Result<Self, AllocError>
        ensures system { IfOk result (λ s. s.system ≡ system.now) }
        ensures needs { IfOk result (λ s. s.needs ≡ needs.now) }
    {
        let origin = Origin::new(alloc, system, needs, mode)?;
        Ok(States {
            bases: Bases::new(alloc, system, mode),
            stops: Stops::new(alloc, system, mode),
            origin,
            here: None,
            base: None,
            way: Vec::new(alloc),
            effort: Effort::none(),
        })
    }

    /// The machine of the node that is visited, if its state has a key and can go on.
    pub(crate) fn at(&self, key: &[u8]) -> Option<&StateMachine<'s>>
        ensures { IfSome result (λ m. IsIn self.now key.now m.now) }
    {
        self.origin.at(key)
    }

    /// The routines that are pending in that node's state, as a set. Contracts don't see it.
    pub(crate) fn pending(&self) -> u64 {
        self.origin.pending()
    }

    /// A node is visited that an entry tells, and whose machine is made from that at a place.
    pub(crate) fn visit(
        &mut self,
        alloc: Global,
        trails: &Trails,
        entry: Option<usize>,
        base: Option<usize>,
    ) -> Result<(), AllocError>
        ensures { self.new ≡ self.old }
    {
        self.effort = self.effort.one_tried();
        match (entry, base) {
            (Some(entry), Some(base)) if !self.is_at(entry) => {
                self.make(alloc, trails, entry, base)?;
                self.settle_on(alloc, trails, base)
            }
            _ => Ok(()),
        }
    }

    /// Whether the machine is that of an entry.
    fn is_at(&self, entry: usize) -> bool {
        match self.here {
            Some(here) => here.entry == entry,
            None => false,
        }
    }

    /// Makes the machine that an entry tells from that at a place, or from one that is nearer.
    fn make(
        &mut self,
        alloc: Global,
        trails: &Trails,
        entry: usize,
        base: usize,
    ) -> Result<(), AllocError>
        ensures { self.new ≡ self.old }
    {
        let Some(spot) = self.bases.spot(base) else {
            return Ok(());
        };
        let here = self.here.take();
        let start = put_way(trails, entry, here, &self.stops, spot, &mut self.way)?;
        let Some(depth) = self.begin(start, base) else {
            return Ok(());
        };
        for number in (0..self.way.len()).rev() {
            self.pass(alloc, number, depth)?;
        }
        self.origin.write()?;
        self.effort = self.effort.made_by(self.way.len());
        self.here = Some(Spot {
            entry,
            depth: depth.saturating_add(self.way.len()),
        });
        Ok(())
    }

    /// The machine becomes that with which a way begins. Answers how many ticks there are up to it.
    fn begin(&mut self, start: Option<Start>, base: usize) -> Option<usize>
        ensures { self.new ≡ self.old }
    {
        match start? {
            Start::Here(spot) => Some(spot.depth),
            Start::Stop(place) => {
                self.origin.begin(self.stops.at(place)?);
                Some(self.stops.spot(place)?.depth)
            }
            Start::Base(spot) => {
                self.origin.begin(self.bases.at(base)?);
                Some(spot.depth)
            }
        }
    }

    /// Does the tick of a number on the way, which starts behind so many.
    fn pass(&mut self, alloc: Global, number: usize, depth: usize) -> Result<(), AllocError>
        ensures { self.new ≡ self.old }
    {
        let Some(passed) = self.way.get(number).copied() else {
            return Ok(());
        };
        self.origin.tick(passed.set)?;
        let spot = Spot {
            entry: passed.entry,
            depth: depth.saturating_add(self.way.len().saturating_sub(number)),
        };
        self.stops.pass(alloc, self.origin.machine(), spot, number)
    }

    /// Keeps that machine, where much is done to make machines again, it was made by many ticks,
    /// and there is room. What comes of the node is made from it then, and else from that at the
    /// place.
    fn settle_on(&mut self, alloc: Global, trails: &Trails, base: usize) -> Result<(), AllocError>
        ensures { self.new ≡ self.old }
    {
        let room = (FEW + trails.len() / ENTRIES_OF_ONE).min(MANY);
        let is_kept = self.way.len() >= FAR && self.effort.is_great() && self.bases.len() < room;
        let base = match self.here {
            Some(here) if is_kept => self.bases.keep(alloc, self.origin.machine(), here)?,
            _ => base,
        };
        self.bases.retain(base);
        if let Some(earlier) = self.base.replace(base) {
            self.bases.release(earlier);
        }
        Ok(())
    }

    /// A node that an entry tells is open: it is what comes of the node that is visited, or of
    /// boot, whose machine is lent. Answers the place of the machine from which that of the node is
    /// made.
    pub(crate) fn open(
        &mut self,
        alloc: Global,
        booted: &StateMachine<'s>,
        entry: usize,
        earlier: Option<usize>,
    ) -> Result<usize, AllocError>
        requires { IsOf self.old.system booted.now }
        ensures { self.new ≡ self.old }
    {
        let base = match self.base {
            Some(base) => base,
            None => self.bases.keep(alloc, booted, Spot { entry, depth: 0 })?,
        };
        self.bases.retain(base);
        if let Some(earlier) = earlier {
            self.bases.release(earlier);
        }
        Ok(base)
    }

    /// A node was kept for which the machine at a place was to be: that isn't needed where the node
    /// has none.
    pub(crate) fn keep_for(&mut self, base: usize, kept: Option<usize>)
        ensures { self.new ≡ self.old }
    {
        if kept.is_none() {
            self.bases.release(base);
        }
    }

    /// A node was visited whose machine is made from that at a place.
    pub(crate) fn close(&mut self, base: usize)
        ensures { self.new ≡ self.old }
    {
        self.bases.release(base);
    }
}
