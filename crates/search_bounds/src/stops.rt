//! Machines of states on the ways to those that a search visited last.

ghost use Rattle.std.specs.Prelude.{◌≡◌, ◌≤◌, IfSome};
ghost use Rattle.search_bounds.specs.Held.{IsOf};

use crate::bases::{Bases, Spot, StateMachine};
use osek_base::{ModeId, System};
use std::alloc::{AllocError, Global};
use std::marker::Model;

/// How many ranks are told apart.
const RANKS: usize = 16;

/// Machines of states on the ways to those that were visited last. A state has rank r where the
/// number of ticks up to it can be divided by 2^r, and by no higher power of 2; of each rank the
/// last one is kept. So there are many near the state that was visited last, and few far behind it.
#[derive(Drop)]
pub(crate) struct Stops<'s> {
    machines: Bases<'s>,
}

impl<'s> Model for Stops<'s> {
    ghost use Rattle.osek_base.specs.System.{System};

    ghost Value = { System };

    ghost view = { λ s. s.machines };
}

/// The rank of a state by the number of ticks up to it.
fn rank_of(depth: usize) -> usize
    ensures { result ≤ RANKS }
{
    let mut left = depth;
    for rank in 0..RANKS {
        if left % 2 == 1 {
            return rank;
        }
        left /= 2;
    }
    RANKS
}

impl<'s> Stops<'s> {
    /// No machine yet.
    pub(crate) fn new(alloc: Global, system: &'s System, mode: ModeId) -> Self
        ensures { result ≡ system.now }
    {
        Stops {
            machines: Bases::new(alloc, system, mode),
        }
    }

    /// The place of the machine of the state that an entry tells, if it is kept.
    pub(crate) fn find(&self, entry: usize) -> Option<usize> {
        self.machines.find(entry)
    }

    /// The machine at a place.
    pub(crate) fn at(&self, place: usize) -> Option<&StateMachine<'s>>
        ensures { IfSome result (λ m. IsOf self.now m.now) }
    {
        self.machines.at(place)
    }

    /// Where the state of the machine at a place stands.
    pub(crate) fn spot(&self, place: usize) -> Option<Spot> {
        self.machines.spot(place)
    }

    /// On the way to a state there is one at a spot, with a machine, and so many ticks are left. It
    /// is kept, unless another one of its rank comes.
    pub(crate) fn pass(
        &mut self,
        alloc: Global,
        machine: &StateMachine<'s>,
        spot: Spot,
        left: usize,
    ) -> Result<(), AllocError>
        requires { IsOf self.old machine.now }
        ensures { self.new ≡ self.old }
    {
        let rank = rank_of(spot.depth);
        if left == 0 || left > 2 << rank {
            return Ok(());
        }
        if rank < self.machines.len() {
            self.machines.put(rank, machine, spot);
            return Ok(());
        }
        let _place = self.machines.keep(alloc, machine, spot)?;
        Ok(())
    }
}
