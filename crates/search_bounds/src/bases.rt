//! Machines of some states, from which those of the states behind them are made again.

ghost use Rattle.std.specs.Prelude.{◌≡◌, IfSome};
ghost use Rattle.kernel.specs.Machine.{system_of};
ghost use Rattle.search_bounds.specs.Held.{IsOf};

use kernel::{Machine, NotCounted};
use osek_base::{ModeId, System};
use services::CompactQueues;
use std::alloc::{AllocError, Global};
use std::marker::Model;

/// A machine that a search ticks; nobody asks it for blockers.
pub(crate) type StateMachine<'s> = Machine<'s, CompactQueues, NotCounted>;

/// Where a state stands in a search.
#[derive(Clone, Copy)]
pub(crate) struct Spot {
    /// The entry of the trail that tells it.
    pub(crate) entry: usize,
    /// How many ticks there are up to it.
    pub(crate) depth: usize,
}

/// A machine, and where its state stands.
#[derive(Drop)]
struct Base<'s> {
    machine: StateMachine<'s>,
    spot: Spot,
}

impl<'s> Base<'s> {
    /// The machine becomes another one of the same system, whose state stands at a spot.
    fn become_other(&mut self, machine: &StateMachine<'s>, spot: Spot)
        requires { system_of self.old.machine ≡ system_of machine.now }
        ensures { self.new.machine ≡ machine.now }
    {
        self.machine.copy_from(machine);
        self.spot = spot;
    }
}

/// The place of a machine whose state an entry tells.
fn place_of(held: &[Base<'_>], entry: usize) -> Option<usize> {
    for place in 0..held.len() {
        let base = &held[place];
        if base.spot.entry == entry {
            return Some(place);
        }
    }
    None
}

/// One more machine beside so many that nobody makes use of yet, and room to note that.
fn note_user(held: usize, users: &mut Vec<usize>, free: &mut Vec<usize>) -> Result<(), AllocError> {
    free.reserve(held.saturating_add(1))?;
    users.push(0)?;
    Ok(())
}

/// Machines of one system, in numbered places.
#[derive(Drop)]
pub(crate) struct Bases<'s> {
    system: &'s System,
    mode: ModeId,
    held: Vec<Base<'s>>,
    /// By place, how often its machine is made use of.
    users: Vec<usize>,
    /// Places of machines of which nobody makes use.
    free: Vec<usize>,
}

impl<'s> Model for Bases<'s> {
    ghost use Rattle.osek_base.specs.System.{System};
    ghost use Rattle.std.specs.List.{All};
    ghost use Rattle.search_bounds.specs.Held.{IsOf};

    ghost Value = { System };

    ghost view = { λ b. b.system.now };

    ghost invariant = { λ b. All (λ h. IsOf b.system.now h.machine) b.held.items };
}

impl<'s> Bases<'s> {
    /// No machine yet.
    pub(crate) fn new(alloc: Global, system: &'s System, mode: ModeId) -> Self
        ensures { result ≡ system.now }
    {
        Bases {
            system,
            mode,
            held: Vec::new(alloc),
            users: Vec::new(alloc),
            free: Vec::new(alloc),
        }
    }

    /// The machine at a place.
    pub(crate) fn at(&self, place: usize) -> Option<&StateMachine<'s>>
        ensures { IfSome result (λ m. IsOf self.now m.now) }
    {
        let base = self.held.get(place)?;
        Some(&base.machine)
    }

    /// Where the state of the machine at a place stands.
    pub(crate) fn spot(&self, place: usize) -> Option<Spot> {
        let base = self.held.get(place)?;
        Some(base.spot)
    }

    /// The place of a machine whose state an entry tells.
    pub(crate) fn find(&self, entry: usize) -> Option<usize> {
        place_of(&self.held, entry)
    }

    /// How many machines are made use of.
    pub(crate) fn len(&self) -> usize {
        self.held.len().saturating_sub(self.free.len())
    }

    /// Keeps a copy of a machine, whose state stands at a spot, and answers its place.
    pub(crate) fn keep(
        &mut self,
        alloc: Global,
        machine: &StateMachine<'s>,
        spot: Spot,
    ) -> Result<usize, AllocError>
        requires { IsOf self.old machine.now }
        ensures { self.new ≡ self.old }
    {
        if let Some(place) = self.free.pop() {
            if place < self.held.len() {
                self.put(place, machine, spot);
                return Ok(place);
            }
        }
        note_user(self.held.len(), &mut self.users, &mut self.free)?;
        let mut new = Machine::boot(alloc, self.system, self.mode)?;
        new.copy_from(machine);
        self.add(Base { machine: new, spot })?;
        Ok(self.held.len().saturating_sub(1))
    }

    /// The machine at a place becomes another one, whose state stands at a spot.
    pub(crate) fn put(&mut self, place: usize, machine: &StateMachine<'s>, spot: Spot)
        requires { IsOf self.old machine.now }
        ensures { self.new ≡ self.old }
    {
        if place < self.held.len() {
            self.held[place].become_other(machine, spot);
        }
    }

    /// One more machine, beside a note of how often it is made use of.
    fn add(&mut self, base: Base<'s>) -> Result<(), AllocError>
        requires { IsOf self.old base.machine }
        ensures { self.new ≡ self.old }
    {
        self.held.push(base)?;
        Ok(())
    }

    /// The machine at a place is made use of once more.
    pub(crate) fn retain(&mut self, place: usize)
        ensures { self.new ≡ self.old }
    {
        if place < self.users.len() {
            self.users[place] = self.users[place].saturating_add(1);
        }
    }

    /// The machine at a place is made use of once less. Where it was the last time it may become
    /// another one; there is room to note that, as it is noted once.
    pub(crate) fn release(&mut self, place: usize)
        ensures { self.new ≡ self.old }
    {
        if place < self.users.len() {
            self.users[place] = self.users[place].saturating_sub(1);
            if self.users[place] == 0 {
                let _noted = self.free.push(place);
            }
        }
    }
}
