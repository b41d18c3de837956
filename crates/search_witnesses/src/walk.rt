//! A run that is walked tick by tick: the key of its state, and what its last tick showed of tasks.

ghost use Rattle.std.specs.Prelude.{ℕ, ◌≡◌, ◌+◌, IfOk, IsTrue, map};
ghost use Rattle.kernel.specs.Progress.{AreKnown};
ghost use Rattle.law_bounds.specs.Unending.{Stands};
ghost use Rattle.search_needs.specs.Table.{need_of};
ghost use Rattle.law_future.specs.Alike.{kept_after};
ghost use Rattle.search_keys.specs.Key.{key};

use crate::came::came_by;
use crate::standing::is_standing;
use kernel::{Machine, NotCounted};
use osek_base::{Arrival, Arrivals, IsrId, MAX_ROUTINES, MAX_TICKS, ModeId, System};
use search_needs::Needs;
use search_states::write_key;
use seen_machines::Watcher;
use services::CompactQueues;
use std::alloc::{AllocError, Global};
use std::marker::Model;

/// A run that is walked. Contracts see the run and how many ticks are done.
#[derive(Drop)]
pub(crate) struct Walk<'s, 'a> {
    system: &'s System,
    mode: ModeId,
    arrivals: &'a Arrivals,
    /// The routines of the arrivals, so that those of a tick can be lent.
    routines: Vec<IsrId>,
    /// How many arrivals have come.
    came: usize,
    machine: Machine<'s, CompactQueues, NotCounted>,
    watcher: Watcher,
}

impl<'s, 'a> Model for Walk<'s, 'a> {
    ghost use Rattle.kernel.specs.Machine.{next_tick};
    ghost use Rattle.kernel.specs.Progress.{Progress};
    ghost use Rattle.search_witnesses.specs.Walks.{IsWalk};

    ghost Value = { Progress };

    ghost view = { λ w. record {
      system = w.system.now;
      mode = w.mode;
      arrivals = w.arrivals.now;
      ticks = next_tick w.machine;
    } };

    ghost invariant = { λ w. IsWalk w.system.now w.mode w.arrivals.now w.routines.items w.came
        w.machine w.watcher };
}

/// The routines of some arrivals.
fn routines_of(alloc: Global, list: &[Arrival]) -> Result<Vec<IsrId>, AllocError>
    ensures { IfOk result (λ v. v.items ≡ map (λ a. a.routine) list.now) }
{
    let mut routines = Vec::new(alloc);
    for arrival in list {
        routines.push(arrival.routine)?;
    }
    Ok(routines)
}

impl<'s, 'a> Walk<'s, 'a> {
    /// A run in a mode, before its first tick. An error is want of memory.
    pub(crate) fn begin(
        alloc: Global,
        system: &'s System,
        mode: ModeId,
        arrivals: &'a Arrivals,
    ) -> Result<Self, AllocError>
        requires { AreKnown system.now arrivals.now }
        ensures { IfOk result (λ w. w ≡ record {
          system = system.now;
          mode = mode;
          arrivals = arrivals.now;
          ticks = 0;
        }) }
    {
        let routines = routines_of(alloc, arrivals.list())?;
        let machine = Machine::boot(alloc, system, mode)?;
        Ok(Walk {
            system,
            mode,
            arrivals,
            routines,
            came: 0,
            machine,
            watcher: Watcher::new(),
        })
    }

    /// How many ticks are done.
    pub(crate) fn ticks(&self) -> u32
        ensures { result ≡ self.now.ticks }
    {
        self.machine.next_tick()
    }

    /// Does a tick. Answers false, and does nothing, where the run is over, or where more
    /// interrupts arrive than there can be routines.
    pub(crate) fn advance(&mut self) -> bool
        ensures { IsTrue result → self.new ≡ record self.old { ticks = self.old.ticks + 1 } }
    {
        let tick = self.machine.next_tick();
        if self.machine.is_shut_down() || MAX_TICKS <= tick {
            return false;
        }
        let end = came_by(self.arrivals.list(), self.came, tick);
        let arrived = &self.routines.as_slice()[self.came..end];
        if arrived.len() > MAX_ROUTINES {
            return false;
        }
        self.watcher.tick(&mut self.machine, arrived);
        self.came = end;
        true
    }

    /// Whether a job of a task stood in the tick that was done last, and stayed.
    pub(crate) fn stood(&self, task: usize) -> bool
        ensures { IsTrue result → (n : ℕ) → self.now.ticks ≡ n + 1
            → Stands self.now.system self.now.mode self.now.arrivals n task }
    {
        is_standing(self.watcher.seen(), task)
    }

    /// The key of the state before the next tick. An error is want of memory.
    pub(crate) fn key(&self, alloc: Global, needs: &Needs) -> Result<Vec<u8>, AllocError>
        ensures { IfOk result (λ bytes. bytes.items ≡ key self.now.system (need_of needs.now)
            (kept_after self.now.system self.now.mode self.now.arrivals self.now.ticks)) }
    {
        let mut bytes = Vec::new(alloc);
        write_key(&self.machine, needs, &mut bytes)?;
        Ok(bytes)
    }
}
