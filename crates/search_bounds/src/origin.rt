//! The machine of the node that is visited.

ghost use Rattle.std.specs.Prelude.{◌≡◌, IfOk, IfSome};
ghost use Rattle.search_bounds.specs.Held.{IsIn, IsOf};

use crate::bases::StateMachine;
use crate::current::can_go_on;
use crate::routines::pending_routines;
use kernel::Machine;
use osek_base::{IsrId, ModeId, System, TickRecord};
use search_keys::are_equal;
use search_needs::Needs;
use search_nodes::put_routines;
use search_states::write_key;
use std::alloc::{AllocError, Global};
use std::marker::Model;

/// A machine beside the key of its state, once it was made again.
#[derive(Drop)]
pub(crate) struct Origin<'s> {
    system: &'s System,
    needs: &'s Needs,
    machine: StateMachine<'s>,
    key: Vec<u8>,
    /// Whether the key is that of the machine's state.
    is_made: bool,
    /// The routines that were pending in it when its key was written.
    pending: u64,
    /// The routines whose interrupts arrive in a tick.
    arrived: Vec<IsrId>,
    /// Room for what a tick records.
    before: TickRecord,
    behind: TickRecord,
}

impl<'s> Model for Origin<'s> {
    ghost use Rattle.search_nodes.specs.Ground.{Ground};
    ghost use Rattle.search_bounds.specs.Held.{IsOrigin};

    ghost Value = { Ground };

    ghost view = { λ o. record { system = o.system.now; needs = o.needs.now } };

    ghost invariant = { λ o.
        IsOrigin (record { system = o.system.now; needs = o.needs.now }) o.machine o.key.items o.is_made };
}

impl<'s> Origin<'s> {
    /// No machine is made yet.
    pub(crate) fn new(
        alloc: Global,
        system: &'s System,
        needs: &'s Needs,
        mode: ModeId,
    ) -> Result<Self, AllocError>
        ensures system { IfOk result (λ o. o.system ≡ system.now) }
        ensures needs { IfOk result (λ o. o.needs ≡ needs.now) }
    {
        Ok(Origin {
            system,
            needs,
            machine: Machine::boot(alloc, system, mode)?,
            key: Vec::new(alloc),
            is_made: false,
            pending: 0,
            arrived: Vec::new(alloc),
            before: TickRecord::new(),
            behind: TickRecord::new(),
        })
    }

    /// The machine.
    pub(crate) fn machine(&self) -> &StateMachine<'s>
        ensures { IsOf self.now.system result.now }
    {
        &self.machine
    }

    /// The machine, if its state has a key and can go on.
    pub(crate) fn at(&self, key: &[u8]) -> Option<&StateMachine<'s>>
        ensures { IfSome result (λ m. IsIn self.now key.now m.now) }
    {
        if !self.is_made || !are_equal(&self.key, key) || !can_go_on(&self.machine) {
            return None;
        }
        Some(&self.machine)
    }

    /// The routines that are pending in its state, as a set. Contracts don't see it.
    pub(crate) fn pending(&self) -> u64 {
        self.pending
    }

    /// The machine becomes another one.
    pub(crate) fn begin(&mut self, from: &StateMachine<'s>)
        requires { IsOf self.old.system from.now }
        ensures { self.new ≡ self.old }
    {
        self.is_made = false;
        self.machine.copy_from(from);
    }

    /// Does one tick in which the routines of a set arrive, if it can be done.
    pub(crate) fn tick(&mut self, set: u64) -> Result<(), AllocError>
        ensures { self.new ≡ self.old }
    {
        self.is_made = false;
        put_routines(set, self.system.routine_count(), &mut self.arrived)?;
        if can_go_on(&self.machine) {
            let _executed = self
                .machine
                .tick(&self.arrived, &mut self.before, &mut self.behind);
        }
        Ok(())
    }

    /// Writes the key of the machine's state.
    pub(crate) fn write(&mut self) -> Result<(), AllocError>
        ensures { self.new ≡ self.old }
    {
        self.is_made = false;
        self.key.clear();
        write_key(&self.machine, self.needs, &mut self.key)?;
        self.pending = pending_routines(&self.machine, self.system.routine_count());
        self.is_made = true;
        Ok(())
    }
}
