//! Room for what is done with one node, which goes on to the next.

ghost use Rattle.std.specs.Prelude.{◌≡◌, ◌<◌, IfOk, IfSome, OnOk, false};
ghost use Rattle.osek_base.specs.declared.limits.TheConstants.{MAX_TICKS};
ghost use Rattle.kernel.specs.Machine.{IsOfRun, next_tick, picture, system_of};
ghost use Rattle.search_peaks.specs.Noting.{shown_by};
ghost use Rattle.law_bounds.specs.Nodes.{tick_shown_from};
ghost use Rattle.search_bounds.specs.Exploring.{IsBehind, setting_by};

use crate::bases::StateMachine;
use crate::current::{node_of, tick_from};
use crate::ruling::Ruling;
use osek_base::IsrId;
use search_labels::Labels;
use search_nodes::{Comparing, Node, Raised, put_routines};
use seen_machines::Watcher;
use std::alloc::{AllocError, Global};
use std::cell::Cell;
use std::mem;

/// Room for what is done with one node, which goes on to the next.
#[derive(Drop)]
pub(crate) struct Room {
    /// The labels behind a tick.
    labels: Labels,
    /// For the bytes of the next node, which takes it, until that is known not to be kept.
    pub(crate) bytes: Vec<u8>,
    /// In which nodes are compared, while none are.
    pub(crate) comparing: Cell<Option<Box<Comparing>>>,
    /// The routines whose interrupts arrive in a tick.
    arrived: Vec<IsrId>,
    pub(crate) watcher: Watcher,
}

impl Room {
    /// Nothing was done yet.
    pub(crate) fn new(alloc: Global) -> Result<Self, AllocError> {
        let comparing = Box::new(alloc, Comparing::new(alloc))?;
        Ok(Room {
            labels: Labels::new(alloc),
            bytes: Vec::new(alloc),
            comparing: Cell::new(Some(comparing)),
            arrived: Vec::new(alloc),
            watcher: Watcher::new(),
        })
    }

    /// A machine becomes what a tick makes of another one, in which the routines of a set arrive.
    /// Answers the node behind it, with the labels that come of those before it; none where its key
    /// is too long.
    pub(crate) fn tick<'s>(
        &mut self,
        alloc: Global,
        ruling: &Ruling<'_>,
        from: &StateMachine<'s>,
        machine: &mut StateMachine<'s>,
        labels: &Labels,
        set: u64,
    ) -> Result<Option<Node>, AllocError>
        requires from { system_of from.now ≡ ruling.now.system.now }
        requires on { (picture from.now).over ≡ false }
        requires left { next_tick from.now < MAX_TICKS }
        requires same { system_of machine.old ≡ ruling.now.system.now }
        requires of_run { IsOfRun false machine.old }
        ensures system { system_of machine.new ≡ ruling.now.system.now }
        ensures of_run { IsOfRun false machine.new }
        ensures shown { OnOk result (shown_by self.new.watcher (picture machine.new).over
            ≡ tick_shown_from (setting_by ruling.now) set (picture from.now)) }
        ensures made { IfOk result (λ found. IfSome found
            (IsBehind (setting_by ruling.now) set (picture from.now) labels.now)) }
    {
        put_routines(set, ruling.system.routine_count(), &mut self.arrived)?;
        tick_from(from, machine, &self.arrived, &mut self.watcher);
        let seen = self.watcher.seen();
        self.labels
            .become_next(ruling.system, ruling.cap, ruling.rules, set, seen, labels)?;
        let bytes = mem::replace(&mut self.bytes, Vec::new(alloc));
        node_of(machine, ruling.needs, &self.labels, bytes)
    }

    /// Whether memory was wanted where nodes were compared, which can't be told there.
    pub(crate) fn wants_memory(&self) -> bool {
        match self.comparing.take() {
            None => true,
            Some(comparing) => {
                let wants_memory = comparing.wants_memory;
                self.comparing.set(Some(comparing));
                wants_memory
            }
        }
    }

    /// The labels that were raised when a node was joined last, if they weren't taken since.
    pub(crate) fn take_raised(&self) -> Option<Raised> {
        let mut comparing = self.comparing.take()?;
        let raised = comparing.raised.take();
        self.comparing.set(Some(comparing));
        raised
    }
}
