//! The search through all states that a system comes to in a mode, whatever interrupts arrive that
//! keep their rules.

ghost use Rattle.std.specs.Prelude.{◌≡◌, IfOk, Ok};
ghost use Rattle.search_nodes.specs.Ground.{IsGround};
ghost use Rattle.search_nodes.specs.Ground.{Ground};

use crate::bases::StateMachine;
use crate::current::{boot_again, node_of};
use crate::noted::Noted;
use crate::room::Room;
use crate::routines::pending_routines;
use crate::ruling::Ruling;
use crate::states::States;
use arrival_rules::ArrivalRule;
use kernel::Machine;
use law_bounds::{lost_change_nothing, nodes_are_kept, notes_stay, one_state_tells, subsets_may};
use osek_base::{ModeId, System};
use search::{Outcome, Progress, Steps, subset_from};
use search_labels::Labels;
use search_needs::Needs;
use search_nodes::{Bounds, Node, Watch, common, without};
use search_packed::{ReadLabels, free_routines};
use std::alloc::{AllocError, Global};
use std::marker::Model;
use std::mem;
use view_measures::held_count;

/// Ticks machines from state to state, and notes the greatest times that are seen.
#[derive(Drop)]
pub(crate) struct Explorer<'s, 'w, W: Watch> {
    ruling: Ruling<'s>,
    states: States<'s>,
    /// The machine that is ticked.
    current: StateMachine<'s>,
    /// The labels of the node that is visited.
    read: ReadLabels,
    room: Room,
    noted: Noted,
    /// How many bytes the nodes take that are kept, about.
    kept: u64,
    watch: &'w mut W,
}

impl<'s, 'w, W: Watch> Model for Explorer<'s, 'w, W> {
    ghost use Rattle.search_bounds.specs.Exploring.{Explorer as Seen, explorer_of};
    ghost use Rattle.search_bounds.specs.Invariant.{IsExploring};

    ghost Value = { Seen };

    ghost view = { λ e. explorer_of e.ruling e.noted.peaks };

    ghost invariant = { λ e. IsExploring (explorer_of e.ruling e.noted.peaks) e.states e.current };
}

/// Two things, or want of memory for either. Made together they need no drop of one of them alone,
/// inlined on each way out: smaller code.
fn both<A: Drop, B: Drop>(
    one: Result<A, AllocError>,
    other: Result<B, AllocError>,
) -> Result<(A, B), AllocError>
    ensures one { IfOk result (λ pair. one ≡ Ok pair.0) }
    ensures other { IfOk result (λ pair. other ≡ Ok pair.1) }
{
    let one = one?;
    let other = other?;
    Ok((one, other))
}

impl<'s, 'w, W: Watch> Explorer<'s, 'w, W> {
    ghost use Rattle.std.specs.Prelude.{IfSome};
    ghost use Rattle.search.specs.Rules.{Repeats, StaysNoted};
    ghost use Rattle.law_bounds.specs.Nodes.{May, search_rules};
    ghost use Rattle.search_bounds.specs.Exploring.{AreNotedIn, setting_of};

    /// Nothing was tried yet.
    pub(crate) fn new(
        alloc: Global,
        system: &'s System,
        needs: &'s Needs,
        mode: ModeId,
        rules: &'s [ArrivalRule],
        cap: u32,
        watch: &'w mut W,
    ) -> Result<Self, AllocError>
        requires { IsGround (record { system = system.now; needs = needs.now }) }
        ensures system { IfOk result (λ e. e.ground.system ≡ system.now) }
        ensures needs { IfOk result (λ e. e.ground.needs ≡ needs.now) }
        ensures mode { IfOk result (λ e. e.mode ≡ mode) }
        ensures rules { IfOk result (λ e. e.rules ≡ rules.now) }
        ensures cap { IfOk result (λ e. e.cap ≡ cap) }
    {
        let current = Machine::boot(alloc, system, mode);
        let machines = both(States::new(alloc, system, needs, mode), current);
        let others = both(Noted::new(alloc, system), Room::new(alloc));
        let ((states, current), (noted, room)) = both(machines, others)?;
        Ok(Explorer {
            ruling: Ruling {
                system,
                needs,
                mode,
                rules,
                cap,
            },
            states,
            current,
            read: ReadLabels::new(alloc),
            room,
            noted,
            kept: 0,
            watch,
        })
    }

    /// A set of routines that may arrive in a state, without those that are pending in it: their
    /// interrupts are lost, which is noted, and change nothing else.
    fn without_lost(&mut self, node: &Node, set: u64) -> Result<Option<u64>, AllocError>
        requires { May (setting_of self.old) node.now set }
        ensures setting { setting_of self.new ≡ setting_of self.old }
        ensures notes { StaysNoted AreNotedIn self.old self.new }
        ensures repeats { IfOk result (λ found. IfSome found
            (Repeats (search_rules (setting_of self.old)) (AreNotedIn self.new) node.now set)) }
    {
        let Some(machine) = self.states.at(node.key()) else {
            return Ok(None);
        };
        let pending = pending_routines(machine, self.ruling.system.routine_count());
        let fewer = without(set, pending);
        if set <= fewer {
            return Ok(None);
        }
        one_state_tells();
        lost_change_nothing();
        notes_stay();
        self.noted
            .note_losses(common(set, pending), node.entry(), set)?;
        Ok(Some(fewer))
    }

    /// What a search has come to that ended so. An error is want of memory.
    pub(crate) fn into_bounds(
        self,
        searched: Result<Outcome, AllocError>,
    ) -> Result<Bounds, AllocError>
        ensures outcome { IfOk result (λ found. searched ≡ Ok found.outcome) }
        ensures peaks { IfOk result (λ found. found.peaks ≡ self.entry.peaks) }
        ensures cap { IfOk result (λ found. found.cap ≡ self.entry.cap) }
    {
        let Explorer {
            ruling,
            states,
            current,
            read,
            room,
            noted,
            ..
        } = self;
        let wants_memory = room.wants_memory();
        // Each is dropped by one call, kept out of line: smaller code.
        mem::drop(states);
        mem::drop(current);
        mem::drop(read);
        mem::drop(room);
        match searched {
            Ok(outcome) if !wants_memory => Ok(Bounds {
                outcome,
                peaks: noted.peaks,
                cap: ruling.cap,
                trails: noted.trails,
            }),
            _ => {
                mem::drop(noted);
                Err(AllocError)
            }
        }
    }
}

impl<'s, 'w, W: Watch> Steps for Explorer<'s, 'w, W> {
    ghost use Rattle.law_bounds.specs.Nodes.{Setting as Rulings, search_rules};
    ghost use Rattle.search_bounds.specs.Exploring.{AreNotedIn, setting_of};

    type Node = Node;

    ghost Setting = { Rulings };

    ghost setting = { setting_of };

    ghost rules = { search_rules };

    ghost is_noted = { AreNotedIn };

    fn first(&mut self, alloc: Global) -> Result<Option<Node>, AllocError> {
        let system = self.ruling.system;
        boot_again(alloc, system, self.ruling.mode, &mut self.current)?;
        let tasks = system.task_count();
        let routines = system.routine_count();
        let rules = self.ruling.rules.len();
        let labels = Labels::first(alloc, rules, tasks, routines, held_count(system))?;
        let node = node_of(&self.current, self.ruling.needs, &labels, Vec::new(alloc));
        // Dropped by one call, kept out of line: smaller code.
        mem::drop(labels);
        node
    }

    fn choice_from(&self, node: &Node, from: u64) -> Option<u64> {
        if node.is_over() {
            return None;
        }
        subsets_may();
        let routines = self.ruling.system.routine_count();
        let free = free_routines(node.packed(), self.ruling.rules, routines);
        subset_from(free, from)
    }

    fn repeats(
        &mut self,
        alloc: Global,
        node: &Node,
        choice: u64,
    ) -> Result<Option<u64>, AllocError> {
        self.states
            .visit(alloc, &self.noted.trails, node.entry(), node.base())?;
        if choice & self.states.pending() == 0 {
            return Ok(None);
        }
        self.without_lost(node, choice)
    }

    fn next(
        &mut self,
        alloc: Global,
        from: &Node,
        choice: u64,
    ) -> Result<Option<Node>, AllocError> {
        self.read.read(from.packed())?;
        let Some(labels) = self.read.of(from.packed()) else {
            return Ok(None);
        };
        let Some(machine) = self.states.at(from.key()) else {
            return Ok(None);
        };
        one_state_tells();
        notes_stay();
        let ruling = &self.ruling;
        let made = self
            .room
            .tick(alloc, ruling, machine, &mut self.current, labels, choice)?;
        let Some(node) = made else {
            return Ok(None);
        };
        let seen = self.room.watcher.seen();
        let is_over = self.current.is_shut_down();
        self.noted
            .note(ruling, seen, is_over, labels, from.entry(), choice)?;
        Ok(Some(node))
    }

    fn covers(&self, one: &Node, other: &Node) -> bool {
        let Some(mut comparing) = self.room.comparing.take() else {
            return false;
        };
        let covers = one.covers(other, &mut comparing);
        self.room.comparing.set(Some(comparing));
        covers
    }

    fn join(
        &self,
        alloc: Global,
        node: &mut Node,
        other: Node,
    ) -> Result<Option<Node>, AllocError> {
        let Some(mut comparing) = self.room.comparing.take() else {
            return Ok(Some(other));
        };
        let done = node.join(alloc, self.ruling.system, &other, &mut comparing)?;
        self.room.comparing.set(Some(comparing));
        if done {
            return Ok(None);
        }
        Ok(Some(other))
    }

    fn keep(&mut self, alloc: Global, node: &mut Node) -> Result<(), AllocError> {
        self.kept = node.size_with(self.kept);
        self.room.bytes = node.fit(alloc)?;
        let raised = self.room.take_raised();
        let entry = self.noted.trails.enter(node.entry(), raised)?;
        let base = self.states.open(alloc, &self.current, entry, node.base())?;
        node.keep(entry, base);
        self.states.keep_for(base, node.base());
        Ok(())
    }

    fn take_back(&mut self, node: Node) {
        self.room.bytes = node.into_bytes();
    }

    fn settle(&mut self, node: &mut Node) {
        if let Some(base) = node.base() {
            self.states.close(base);
        }
        node.close();
    }

    fn watch(&mut self, progress: Progress) {
        self.watch.searched(progress, self.kept);
    }

    fn hash(&self, node: &Node) -> u64 {
        node.hash()
    }

    fn kept(&self) {
        nodes_are_kept();
    }
}
