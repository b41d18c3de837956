//! The machine that a search ticks.

ghost use Rattle.std.specs.Prelude.{◌≡◌, ◌<◌, ◌≤◌, IsTrue, IfOk, IfSome, OnOk, false, length};
ghost use Rattle.std.specs.List.{All};
ghost use Rattle.law_kept.specs.KeptTick.{boot_in};
ghost use Rattle.kernel.specs.Machine.{IsOfRun, next_tick, picture, system_of};
ghost use Rattle.search_needs.specs.Table.{need_of};
ghost use Rattle.search_keys.specs.Key.{key};
ghost use Rattle.search_bounds.specs.Held.{Ticked};

use crate::bases::StateMachine;
use kernel::Machine;
use osek_base::{IsrId, MAX_ROUTINES, MAX_TICKS, ModeId, System};
use search_labels::Labels;
use search_needs::Needs;
use search_nodes::Node;
use search_packed::{pack, packed_are_told};
use search_states::write_key;
use seen_machines::Watcher;
use std::alloc::{AllocError, Global};
use std::mem;

/// Boots a machine again, in a mode.
pub(crate) fn boot_again<'s>(
    alloc: Global,
    system: &'s System,
    mode: ModeId,
    machine: &mut StateMachine<'s>,
) -> Result<(), AllocError>
    requires same { system_of machine.old ≡ system.now }
    requires of_run { IsOfRun false machine.old }
    ensures picture { OnOk result (picture machine.new ≡ (boot_in system.now mode).state) }
    ensures system { system_of machine.new ≡ system.now }
    ensures of_run { IsOfRun false machine.new }
{
    let booted = Machine::boot(alloc, system, mode)?;
    machine.copy_from(&booted);
    // Dropped by one call, kept out of line: smaller code.
    mem::drop(booted);
    Ok(())
}

/// Whether a machine can be ticked: its run isn't over, and ticks are left.
pub(crate) fn can_go_on(machine: &StateMachine<'_>) -> bool
    ensures going { IsTrue result → (picture machine.now).over ≡ false }
    ensures left { IsTrue result → next_tick machine.now < MAX_TICKS }
{
    !machine.is_shut_down() && machine.next_tick() < MAX_TICKS
}

/// A machine becomes what a tick makes of another one, in which the interrupts of some routines
/// arrive.
pub(crate) fn tick_from<'s>(
    from: &StateMachine<'s>,
    machine: &mut StateMachine<'s>,
    arrived: &[IsrId],
    watcher: &mut Watcher,
)
    requires same { system_of machine.old ≡ system_of from.now }
    requires on { (picture from.now).over ≡ false }
    requires left { next_tick from.now < MAX_TICKS }
    requires known { All (λ i. i < length (system_of from.now).routines) arrived.now }
    requires few { length arrived.now ≤ MAX_ROUTINES }
    ensures system { system_of machine.new ≡ system_of from.now }
    ensures ticked { Ticked (system_of from.now) arrived.now (picture from.now)
        machine.new watcher.new }
    ensures of_run { IsOfRun false machine.new }
{
    machine.copy_from(from);
    watcher.tick(machine, arrived);
}

/// What is kept of a machine's state, with labels; none where its key is too long. Its bytes are
/// written in a room that is handed over.
pub(crate) fn node_of(
    machine: &StateMachine<'_>,
    needs: &Needs,
    labels: &Labels,
    room: Vec<u8>,
) -> Result<Option<Node>, AllocError>
    ensures key { IfOk result (λ o. IfSome o (λ node. node.key
        ≡ key (system_of machine.now) (need_of needs.now) (picture machine.now))) }
    ensures over { IfOk result (λ o. IfSome o (λ node. node.over ≡ (picture machine.now).over)) }
    ensures labels { IfOk result (λ o. IfSome o (λ node. node.labels ≡ labels.now)) }
{
    packed_are_told();
    let mut bytes = room;
    bytes.clear();
    write_key(machine, needs, &mut bytes)?;
    let key_len = bytes.len();
    pack(labels, &mut bytes)?;
    Ok(Node::new(bytes, key_len, machine.is_shut_down()))
}
