//! The words that are needed, of tasks, routines and resources.

ghost use Rattle.std.specs.Prelude.{◌≡◌, ◌<◌, ◌++◌, OnOk, length};
ghost use Rattle.osek_base.specs.declared.limits.TheConstants.{SHARED_WORDS};
ghost use Rattle.osek_base.specs.declared.ids.Owner.{Owner as OwnerOf};
ghost use Rattle.osek_base.specs.State.{shared_word};
ghost use Rattle.kernel.specs.Machine.{picture, system_of};
ghost use Rattle.search_needs.specs.Table.{need_of};
ghost use Rattle.search_keys.specs.Bytes.{each, number};
ghost use Rattle.search_keys.specs.Key.{shared_key, window_key, words_key};

use crate::sets::next_in;
use kernel::{Blockers, Machine};
use osek_base::{IsrId, Owner, ResourceNumber, SHARED_WORDS, System, TaskId};
use search_keys::push_number;
use search_needs::Needs;
use services::CompactQueues;
use std::alloc::AllocError;

/// Adds the words of a window that are needed, one after another.
#[inline(never)]
#[tactic(auto, using(crate::proofs::Steps::none_yet))]
fn push_each_word<B: Blockers>(
    out: &mut Vec<u8>,
    machine: &Machine<'_, CompactQueues, B>,
    needs: &Needs,
    owner: &Owner,
) -> Result<(), AllocError>
    ensures { OnOk result (out.new.items ≡ out.old.items
        ++ window_key (need_of needs.now) (picture machine.now) owner.now) }
{
    let words = needs.needed_words(*owner);
    let mut from = 0;
    while let Some(index) = next_in(words, from) {
        push_number(out, machine.word(*owner, index))?;
        from = index + 1;
    }
    Ok(())
}

/// Adds the words of a window that are needed; mostly none is.
#[inline(always)]
fn push_window<B: Blockers>(
    out: &mut Vec<u8>,
    machine: &Machine<'_, CompactQueues, B>,
    needs: &Needs,
    owner: &Owner,
) -> Result<(), AllocError>
    ensures { OnOk result (out.new.items ≡ out.old.items
        ++ window_key (need_of needs.now) (picture machine.now) owner.now) }
{
    if needs.needed_words(*owner) == 0 {
        return Ok(());
    }
    push_each_word(out, machine, needs, owner)
}

/// Adds the words of tasks.
#[tactic(auto, using(crate::proofs::Steps::none_yet))]
fn push_task_windows<B: Blockers>(
    out: &mut Vec<u8>,
    system: &System,
    machine: &Machine<'_, CompactQueues, B>,
    needs: &Needs,
) -> Result<(), AllocError>
    ensures { OnOk result (out.new.items ≡ out.old.items
        ++ each (length system.now.tasks)
        (λ t. window_key (need_of needs.now) (picture machine.now) (OwnerOf.Task t))) }
{
    for number in 0..system.task_count() {
        let owner = Owner::Task(TaskId::new(number as u8));
        push_window(out, machine, needs, &owner)?;
    }
    Ok(())
}

/// Adds the words of routines.
#[tactic(auto, using(crate::proofs::Steps::none_yet))]
fn push_routine_windows<B: Blockers>(
    out: &mut Vec<u8>,
    system: &System,
    machine: &Machine<'_, CompactQueues, B>,
    needs: &Needs,
) -> Result<(), AllocError>
    ensures { OnOk result (out.new.items ≡ out.old.items
        ++ each (length system.now.routines)
        (λ i. window_key (need_of needs.now) (picture machine.now) (OwnerOf.Routine i))) }
{
    for number in 0..system.routine_count() {
        let owner = Owner::Routine(IsrId::new(number as u8));
        push_window(out, machine, needs, &owner)?;
    }
    Ok(())
}

/// Adds all words of a resource's window.
#[inline(never)]
#[tactic(auto, using(crate::proofs::Steps::none_yet))]
fn push_shared_window<B: Blockers>(
    out: &mut Vec<u8>,
    machine: &Machine<'_, CompactQueues, B>,
    resource: ResourceNumber,
) -> Result<(), AllocError>
    requires { resource < length (system_of machine.now).resources }
    ensures { OnOk result (out.new.items ≡ out.old.items
        ++ each SHARED_WORDS (λ i. number (shared_word (picture machine.now).shared resource i))) }
{
    for index in 0..SHARED_WORDS {
        push_number(out, machine.shared_word(resource, index as u32))?;
    }
    Ok(())
}

/// Adds the window of a resource, if it is needed.
fn push_shared<B: Blockers>(
    out: &mut Vec<u8>,
    machine: &Machine<'_, CompactQueues, B>,
    needs: &Needs,
    resource: ResourceNumber,
) -> Result<(), AllocError>
    requires { resource < length (system_of machine.now).resources }
    ensures { OnOk result (out.new.items ≡ out.old.items
        ++ shared_key (need_of needs.now) (picture machine.now) resource) }
{
    if needs.needs_shared(resource) {
        push_shared_window(out, machine, resource)?;
    }
    Ok(())
}

/// Adds the windows of resources that are needed.
#[tactic(auto, using(crate::proofs::Steps::none_yet))]
fn push_shared_windows<B: Blockers>(
    out: &mut Vec<u8>,
    system: &System,
    machine: &Machine<'_, CompactQueues, B>,
    needs: &Needs,
) -> Result<(), AllocError>
    requires { system_of machine.now ≡ system.now }
    ensures { OnOk result (out.new.items ≡ out.old.items
        ++ each (length system.now.resources) (shared_key (need_of needs.now)
        (picture machine.now))) }
{
    for number in 0..system.resource_count() {
        push_shared(out, machine, needs, ResourceNumber::new(number as u8))?;
    }
    Ok(())
}

/// Adds the words that are needed.
#[tactic(auto, using(crate::proofs::Steps::joined))]
pub fn push_words<B: Blockers>(
    out: &mut Vec<u8>,
    system: &System,
    machine: &Machine<'_, CompactQueues, B>,
    needs: &Needs,
) -> Result<(), AllocError>
    requires { system_of machine.now ≡ system.now }
    ensures { OnOk result (out.new.items ≡ out.old.items
        ++ words_key system.now (need_of needs.now) (picture machine.now)) }
{
    push_task_windows(out, system, machine, needs)?;
    push_routine_windows(out, system, machine, needs)?;
    push_shared_windows(out, system, machine, needs)
}
