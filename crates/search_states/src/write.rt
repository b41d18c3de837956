//! The whole key of a machine.

ghost use Rattle.std.specs.Prelude.{◌≡◌, ◌++◌, OnOk};
ghost use Rattle.services.specs.Objects.{kept_in};
ghost use Rattle.kernel.specs.Machine.{picture, system_of};
ghost use Rattle.search_needs.specs.Table.{need_of};
ghost use Rattle.search_keys.specs.Key.{key};
ghost use Rattle.search_states.specs.Parts.{jobs_part};

use crate::executing::push_executing;
use crate::interrupts::push_interrupts;
use crate::ready::push_ready;
use crate::tasks::push_tasks;
use crate::times::push_times;
use crate::words::push_words;
use kernel::{Blockers, Machine};
use osek_base::System;
use search_keys::push_flag;
use search_needs::Needs;
use services::{CompactQueues, Objects};
use std::alloc::AllocError;

/// The system of some objects.
fn system_of<'s>(objects: &Objects<'s, CompactQueues>) -> &'s System
    ensures { result.now ≡ objects.now.system }
{
    objects.system
}

/// Adds who executes, interrupts, and tasks.
#[tactic(auto, using(crate::proofs::Steps::joined))]
fn push_jobs(
    out: &mut Vec<u8>,
    system: &System,
    needs: &Needs,
    objects: &Objects<'_, CompactQueues>,
) -> Result<(), AllocError>
    requires { objects.now.system ≡ system.now }
    ensures { OnOk result (out.new.items ≡ out.old.items
        ++ jobs_part system.now (need_of needs.now) (kept_in objects.now)) }
{
    push_executing(out, needs, objects)?;
    push_interrupts(out, system, objects)?;
    push_tasks(out, system, needs, objects)
}

/// Adds the key of a machine: the bytes that tell all that is needed of its state but absolute
/// time. Err is a growth that was refused; a beginning of the key may have been added then.
pub fn write_key<B: Blockers>(
    machine: &Machine<'_, CompactQueues, B>,
    needs: &Needs,
    out: &mut Vec<u8>,
) -> Result<(), AllocError>
    ensures { OnOk result (out.new.items ≡ out.old.items
        ++ key (system_of machine.now) (need_of needs.now) (picture machine.now)) }
{
    let objects = machine.objects();
    let system = system_of(objects);
    push_jobs(out, system, needs, objects)?;
    push_ready(out, machine.queues())?;
    push_times(out, system, needs, objects, machine.next_tick())?;
    push_words(out, system, machine, needs)?;
    push_flag(out, machine.is_shut_down())?;
    Ok(())
}
