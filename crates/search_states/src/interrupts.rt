//! Pending interrupts, and what turns interrupts off.

ghost use Rattle.std.specs.Prelude.{◌≡◌, ◌++◌, OnOk, length, slice_index_or, false};
ghost use Rattle.services.specs.Objects.{kept_in};
ghost use Rattle.search_keys.specs.Bytes.{each, flag};
ghost use Rattle.search_keys.specs.Key.{interrupts_key};

use osek_base::{IsrId, System};
use search_keys::{push_flag, push_number};
use services::{CompactQueues, Objects};
use std::alloc::AllocError;

/// Adds whether an interrupt of each routine is pending.
#[tactic(auto, using(crate::proofs::Steps::none_yet))]
fn push_pending(
    out: &mut Vec<u8>,
    system: &System,
    objects: &Objects<'_, CompactQueues>,
) -> Result<(), AllocError>
    requires { objects.now.system ≡ system.now }
    ensures { OnOk result (out.new.items ≡ out.old.items
        ++ each (length system.now.routines)
        (λ i. flag (slice_index_or objects.now.pending i false))) }
{
    for number in 0..system.routine_count() {
        let is_pending = objects.is_pending(IsrId::new(number as u8));
        push_flag(out, is_pending)?;
    }
    Ok(())
}

/// Adds what is pending, the switch of interrupts, and the nesting counts.
#[tactic(auto, using(crate::proofs::Steps::joined))]
pub fn push_interrupts(
    out: &mut Vec<u8>,
    system: &System,
    objects: &Objects<'_, CompactQueues>,
) -> Result<(), AllocError>
    requires { objects.now.system ≡ system.now }
    ensures { OnOk result (out.new.items ≡ out.old.items
        ++ interrupts_key system.now (kept_in objects.now)) }
{
    push_pending(out, system, objects)?;
    push_flag(out, objects.is_disabled())?;
    push_number(out, objects.suspended_all())?;
    push_number(out, objects.suspended_os())
}
