//! Who executes: the running task and the active routine, with their registers and places.

ghost use Rattle.std.specs.Prelude.{◌≡◌, ◌++◌, OnOk};
ghost use Rattle.osek_base.specs.declared.limits.TheConstants.{REGISTERS};
ghost use Rattle.osek_base.specs.Instruction.{value};
ghost use Rattle.services.specs.Objects.{kept_in};
ghost use Rattle.search_needs.specs.Table.{need_of};
ghost use Rattle.search_keys.specs.Bytes.{each, needed, number, optional};
ghost use Rattle.search_keys.specs.Key.{context_key, executing_key, routine_key};

use crate::sets::next_below;
use machine::Cpu;
use osek_base::{Owner, REGISTERS, Register, TaskId};
use search_keys::{push_byte, push_flag, push_number};
use search_needs::Needs;
use services::{Active, CompactQueues, Objects};
use std::alloc::AllocError;

/// Adds the registers that are needed.
#[inline(always)]
#[tactic(auto, using(crate::proofs::Steps::none_yet))]
fn push_registers(
    out: &mut Vec<u8>,
    needs: &Needs,
    owner: &Owner,
    cpu: &Cpu,
) -> Result<(), AllocError>
    ensures { OnOk result (out.new.items ≡ out.old.items
        ++ each REGISTERS
        (λ r. needed ((need_of needs.now).registers owner.now r) (value cpu.now r))) }
{
    let registers = needs.needed_registers(*owner);
    let mut from = 0;
    while let Some(number) = next_below(registers, from, REGISTERS as u32) {
        push_number(out, cpu.value(Register::new(number as u8)))?;
        from = number + 1;
    }
    Ok(())
}

/// Adds a place, and the registers that are needed.
#[inline(always)]
#[tactic(auto, using(crate::proofs::Steps::joined))]
pub fn push_context(
    out: &mut Vec<u8>,
    needs: &Needs,
    owner: &Owner,
    cpu: &Cpu,
) -> Result<(), AllocError>
    ensures { OnOk result (out.new.items ≡ out.old.items
        ++ context_key ((need_of needs.now).registers owner.now) cpu.now) }
{
    push_number(out, cpu.place().number() as u32)?;
    push_registers(out, needs, owner, cpu)
}

/// Adds a routine with its registers and place.
#[inline(never)]
#[tactic(auto, using(crate::proofs::Steps::joined))]
fn push_routine(out: &mut Vec<u8>, needs: &Needs, active: &Active) -> Result<(), AllocError>
    ensures { OnOk result (out.new.items ≡ out.old.items
        ++ routine_key (need_of needs.now) active.now) }
{
    let routine = active.routine();
    push_number(out, routine.number() as u32)?;
    push_context(out, needs, &Owner::Routine(routine), active.cpu())
}

/// Adds the active routine, if there is one.
#[tactic(auto, using(crate::proofs::Steps::joined))]
fn push_active(out: &mut Vec<u8>, needs: &Needs, active: &Option<Active>) -> Result<(), AllocError>
    ensures { OnOk result (out.new.items ≡ out.old.items
        ++ optional (routine_key (need_of needs.now)) active.now) }
{
    match active {
        None => push_byte(out, 0),
        Some(active) => {
            push_byte(out, 1)?;
            push_routine(out, needs, active)
        }
    }
}

/// Adds the running task, if there is one.
#[tactic(auto, using(crate::proofs::Steps::joined))]
fn push_running(out: &mut Vec<u8>, running: Option<TaskId>) -> Result<(), AllocError>
    ensures { OnOk result (out.new.items ≡ out.old.items ++ optional number running) }
{
    match running {
        None => push_byte(out, 0),
        Some(task) => {
            push_byte(out, 1)?;
            push_number(out, task.number() as u32)
        }
    }
}

/// The running task, also where its job has ended.
fn running(objects: &Objects<'_, CompactQueues>) -> Option<TaskId>
    ensures { result ≡ objects.now.running }
{
    objects.running
}

/// Adds who executes.
#[tactic(auto, using(crate::proofs::Steps::joined))]
pub fn push_executing(
    out: &mut Vec<u8>,
    needs: &Needs,
    objects: &Objects<'_, CompactQueues>,
) -> Result<(), AllocError>
    ensures { OnOk result (out.new.items ≡ out.old.items
        ++ executing_key (need_of needs.now) (kept_in objects.now)) }
{
    push_running(out, running(objects))?;
    push_flag(out, objects.is_gone())?;
    push_active(out, needs, objects.active())
}
