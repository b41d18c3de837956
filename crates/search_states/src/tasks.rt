//! Tasks: how many jobs each has, its oldest job, and its events.

ghost use Rattle.std.specs.Prelude.{◌≡◌, ◌<◌, ◌≤◌, ◌+◌, ◌++◌, OnOk, length};
ghost use Rattle.osek_base.specs.declared.limits.TheConstants.{MAX_RESOURCES};
ghost use Rattle.osek_base.specs.declared.ids.Owner.{Owner as OwnerOf};
ghost use Rattle.services.specs.Objects.{kept_in};
ghost use Rattle.search_needs.specs.Table.{need_of};
ghost use Rattle.search_keys.specs.Bytes.{each, number, optional};
ghost use Rattle.search_keys.specs.Key.{job_key, resource_key, resources_key, task_key};
ghost use Rattle.search_states.specs.Parts.{first_of_job, held_key, jobs_key};

use crate::executing::push_context;
use osek_base::{MAX_RESOURCES, Owner, ResId, System, TaskId};
use search_keys::{push_byte, push_flag, push_number, push_optional};
use search_needs::Needs;
use services::{CompactQueues, Objects, Slot};
use std::alloc::AllocError;

/// Adds a resource.
fn push_resource(out: &mut Vec<u8>, resource: &ResId) -> Result<(), AllocError>
    ensures { OnOk result (out.new.items ≡ out.old.items ++ resource_key resource.now) }
{
    match resource {
        ResId::Scheduler => push_number(out, 0),
        ResId::Declared(number) => push_number(out, number.number() as u32 + 1),
    }
}

/// Adds resources, one after another.
#[tactic(auto, using(crate::proofs::Steps::joined))]
fn push_resources(out: &mut Vec<u8>, resources: &[ResId]) -> Result<(), AllocError>
    ensures { OnOk result (out.new.items ≡ out.old.items ++ resources_key resources.now) }
{
    match resources.split_first() {
        None => Ok(()),
        Some((first, rest)) => {
            push_resource(out, first)?;
            push_resources(out, rest)
        }
    }
}

/// Adds how many resources a job holds, and each.
#[inline(never)]
#[tactic(auto, using(crate::proofs::Steps::joined))]
fn push_each_held(out: &mut Vec<u8>, slot: &Slot) -> Result<(), AllocError>
    ensures { OnOk result (out.new.items ≡ out.old.items ++ held_key slot.now.held) }
{
    let held = slot.held();
    push_number(out, held.len() as u32)?;
    push_resources(out, held)
}

/// Adds what a job holds; mostly that is nothing.
#[inline(always)]
#[tactic(auto, using(crate::proofs::JobLemmas::none_held))]
fn push_held(out: &mut Vec<u8>, slot: &Slot) -> Result<(), AllocError>
    ensures { OnOk result (out.new.items ≡ out.old.items ++ held_key slot.now.held) }
{
    if slot.holds_none() {
        return push_byte(out, 0);
    }
    push_each_held(out, slot)
}

/// Adds whether a job has begun and taken its internal resource, and which resources it holds.
#[inline(always)]
#[tactic(auto, using(crate::proofs::Steps::joined))]
fn push_first_of_job(out: &mut Vec<u8>, slot: &Slot) -> Result<(), AllocError>
    ensures { OnOk result (out.new.items ≡ out.old.items ++ first_of_job slot.now) }
{
    push_flag(out, slot.is_begun())?;
    push_flag(out, slot.is_taken())?;
    push_held(out, slot)
}

/// Adds the events for which a job waits; mostly it waits for none.
#[inline(always)]
fn push_awaited(out: &mut Vec<u8>, awaited: Option<u32>) -> Result<(), AllocError>
    ensures { OnOk result (out.new.items ≡ out.old.items ++ optional number awaited) }
{
    match awaited {
        None => push_byte(out, 0),
        Some(_) => push_optional(out, awaited),
    }
}

/// Adds the oldest job of a task.
#[inline(always)]
#[tactic(auto, using(crate::proofs::Steps::joined))]
fn push_job(out: &mut Vec<u8>, needs: &Needs, task: TaskId, slot: &Slot) -> Result<(), AllocError>
    ensures { OnOk result (out.new.items ≡ out.old.items
        ++ job_key ((need_of needs.now).registers (OwnerOf.Task task)) slot.now) }
{
    push_first_of_job(out, slot)?;
    push_awaited(out, slot.awaited())?;
    push_context(out, needs, &Owner::Task(task), slot.cpu())
}

/// Adds how many jobs a task has, and the oldest one, if there is one.
#[inline(always)]
#[tactic(auto, using(crate::proofs::Steps::joined, crate::proofs::JobLemmas::no_jobs))]
fn push_jobs(out: &mut Vec<u8>, needs: &Needs, task: TaskId, slot: &Slot) -> Result<(), AllocError>
    ensures { OnOk result (out.new.items ≡ out.old.items
        ++ jobs_key ((need_of needs.now).registers (OwnerOf.Task task)) slot.now) }
{
    if slot.count() == 0 {
        return push_byte(out, 0);
    }
    push_number(out, slot.count() as u32)?;
    push_job(out, needs, task, slot)
}

/// Adds a task: its jobs, and the events that are set.
#[inline(always)]
#[tactic(auto, using(crate::proofs::Steps::joined))]
fn push_task(
    out: &mut Vec<u8>,
    needs: &Needs,
    objects: &Objects<'_, CompactQueues>,
    task: TaskId,
) -> Result<(), AllocError>
    requires { task < length objects.now.system.tasks }
    ensures { OnOk result (out.new.items ≡ out.old.items
        ++ task_key (need_of needs.now) (kept_in objects.now) task) }
{
    push_jobs(out, needs, task, objects.slot(task))?;
    push_number(out, objects.events_of(task))
}

/// Adds each task.
#[tactic(auto, using(crate::proofs::Steps::none_yet))]
pub fn push_tasks(
    out: &mut Vec<u8>,
    system: &System,
    needs: &Needs,
    objects: &Objects<'_, CompactQueues>,
) -> Result<(), AllocError>
    requires { objects.now.system ≡ system.now }
    ensures { OnOk result (out.new.items ≡ out.old.items
        ++ each (length system.now.tasks) (task_key (need_of needs.now) (kept_in objects.now))) }
{
    for number in 0..system.task_count() {
        push_task(out, needs, objects, TaskId::new(number as u8))?;
    }
    Ok(())
}
