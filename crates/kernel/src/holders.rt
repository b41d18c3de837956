//! OSEK/VDX OS: resource management. Who holds each resource.

ghost use Rattle.std.specs.Prelude.{if◌then◌else◌, ◌≡◌, ◌≤◌, ◌+◌, None, map, length};
ghost use Rattle.osek_base.specs.Lists.{below};
ghost use Rattle.osek_base.specs.declared.limits.TheConstants.{MAX_RESOURCES, MAX_TASKS};
ghost use Rattle.services.specs.Objects.{kept_in};
ghost use Rattle.kernel.specs.Holders.{all_noted, holder_from, holders_in, noted};

use crate::places::give_places;
use arrayvec::ArrayVec;
use osek_base::{ResId, System, TaskId};
use ready_queues::ReadyQueues;
use seen_ticks::{Holder, MAX_HELD};
use services::{Objects, Slot};

/// The slots of all tasks.
#[inline(always)]
fn slots_of<'o, Q: ReadyQueues>(objects: &'o Objects<'_, Q>) -> &'o [Slot]
    ensures slots { result.now ≡ objects.now.slots }
    ensures count { length result.now ≡ length objects.now.system.tasks }
{
    objects.slots.as_slice()
}

/// Nobody holds any resource. Nothing is written where nobody did.
#[inline(always)]
fn free_all(places: &mut [Holder])
    ensures { places.new ≡ map (λ _. None) (below (length places.old)) }
{
    for number in 0..places.len() {
        if places[number].task().is_some() {
            places[number] = Holder::new(None);
        }
    }
}

/// A task holds a resource: the place of the resource says so, whoever held it before. One that
/// has no place is left out.
#[inline(always)]
fn note(resource: &ResId, task: TaskId, declared: usize, places: &mut [Holder])
    requires { declared ≤ length places.old }
    ensures { places.new ≡ noted declared task resource.now places.old }
{
    match resource {
        ResId::Declared(number) => {
            let place = number.number() as usize;
            if place < declared {
                places[place] = Holder::new(Some(task));
            }
        }
        ResId::Scheduler => {
            if declared < places.len() {
                places[declared] = Holder::new(Some(task));
            }
        }
    }
}

/// A task holds some resources, whoever held them before.
#[inline(never)]
fn note_all(held: &[ResId], task: TaskId, declared: usize, places: &mut [Holder])
    requires { declared ≤ length places.old }
    ensures { places.new ≡ all_noted declared task held.now places.old }
{
    for resource in held {
        note(resource, task, declared, places);
    }
}

/// Each resource has the first task whose oldest job holds it as its holder, where none has any
/// yet. Tasks are gone over from the last to the first, so the first is noted last.
#[inline(always)]
fn see_all_held(slots: &[Slot], declared: usize, places: &mut [Holder])
    requires tasks { length slots.now ≤ MAX_TASKS }
    requires least { declared ≤ length places.old }
    requires most { length places.old ≤ declared + 1 }
    requires free { places.old ≡ map (λ _. None) (below (length places.old)) }
    ensures { places.new ≡ map (holder_from slots.now declared 0) (below (length places.old)) }
{
    for number in (0..slots.len()).rev() {
        let slot = &slots[number];
        if !slot.holds_none() {
            note_all(slot.held(), TaskId::new(number as u8), declared, places);
        }
    }
}

/// Each resource has the first task whose oldest job holds it as its holder.
#[inline(always)]
fn see_all(slots: &[Slot], declared: usize, places: &mut [Holder])
    requires tasks { length slots.now ≤ MAX_TASKS }
    requires least { declared ≤ length places.old }
    requires most { length places.old ≤ declared + 1 }
    ensures { places.new ≡ map (holder_from slots.now declared 0) (below (length places.old)) }
{
    free_all(places);
    see_all_held(slots, declared, places);
}

/// How many resources can be held.
#[inline(always)]
fn place_count(system: &System) -> usize
    ensures value { result
        ≡ length system.now.resources + (if system.now.use_res_scheduler then 1 else 0) }
    ensures few { result ≤ MAX_RESOURCES + 1 }
    ensures least { length system.now.resources ≤ result }
    ensures most { result ≤ length system.now.resources + 1 }
{
    let declared = system.resource_count();
    if system.has_res_scheduler() {
        declared + 1
    } else {
        declared
    }
}

/// Leaves who holds each declared resource, and behind them RES_SCHEDULER where the system has it:
/// the first task whose oldest job holds it.
#[inline(always)]
pub fn see_holders<Q: ReadyQueues>(
    objects: &Objects<'_, Q>,
    holders: &mut ArrayVec<Holder, MAX_HELD>,
)
    ensures { holders.new.items ≡ holders_in objects.now.system (kept_in objects.now) }
{
    give_places(holders, place_count(objects.system));
    let declared = objects.system.resource_count();
    let places = holders.as_mut_slice();
    see_all(slots_of(objects), declared, places);
}
