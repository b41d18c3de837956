//! OSEK/VDX OS: system services. The objects of a running system that services read and change.

ghost use Rattle.std.specs.Prelude.{◌≡◌, ◌<◌, IfOk, replicate, slice_index, slice_set, length};
ghost use Rattle.osek_base.specs.Proper.{IsProper};
ghost use Rattle.osek_base.specs.State.{no_shared};
ghost use Rattle.osek_base.specs.Trace.{starting_alarms};
ghost use Rattle.law_kept.specs.Kept.{unbegun};
ghost use Rattle.law_kept.specs.KeptService.{is_full_in, is_suspended_in};
ghost use Rattle.law_kept.specs.KeptTick.{still_in};
ghost use Rattle.law_kept.specs.Standing.{room_for};
ghost use Rattle.services.specs.Objects.{by_task, kept_in};

use crate::interrupts::Active;
use crate::pending::Pending;
use crate::ready_list::ReadyList;
use crate::shared_window::SharedWindow;
use crate::slot::Slot;
use alarms::Alarms;
use osek_base::{ModeId, System, TaskId};
use ready_queues::ReadyQueues;
use std::alloc::{AllocError, Global};
use std::marker::Model;

/// The tasks with their ready list, the interrupts, the alarms, the events and the shared words of a running system. A step
/// of a service may leave them standing for no state until the next step.
#[derive(Drop)]
pub struct Objects<'s, Q: ReadyQueues> {
    pub system: &'s System,
    pub ready: ReadyList<Q>,
    pub slots: Vec<Slot>,
    pub running: Option<TaskId>,
    pub gone: bool,
    pub active: Option<Active>,
    pub pending: Pending,
    pub disabled: bool,
    pub suspended_all: u32,
    pub suspended_os: u32,
    pub alarms: Alarms,
    pub masks: Vec<u32>,
    pub shared: Vec<SharedWindow>,
    pub over: bool,
}

impl<'s, Q: ReadyQueues> Model for Objects<'s, Q> {
    ghost use Rattle.services.specs.Objects.{Objects, IsSized};

    ghost Value = { Objects };

    ghost view = { λ c. record {
      system = c.system.now;
      room = c.ready.room;
      queues = c.ready.lists;
      slots = c.slots.items;
      running = c.running;
      gone = c.gone;
      active = c.active;
      pending = c.pending;
      disabled = c.disabled;
      suspended_all = c.suspended_all;
      suspended_os = c.suspended_os;
      alarms = c.alarms.expiries;
      masks = c.masks.items;
      shared = c.shared.items;
      tick = c.alarms.tick;
      over = c.over;
    } };

    ghost invariant = { λ c. IsSized c.system.now c.slots.items c.masks.items c.pending
        c.shared.items c.alarms c.ready.room c.running };
}

/// The sum of the ACTIVATION values.
fn room_for(system: &System) -> usize
    ensures { result ≡ room_for system.now }
{
    let tasks = system.task_count();
    let mut room = 0;
    for number in 0..tasks {
        room += system.activation_of(TaskId::new(number as u8)) as usize;
    }
    room
}

/// A slot for each task.
fn slots_of(alloc: Global, count: usize) -> Result<Vec<Slot>, AllocError>
    ensures { IfOk result (λ slots. slots.items ≡ replicate count (unbegun 0)) }
{
    let mut slots = Vec::with_capacity(alloc, count)?;
    for _made in 0..count {
        slots.push(Slot::new())?;
    }
    Ok(slots)
}

/// A window for each resource.
fn windows(alloc: Global, count: usize) -> Result<Vec<SharedWindow>, AllocError>
    ensures { IfOk result (λ windows. windows.items ≡ replicate count no_shared) }
{
    let mut windows = Vec::with_capacity(alloc, count)?;
    for _made in 0..count {
        windows.push(SharedWindow::new())?;
    }
    Ok(windows)
}

impl<'s, Q: ReadyQueues> Objects<'s, Q> {
    /// No job, no routine, interrupts on, alarms off, masks and shared words 0, with room for as many jobs as the tasks may
    /// have.
    pub fn new(alloc: Global, system: &'s System) -> Result<Self, AllocError>
        ensures proper { IsProper system.now }
        ensures system { IfOk result (λ o. o.system ≡ system.now) }
        ensures kept { IfOk result (λ o. kept_in o ≡ still_in system.now) }
    {
        let tasks = system.task_count();
        let routines = system.routine_count();
        Ok(Objects {
            system,
            ready: ReadyList::with_room(alloc, room_for(system))?,
            slots: slots_of(alloc, tasks)?,
            running: None,
            gone: false,
            active: None,
            pending: Pending::new(alloc, routines)?,
            disabled: false,
            suspended_all: 0,
            suspended_os: 0,
            alarms: Alarms::new(system),
            masks: vec![in alloc; 0; tasks]?,
            shared: windows(alloc, system.resource_count())?,
            over: false,
        })
    }

    /// Sets the alarms that start by themselves in a mode, at tick 0.
    pub fn start_alarms(&mut self, mode: ModeId)
        requires { self.old.tick ≡ 0 }
        ensures { self.new ≡ record self.old { alarms = starting_alarms self.old.system mode } }
    {
        self.alarms.start(self.system, mode);
    }

    /// Whether a task has as many jobs as its ACTIVATION allows.
    #[inline(always)]
    pub fn is_full(&self, task: TaskId) -> bool
        requires { task < length self.now.system.tasks }
        ensures { result ≡ is_full_in self.now.system (kept_in self.now) task }
    {
        let slot = &self.slots[task.number() as usize];
        self.system.activation_of(task) <= slot.count()
    }

    /// Whether a task has no job.
    #[inline(always)]
    pub fn is_suspended(&self, task: TaskId) -> bool
        requires { task < length self.now.system.tasks }
        ensures { result ≡ is_suspended_in (kept_in self.now) task }
    {
        let slot = &self.slots[task.number() as usize];
        slot.count() == 0
    }

    /// A task's events, as a mask.
    pub fn events_of(&self, task: TaskId) -> u32
        requires { task < length self.now.system.tasks }
        ensures { result ≡ slice_index self.now.masks task }
    {
        self.masks[task.number() as usize]
    }

    /// How many jobs a task has, and what its oldest one holds, waits for and has in its registers.
    #[inline(always)]
    pub fn slot(&self, task: TaskId) -> &Slot
        requires { task < length self.now.system.tasks }
        ensures { result.now ≡ by_task self.now.slots task }
    {
        &self.slots[task.number() as usize]
    }

    /// The events of a task become those of a mask.
    pub fn put_events(&mut self, task: TaskId, mask: u32)
        requires { task < length self.old.system.tasks }
        ensures { self.new ≡ record self.old { masks = slice_set self.old.masks task mask } }
    {
        self.masks[task.number() as usize] = mask;
    }
}
