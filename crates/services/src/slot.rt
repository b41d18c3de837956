//! OSEK/VDX OS: task management, task state model. The slot of a task.

ghost use Rattle.osek_base.specs.declared.limits.TheConstants.{MAX_RESOURCES};
ghost use Rattle.std.specs.Prelude.{if◌then◌else◌, ◌≡◌, ◌<◌, ◌≤◌, ◌+◌, ◌-◌, IsFalse, is_some, length};
ghost use Rattle.std.specs.Borrow.{sem};
ghost use Rattle.osek_base.specs.Lists.{is_empty};
ghost use Rattle.osek_base.specs.Service.{is_met, is_resource};
ghost use Rattle.osek_base.specs.Lists.{last_of};
ghost use Rattle.osek_base.specs.declared.status.Status.{Status};
ghost use Rattle.law_kept.specs.Kept.{unbegun};
ghost use Rattle.law_kept.specs.KeptService.{slot_given_up, slot_gets, slot_releases, slot_waiting, holds_in};
ghost use Rattle.law_kept.specs.Moves.{one_more, slot_entered, slot_woken, dynamic_in};

use machine::Cpu;
use osek_base::{ResId, Status, System, TaskId};
use resources::Held;
use std::marker::Model;

/// How many jobs a task has, and what its oldest one holds, waits for and has in its registers. All others haven't begun.
#[derive(Drop)]
pub struct Slot {
    count: u8,
    begun: bool,
    held: Held,
    taken: bool,
    waits_for: Option<u32>,
    cpu: Cpu,
}

impl Model for Slot {
    ghost use Rattle.law_kept.specs.Kept.{Slot as ControlBlock};

    ghost Value = { ControlBlock };

    ghost view = { λ a. record {
      count = a.count;
      begun = a.begun;
      held = a.held;
      taken = a.taken;
      waits_for = a.waits_for;
      context = a.cpu;
    } };
}

impl Slot {
    ghost use Rattle.services.specs.Lending.{LendsOfSlot};

    /// A task without a job.
    pub fn new() -> Self
        ensures { result ≡ unbegun 0 }
    {
        Slot {
            count: 0,
            begun: false,
            held: Held::new(),
            taken: false,
            waits_for: None,
            cpu: Cpu::new(),
        }
    }

    /// All of it becomes that of another.
    pub fn copy_from(&mut self, other: &Slot)
        ensures { self.new ≡ other.now }
    {
        self.count = other.count;
        self.begun = other.begun;
        self.held.copy_from(&other.held);
        self.taken = other.taken;
        self.waits_for = other.waits_for;
        self.cpu.load(&other.cpu);
    }

    /// How many jobs the task has.
    #[inline(always)]
    pub fn count(&self) -> u8
        ensures value { result ≡ self.now.count }
        ensures low { result < 256 }
    {
        self.count
    }

    /// One job more.
    #[inline(always)]
    pub fn add(&mut self)
        requires { self.old.count < 255 }
        ensures { self.new ≡ one_more self.old }
    {
        self.count += 1;
    }

    /// The oldest job ends; the others haven't begun.
    #[inline(always)]
    pub fn end(&mut self)
        requires { 0 < self.old.count }
        ensures { self.new ≡ unbegun (self.old.count - 1) }
    {
        self.count -= 1;
        self.begun = false;
        self.held.clear();
        self.taken = false;
        self.waits_for = None;
        self.cpu.load(&Cpu::new());
    }

    /// Whether the oldest job has begun.
    pub fn is_begun(&self) -> bool
        ensures { result ≡ self.now.begun }
    {
        self.begun
    }

    /// What the oldest job holds, in the order got, the internal resource aside.
    pub fn held(&self) -> &[ResId]
        ensures value { result.now ≡ self.now.held }
        ensures few { length result.now ≤ MAX_RESOURCES + 1 }
    {
        self.held.list()
    }

    /// Whether the oldest job has taken its internal resource.
    pub fn is_taken(&self) -> bool
        ensures { result ≡ self.now.taken }
    {
        self.taken
    }

    /// Whether the oldest job waits for an event.
    #[inline(always)]
    pub fn waits(&self) -> bool
        ensures { result ≡ is_some self.now.waits_for }
    {
        self.waits_for.is_some()
    }

    /// The events of which the oldest job waits for one, as a mask.
    pub fn awaited(&self) -> Option<u32>
        ensures { result ≡ self.now.waits_for }
    {
        self.waits_for
    }

    /// Whether the oldest job waits for one of the events of a mask.
    pub fn waits_for(&self, set: u32) -> bool
        ensures { result ≡ is_met set self.now.waits_for }
    {
        match &self.waits_for {
            None => false,
            Some(mask) => *mask & set != 0,
        }
    }

    /// The oldest job waits for one of the events of a mask, and gives up its internal resource.
    pub fn wait(&mut self, mask: u32)
        ensures { self.new ≡ slot_waiting mask self.old }
    {
        self.waits_for = Some(mask);
        self.taken = false;
    }

    /// The oldest job waits no more.
    pub fn wake(&mut self)
        ensures { self.new ≡ slot_woken self.old }
    {
        self.waits_for = None;
    }

    /// The oldest job enters running: it is begun, and takes its internal resource where its task has one.
    #[inline(always)]
    pub fn enter(&mut self, system: &System, task: TaskId)
        ensures { self.new ≡ slot_entered system.now task self.old }
    {
        self.begun = true;
        self.taken = system.internal_ceiling(task).is_some();
    }

    /// The oldest job gives up its internal resource.
    pub fn give_up(&mut self)
        ensures { self.new ≡ slot_given_up self.old }
    {
        self.taken = false;
    }

    /// The dynamic priority of the oldest job.
    #[inline(always)]
    pub fn dynamic(&self, system: &System, task: TaskId) -> u8
        requires { task < length system.now.tasks }
        ensures { result ≡ dynamic_in system.now task self.now }
    {
        if !self.taken && self.held.holds_none() {
            return system.priority_of(task);
        }
        self.held.dynamic(system, task, self.taken)
    }

    /// Whether the oldest job holds no resource, the internal one aside.
    #[inline(always)]
    pub fn holds_none(&self) -> bool
        ensures { result ≡ is_empty self.now.held }
    {
        self.held.holds_none()
    }

    /// Whether the oldest job holds a resource.
    #[inline(always)]
    pub fn holds(&self, resource: &ResId) -> bool
        ensures { result ≡ holds_in resource.now self.now }
    {
        self.held.holds(*resource)
    }

    /// The oldest job gets a resource that it doesn't hold.
    #[inline(always)]
    pub fn get(&mut self, resource: &ResId)
        requires { IsFalse (holds_in resource.now self.old) }
        ensures { self.new ≡ slot_gets resource.now self.old }
    {
        self.held.get(*resource);
    }

    /// The oldest job releases a resource. E_OS_NOFUNC where it isn't the last that it got and still holds; then nothing
    /// changes.
    #[inline(always)]
    pub fn release(&mut self, resource: &ResId) -> Status
        ensures status { result
            ≡ (if is_resource (last_of self.old.held) resource.now then Status.Ok
            else Status.NoFunc) }
        ensures slot { self.new
            ≡ (if is_resource (last_of self.old.held) resource.now then slot_releases self.old
            else self.old) }
    {
        self.held.release(*resource)
    }

    /// The registers and the place of the oldest job.
    #[inline(always)]
    pub fn cpu(&self) -> &Cpu
        ensures { result.now ≡ self.now.context }
    {
        &self.cpu
    }

    /// The registers and the place of the oldest job, to be changed.
    #[inline(always)]
    pub fn cpu_mut(&mut self) -> &mut Cpu
        ensures* lends { sem 𝓛 (LendsOfSlot self.entry result) }
        ensures value { result.now ≡ self.old.context }
    {
        &mut self.cpu
    }
}
