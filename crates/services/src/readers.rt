//! OSEK/VDX OS: task management, task state model. What is seen of a running system between the steps of a kernel.

ghost use Rattle.std.specs.Prelude.{◌≡◌, ◌<◌, IfSome, None, false, slice_index_or, length};
ghost use Rattle.std.specs.Option.{option_map};
ghost use Rattle.alarms.specs.Alarms.{cycle_of};
ghost use Rattle.law_kept.specs.KeptService.{bare};
ghost use Rattle.ready_queues.specs.LevelLists.{level_lists};
ghost use Rattle.services.specs.Objects.{by_task, kept_in};
ghost use Rattle.law_kept.specs.Seen.{counts_left, holder_in, priority_in, routine_of};

use crate::interrupts::Active;
use crate::objects::Objects;
use osek_base::{AlarmId, IsrId, ResId, TaskId};
use ready_queues::ReadyQueues;

impl<'s, Q: ReadyQueues> Objects<'s, Q> {
    /// The dynamic priority of a task's oldest job, where it has one.
    pub fn dynamic_priority(&self, task: TaskId) -> Option<u8>
        requires { task < length self.now.system.tasks }
        ensures { result ≡ priority_in self.now.system task (by_task self.now.slots task) }
    {
        let slot = &self.slots[task.number() as usize];
        if slot.count() == 0 {
            return None;
        }
        Some(slot.dynamic(self.system, task))
    }

    /// The first task whose oldest job holds a resource.
    pub fn holder(&self, resource: &ResId) -> Option<TaskId>
        ensures value { result ≡ holder_in self.now.system (kept_in self.now) resource.now }
        ensures known { IfSome result (λ t. t < length self.now.system.tasks) }
    {
        for number in 0..self.system.task_count() {
            let task = TaskId::new(number as u8);
            if self.slot(task).holds(resource) {
                return Some(task);
            }
        }
        None
    }

    /// Whether an interrupt of a routine has arrived and not started it yet.
    pub fn is_pending(&self, routine: IsrId) -> bool
        requires { routine < length self.now.system.routines }
        ensures { result ≡ slice_index_or self.now.pending routine false }
    {
        self.pending.is_set(routine)
    }

    /// The routine that is active, with its registers and its place.
    pub fn active(&self) -> &Option<Active>
        ensures { result.now ≡ self.now.active }
    {
        &self.active
    }

    /// The ready queues.
    pub fn queues(&self) -> &Q
        ensures { level_lists (Q.queues result.now) ≡ self.now.queues }
    {
        self.ready.queues()
    }

    /// Whether the run is over, by ShutdownOS.
    #[inline(always)]
    pub fn is_over(&self) -> bool
        ensures { result ≡ self.now.over }
    {
        self.over
    }

    /// Whether the job of the running task has ended.
    #[inline(always)]
    pub fn is_gone(&self) -> bool
        ensures { result ≡ self.now.gone }
    {
        self.gone
    }

    /// Whether DisableAllInterrupts has set the switch.
    pub fn is_disabled(&self) -> bool
        ensures { result ≡ self.now.disabled }
    {
        self.disabled
    }

    /// How many calls of SuspendAllInterrupts are not resumed yet.
    pub fn suspended_all(&self) -> u32
        ensures { result ≡ self.now.suspended_all }
    {
        self.suspended_all
    }

    /// How many calls of SuspendOSInterrupts are not resumed yet.
    pub fn suspended_os(&self) -> u32
        ensures { result ≡ self.now.suspended_os }
    {
        self.suspended_os
    }

    /// The active routine.
    pub fn active_routine(&self) -> Option<IsrId>
        ensures { result ≡ option_map routine_of self.now.active }
    {
        match &self.active {
            None => None,
            Some(active) => Some(active.routine),
        }
    }

    /// How many counts an alarm has before it expires; None while it is off.
    pub fn counts_left(&self, alarm: AlarmId) -> Option<u32>
        requires { alarm < length self.now.system.alarms }
        ensures { result ≡ counts_left self.now.system (bare (kept_in self.now)) alarm }
    {
        self.alarms.remaining(self.system, alarm)
    }

    /// How many counts after an expiry an alarm expires again, 0 where it goes off then; None while it is off.
    pub fn cycle(&self, alarm: AlarmId) -> Option<u32>
        requires { alarm < length self.now.system.alarms }
        ensures { result ≡ cycle_of (slice_index_or self.now.alarms alarm None) }
    {
        self.alarms.cycle(alarm)
    }
}
