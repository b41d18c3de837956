//! OSEK/VDX OS: task management, scheduling policy; hook routines. Jobs are made, released and dispatched.

ghost use Rattle.std.specs.Prelude.{◌≡◌, ◌<◌, ◌≤◌, ◌+◌, Some, suc, false, length, ℕ};
ghost use Rattle.osek_base.specs.System.{activation_of, priority_of};
ghost use Rattle.osek_base.specs.Ceiling.{top_priority};
ghost use Rattle.ready_queues.specs.Queues.{total};
ghost use Rattle.ready_queues.specs.QueueMoves.{put_oldest, highest, changed_at, first, without_first_at_level};
ghost use Rattle.law_kept.specs.Moves.{activated_in, released_in, contender, dynamic_in, may_dispatch_in, slot_entered, nobody, stays, dispatched, rescheduled, left_in, entered_in};
ghost use Rattle.law_kept.specs.Standing.{room_for};
ghost use Rattle.ready_queues.specs.LevelLists.{by_level};
ghost use Rattle.services.specs.Objects.{by_task, kept_in, AreFit};
ghost use Rattle.services.specs.Dispatched.{IsHighest, is_runner_outranked};
ghost use Rattle.services.specs.Steps.{Becomes, Does, Records};

use crate::objects::Objects;
use osek_base::{MAX_RECORDS, System, TaskId, TickRecord, TraceEvent};
use ready_queues::{LEVELS, ReadyQueues};

impl<'s, Q: ReadyQueues> Objects<'s, Q> {
    /// A new job of a task is the newest of its level. The events of an extended task that had no job are cleared.
    #[inline(always)]
    pub fn add(&mut self, task: TaskId)
        requires task { task < length self.old.system.tasks }
        requires count { (by_task self.old.slots task).count ≤ activation_of self.old.system task }
        requires room { total (by_level self.old.queues) < room_for self.old.system }
        ensures { Becomes (λ S. activated_in S task) self.old self.new }
    {
        if self.system.is_extended(task) && self.is_suspended(task) {
            self.put_events(task, 0);
        }
        let level = self.level_of(task);
        self.ready.put_newest(level, task);
        let slot = &mut self.slots[task.number() as usize];
        slot.add();
    }

    /// The job of a task that waits is released: it is the newest of its level.
    pub fn release(&mut self, task: TaskId)
        requires task { task < length self.old.system.tasks }
        requires room { total (by_level self.old.queues) < room_for self.old.system }
        ensures { Becomes (λ S. released_in S task) self.old self.new }
    {
        let priority = self.level_of(task);
        self.ready.put_newest(priority, task);
        let slot = &mut self.slots[task.number() as usize];
        slot.wake();
    }

    /// The level of a task: its static priority.
    #[inline(always)]
    fn level_of(&self, task: TaskId) -> u8
        requires { task < length self.now.system.tasks }
        ensures value { result ≡ priority_of self.now.system task }
        ensures low { result < LEVELS }
    {
        self.system.priority_of(task)
    }

    /// The running task, if its job stands and doesn't wait.
    #[inline(always)]
    pub fn contender(&self) -> Option<TaskId>
        ensures { result ≡ contender (kept_in self.now) }
    {
        match &self.running {
            None => None,
            Some(task) => {
                if self.gone {
                    return None;
                }
                let slot = &self.slots[task.number() as usize];
                if slot.waits() { None } else { Some(*task) }
            }
        }
    }

    /// The highest level that has a task.
    #[inline(always)]
    pub fn highest(&self) -> Option<u8>
        requires { AreFit self.now }
        ensures { result ≡ highest (suc (top_priority self.now.system)) (by_level self.now.queues) }
    {
        self.ready.highest(self.system.top_priority())
    }

    /// Whether a task is ready above the static priority of the running one; whether any is, where none runs.
    #[inline(always)]
    pub fn is_runner_outranked(&self) -> bool
        requires { AreFit self.now }
        ensures { result ≡ is_runner_outranked self.now.system (kept_in self.now) }
    {
        match self.highest() {
            None => false,
            Some(level) => match self.running() {
                None => true,
                Some(task) => self.level_of(task) < level,
            },
        }
    }

    /// The dynamic priority of a task's oldest job.
    #[inline(always)]
    fn dynamic(&self, task: TaskId) -> u8
        requires { task < length self.now.system.tasks }
        ensures { result ≡ dynamic_in self.now.system task (by_task self.now.slots task) }
    {
        let slot = &self.slots[task.number() as usize];
        slot.dynamic(self.system, task)
    }

    /// No task runs.
    #[inline(never)]
    fn stop(&mut self, record_of_tick: &mut TickRecord)
        requires { length record_of_tick.old < MAX_RECORDS }
        ensures { Does nobody self.old self.new record_of_tick.old record_of_tick.new }
    {
        record_left(self.system, &self.running, record_of_tick);
        self.running = None;
        self.gone = false;
    }

    /// The running task runs on, and takes its internal resource.
    #[inline(always)]
    fn stay(&mut self, task: TaskId)
        requires { task < length self.old.system.tasks }
        ensures { Becomes (λ S o. (stays S task o).state) self.old self.new }
    {
        let system = self.system;
        let slot = &mut self.slots[task.number() as usize];
        slot.enter(system, task);
    }

    /// A task that left its queue runs.
    #[inline(always)]
    fn enter(&mut self, task: TaskId)
        requires { task < length self.old.system.tasks }
        ensures { Becomes
            (λ S o. record o {
              slots = changed_at o.slots task (slot_entered S task (o.slots task));
              running = Some task;
              gone = false;
            }) self.old self.new }
    {
        let system = self.system;
        let slot = &mut self.slots[task.number() as usize];
        slot.enter(system, task);
        self.running = Some(task);
        self.gone = false;
    }

    /// The first of the highest level leaves its queue and runs.
    #[inline(always)]
    fn dispatch(&mut self, level: u8, record_of_tick: &mut TickRecord)
        requires highest { IsHighest self.old.system (by_level self.old.queues) level }
        requires room { length record_of_tick.old + 2 ≤ MAX_RECORDS }
        ensures { Does (λ S o. dispatched S level o.queues o) self.old self.new
            record_of_tick.old record_of_tick.new }
    {
        record_left(self.system, &self.running, record_of_tick);
        let task = self.ready.take_first(level);
        record_entered(self.system, task, record_of_tick);
        self.enter(task);
    }

    /// The running task goes before all others of its level, and the first of a higher level runs.
    #[inline(always)]
    fn preempt(&mut self, task: TaskId, own: u8, level: u8, record_of_tick: &mut TickRecord)
        requires own { own < level }
        requires free { total (by_level self.old.queues) < room_for self.old.system }
        requires highest { IsHighest self.old.system (by_level self.old.queues) level }
        requires room { length record_of_tick.old + 2 ≤ MAX_RECORDS }
        ensures { Does (λ S o. dispatched S level (put_oldest o.queues own task) o) self.old
            self.new record_of_tick.old record_of_tick.new }
    {
        record_left(self.system, &self.running, record_of_tick);
        let next = self.change_places(task, own, level);
        record_entered(self.system, next, record_of_tick);
        self.enter(next);
    }

    /// A task goes before all others of its level, and the first of a higher level leaves its
    /// queue. It is taken first, while it is known to be on top.
    #[inline(always)]
    fn change_places(&mut self, task: TaskId, own: u8, level: u8) -> TaskId
        requires own { own < level }
        requires free { total (by_level self.old.queues) < room_for self.old.system }
        requires highest { IsHighest self.old.system (by_level self.old.queues) level }
        ensures next { result ≡ first (by_level self.old.queues level) }
        ensures known { result < length self.old.system.tasks }
        ensures others { self.new ≡ record self.old { queues = self.new.queues } }
        ensures queues { by_level self.new.queues
            ≡ without_first_at_level (put_oldest (by_level self.old.queues) own task) level }
    {
        let next = self.ready.take_first(level);
        self.ready.put_oldest(own, task);
        next
    }

    /// With no routine active and interrupts on, the task that is to run becomes the running one: the first of the highest
    /// level, where that is above the running task's dynamic priority. Where the running job changes, there is a Post record
    /// of the old one's task and a Pre record of the new one's. `runner` is the running task, if its job stands and doesn't
    /// wait. Answers whether it could dispatch.
    #[tactic(auto, unfolding(law_kept::specs::Moves::rescheduled))]
    #[inline(always)]
    pub fn reschedule(&mut self, runner: &Option<TaskId>, record_of_tick: &mut TickRecord) -> bool
        requires fit { AreFit self.old }
        requires runner { runner.now ≡ contender (kept_in self.old) }
        requires room { length record_of_tick.old + 2 ≤ MAX_RECORDS }
        ensures could { result ≡ may_dispatch_in (kept_in self.old) }
        ensures does { Does rescheduled self.old self.new record_of_tick.old record_of_tick.new }
    {
        if !self.may_dispatch() {
            return false;
        }
        let highest = self.highest();
        match runner {
            None => match highest {
                None => self.stop(record_of_tick),
                Some(level) => self.dispatch(level, record_of_tick),
            },
            Some(task) => match highest {
                None => self.stay(*task),
                Some(level) => {
                    let own = self.dynamic(*task);
                    if level <= own {
                        self.stay(*task)
                    } else {
                        self.preempt(*task, own, level, record_of_tick)
                    }
                }
            },
        }
        true
    }
}

/// Records that a task leaves running, where PostTaskHook is on.
#[inline(always)]
fn record_left(system: &System, task: &Option<TaskId>, record_of_tick: &mut TickRecord)
    requires { length record_of_tick.old < MAX_RECORDS }
    ensures { Records (left_in system.now task.now) record_of_tick.old record_of_tick.new }
{
    if let Some(task) = task
        && system.hooks().post_task
    {
        record_of_tick.push(TraceEvent::Post(*task));
    }
}

/// Records that a task enters running, where PreTaskHook is on.
#[inline(always)]
fn record_entered(system: &System, task: TaskId, record_of_tick: &mut TickRecord)
    requires { length record_of_tick.old < MAX_RECORDS }
    ensures { Records (entered_in system.now task) record_of_tick.old record_of_tick.new }
{
    if system.hooks().pre_task {
        record_of_tick.push(TraceEvent::Pre(task));
    }
}
