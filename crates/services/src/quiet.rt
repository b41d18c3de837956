//! OSEK/VDX OS: task management, alarms. Ticks in which nothing happens.

ghost use Rattle.std.specs.Prelude.{◌≡◌, ◌<◌, ◌+◌, true, is_some, Some, None, IfSome, length};
ghost use Rattle.osek_base.specs.declared.ids.Owner.{Owner};
ghost use Rattle.law_runs.proofs.Formed.{IsPlaced};
ghost use Rattle.law_kept.specs.Quiet.{IsQuiet};
ghost use Rattle.services.specs.Calls.{context_in};
ghost use Rattle.services.specs.Objects.{kept_in};
ghost use Rattle.services.specs.Quiet.{BeginsQuiet, IsIdle, IsSettled, PassesUpTo};
ghost use Rattle.services.specs.Steady.{IsSteady};

use crate::objects::Objects;
use crate::os_core::Core;
use osek_base::{MAX_TICKS, TaskId};
use ready_queues::ReadyQueues;

impl<'s, Q: ReadyQueues> Objects<'s, Q> {
    /// Whether no ShutdownOS ended the run, no task runs, and no routine is active or pending.
    #[inline(always)]
    fn is_idle(&self) -> bool
        ensures { result ≡ true → IsIdle self.now.system (kept_in self.now) }
    {
        if self.running.is_some() || self.active.is_some() || self.over {
            return false;
        }
        self.is_none_pending()
    }

    /// Whether no ShutdownOS ended the run, a task runs, and no routine is pending, where none is active.
    #[inline(always)]
    pub fn is_settled(&self) -> bool
        requires { self.now.active ≡ None }
        ensures { result ≡ true → IsSettled self.now.system (kept_in self.now) }
    {
        if self.running.is_none() || self.over {
            return false;
        }
        self.is_none_pending()
    }

    /// The running task, where one runs.
    #[inline(always)]
    fn runner(&self) -> TaskId
        requires { is_some self.now.running ≡ true }
        ensures { self.now.running ≡ Some result }
    {
        match self.running() {
            None => unreachable!(),
            Some(task) => task,
        }
    }

    /// The next tick begins, where it is known that no alarm is due in it. Answers whether it does.
    #[inline(always)]
    fn begin_quiet(&mut self) -> bool
        ensures { BeginsQuiet result self.old self.new }
    {
        self.alarms.pass_quiet()
    }

    /// The ticks that follow pass, at most some, up to the one before the first in which an alarm is due. Answers how many
    /// passed.
    #[inline(always)]
    fn pass(&mut self, most: u32) -> u32
        requires { self.old.tick + most < MAX_TICKS }
        ensures { PassesUpTo most result self.old self.new }
    {
        self.alarms.pass(most)
    }
}

impl<'s, Q: ReadyQueues> Core<'s, Q> {
    /// Whether nothing happens in a tick in which no alarm is due and no interrupt arrives: no ShutdownOS ended the run, no
    /// task runs and none is ready, and no routine is active or pending.
    #[inline(always)]
    pub fn is_quiet(&self) -> bool
        ensures { result ≡ true → IsQuiet self.now.system (kept_in self.now) }
    {
        self.objects.is_idle() && self.is_dispatched
    }

    /// The task that executes in a tick in which no alarm is due and no interrupt arrives, where it is known that nothing else
    /// comes before its instruction. It stands at a place of its program.
    #[inline(always)]
    pub fn steady_task(&self) -> Option<TaskId>
        ensures steady { IfSome result (IsSteady self.now.system (kept_in self.now)) }
        ensures known { IfSome result (λ t. t < length self.now.system.tasks) }
        ensures placed { IfSome result (λ t. IsPlaced self.now.system (Owner.Task t)
            (context_in (kept_in self.now) (Owner.Task t))) }
    {
        if self.is_settled {
            Some(self.objects.runner())
        } else {
            None
        }
    }

    /// The next tick begins, where it is known that no alarm is due in it. Answers whether it does; else nothing changes.
    #[inline(always)]
    pub fn begin_quiet(&mut self) -> bool
        ensures { BeginsQuiet result self.old self.new }
    {
        self.objects.begin_quiet()
    }

    /// The ticks that follow pass, at most some, up to the one before the first in which an alarm is due. Answers how many
    /// passed.
    pub fn pass(&mut self, most: u32) -> u32
        requires { self.old.tick + most < MAX_TICKS }
        ensures { PassesUpTo most result self.old self.new }
    {
        self.objects.pass(most)
    }
}
