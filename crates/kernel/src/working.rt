//! OSEK/VDX OS: task management; the modelled processor. Ticks in which the running task executes a
//! plain instruction, and nothing else happens.

ghost use Rattle.std.specs.Prelude.{◌≡◌, ◌+◌, ◌≤◌, true, false, IfSome, MatchOption};
ghost use Rattle.kernel.specs.Progress.{is_over};
ghost use Rattle.osek_base.specs.declared.ids.Owner.{Owner};
ghost use Rattle.kernel.specs.Processor.{MayFetch};
ghost use Rattle.kernel.specs.Steady.{ExecutesNext};
ghost use Rattle.kernel.specs.Working.{HasWorked, IsWorking, WorksNext, WorksOnce};

use crate::blockers::Blockers;
use crate::kernel::Kernel;
use crate::ticking::Machine;
use crate::watched::Watched;
use osek_base::{Executed, MAX_TICKS, Owner, TaskId, TickRecord};
use ready_queues::ReadyQueues;

impl<'s, Q: ReadyQueues, B: Blockers> Watched<'s, Q, B> {
    /// The task that executes in a tick in which no alarm is due and no interrupt arrives, where it
    /// is known that nothing else comes before its instruction.
    #[inline(always)]
    pub fn steady_task(&self) -> Option<TaskId>
        ensures { IfSome result (ExecutesNext self.now) }
    {
        self.processor.core.steady_task()
    }

    /// Whether a task that executes next executes a plain instruction, of which no number of
    /// blockers is told.
    #[inline(always)]
    fn works_next(&self, task: TaskId) -> bool
        requires { MayFetch self.now.processor (Owner.Task task) }
        ensures { result ≡ true → WorksNext B.are_counted self.now task }
    {
        let next = self.processor.next_of(&Owner::Task(task));
        next.packed.is_plain() && (!B::are_counted() || self.blocking.stamps.is_spent(task))
    }
}

impl<'s, Q: ReadyQueues, B: Blockers> Machine<'s, Q, B> {
    /// Whether it is known that the running task executes a plain instruction next and nothing else
    /// happens, where no alarm is due and no interrupt arrives, and that no number of blockers is
    /// told of it.
    #[inline(always)]
    fn is_working(&self) -> bool
        ensures { result ≡ true → IsWorking B.are_counted self.now }
    {
        match self.watched.steady_task() {
            None => false,
            Some(task) => self.watched.works_next(task),
        }
    }
}

impl<'s, Q: ReadyQueues, B: Blockers> Kernel<'s, Q, B> {
    /// Does one tick, where it is known that in it the running task executes a plain instruction
    /// and nothing else happens. Answers what it executed; None where that isn't known, and then
    /// nothing changes. `room` is a list to work in.
    #[inline(always)]
    fn tick_plain(&mut self, room: &mut TickRecord) -> Option<Executed>
        requires { is_over self.old ≡ false }
        ensures { MatchOption result (self.new ≡ self.old)
            (λ e. WorksOnce B.are_counted self.old self.new e) }
    {
        if self.next == self.machine.next_tick() || !self.machine.is_working() {
            return None;
        }
        let executed = self.machine.tick_steady(room)?;
        self.earlier = self.arrived;
        Some(executed)
    }

    /// Whether it is known that the running task executes a plain instruction in the next tick, and
    /// nothing else happens. Where it isn't, [`pass_plain`](Kernel::pass_plain) does no tick.
    #[inline(always)]
    pub fn works_on(&self) -> bool {
        self.next != self.machine.next_tick()
            && self.machine.is_working()
            && self.machine.objects().alarms.is_quiet()
    }

    /// The ticks that follow, at most some, are done as long as it is known that the running task
    /// executes a plain instruction in each, and nothing else happens: no interrupt arrives, no
    /// alarm is due, and no number of blockers is told. The first tick is none of these. Answers
    /// how many were done, and leaves what the last of them executed, where there is any. `room` is
    /// a list to work in.
    #[inline(never)]
    pub fn pass_plain(
        &mut self,
        most: u32,
        room: &mut TickRecord,
        last: &mut Option<Executed>,
    ) -> u32
        requires { self.old.ticks + most ≤ MAX_TICKS }
        ensures worked { HasWorked B.are_counted most self.old self.new result last.new }
        ensures same { result ≡ 0 → last.new ≡ last.old }
    {
        for ticks in 0..most {
            if self.is_over() {
                return ticks;
            }
            match self.tick_plain(room) {
                None => return ticks,
                Some(executed) => *last = Some(executed),
            }
        }
        most
    }
}
