//! OSEK/VDX OS: system start-up; application modes. The kernel: a machine with its arrivals.
//!
//! [`Kernel::tick`] is *the* tick: it answers the records of one tick as the model has them.
//! `tick_into`, `tick_parts` and `tick_seen` leave the same records in lists of the caller.
//! All others are shorter ways along the same run: `go_on`, which a trace is written with,
//! `tick_steady` where nothing comes before a task's instruction, `pass_plain` over ticks of plain
//! instructions alone, and `pass_idle` over ticks in which nobody executes.

ghost use Rattle.std.specs.Prelude.{◌≡◌, ◌<◌, ◌≤◌, ◌+◌, ◌-◌, ◌++◌, [], false, IfOk, MatchOption, Some, map, length};
ghost use Rattle.osek_base.specs.BlockingText.{blockers_at};
ghost use Rattle.osek_base.specs.Names.{number_of};
ghost use Rattle.law_kept.specs.Kept.{kept};
ghost use Rattle.kernel.specs.Stamping.{IsNumber};
ghost use Rattle.kernel.specs.Machine.{HasCome};
ghost use Rattle.kernel.specs.Begun.{HasGoneOn};
ghost use Rattle.kernel.specs.Progress.{AreFree, AreKnown, AreLeft, Boots, HasIdled, HasRun, HasRunApart, HasRunSteadily, HaveArrived, IsNextArrival, TakesArrived, is_over, run_of};
ghost use Rattle.law_blockers.specs.Steps.{step_at};
ghost use Rattle.seen_ticks.specs.Told.{task_at};
ghost use Rattle.osek_base.specs.Lists.{below};

use crate::at_instruction::AtInstruction;
use crate::blockers::{Blockers, Counted};
use crate::boot::BootFault;
use crate::looker::{Looker, Unseen};
use crate::ticked::Ticked;
use crate::ticking::Machine;
use osek_base::{
    Arrival, Arrivals, Executed, IsrId, MAX_RECORDS, MAX_TICKS, ModeId, System, TickRecord,
    TraceEvent,
};
use ready_queues::ReadyQueues;
use std::alloc::{AllocError, Global};
use std::cmp;
use std::marker::Model;

/// A kernel that runs a system from boot in a mode, with the interrupts of a list of arrivals, over
/// ready queues of any kind. It counts the blockers of jobs, if it isn't told not to.
#[derive(Drop)]
pub struct Kernel<'s, Q: ReadyQueues, B: Blockers = Counted> {
    system: &'s System,
    mode: ModeId,
    arrivals: Arrivals,
    /// The routines of the arrivals, so that those of a tick can be lent.
    pub(crate) routines: Vec<IsrId>,
    /// How many had arrived before the last tick.
    pub(crate) earlier: usize,
    pub(crate) arrived: usize,
    /// The tick of the next arrival, or `u32::MAX` if none is left. Before tick 0 it is 0.
    pub(crate) next: u32,
    pub(crate) machine: Machine<'s, Q, B>,
}

impl<'s, Q: ReadyQueues, B: Blockers> Model for Kernel<'s, Q, B> {
    ghost use Rattle.kernel.specs.Keeping.{IsKernel};
    ghost use Rattle.kernel.specs.Machine.{next_tick};
    ghost use Rattle.kernel.specs.Progress.{Progress};

    ghost Value = { Progress };

    ghost view = { λ k. record {
      system = k.system.now;
      mode = k.mode;
      arrivals = k.arrivals;
      ticks = next_tick k.machine;
    } };

    ghost invariant = { λ k. IsKernel B.are_counted k.system.now k.mode k.arrivals k.routines.items
        k.earlier k.arrived k.next k.machine };
}

/// The routines of some arrivals.
fn routines_of(alloc: Global, list: &[Arrival]) -> Result<Vec<IsrId>, AllocError>
    ensures { IfOk result (λ v. v.items ≡ map (λ a. a.routine) list.now) }
{
    let mut routines = Vec::new(alloc);
    for arrival in list {
        routines.push(arrival.routine)?;
    }
    Ok(routines)
}

impl<'s, Q: ReadyQueues, B: Blockers> Kernel<'s, Q, B> {
    /// Boots a system in the application mode of that name. Its programs are packed here, once.
    #[tactic(auto, using(crate::proofs::LawLemmas::lawful))]
    pub fn boot(
        alloc: Global,
        system: &'s System,
        mode: &str,
        arrivals: Arrivals,
    ) -> Result<Self, BootFault>
        requires { AreKnown system.now arrivals }
        ensures { Boots system.now (number_of mode.now system.now.names.modes) arrivals result }
    {
        let Some(mode) = system.names().mode(mode) else {
            return Err(BootFault::UnknownMode);
        };
        let routines = routines_of(alloc, arrivals.list())?;
        let machine = Machine::boot(alloc, system, mode)?;
        Ok(Kernel {
            system,
            mode,
            arrivals,
            routines,
            earlier: 0,
            arrived: 0,
            next: 0,
            machine,
        })
    }

    /// The machine that came so far in the run. It lends the objects of the services, which tell
    /// what is kept of its state.
    pub fn machine(&self) -> &Machine<'s, Q, B>
        ensures { HasCome B.are_counted self.now.system self.now.mode self.now.arrivals
            self.now.ticks result.now }
    {
        &self.machine
    }

    /// How many ticks are done.
    #[inline(always)]
    pub fn ticks(&self) -> u32
        ensures { result ≡ self.now.ticks }
    {
        self.machine.next_tick()
    }

    /// Whether a ShutdownOS ended the run.
    #[inline(always)]
    pub fn is_shut_down(&self) -> bool
        ensures { result ≡ (run_of self.now).state.over }
    {
        self.machine.is_shut_down()
    }

    /// Whether the run is over: a ShutdownOS came, or [`MAX_TICKS`](osek_base::MAX_TICKS) are done.
    #[inline(always)]
    pub fn is_over(&self) -> bool
        ensures { result ≡ is_over self.now }
    {
        MAX_TICKS <= self.ticks() || self.is_shut_down()
    }

    /// The number of blockers of the job that executed in the last tick, where that was its first
    /// instruction since it became ready. None where blockers aren't counted.
    #[inline(always)]
    pub fn blockers(&self) -> Option<u32>
        requires { 1 ≤ self.now.ticks }
        ensures { IsNumber B.are_counted
            (blockers_at self.now.system self.now.mode self.now.arrivals (self.now.ticks - 1))
            result }
    {
        self.machine.blockers()
    }

    /// Does the ticks that follow, at most some, as long as no interrupt arrives, no alarm is due
    /// and nobody executes. Answers how many were done. The first tick is none of these.
    #[tactic(auto, using(crate::proofs::LawLemmas::lawful))]
    #[inline(always)]
    pub fn pass_idle(&mut self, most: u32) -> u32
        requires { self.old.ticks + most ≤ MAX_TICKS }
        ensures { HasIdled most self.old self.new result }
    {
        if self.machine.core().is_quiet() {
            self.pass_quiet(most)
        } else {
            0
        }
    }

    /// As `pass_idle`.
    #[tactic(auto, using(crate::proofs::LawLemmas::lawful))]
    #[inline(never)]
    fn pass_quiet(&mut self, most: u32) -> u32
        requires { self.old.ticks + most ≤ MAX_TICKS }
        ensures { HasIdled most self.old self.new result }
    {
        let tick = self.machine.next_tick();
        let free = ticks_before(self.arrivals.list(), self.arrived, tick, most);
        let idle = self.machine.pass_idle(free);
        if 0 < idle {
            self.earlier = self.arrived;
        }
        idle
    }

    /// Does one tick, and answers its records. It takes no memory and never fails.
    pub fn tick(&mut self) -> TickRecord
        requires { is_over self.old ≡ false }
        ensures { HasRun self.old self.new result }
    {
        let mut record_of_tick = TickRecord::new();
        let mut room = TickRecord::new();
        self.tick_into(&mut record_of_tick, &mut room);
        record_of_tick
    }

    /// Does one tick, and leaves its records in place of those of an earlier one. That spares
    /// making lists a tick; `room` is another list to work in.
    pub fn tick_into(&mut self, record_of_tick: &mut TickRecord, room: &mut TickRecord)
        requires { is_over self.old ≡ false }
        ensures { HasRun self.old self.new record_of_tick.new }
    {
        let executed = self.tick_parts(record_of_tick, room);
        record_of_tick.push(match executed {
            None => TraceEvent::Idle,
            Some(executed) => executed.record_in(self.system),
        });
        push_all(record_of_tick, room);
    }

    /// Does one tick, and answers what it executed. The records before and behind that of the
    /// instruction are left in two lists, in place of those of earlier ticks; most ticks have none.
    #[inline(always)]
    pub fn tick_parts(
        &mut self,
        before: &mut TickRecord,
        behind: &mut TickRecord,
    ) -> Option<Executed>
        requires { is_over self.old ≡ false }
        ensures { HasRunApart self.old self.new before.new result behind.new }
    {
        self.tick_with(&mut Unseen, before, behind)
    }

    /// Does one tick, where it is known that nothing comes before the instruction of the running
    /// task: no interrupt arrives, no alarm is due, no routine is pending, and a reschedule would
    /// change nothing. Answers what it executed; `behind` becomes the records behind it, and none
    /// stand before it. None is where that isn't known: then nothing changed.
    #[inline(always)]
    pub fn tick_steady(&mut self, behind: &mut TickRecord) -> Option<Executed>
        requires { is_over self.old ≡ false }
        ensures { MatchOption result ((self.new ≡ self.old) × (behind.new ≡ behind.old))
            (λ e. HasRunSteadily self.old self.new e behind.new) }
    {
        if self.next == self.machine.next_tick() {
            return None;
        }
        let executed = self.machine.tick_steady(behind)?;
        self.earlier = self.arrived;
        Some(executed)
    }

    /// Does one tick, if no ShutdownOS ended the run. What it executed is the answer where its
    /// record is the tick's first, and else left in `executed`, with the records before it in
    /// `before`. `behind` has to be empty, and becomes the records behind it.
    #[inline(always)]
    pub fn go_on(
        &mut self,
        before: &mut TickRecord,
        behind: &mut TickRecord,
        executed: &mut Option<Executed>,
    ) -> Ticked
        requires ticks { self.old.ticks < MAX_TICKS }
        requires empty { behind.old ≡ [] }
        ensures { HasGoneOn self.old self.new before.new behind.new executed.new result }
    {
        let tick = self.machine.next_tick();
        let none_comes = self.next != tick;
        if !none_comes && self.is_shut_down() {
            return Ticked::Over;
        }
        let earlier = self.arrived;
        let arrived = take_arrived(
            self.arrivals.list(),
            &self.routines,
            tick,
            &mut self.arrived,
            &mut self.next,
        );
        let machine = &mut self.machine;
        match machine.go_on(none_comes, arrived, before, behind, executed) {
            Ticked::Over => Ticked::Over,
            Ticked::Any => {
                self.earlier = earlier;
                Ticked::Any
            }
            Ticked::First(first) => {
                self.earlier = earlier;
                Ticked::First(first)
            }
        }
    }

    /// As [`tick_parts`](Kernel::tick_parts), and leaves what the tasks are when the instruction is
    /// executed: behind phases 1 to 4 of the tick.
    pub fn tick_seen(
        &mut self,
        before: &mut TickRecord,
        behind: &mut TickRecord,
        at: &mut AtInstruction,
    ) -> Option<Executed>
        requires { is_over self.old ≡ false }
        ensures done { HasRunApart self.old self.new before.new result behind.new }
        ensures seen { at.new.tasks.items
            ≡ map
            (task_at self.old.system
            (step_at self.old.system self.old.mode self.old.arrivals self.old.ticks).executing)
            (below (length self.old.system.tasks)) }
    {
        self.tick_with(at, before, behind)
    }

    /// Does one tick, with a look at the system when its instruction is executed.
    #[inline(always)]
    fn tick_with<L: Looker>(
        &mut self,
        looker: &mut L,
        before: &mut TickRecord,
        behind: &mut TickRecord,
    ) -> Option<Executed>
        requires { is_over self.old ≡ false }
        ensures done { HasRunApart self.old self.new before.new result behind.new }
        ensures seen { L.HasSeen looker.new self.old.system
            (kept self.old.system
            (step_at self.old.system self.old.mode self.old.arrivals self.old.ticks).executing) }
    {
        let tick = self.machine.next_tick();
        self.earlier = self.arrived;
        let arrived = take_arrived(
            self.arrivals.list(),
            &self.routines,
            tick,
            &mut self.arrived,
            &mut self.next,
        );
        self.machine.tick_with(arrived, looker, before, behind)
    }
}

/// How many of a list have arrived by the end of a tick, where so many had before it.
#[inline(always)]
fn arrived_by(list: &[Arrival], arrived: usize, tick: u32) -> usize
    requires { AreLeft list.now arrived tick }
    ensures { HaveArrived list.now tick arrived result }
{
    let mut next = arrived;
    while next < list.len() && list[next].tick == tick {
        next += 1;
    }
    next
}

/// The tick of the next arrival, where so many have arrived; the greatest number if none is left.
#[inline(always)]
fn next_arrival(list: &[Arrival], arrived: usize) -> u32
    ensures { IsNextArrival list.now arrived result }
{
    if arrived < list.len() {
        list[arrived].tick
    } else {
        u32::MAX
    }
}

/// The routines that arrive in a tick. `arrived` and `next` become what they are behind it.
#[inline(always)]
fn take_arrived<'k>(
    list: &[Arrival],
    routines: &'k [IsrId],
    tick: u32,
    arrived: &mut usize,
    next: &mut u32,
) -> &'k [IsrId]
    requires left { AreLeft list.now arrived.old tick }
    requires next { (next.old ≡ tick → ⊥) → IsNextArrival list.now arrived.old next.old }
    requires routines { routines.now ≡ map (λ a. a.routine) list.now }
    ensures { TakesArrived list.now tick arrived.old next.old arrived.new next.new result.now }
{
    if *next != tick {
        return &[];
    }
    let first = *arrived;
    let end = arrived_by(list, first, tick);
    *arrived = end;
    *next = next_arrival(list, end);
    &routines[first..end]
}

/// How many of the ticks from one on, at most some, come before the next arrival.
fn ticks_before(list: &[Arrival], arrived: usize, tick: u32, most: u32) -> u32
    requires { AreLeft list.now arrived tick }
    ensures { AreFree list.now arrived tick most result }
{
    if arrived < list.len() {
        cmp::min(list[arrived].tick - tick, most)
    } else {
        most
    }
}

/// Adds some records at the end.
pub fn push_all(record_of_tick: &mut TickRecord, more: &TickRecord)
    requires { length record_of_tick.old + length more.now ≤ MAX_RECORDS }
    ensures { record_of_tick.new ≡ record_of_tick.old ++ more.now }
{
    for index in 0..more.len() {
        record_of_tick.push(more.at(index));
    }
}
