//! Since which tick each job is ready, and how many blockers it had, in a kernel that counts
//! blockers.

ghost use Rattle.std.specs.Prelude.{◌≡◌, ◌<◌, true, IfSome, length};
ghost use Rattle.law_blockers.specs.Restamping.{named_by, preempted_by};
ghost use Rattle.machine.specs.Packed.{if_service, instr_of, makes_job, service_of};
ghost use Rattle.kernel.specs.Controls.{IsCall, changes_job};
ghost use Rattle.kernel.specs.Idle.{rested};
ghost use Rattle.kernel.specs.Answered.{IsStamped, MayAdd, MayAddIf, MayChangeIf, job_added, job_added_if, job_changed_if, job_ended};
ghost use Rattle.kernel.specs.Stamping.{IsNumber, MayFollow, MayLook, restamped_between, number_told, stood_between};
ghost use Rattle.kernel.specs.Watches.{Follows, IsFresh, MaySpend, Spends};

use crate::blockers::Blockers;
use crate::processor::Processor;
use crate::stamping::{Look, Stand, is_that, without_ended};
use kernel_stamps::{JobStamps, LastTicks};
use machine::PackedInstr;
use osek_base::{Owner, Service, Status, TaskId};
use ready_queues::ReadyQueues;
use std::marker::{Model, PhantomData};

/// The stamps of all tasks' jobs, which tell since which tick each is ready; the last tick of each
/// level; and what tells the number of blockers of who executed last. They are followed where
/// blockers are counted, and else there are no stamps.
#[derive(Drop)]
pub struct Blocking<B: Blockers> {
    pub(crate) stamps: JobStamps,
    last: LastTicks,
    /// The stamp of the job that executed last, where it did so for the first time since it became
    /// ready.
    stamp: Option<u32>,
    blockers: PhantomData<B>,
}

impl<B: Blockers> Model for Blocking<B> {
    ghost use Rattle.kernel.specs.Watches.{Blocking as Seen};

    ghost Value = { Seen };

    ghost view = { λ b. record {
      stamps = b.stamps.lists;
      spent = b.stamps.spent;
      told = record { last = b.last.after; level = b.last.level; stamp = b.stamp };
    } };
}

impl<B: Blockers> Blocking<B> {
    /// With the stamps of the jobs with which a system begins, where blockers are counted; else
    /// with none. No job has executed.
    pub fn boot<Q: ReadyQueues>(processor: &Processor<'_, Q>) -> Self
        ensures { IsFresh B.are_counted processor.now result }
    {
        Blocking {
            stamps: if B::are_counted() {
                processor.begun_stamps()
            } else {
                JobStamps::new(0)
            },
            last: LastTicks::new(),
            stamp: None,
            blockers: PhantomData,
        }
    }

    /// All of it becomes that of another.
    pub fn copy_from(&mut self, other: &Blocking<B>)
        ensures { self.new ≡ other.now }
    {
        self.stamps.copy_from(&other.stamps);
        self.last.copy_from(&other.last);
        self.stamp = other.stamp;
    }

    /// How many blockers the job had that executed last, where it did so for the first time since
    /// it became ready: 1 where a job of a lower level has executed since, else 0. It is never 2,
    /// since each time that a job becomes ready it has at most one blocker.
    #[inline(always)]
    pub fn number(&self) -> Option<u32>
        ensures { IsNumber B.are_counted (number_told self.now.told) result }
    {
        if !B::are_counted() {
            return None;
        }
        match &self.stamp {
            None => None,
            Some(since) => {
                if self.last.is_lower_since(*since) {
                    Some(1)
                } else {
                    Some(0)
                }
            }
        }
    }

    /// A task is looked at behind something that it was looked at before: where it has a job more,
    /// the new one is ready; where its oldest job waited and doesn't any more, that one is.
    #[inline(always)]
    pub fn restamp(&mut self, before: &Look, after: &Look, tick: u32)
        requires { B.are_counted ≡ true → MayLook before.now after.now self.old.stamps }
        ensures { Follows B.are_counted (restamped_between tick before.now after.now) self.old
            self.new }
    {
        if !B::are_counted() {
            return;
        }
        if before.count < after.count {
            self.stamps.add(before.task, tick);
        } else if before.waits && !after.waits {
            self.stamps.stamp(before.task, tick);
        }
    }

    /// A job that ran, and neither ended nor waits, is ready again where its task runs no more.
    #[inline(always)]
    pub fn preempted(&mut self, runner: Option<TaskId>, running: &Option<TaskId>, tick: u32)
        requires { B.are_counted ≡ true → IfSome runner (λ t. t < length self.old.stamps) }
        ensures { Follows B.are_counted (preempted_by tick runner running.now) self.old self.new }
    {
        if !B::are_counted() {
            return;
        }
        if let Some(task) = runner {
            if !is_that(running, task) {
                self.stamps.stamp(task, tick);
            }
        }
    }

    /// Behind an instruction: the job of the task that ran may have ended, and the task on which
    /// the instruction acts is looked at again.
    #[inline(always)]
    pub fn executed_since(&mut self, before: &Stand, after: &Stand, tick: u32)
        requires { B.are_counted ≡ true → MayFollow before.now after.now self.old.stamps }
        ensures { Follows B.are_counted (stood_between tick before.now after.now) self.old
            self.new }
    {
        if !B::are_counted() {
            return;
        }
        let has_ended = !before.gone && after.gone;
        if has_ended && let Some(task) = &before.running {
            self.stamps.end(*task);
        }
        if let (Some(earlier), Some(later)) = (&before.named, &after.named) {
            let stood = without_ended(earlier, &before.running, has_ended);
            self.restamp(&stood, later, tick);
        }
    }

    /// A job more of a task, where there is one, is ready.
    #[inline(always)]
    fn job_added(&mut self, task: &Option<TaskId>, tick: u32)
        requires { MayAdd task.now self.old.stamps }
        ensures { Follows true (job_added tick task.now) self.old self.new }
    {
        if let Some(task) = task {
            self.stamps.add(*task, tick);
        }
    }

    /// The oldest job of a task that executes has ended.
    #[inline(always)]
    fn job_ended(&mut self, owner: &Owner)
        requires { IsStamped owner.now self.old.stamps }
        ensures { Follows true (job_ended owner.now) self.old self.new }
    {
        if let Owner::Task(task) = owner {
            self.stamps.end(*task);
        }
    }

    /// Behind ActivateTask, where it was answered E_OK.
    #[inline(never)]
    fn job_made(&mut self, packed: PackedInstr, tick: u32)
        requires made { if_service makes_job (instr_of packed) ≡ true }
        requires room { MayAdd (named_by (instr_of packed)) self.old.stamps }
        ensures { Follows true (job_added tick (named_by (instr_of packed))) self.old self.new }
    {
        if let Service::ActivateTask(task) = &packed.service() {
            self.job_added(task, tick);
        }
    }

    /// Behind a service of which its status tells what it does to jobs. `is_told` says whether it
    /// makes or ends one where it is answered E_OK.
    #[inline(always)]
    pub fn answered(
        &mut self,
        is_told: bool,
        status: Status,
        owner: Owner,
        packed: PackedInstr,
        tick: u32,
    )
        requires call { IsCall (instr_of packed) }
        requires told { B.are_counted ≡ true
            → is_told ≡ changes_job (service_of (instr_of packed)) }
        requires room { B.are_counted ≡ true
            → MayChangeIf status owner (service_of (instr_of packed)) self.old.stamps }
        ensures { Follows B.are_counted
            (job_changed_if status tick owner (service_of (instr_of packed))) self.old self.new }
    {
        if !B::are_counted() || !is_told {
            return;
        }
        let Status::Ok = status else {
            return;
        };
        if packed.ends_job() {
            self.job_ended(&owner);
        } else {
            self.job_made(packed, tick);
        }
    }

    /// Behind the activation of a task, of which its status tells whether the task has a job more.
    #[inline(always)]
    pub fn activated(&mut self, status: Status, task: TaskId, tick: u32)
        requires { B.are_counted ≡ true → MayAddIf status task self.old.stamps }
        ensures { Follows B.are_counted (job_added_if status tick task) self.old self.new }
    {
        if !B::are_counted() {
            return;
        }
        if let Status::Ok = status {
            self.stamps.add(task, tick);
        }
    }

    /// Nobody executes, so that no number is told.
    #[inline(always)]
    pub fn rest(&mut self)
        ensures { self.new ≡ rested self.old }
    {
        self.stamp = None;
    }

    /// Where a task executes, the stamp of its job is taken and its level noted. Where no stamp has
    /// changed since its own was taken, its level is the one noted last, and isn't asked for.
    #[inline(always)]
    pub fn begin<Q: ReadyQueues>(
        &mut self,
        processor: &Processor<'_, Q>,
        task: Option<TaskId>,
        tick: u32,
    )
        requires { B.are_counted ≡ true → MaySpend processor.now task tick self.old }
        ensures { Spends B.are_counted processor.now tick self.old self.new }
    {
        if !B::are_counted() {
            return;
        }
        match task {
            None => self.stamp = None,
            Some(task) => {
                let goes_on = self.stamps.is_known_spent(task);
                self.stamp = self.stamps.take(task);
                if goes_on {
                    self.last.note_again(tick);
                } else {
                    self.last.note(processor.level_of(task), tick);
                }
            }
        }
    }
}
