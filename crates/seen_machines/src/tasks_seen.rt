//! OSEK/VDX OS: task management, task state model. What is seen of the tasks.

ghost use Rattle.std.specs.Prelude.{◌≡◌, ◌<◌, ◌==◌, false, map, length};
ghost use Rattle.std.specs.List.{AllByRecursion};
ghost use Rattle.osek_base.specs.declared.ids.Owner.{Owner};
ghost use Rattle.osek_base.specs.Lists.{below};
ghost use Rattle.kernel.specs.Machine.{picture, system_of};
ghost use Rattle.seen_ticks.specs.Observed.{is_number, task_of};
ghost use Rattle.seen_machines.specs.Told.{IsOfAll, NoneIsRefused, bystander, executing, number_or_none, task_seen_by};

use crate::places::give_places;
use crate::readers::{job_count, system, task_state};
use crate::told::Told;
use arrayvec::ArrayVec;
use kernel::{Blockers, Machine};
use osek_base::{Executed, MAX_TASKS, Owner, TaskId};
use ready_queues::ReadyQueues;
use seen_ticks::{TaskAt, TaskSeen, activations_by, is_by, is_task, is_waiting, made, state_seen};

/// The number of no task.
const NOBODY: u8 = 255;

/// The task that executes.
#[inline(always)]
fn executing(executed: &Option<Executed>) -> Option<TaskId>
    ensures { result ≡ executing executed.now }
{
    match executed {
        None => None,
        Some(executed) => task_of(&executed.owner),
    }
}

#[inline(always)]
fn task_of(owner: &Owner) -> Option<TaskId>
    ensures { result ≡ task_of owner.now }
{
    match owner {
        Owner::Task(task) => Some(*task),
        Owner::Routine(_) => None,
    }
}

/// The number of a task, if there is one.
#[inline(always)]
fn number_or_none(task: Option<TaskId>) -> u8
    ensures { result ≡ number_or_none task }
{
    match task {
        None => NOBODY,
        Some(task) => task.number(),
    }
}

/// Whether a task has the number of the one that executes, a job of it ends, or activations are
/// refused.
#[inline(always)]
fn is_concerned(task: TaskId, executor: u8, ending: Option<TaskId>, is_any_refused: bool) -> bool
    ensures executing { result ≡ false → (executor == task) ≡ false }
    ensures ending { result ≡ false → is_number task ending ≡ false }
    ensures refused { result ≡ false → is_any_refused ≡ false }
{
    if is_any_refused {
        return true;
    }
    if task.number() == executor {
        return true;
    }
    is_task(task, ending)
}

/// Leaves what is seen of a task that doesn't execute, where none of its jobs ends and no
/// activation is refused. It has so many jobs behind the tick, and had so many before it.
#[inline(always)]
fn see_bystander(place: &mut TaskSeen, at: &TaskAt, jobs: u8, before: u8)
    ensures { place.new ≡ bystander at.now jobs before }
{
    place.state = state_seen(false, at.state);
    place.priority = at.priority;
    place.jobs = at.jobs;
    place.made = jobs.saturating_sub(before);
    place.refused = 0;
    place.ended = false;
    place.waits = false;
}

impl Told {
    /// Whether the instruction is an activation that is refused, or an action of an alarm was.
    fn is_any_refused<Q: ReadyQueues, B: Blockers>(&self, machine: &Machine<'_, Q, B>) -> bool
        ensures { result ≡ false → NoneIsRefused self.now machine.now.acted }
    {
        if machine.last_refused().len() != 0 {
            return true;
        }
        self.execution.refusing.is_some()
    }

    /// What is seen of a task in the tick that a machine did last.
    #[inline(never)]
    fn task_seen<Q: ReadyQueues, B: Blockers>(
        &self,
        machine: &Machine<'_, Q, B>,
        task: TaskId,
    ) -> TaskSeen
        requires task { task < length (system_of machine.now).tasks }
        requires all { IsOfAll (system_of machine.now) self.now }
        requires refused { AllByRecursion (λ a. a < length (system_of machine.now).alarms)
            machine.now.acted.refused }
        ensures { result ≡ task_seen_by (system_of machine.now) self.now (picture machine.now)
            machine.now.acted task }
    {
        let at = self.task_at(task);
        let is_own = is_by(Owner::Task(task), &self.execution.executed);
        let ended = is_task(task, self.execution.ending);
        let is_refused = is_task(task, self.execution.refusing);
        TaskSeen {
            state: state_seen(is_own, at.state),
            priority: at.priority,
            jobs: at.jobs,
            made: made(job_count(machine, task), ended, self.jobs_before(task)),
            refused: u8::from(is_refused)
                + activations_by(system(machine), task, machine.last_refused()),
            ended,
            waits: is_own && is_waiting(task_state(machine, task)),
        }
    }

    /// Leaves what is seen of a task, where one of that number executes.
    #[inline(always)]
    #[tactic(auto, using(crate::proofs::Bystanders::seen_by))]
    fn see_task<Q: ReadyQueues, B: Blockers>(
        &self,
        machine: &Machine<'_, Q, B>,
        task: TaskId,
        executor: u8,
        is_any_refused: bool,
        place: &mut TaskSeen,
    )
        requires task { task < length (system_of machine.now).tasks }
        requires all { IsOfAll (system_of machine.now) self.now }
        requires refused { AllByRecursion (λ a. a < length (system_of machine.now).alarms)
            machine.now.acted.refused }
        requires executing { executor ≡ number_or_none (executing self.now.execution.executed) }
        requires none { is_any_refused ≡ false → NoneIsRefused self.now machine.now.acted }
        ensures { place.new ≡ task_seen_by (system_of machine.now) self.now (picture machine.now)
            machine.now.acted task }
    {
        if is_concerned(task, executor, self.execution.ending, is_any_refused) {
            *place = self.task_seen(machine, task);
        } else {
            let jobs = job_count(machine, task);
            see_bystander(place, &self.task_at(task), jobs, self.jobs_before(task));
        }
    }

    /// Leaves what is seen of the tasks.
    #[tactic(auto, using(kernel::proofs::Filled::one_more, kernel::proofs::Filled::all_of))]
    pub(crate) fn see_tasks<Q: ReadyQueues, B: Blockers>(
        &self,
        machine: &Machine<'_, Q, B>,
        tasks: &mut ArrayVec<TaskSeen, MAX_TASKS>,
    )
        requires all { IsOfAll (system_of machine.now) self.now }
        requires refused { AllByRecursion (λ a. a < length (system_of machine.now).alarms)
            machine.now.acted.refused }
        ensures { tasks.new.items
            ≡ map (task_seen_by (system_of machine.now) self.now (picture machine.now)
            machine.now.acted) (below (length (system_of machine.now).tasks)) }
    {
        let count = system(machine).task_count();
        give_places(tasks, count);
        let places = tasks.as_mut_slice();
        let executor = number_or_none(executing(&self.execution.executed));
        let is_any_refused = self.is_any_refused(machine);
        for number in 0..count {
            let task = TaskId::new(number as u8);
            let place = &mut places[number];
            self.see_task(machine, task, executor, is_any_refused, place);
        }
    }
}
