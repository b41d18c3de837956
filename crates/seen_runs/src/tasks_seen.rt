//! OSEK/VDX OS: task management, task state model. What is seen of the tasks.

ghost use Rattle.std.specs.Prelude.{ℕ, ◌≡◌, ◌<◌, ◌≤◌, ◌+◌, ◌-◌, [], true, false, None, IsTrue, map, length};
ghost use Rattle.osek_base.specs.declared.ids.Owner.{Owner};
ghost use Rattle.osek_base.specs.declared.limits.TheConstants.{MAX_ACTIVATION};
ghost use Rattle.osek_base.specs.declared.status.TaskState.{TaskState};
ghost use Rattle.osek_base.specs.Lists.{below};
ghost use Rattle.seen_runs.specs.Keeping.{last_tick};
ghost use Rattle.seen_runs.specs.Passing.{LeavesAll};
ghost use Rattle.seen_runs.specs.Tasks.{LeavesTasks, other_seen, own_seen, standing_seen};
ghost use Rattle.seen_ticks.specs.Told.{task_at};
ghost use Rattle.seen_ticks.specs.Observed.{
  activations_by,
  is_by,
  is_number,
  is_waiting,
  jobs_before,
  one_if,
  refusing,
  state_seen,
  task_seen,
};

use crate::told_run::ToldRun;
use arrayvec::ArrayVec;
use kernel::{AtInstruction, Blockers, give_places};
use osek_base::{Executed, MAX_ACTIVATION, MAX_TASKS, Owner, TaskId, TaskState};
use seen_ticks::{TaskAt, TaskSeen, is_task, is_waiting, made, state_seen};

/// The task of which an instruction was.
#[tactic(auto, using(crate::proofs::Refusals::same_number))]
fn executing_task(executed: &Option<Executed>) -> Option<TaskId>
    ensures { (t : ℕ) → is_number t result ≡ is_by (Owner.Task t) executed.now }
{
    match executed {
        None => None,
        Some(executed) => match executed.owner {
            Owner::Task(task) => Some(task),
            Owner::Routine(_) => None,
        },
    }
}

/// Whether a state is SUSPENDED.
#[inline(always)]
fn is_suspended(state: TaskState) -> bool
    ensures { IsTrue result → state ≡ TaskState.Suspended }
{
    matches!(state, TaskState::Suspended)
}

/// Leaves what is seen of the task that executes, but how many activations were refused: by what
/// it was at the instruction and is behind it, how many jobs it had before the tick, and whether
/// one ended.
#[inline(always)]
fn see_own(seen: &mut TaskSeen, at: &TaskAt, behind: &TaskAt, before: u8, ended: bool)
    requires { behind.now.jobs ≤ MAX_ACTIVATION }
    ensures { seen.new ≡ own_seen at.now behind.now before seen.old.refused ended }
{
    seen.state = TaskState::Running;
    seen.priority = at.priority;
    seen.jobs = at.jobs;
    seen.made = made(behind.jobs, ended, before);
    seen.ended = ended;
    seen.waits = is_waiting(behind.state);
}

/// As [`see_own`], of a task that doesn't execute. It has so many jobs behind the tick.
#[inline(always)]
fn see_other(seen: &mut TaskSeen, at: &TaskAt, jobs: u8, before: u8)
    ensures { seen.new ≡ other_seen at.now jobs before seen.old.refused }
{
    seen.state = state_seen(false, at.state);
    seen.priority = at.priority;
    seen.jobs = at.jobs;
    seen.made = jobs.saturating_sub(before);
    seen.ended = false;
    seen.waits = false;
}

/// As [`see_own`] or [`see_other`], of a task that is behind the tick what it was at the
/// instruction, where no job ended.
#[inline(always)]
fn see_standing(seen: &mut TaskSeen, at: &TaskAt, is_own: bool, before: u8)
    ensures { seen.new ≡ standing_seen is_own at.now before seen.old.refused }
{
    seen.state = state_seen(is_own, at.state);
    seen.priority = at.priority;
    seen.jobs = at.jobs;
    seen.made = at.jobs.saturating_sub(before);
    seen.ended = false;
    seen.waits = is_own && is_waiting(at.state);
}

impl<'s, B: Blockers> ToldRun<'s, B> {
    /// How many activations of a task were refused, where any was.
    #[inline(always)]
    #[tactic(auto, using(crate::proofs::Refusals::none_refused))]
    fn refused(&self, task: TaskId, is_any_refused: bool) -> u8
        requires ticked { 1 ≤ self.now.ticks }
        requires instruction { is_any_refused ≡ false
            → refusing self.now.system (last_tick self.now).executed ≡ None }
        requires alarms { is_any_refused ≡ false → (last_tick self.now).refused ≡ [] }
        ensures { result
            ≡ one_if (is_number task (refusing self.now.system (last_tick self.now).executed))
            + activations_by self.now.system task (last_tick self.now).refused }
    {
        if is_any_refused {
            u8::from(self.is_refused(task)) + self.refused_by_alarms(task)
        } else {
            0
        }
    }

    /// Whether a task had no job before the tick that was done last, none at its instruction, and
    /// has none behind it.
    #[inline(always)]
    fn has_none(&self, task: TaskId, at: &TaskAt, before: u8) -> bool
        requires ticked { 1 ≤ self.now.ticks }
        requires task { task < length self.now.system.tasks }
        ensures before { IsTrue result → before ≡ 0 }
        ensures at { IsTrue result → at.now.state ≡ TaskState.Suspended }
        ensures behind { IsTrue result
            → (task_at self.now.system (last_tick self.now).after task).state
            ≡ TaskState.Suspended }
    {
        before == 0 && is_suspended(at.state) && is_suspended(self.task_behind(task).state)
    }

    /// Leaves what is seen of a task in the tick that was done last, by what it was at the tick's
    /// instruction, how many jobs it had before the tick, the task of which the instruction was,
    /// whether any activation may have been refused, and whether it is known that the instruction
    /// left each task what it was. What it is now and how many jobs it has is left, too.
    #[inline(always)]
    #[tactic(auto, using(crate::proofs::Jobless::stays_without, crate::proofs::Jobless::none_behind))]
    fn see_task(
        &self,
        task: TaskId,
        at: &mut TaskAt,
        jobs: &mut u8,
        by: &Option<TaskId>,
        is_any_refused: bool,
        stand: bool,
        seen: &mut TaskSeen,
    )
        requires ticked { 1 ≤ self.now.ticks }
        requires task { task < length self.now.system.tasks }
        requires at { at.old ≡ task_at self.now.system (last_tick self.now).at task }
        requires jobs { jobs.old
            ≡ jobs_before (last_tick self.now).first (last_tick self.now).before task }
        requires by { (t : ℕ) → is_number t by.now
            ≡ is_by (Owner.Task t) (last_tick self.now).executed }
        requires instruction { is_any_refused ≡ false
            → refusing self.now.system (last_tick self.now).executed ≡ None }
        requires alarms { is_any_refused ≡ false → (last_tick self.now).refused ≡ [] }
        requires stand { stand ≡ true → LeavesTasks self.now.system (last_tick self.now) }
        ensures seen { seen.new ≡ task_seen self.now.system (last_tick self.now) task }
        ensures at { at.new ≡ task_at self.now.system (last_tick self.now).after task }
        ensures jobs { jobs.new ≡ jobs_before false (last_tick self.now).after task }
    {
        let is_own = is_task(task, *by);
        if !is_own && !is_any_refused && self.has_none(task, at, *jobs) {
            *seen = TaskSeen::default();
            return;
        }
        let refused = self.refused(task, is_any_refused);
        if stand {
            see_standing(seen, at, is_own, *jobs);
            seen.refused = refused;
            *jobs = at.jobs;
            return;
        }
        let behind = self.task_behind(task);
        if is_own {
            see_own(seen, at, &behind, *jobs, self.is_any_ended());
        } else {
            see_other(seen, at, behind.jobs, *jobs);
        }
        seen.refused = refused;
        *at = behind;
        *jobs = behind.jobs;
    }

    /// Leaves what is seen of the tasks in the tick that was done last, by what they were at its
    /// instruction, how many jobs each had before the tick, and whether it is known that the
    /// instruction left each what it was. What each is now and how many jobs it has is left, too.
    #[tactic(auto, using(kernel::proofs::Filled::one_more, kernel::proofs::Filled::all_of))]
    #[inline(always)]
    pub(crate) fn see_tasks(
        &self,
        at: &mut AtInstruction,
        jobs: &mut ArrayVec<u8, MAX_TASKS>,
        stand: bool,
        tasks: &mut ArrayVec<TaskSeen, MAX_TASKS>,
    )
        requires ticked { 1 ≤ self.now.ticks }
        requires each { at.old.tasks.items
            ≡ map (task_at self.now.system (last_tick self.now).at)
            (below (length self.now.system.tasks)) }
        requires jobs { jobs.old.items
            ≡ map (jobs_before (last_tick self.now).first (last_tick self.now).before)
            (below (length self.now.system.tasks)) }
        requires stand { stand ≡ true → LeavesTasks self.now.system (last_tick self.now) }
        ensures tasks { tasks.new.items
            ≡ map (task_seen self.now.system (last_tick self.now))
            (below (length self.now.system.tasks)) }
        ensures each { at.new.tasks.items
            ≡ map (task_at self.now.system (last_tick self.now).after)
            (below (length self.now.system.tasks)) }
        ensures jobs { jobs.new.items
            ≡ map (jobs_before false (last_tick self.now).after)
            (below (length self.now.system.tasks)) }
    {
        let count = self.system().task_count();
        give_places(tasks, count);
        let places = tasks.as_mut_slice();
        let stood = at.tasks.as_mut_slice();
        let had = jobs.as_mut_slice();
        let by = executing_task(&self.executed());
        let is_any_refused = self.is_any_refused();
        for number in 0..count {
            let task = TaskId::new(number as u8);
            let at = &mut stood[number];
            let before = &mut had[number];
            let place = &mut places[number];
            self.see_task(task, at, before, &by, is_any_refused, stand, place);
        }
    }

    /// Leaves what is seen of a task in the tick that was done last, where nothing comes to any in
    /// it, by what it is behind it.
    #[inline(always)]
    #[tactic(auto, using(crate::proofs::Jobless::left_without))]
    fn see_left(&self, task: TaskId, at: &TaskAt, by: &Option<TaskId>, seen: &mut TaskSeen)
        requires ticked { 1 ≤ self.now.ticks }
        requires task { task < length self.now.system.tasks }
        requires at { at.now ≡ task_at self.now.system (last_tick self.now).after task }
        requires by { (t : ℕ) → is_number t by.now
            ≡ is_by (Owner.Task t) (last_tick self.now).executed }
        requires leaves { LeavesAll self.now.system (last_tick self.now) }
        ensures { seen.new ≡ task_seen self.now.system (last_tick self.now) task }
    {
        let is_own = is_task(task, *by);
        if !is_own && is_suspended(at.state) {
            *seen = TaskSeen::default();
            return;
        }
        seen.state = state_seen(is_own, at.state);
        seen.priority = at.priority;
        seen.jobs = at.jobs;
        seen.made = 0;
        seen.refused = 0;
        seen.ended = false;
        seen.waits = is_own && is_waiting(at.state);
    }

    /// Leaves what is seen of the tasks in the tick that was done last, where nothing comes to any,
    /// by what they are behind it.
    #[tactic(auto, using(kernel::proofs::Filled::one_more, kernel::proofs::Filled::all_of))]
    #[inline(always)]
    pub(crate) fn see_tasks_left(
        &self,
        at: &AtInstruction,
        tasks: &mut ArrayVec<TaskSeen, MAX_TASKS>,
    )
        requires ticked { 1 ≤ self.now.ticks }
        requires each { at.now.tasks.items
            ≡ map (task_at self.now.system (last_tick self.now).after)
            (below (length self.now.system.tasks)) }
        requires leaves { LeavesAll self.now.system (last_tick self.now) }
        ensures { tasks.new.items
            ≡ map (task_seen self.now.system (last_tick self.now))
            (below (length self.now.system.tasks)) }
    {
        let count = self.system().task_count();
        give_places(tasks, count);
        let places = tasks.as_mut_slice();
        let stand = at.tasks.as_slice();
        let by = executing_task(&self.executed());
        for number in 0..count {
            let task = TaskId::new(number as u8);
            let place = &mut places[number];
            self.see_left(task, &stand[number], &by, place);
        }
    }
}
