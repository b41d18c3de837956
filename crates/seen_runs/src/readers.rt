//! OSEK/VDX OS: task management; interrupt processing; alarms. What a run tells of the tick that
//! was done last.

ghost use Rattle.std.specs.Prelude.{◌≡◌, ◌<◌, ◌≤◌, ◌-◌, [], true, false, None, is_some, length};
ghost use Rattle.std.specs.List.{AllByRecursion};
ghost use Rattle.osek_base.specs.System.{alarm};
ghost use Rattle.kernel.specs.Progress.{run_of};
ghost use Rattle.seen_runs.specs.Keeping.{last_tick};
ghost use Rattle.seen_runs.specs.Tasks.{LeavesTasks, is_plain};
ghost use Rattle.seen_ticks.specs.Told.{task_at};
ghost use Rattle.seen_ticks.specs.Observed.{
  activations_by,
  ending,
  is_activation,
  is_among,
  is_by,
  is_number,
  is_pending,
  moved,
  refusing,
  times,
};

use crate::told_run::ToldRun;
use alarms::DueList;
use kernel::{Blockers, Kernel};
use osek_base::{
    Action, AlarmId, Executed, IsrId, MAX_ACTIVATION, MAX_ALARMS, MAX_ARRIVALS, Outcome, Owner,
    System, TaskId,
};
use ready_queues::LevelQueues;
use seen_ticks::{TaskAt, activations_by, is_among, is_by, is_task, times};

/// What a kernel's task is. It has at most MAX_ACTIVATION jobs.
fn task_of_few<B: Blockers>(
    kernel: &Kernel<'_, LevelQueues, B>,
    system: &System,
    task: TaskId,
) -> TaskAt
    requires system { kernel.now.system ≡ system.now }
    requires task { task < length system.now.tasks }
    ensures value { result ≡ task_at system.now (run_of kernel.now).state task }
    ensures few { result.jobs ≤ MAX_ACTIVATION }
{
    // So few jobs are allowed.
    system.shows_proper();
    kernel.task_at(task)
}

/// Whether an instruction was a plain one.
#[inline(always)]
fn is_plain(executed: &Option<Executed>) -> bool
    ensures { result ≡ is_plain executed.now }
{
    match executed {
        Some(executed) => matches!(executed.outcome, Outcome::Plain(_)),
        None => false,
    }
}

impl<'s, B: Blockers> ToldRun<'s, B> {
    /// What a task is behind the tick.
    pub(crate) fn task_behind(&self, task: TaskId) -> TaskAt
        requires ticked { 1 ≤ self.now.ticks }
        requires task { task < length self.now.system.tasks }
        ensures value { result ≡ task_at self.now.system (last_tick self.now).after task }
        ensures few { result.jobs ≤ MAX_ACTIVATION }
    {
        task_of_few(&self.kernel, self.system, task)
    }

    /// What was executed.
    pub(crate) fn executed(&self) -> Option<Executed>
        requires { 1 ≤ self.now.ticks }
        ensures { result ≡ (last_tick self.now).executed }
    {
        self.execution.executed
    }

    /// Whether the instruction was of that task or routine.
    pub(crate) fn is_by(&self, who: Owner) -> bool
        requires { 1 ≤ self.now.ticks }
        ensures { result ≡ is_by who (last_tick self.now).executed }
    {
        is_by(who, &self.executed())
    }

    /// Whether the instruction was a plain one. It left each task what it was.
    #[inline(always)]
    pub(crate) fn leaves_tasks(&self) -> bool
        requires { 1 ≤ self.now.ticks }
        ensures { result ≡ true → LeavesTasks self.now.system (last_tick self.now) }
    {
        self.system.shows_proper();
        is_plain(&self.execution.executed)
    }

    /// Whether a job ended.
    pub(crate) fn is_any_ended(&self) -> bool
        requires { 1 ≤ self.now.ticks }
        ensures { result ≡ is_some (ending self.now.system (last_tick self.now).executed) }
    {
        self.execution.ending.is_some()
    }

    /// Whether a resource was got or released.
    #[inline(always)]
    pub(crate) fn is_any_moved(&self) -> bool
        requires { 1 ≤ self.now.ticks }
        ensures { result ≡ moved self.now.system (last_tick self.now).executed }
    {
        self.execution.moved
    }

    /// Whether the instruction was an activation of a task that was refused.
    pub(crate) fn is_refused(&self, task: TaskId) -> bool
        requires { 1 ≤ self.now.ticks }
        ensures { result ≡ is_number task (refusing self.now.system (last_tick self.now).executed) }
    {
        is_task(task, self.execution.refusing)
    }

    /// The alarms that were due, in declaration order.
    fn last_due(&self) -> &DueList
        requires { 1 ≤ self.now.ticks }
        ensures { result.now ≡ (last_tick self.now).due }
    {
        self.kernel.machine().last_due()
    }

    /// Those of them whose action was refused.
    fn last_refused(&self) -> &DueList
        requires { 1 ≤ self.now.ticks }
        ensures { result.now ≡ (last_tick self.now).refused }
    {
        self.kernel.machine().last_refused()
    }

    /// Whether the instruction was an activation that was refused, or one of the alarms' was.
    pub(crate) fn is_any_refused(&self) -> bool
        requires { 1 ≤ self.now.ticks }
        ensures instruction { result ≡ false
            → refusing self.now.system (last_tick self.now).executed ≡ None }
        ensures alarms { result ≡ false → (last_tick self.now).refused ≡ [] }
    {
        if self.last_refused().len() != 0 {
            return true;
        }
        self.execution.refusing.is_some()
    }

    /// How many activations of a task by alarms were refused.
    pub(crate) fn refused_by_alarms(&self, task: TaskId) -> u8
        requires { 1 ≤ self.now.ticks }
        ensures value { result ≡ activations_by self.now.system task (last_tick self.now).refused }
        ensures few { result ≤ MAX_ALARMS }
    {
        let refused = self.last_refused();
        activations_by(self.system, task, refused)
    }

    /// Whether a routine was pending when the instruction was executed, as it is still.
    pub(crate) fn is_pending(&self, routine: IsrId) -> bool
        requires ticked { 1 ≤ self.now.ticks }
        requires routine { routine < length self.now.system.routines }
        ensures at { result ≡ is_pending (last_tick self.now).at routine }
        ensures behind { result ≡ is_pending (last_tick self.now).after routine }
    {
        self.kernel.is_pending(routine)
    }

    /// How many of its interrupts arrived.
    pub(crate) fn arrived(&self, routine: IsrId) -> u32
        requires { 1 ≤ self.now.ticks }
        ensures { result ≡ times routine (last_tick self.now).arrived }
    {
        times(routine, self.kernel.last_arrived())
    }

    /// Whether an alarm was due.
    pub(crate) fn has_expired(&self, alarm: AlarmId) -> bool
        requires { 1 ≤ self.now.ticks }
        ensures { result ≡ is_among (last_tick self.now).due alarm }
    {
        is_among(self.last_due(), alarm)
    }

    /// Whether its action was refused.
    pub(crate) fn is_in_vain(&self, alarm: AlarmId) -> bool
        requires { 1 ≤ self.now.ticks }
        ensures { result ≡ is_among (last_tick self.now).refused alarm }
    {
        is_among(self.last_refused(), alarm)
    }
}
