//! Value change dumps: the variables of a task.

ghost use Rattle.std.specs.Prelude.{◌≡◌, ◌+◌, ◌≤◌, ◌++◌, length, nat_eq};
ghost use Rattle.view_dumps.specs.Changes.{shown, written};
ghost use Rattle.view_dumps.specs.Ticks.{
  jobs_text,
  no_task_values,
  priority_text,
  same_option,
  same_state,
  state_text,
  task_after,
  task_text,
};

use crate::dump_text::{DumpText, TEXT_SIZE, push_number, push_vector};
use crate::last_byte::LastByte;
use crate::last_number::LastNumber;
use crate::last_state::LastState;
use crate::variable::Variable;
use osek_base::{TaskId, TaskState};
use seen_ticks::TaskSeen;

/// The values with which the variables of a task were last written.
#[derive(Clone, Copy)]
pub struct TaskValues {
    pub state: LastState,
    pub priority: LastNumber,
    pub jobs: LastByte,
}

/// Nothing was written yet.
impl Default for TaskValues {
    fn default() -> Self
        ensures { result ≡ no_task_values }
    {
        TaskValues {
            state: LastState::default(),
            priority: LastNumber::default(),
            jobs: LastByte::default(),
        }
    }
}

/// Appends the state, where it changes.
#[inline(always)]
fn push_state(last: &mut LastState, task: TaskId, state: TaskState, text: &mut DumpText)
    requires { length text.old + 13 ≤ TEXT_SIZE }
    ensures same { text.new ≡ text.old ++ state_text task last.old state }
    ensures after { last.new ≡ shown last.old (written same_state last.old state) }
    ensures short { length text.new ≤ length text.old + 13 }
{
    if let Some(state) = last.change_to(state) {
        push_number(Variable::State(task), state.number(), text);
    }
}

/// Appends the priority, where it changes. It has no value where the task has no job.
#[inline(always)]
fn push_priority(last: &mut LastNumber, task: TaskId, priority: Option<u8>, text: &mut DumpText)
    requires { length text.old + 13 ≤ TEXT_SIZE }
    ensures same { text.new ≡ text.old ++ priority_text task last.old priority }
    ensures after { last.new ≡ shown last.old (written (same_option nat_eq) last.old priority) }
    ensures short { length text.new ≤ length text.old + 13 }
{
    if let Some(priority) = last.change_to(priority) {
        push_vector(Variable::Priority(task), priority, text);
    }
}

/// Appends the number of jobs, where it changes.
#[inline(always)]
fn push_jobs(last: &mut LastByte, task: TaskId, jobs: u8, text: &mut DumpText)
    requires { length text.old + 13 ≤ TEXT_SIZE }
    ensures same { text.new ≡ text.old ++ jobs_text task last.old jobs }
    ensures after { last.new ≡ shown last.old (written nat_eq last.old jobs) }
    ensures short { length text.new ≤ length text.old + 13 }
{
    if let Some(jobs) = last.change_to(jobs) {
        push_number(Variable::Jobs(task), jobs, text);
    }
}

impl TaskValues {
    /// Appends what changes with what is seen of the task.
    #[inline(always)]
    pub(crate) fn push_changes(&mut self, task: TaskId, seen: &TaskSeen, text: &mut DumpText)
        requires { length text.old + 39 ≤ TEXT_SIZE }
        ensures same { text.new ≡ text.old ++ task_text task self.old seen.now }
        ensures after { self.new ≡ task_after self.old seen.now }
        ensures short { length text.new ≤ length text.old + 39 }
    {
        push_state(&mut self.state, task, seen.state, text);
        push_priority(&mut self.priority, task, seen.priority, text);
        push_jobs(&mut self.jobs, task, seen.jobs, text);
    }
}
