//! Partitions. What is upper at a priority.

ghost use Rattle.std.specs.Prelude.{◌≡◌};
ghost use Rattle.osek_base.specs.System.{alarm as alarm_at};
ghost use Rattle.osek_base.specs.Upper.{action_task, is_upper_task, is_upper_resource, is_upper_alarm};

use osek_base::{Action, AlarmId, ResId, System, TaskId};

/// Whether a task has priority p or more. One that the system doesn't have counts as of priority 0.
pub fn is_upper_task(system: &System, p: u8, task: TaskId) -> bool
    ensures { result ≡ is_upper_task system.now p task }
{
    if (task.number() as usize) < system.task_count() {
        p <= system.priority_of(task)
    } else {
        p == 0
    }
}

/// Whether a resource has a ceiling of p or more.
pub fn is_upper_resource(system: &System, p: u8, resource: ResId) -> bool
    ensures { result ≡ is_upper_resource system.now p resource }
{
    p <= system.ceiling(resource)
}

/// Whether an alarm acts on a task of priority p or more. One that the system doesn't have counts as acting on task 0.
pub fn is_upper_alarm(system: &System, p: u8, alarm: AlarmId) -> bool
    ensures { result ≡ is_upper_alarm system.now p alarm }
{
    is_upper_task(system, p, action_task(system, alarm))
}

/// The task on which an alarm acts.
fn action_task(system: &System, alarm: AlarmId) -> TaskId
    ensures { result ≡ action_task (alarm_at system.now alarm).action }
{
    if (alarm.number() as usize) >= system.alarm_count() {
        return TaskId::new(0);
    }
    match system.action_of(alarm) {
        Action::ActivateTask(task) => task,
        Action::SetEvent(task, _) => task,
    }
}
