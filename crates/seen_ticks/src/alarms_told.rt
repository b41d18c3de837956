//! OSEK/VDX OS: alarms. What is told of an alarm in a tick.

ghost use Rattle.std.specs.Prelude.{◌≡◌, ◌<◌, ◌≤◌, length};
ghost use Rattle.std.specs.List.{AllByRecursion};
ghost use Rattle.seen_ticks.specs.Observed.{activations_by, is_activation, is_among};

use alarms::DueList;
use osek_base::{Action, AlarmId, MAX_ALARMS, System, TaskId};

/// Whether an alarm is one of some alarms.
pub fn is_among(alarms: &DueList, alarm: AlarmId) -> bool
    ensures { result ≡ is_among alarms.now alarm }
{
    for place in 0..alarms.len() {
        if alarms.at(place).number() == alarm.number() {
            return true;
        }
    }
    false
}

fn is_activation(task: TaskId, action: &Action) -> bool
    ensures { result ≡ is_activation task action.now }
{
    match action {
        Action::ActivateTask(other) => other.number() == task.number(),
        Action::SetEvent(..) => false,
    }
}

/// How many of some alarms are to activate a task.
pub fn activations_by(system: &System, task: TaskId, alarms: &DueList) -> u8
    requires { AllByRecursion (λ a. a < length system.now.alarms) alarms.now }
    ensures value { result ≡ activations_by system.now task alarms.now }
    ensures few { result ≤ MAX_ALARMS }
{
    let mut count = 0;
    for place in 0..alarms.len() {
        let action = system.action_of(alarms.at(place));
        if is_activation(task, &action) {
            count += 1;
        }
    }
    count
}
