//! What a lower task is and lists.

use crate::denial::Rule;
use osek_base::{ResId, Schedule, System, Task};

/// Whether a task lists a resource of ceiling p or more.
fn lists_upper(system: &System, p: u8, task: &Task) -> bool {
    for resource in &task.resources {
        if system.ceiling(ResId::Declared(*resource)) >= p {
            return true;
        }
    }
    false
}

/// Whether a lower task breaks a rule on what it is and lists.
pub(crate) fn breaks(system: &System, p: u8, rule: Rule, task: &Task) -> bool {
    match rule {
        Rule::FullPreemption => task.schedule == Schedule::Non,
        Rule::LowerResources => lists_upper(system, p, task),
        _ => false,
    }
}
