//! What ways and expiries start at a level, and what that costs, as far as it is known. Nothing is
//! proved of it but safety.

use crate::events::is_set;
use crate::needs::{Item, Needs, event_number};
use crate::standing::is_upper;
use analysis_nodes::Start;
use osek_base::{Action, MAX_EVENTS, System};
use std::alloc::AllocError;

/// What is started at a level: of a task below it nothing.
#[derive(Clone, Copy)]
pub(crate) enum Started {
    Nothing,
    Task(usize),
    /// Events of the mask are set for the task.
    Events { task: usize, mask: u32 },
    /// An alarm is set that pays then.
    Alarm(usize),
}

/// What a way starts.
pub(crate) fn started_by(system: &System, priority: u8, needs: &Needs, start: &Start) -> Started {
    match start {
        Start::Nothing => Started::Nothing,
        Start::Activates(task) => activated(system, priority, task.number() as usize),
        Start::Sets(task, mask) => notified(system, priority, task.number() as usize, *mask),
        Start::SetsAlarm(alarm) => {
            let alarm = alarm.number() as usize;
            if needs.pays(alarm) {
                Started::Alarm(alarm)
            } else {
                Started::Nothing
            }
        }
    }
}

/// What an expiry of an alarm starts.
pub(crate) fn started_by_alarm(system: &System, priority: u8, alarm: usize) -> Started {
    match system.parts().alarms.get(alarm) {
        None => Started::Nothing,
        Some(alarm) => match &alarm.action {
            Action::ActivateTask(task) => activated(system, priority, task.number() as usize),
            Action::SetEvent(task, mask) => {
                notified(system, priority, task.number() as usize, *mask)
            }
        },
    }
}

/// An activation of a task.
fn activated(system: &System, priority: u8, task: usize) -> Started {
    if is_upper(system, priority, task) {
        Started::Task(task)
    } else {
        Started::Nothing
    }
}

/// Events that are set for a task.
fn notified(system: &System, priority: u8, task: usize, mask: u32) -> Started {
    if is_upper(system, priority, task) {
        Started::Events { task, mask }
    } else {
        Started::Nothing
    }
}

/// What an item needs of what is started.
pub(crate) fn add_started(
    needs: &mut Needs,
    who: Item,
    started: Started,
) -> Result<(), AllocError> {
    match started {
        Started::Nothing => Ok(()),
        Started::Task(task) => needs.add(who, Item::Task(task)),
        Started::Events { task, mask } => {
            for event in 0..MAX_EVENTS {
                if is_set(mask, event) {
                    needs.add(who, Item::Set(event_number(task, event)))?;
                }
            }
            Ok(())
        }
        Started::Alarm(alarm) => needs.add(who, Item::Alarm(alarm)),
    }
}

/// What isn't known of what is started.
pub(crate) fn missing_of_started(needs: &Needs, started: Started) -> Option<Item> {
    match started {
        Started::Nothing => None,
        Started::Task(task) => missing(needs, Item::Task(task)),
        Started::Events { task, mask } => {
            for event in 0..MAX_EVENTS {
                let item = Item::Set(event_number(task, event));
                if is_set(mask, event) && !needs.is_known(item) {
                    return Some(item);
                }
            }
            None
        }
        Started::Alarm(alarm) => missing(needs, Item::Alarm(alarm)),
    }
}

/// An item, if it isn't known.
fn missing(needs: &Needs, item: Item) -> Option<Item> {
    (!needs.is_known(item)).then_some(item)
}

/// What that costs which is started, as far as it is known.
pub(crate) fn cost_of_started(needs: &Needs, started: Started) -> u64 {
    match started {
        Started::Nothing => 0,
        Started::Task(task) => needs.value(Item::Task(task)),
        Started::Events { task, mask } => {
            let mut cost: u64 = 0;
            for event in 0..MAX_EVENTS {
                if is_set(mask, event) {
                    let set = Item::Set(event_number(task, event));
                    cost = cost.saturating_add(needs.value(set));
                }
            }
            cost
        }
        Started::Alarm(alarm) => needs.value(Item::Alarm(alarm)),
    }
}
