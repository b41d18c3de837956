//! The routines of a description: those of its interrupts, and behind them one for each task that
//! is released by arrivals.

use crate::description::{Arriving, Described, Release};
use std::alloc::{AllocError, Global};

/// What stands before a task's name in the name of its routine.
pub const ROUTINE: &str = "Isr";

/// What stands before a task's name in the name of its alarm.
pub const ALARM: &str = "Alarm";

/// What stands before a task's name in the names of the alarm that ends its waits, and of the event
/// that this alarm sets.
pub const TIMEOUT: &str = "Timeout";

/// A routine's name, in two parts, and when its interrupt arrives.
#[derive(Clone, Copy)]
pub struct Routine<'a> {
    pub front: &'static str,
    pub name: &'a str,
    pub arriving: Arriving,
}

/// All routines, in the order in which they are declared.
pub fn routines<'a>(
    alloc: Global,
    described: &Described<'a>,
) -> Result<Vec<Routine<'a>>, AllocError> {
    let mut found = Vec::new(alloc);
    for interrupt in &described.interrupts {
        found.push(Routine {
            front: "",
            name: interrupt.name,
            arriving: interrupt.arriving,
        })?;
    }
    for task in &described.tasks {
        if let Release::Sporadic(arriving) = task.release {
            found.push(Routine {
                front: ROUTINE,
                name: task.name,
                arriving,
            })?;
        }
    }
    Ok(found)
}
