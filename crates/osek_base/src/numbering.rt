//! OIL: standard object TASK, attribute PRIORITY. How tasks are numbered.

ghost use Rattle.std.specs.Prelude.{◌≡◌, ◌++◌, IfOk, OnOk};
ghost use Rattle.osek_base.specs.Numbering.{places_of, task_order};

use crate::limits::MAX_TASK_PRIORITY;
use std::alloc::{AllocError, Global};

/// The declared place of each task, in the order of their numbers: by falling priority, ties in declaration order.
/// A task whose priority is above [`MAX_TASK_PRIORITY`] has no number.
pub fn task_order(alloc: Global, priorities: &[u8]) -> Result<Vec<usize>, AllocError>
    ensures { IfOk result (λ order. order.items ≡ task_order priorities.now) }
{
    let mut order = Vec::new(alloc);
    let mut priority = MAX_TASK_PRIORITY + 1;
    while priority > 0 {
        priority -= 1;
        push_places(&mut order, priorities, priority)?;
    }
    Ok(order)
}

/// Adds the declared places of the tasks of a priority.
fn push_places(order: &mut Vec<usize>, priorities: &[u8], priority: u8) -> Result<(), AllocError>
    ensures { OnOk result (order.new.items ≡ order.old.items ++ places_of priorities.now priority) }
{
    for place in 0..priorities.len() {
        if priorities[place] == priority {
            order.push(place)?;
        }
    }
    Ok(())
}
