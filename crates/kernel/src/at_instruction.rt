//! OSEK/VDX OS: task management, task state model. All tasks as they are when a tick's instruction
//! is executed.

ghost use Rattle.std.specs.Prelude.{◌≡◌, []};

use arrayvec::ArrayVec;
use osek_base::MAX_TASKS;
use seen_ticks::TaskAt;

/// Of each task by number what it is when a tick's instruction is executed.
#[derive(Drop)]
pub struct AtInstruction {
    pub tasks: ArrayVec<TaskAt, MAX_TASKS>,
}

impl AtInstruction {
    /// Nothing is seen yet.
    pub fn new() -> Self
        ensures { result.tasks.items ≡ [] }
    {
        AtInstruction {
            tasks: ArrayVec::new(),
        }
    }
}
