//! OSEK/VDX OS: resource management. Who holds a resource.

ghost use Rattle.std.specs.Prelude.{◌≡◌, None};

use osek_base::TaskId;
use std::marker::Model;

/// The task whose job holds a resource, if one does. Contracts see the option.
#[derive(Clone, Copy, PartialEq, Eq)]
pub struct Holder {
    task: Option<TaskId>,
}

impl Model for Holder {
    ghost use Rattle.std.specs.Prelude.{ℕ, Option};

    ghost Value = { Option ℕ };

    ghost view = { λ h. h.task };

    ghost inverse = { λ task. record { task = task } };
}

/// No task.
impl Default for Holder {
    fn default() -> Self
        ensures { result ≡ None }
    {
        Holder { task: None }
    }
}

impl Holder {
    /// That task, or none.
    pub fn new(task: Option<TaskId>) -> Self
        ensures { result ≡ task }
    {
        Holder { task }
    }

    /// The task.
    pub fn task(self) -> Option<TaskId>
        ensures { result ≡ self }
    {
        self.task
    }
}
