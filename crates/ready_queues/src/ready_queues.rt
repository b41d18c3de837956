//! What a kernel asks of its ready list.

ghost use Rattle.std.specs.Prelude.{◌≡◌, ℕ, ◌<◌, ◌↔◌, IsTrue, IfOk};
ghost use Rattle.ready_queues.specs.Queues.{Queues, no_tasks, total, top_level, first_task, with_newest, with_oldest, without_first};

use osek_base::{MAX_TASK_PRIORITY, TaskId};
use std::alloc::{AllocError, Global};

/// How many levels there are: one for each priority of a task, numbered from 0.
pub const LEVELS: u8 = MAX_TASK_PRIORITY + 1;

/// The ready list: for each level the tasks that are ready there, oldest first, and room for so
/// many entries in all. A task may stand in it more than once, an entry for each of its jobs.
///
/// OSEK/VDX OS, task management, scheduling policy: of the ready tasks the oldest of the highest
/// priority runs first, a task that is activated or released is the newest of its priority, and a
/// preempted one is the oldest of its.
pub trait ReadyQueues: Drop {
    /// The tasks of each level, oldest first.
    ghost queues: { Self → Queues };

    /// How many entries there is room for. It never changes.
    ghost room: { Self → ℕ };

    /// An empty list with room for `count` entries. No other call takes memory.
    fn with_room(alloc: Global, count: usize) -> Result<Self, AllocError>
        ensures empty { IfOk result (λ made. queues made ≡ no_tasks) }
        ensures room { IfOk result (λ made. room made ≡ count) };

    /// Whether there is room for one more entry.
    fn has_room(&self) -> bool
        ensures { IsTrue result ↔ (total (queues self.now) < room self.now) };

    /// The highest level that has a task.
    fn top(&self) -> Option<u8>
        ensures { result ≡ top_level (queues self.now) };

    /// Adds a task behind those of its level.
    fn put_newest(&mut self, level: u8, task: TaskId)
        requires level { level < LEVELS }
        requires room { total (queues self.old) < room self.old }
        ensures tasks { queues self.new ≡ with_newest level task (queues self.old) }
        ensures room { room self.new ≡ room self.old };

    /// Adds a task before those of its level.
    fn put_oldest(&mut self, level: u8, task: TaskId)
        requires level { level < LEVELS }
        requires room { total (queues self.old) < room self.old }
        ensures tasks { queues self.new ≡ with_oldest level task (queues self.old) }
        ensures room { room self.new ≡ room self.old };

    /// Takes the first task of the highest level that has one, the level that `top` tells.
    fn take_first(&mut self) -> Option<TaskId>
        ensures value { result ≡ first_task (queues self.old) }
        ensures tasks { queues self.new ≡ without_first (queues self.old) }
        ensures room { room self.new ≡ room self.old };
}
