//! What is seen of tasks before and after something, which the stamps of jobs follow. No part of
//! the standards.

ghost use Rattle.std.specs.Prelude.{◌≡◌};
ghost use Rattle.law_blockers.specs.Restamping.{is_task};
ghost use Rattle.kernel.specs.Stamping.{ended_since};

use osek_base::TaskId;

/// How a task stands: how many jobs it has, and whether the oldest of them waits.
#[derive(Clone, Copy)]
pub struct Look {
    pub task: TaskId,
    pub count: u8,
    pub waits: bool,
}

/// How a task stands, where there is one, beside the running task.
#[derive(Clone, Copy)]
pub struct Stand {
    pub named: Option<Look>,
    pub running: Option<TaskId>,
    /// The job of the running task has ended.
    pub gone: bool,
}

/// What was seen of a task, without the job of the running task where that has ended.
#[inline(always)]
pub fn without_ended(before: &Look, running: &Option<TaskId>, has_ended: bool) -> Look
    ensures { result ≡ ended_since before.now running.now has_ended }
{
    Look {
        task: before.task,
        count: if has_ended && is_that(running, before.task) {
            before.count.saturating_sub(1)
        } else {
            before.count
        },
        waits: before.waits,
    }
}

/// Whether a task is that one, where there is one.
#[inline(always)]
pub fn is_that(running: &Option<TaskId>, task: TaskId) -> bool
    ensures { result ≡ is_task task running.now }
{
    match running {
        None => false,
        Some(running) => running.number() == task.number(),
    }
}
