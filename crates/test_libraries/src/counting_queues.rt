//! That a run goes through the ready queues: queues that count what they are asked for.

use crate::lines::push_run;
use crate::three_tasks::three_tasks;
use kernel::Kernel;
use osek_base::{Arrivals, System, TaskId};
use ready_queues::{ListQueues, ReadyQueues};
use std::alloc::{AllocError, Global};
use std::test::Fail;

/// A list for each level, and how often each change was asked for.
#[derive(Drop)]
struct CountingQueues {
    queues: ListQueues,
    newest: u32,
    oldest: u32,
    taken: u32,
}

impl ReadyQueues for CountingQueues {
    ghost use Rattle.ready_queues.specs.Levels.{tasks_of};

    ghost queues = { λ s. tasks_of s.queues };

    ghost room = { λ s. s.queues.room };

    fn with_room(alloc: Global, count: usize) -> Result<Self, AllocError> {
        Ok(CountingQueues {
            queues: ListQueues::with_room(alloc, count)?,
            newest: 0,
            oldest: 0,
            taken: 0,
        })
    }

    fn has_room(&self) -> bool {
        self.queues.has_room()
    }

    fn top(&self) -> Option<u8> {
        self.queues.top()
    }

    fn put_newest(&mut self, level: u8, task: TaskId) {
        self.newest = self.newest.saturating_add(1);
        self.queues.put_newest(level, task);
    }

    fn put_oldest(&mut self, level: u8, task: TaskId) {
        self.oldest = self.oldest.saturating_add(1);
        self.queues.put_oldest(level, task);
    }

    fn take_first(&mut self) -> Option<TaskId> {
        self.taken = self.taken.saturating_add(1);
        self.queues.take_first()
    }
}

/// The lines of the row `preempted_is_oldest`.
const LINES: &str = "0 pre A
0 A 0 ACT B = 0
1 A 1 ACT C = 0
1 post A
1 pre C
2 C 0 TERM = 0
2 post C
2 pre A
3 A 2 NOP
4 A 3 TERM = 0
4 post A
4 pre B
5 B 0 TERM = 0
5 post B
";

/// Adds the lines of 6 ticks, and answers how often a task was put newest, put oldest and taken.
fn calls_of(alloc: Global, system: &System, text: &mut String) -> Result<[u32; 3], Fail> {
    let arrivals = Arrivals::new(Vec::new(alloc)).ok_or("arrivals")?;
    let mut kernel: Kernel<'_, CountingQueues> = Kernel::boot(alloc, system, "M", arrivals)?;
    push_run(text, system, &mut kernel, 6)?;
    let queues = kernel.machine().queues();
    Ok([queues.newest, queues.oldest, queues.taken])
}

/// A, B and C are activated, C preempts A, and A, C, A and B become the running task.
#[test]
fn a_preemption_goes_through_the_queues(rt: HostRuntime) -> Result<(), Fail> {
    let system = three_tasks(rt.alloc())?;
    let mut text = String::new(rt.alloc());
    let calls = calls_of(rt.alloc(), &system, &mut text)?;
    assert_eq!(rt; text.as_str(), LINES);
    assert_eq!(rt; calls, [3, 1, 4]);
    Ok(())
}
