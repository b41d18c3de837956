//! Both kinds of ready list by the calls of their trait.

use osek_base::{MAX_TASKS, TaskId};
use ready_queues::{LEVELS, LevelQueues, ListQueues, ReadyQueues};
use std::test::Fail;

/// A call, by the numbers of levels and tasks: what is taken has to be that task.
enum Call {
    Newest(u8, u8),
    Oldest(u8, u8),
    Take(u8),
}

/// Two tasks that are put oldest at one level come out the later first, before those that stood
/// there, and these in their order. A higher level comes before all.
const TWO_OLDEST: [Call; 13] = [
    Call::Newest(3, 1),
    Call::Newest(3, 2),
    Call::Oldest(3, 4),
    Call::Oldest(3, 5),
    Call::Newest(63, 7),
    Call::Take(7),
    Call::Take(5),
    Call::Newest(3, 8),
    Call::Oldest(3, 6),
    Call::Take(6),
    Call::Take(4),
    Call::Take(1),
    Call::Take(2),
];

/// Makes a call. Whether it could be made, and took the task that is wanted.
fn meets<Q: ReadyQueues>(queues: &mut Q, call: &Call) -> bool {
    match call {
        Call::Newest(level, task) => {
            if !queues.has_room() || *level >= LEVELS || *task as usize >= MAX_TASKS {
                return false;
            }
            queues.put_newest(*level, TaskId::new(*task));
            true
        }
        Call::Oldest(level, task) => {
            if !queues.has_room() || *level >= LEVELS || *task as usize >= MAX_TASKS {
                return false;
            }
            queues.put_oldest(*level, TaskId::new(*task));
            true
        }
        Call::Take(task) => match queues.take_first() {
            None => false,
            Some(first) => first.number() == *task,
        },
    }
}

/// Whether queues with room for five entries meet the table, which leaves one task, 8.
fn meets_all<Q: ReadyQueues>(queues: &mut Q) -> bool {
    for call in &TWO_OLDEST {
        if !meets(queues, call) {
            return false;
        }
    }
    meets(queues, &Call::Take(8)) && queues.top().is_none()
}

#[test]
fn two_tasks_put_oldest_are_taken_in_order(rt: HostRuntime) -> Result<(), Fail> {
    let mut lists = ListQueues::with_room(rt.alloc(), 5)?;
    assert!(rt; meets_all(&mut lists));
    let mut levels = LevelQueues::with_room(rt.alloc(), 5)?;
    assert!(rt; meets_all(&mut levels));
    Ok(())
}
