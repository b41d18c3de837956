//! OSEK/VDX OS: task management, task state model. What looks at a system when a tick's instruction
//! is executed.

ghost use Rattle.std.specs.Prelude.{◌≡◌, map, length};
ghost use Rattle.osek_base.specs.Lists.{below};
ghost use Rattle.osek_base.specs.System.{System};
ghost use Rattle.law_kept.specs.Kept.{Kept};
ghost use Rattle.kernel.specs.Processor.{picture, system_of};
ghost use Rattle.seen_ticks.specs.Told.{task_at_in};

use crate::at_instruction::AtInstruction;
use crate::places::give_places;
use crate::processor::Processor;
use arrayvec::ArrayVec;
use osek_base::{MAX_TASKS, TaskId};
use ready_queues::ReadyQueues;
use seen_ticks::TaskAt;

/// What looks at a system behind the first four phases of a tick.
pub(crate) trait Looker {
    /// That it has seen a system with such a picture.
    ghost HasSeen: { Self → System → Kept → Type 0 };

    /// Looks at a system.
    fn look<Q: ReadyQueues>(&mut self, processor: &Processor<'_, Q>)
        ensures { HasSeen self.new (system_of processor.now) (picture processor.now) };
}

/// Nobody looks, which takes no time.
#[derive(Drop)]
pub(crate) struct Unseen;

impl Looker for Unseen {
    ghost HasSeen = { λ _ _ _. Unit {0} };

    #[inline(always)]
    fn look<Q: ReadyQueues>(&mut self, _processor: &Processor<'_, Q>) {}
}

impl Looker for AtInstruction {
    ghost HasSeen = { λ at S o. at.tasks.items ≡ map (task_at_in S o) (below (length S.tasks)) };

    #[inline(always)]
    fn look<Q: ReadyQueues>(&mut self, processor: &Processor<'_, Q>) {
        see_tasks(processor, &mut self.tasks);
    }
}

/// Leaves what each task is.
#[tactic(auto, using(crate::proofs::Filled::one_more, crate::proofs::Filled::all_of))]
#[inline(always)]
fn see_tasks<Q: ReadyQueues>(processor: &Processor<'_, Q>, tasks: &mut ArrayVec<TaskAt, MAX_TASKS>)
    ensures { tasks.new.items
        ≡ map (task_at_in (system_of processor.now) (picture processor.now))
        (below (length (system_of processor.now).tasks)) }
{
    let count = processor.task_count();
    give_places(tasks, count);
    let places = tasks.as_mut_slice();
    for number in 0..count {
        places[number] = processor.task_at(TaskId::new(number as u8));
    }
}
