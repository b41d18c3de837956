//! OSEK/VDX OS: task management. What is counted of a task.

ghost use Rattle.std.specs.Prelude.{List, [], ◌∷◌, ◌≡◌};
ghost use Rattle.view_figures.specs.declared.task_tick.TaskTick.{TaskTick};
ghost use Rattle.view_figures.specs.TaskSums.{jobs_on, more_blockers, task_counts};

use crate::counts::{add_where, added};
use crate::quiet::gets_nothing;
use crate::reached::note_first;
use crate::task_tick::TaskTick;

// The greatest number of blockers, one more of which may be told.
#[inline(always)]
fn raise_blockers(most: &mut Option<u32>, told: Option<u32>)
    ensures { most.new ≡ more_blockers told most.old }
{
    if let Some(told) = told {
        match *most {
            Some(most) if most >= told => {}
            _ => *most = Some(told),
        }
    }
}

/// What is counted of a task: jobs, and what was refused.
#[derive(Clone, Copy, Default)]
pub struct TaskCounts {
    /// How many jobs were made.
    pub activations: u32,
    /// How many activations were refused.
    pub refused: u32,
    /// How many jobs ended.
    pub ended: u32,
    /// How many jobs stood at the last tick's instruction, without one that it ended.
    pub unfinished: u32,
    /// How many services of its jobs were answered other than E_OK.
    pub errors: u32,
    /// The greatest number of blockers of its jobs, if one was told.
    pub blockers: Option<u32>,
    /// The first tick in which an activation was refused.
    pub first_refusal: Option<u32>,
}

impl TaskCounts {
    /// Nothing was seen.
    #[tactic(auto, unfolding(crate::specs::TaskSums::task_counts))]
    pub fn new() -> Self
        ensures { result ≡ task_counts [] }
    {
        TaskCounts {
            activations: 0,
            refused: 0,
            ended: 0,
            unfinished: 0,
            errors: 0,
            blockers: None,
            first_refusal: None,
        }
    }

    // Jobs that are made or ended, and activations that are refused: none in most ticks.
    #[inline(always)]
    fn count_jobs(&mut self, tick: &TaskTick)
        ensures { (before : List TaskTick) → self.old ≡ task_counts before
            → self.new ≡ jobs_on tick.now self.old }
    {
        if gets_nothing(tick.seen) {
            return;
        }
        self.activations = added(self.activations, u32::from(tick.seen.made));
        let refused = tick.seen.refused;
        add_where(&mut self.refused, u32::from(refused), refused > 0);
        note_first(&mut self.first_refusal, refused > 0, tick.tick);
        add_where(&mut self.ended, 1, tick.seen.ended);
    }

    /// A tick more is seen.
    #[inline(always)]
    pub fn observe(&mut self, tick: &TaskTick)
        ensures { (before : List TaskTick) → self.old ≡ task_counts before
            → self.new ≡ task_counts (tick.now ∷ before) }
    {
        self.count_jobs(tick);
        self.unfinished = u32::from(tick.left_jobs());
        add_where(&mut self.errors, 1, tick.has_failed);
        raise_blockers(&mut self.blockers, tick.blockers);
    }
}
