//! OSEK/VDX OS: resource management, priority inversion. For how many ticks a task's oldest job has
//! been blocked.

ghost use Rattle.std.specs.Prelude.{List, [], ◌∷◌, ◌≡◌, ◌+◌, cond};
ghost use Rattle.view_figures.specs.declared.task_tick.TaskTick.{TaskTick};
ghost use Rattle.view_figures.specs.Counts.{capped};
ghost use Rattle.law_figures.specs.Blocking.{is_blocked_in};
ghost use Rattle.search_witnesses.specs.Blocked.{blocked_ticks};

use law_figures::blocked_is_counted;
use view_figures::TaskTick;

/// For how many ticks a task's oldest job has been blocked, and the most of them in any tick.
#[derive(Clone, Copy)]
pub(crate) struct BlockedTicks {
    so_far: u32,
    most: u32,
}

/// Whether the task is blocked in a tick.
fn is_blocked(tick: &TaskTick) -> bool
    ensures { result ≡ is_blocked_in tick.now }
{
    blocked_is_counted();
    tick.time(false).is_blocked()
}

/// A count, one more where something holds.
fn counted(count: u32, is_one_more: bool) -> u32
    ensures { result ≡ capped (count + cond is_one_more 1 0) }
{
    if is_one_more {
        count.saturating_add(1)
    } else {
        count
    }
}

/// What is left of a count behind a tick, in which the job may leave.
fn left(count: u32, leaves: bool) -> u32
    ensures { result ≡ cond leaves 0 count }
{
    if leaves { 0 } else { count }
}

impl BlockedTicks {
    /// Nothing was seen.
    #[tactic(auto, unfolding(crate::specs::Blocked::blocked_ticks))]
    pub(crate) fn new() -> Self
        ensures { result ≡ blocked_ticks [] }
    {
        BlockedTicks { so_far: 0, most: 0 }
    }

    /// A tick more is seen.
    #[tactic(auto, using(crate::proofs::BlockedLemmas::one_more))]
    pub(crate) fn observe(&mut self, tick: &TaskTick)
        ensures { (before : List TaskTick) → self.old ≡ blocked_ticks before
            → self.new ≡ blocked_ticks (tick.now ∷ before) }
    {
        let blocked = counted(self.so_far, is_blocked(tick));
        self.most = blocked.max(self.most);
        self.so_far = left(blocked, tick.leaves());
    }

    /// The most ticks for which the oldest job was blocked.
    pub(crate) fn most(self) -> u32
        ensures { result ≡ self.most }
    {
        self.most
    }
}
