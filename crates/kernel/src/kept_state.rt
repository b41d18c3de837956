//! OSEK/VDX OS: task management; resource management. What a kernel keeps of the state to which its
//! run has come: the words of windows, and the tasks that are ready.

ghost use Rattle.std.specs.Prelude.{◌≡◌, ◌<◌, slice_index};
ghost use Rattle.osek_base.specs.State.{shared_window};
ghost use Rattle.ready_queues.specs.LevelLists.{by_level, level_lists};
ghost use Rattle.law_kept.specs.Kept.{kept};
ghost use Rattle.kernel.specs.Machine.{IsSharedWord};
ghost use Rattle.kernel.specs.Progress.{run_of};

use crate::blockers::Blockers;
use crate::kernel::Kernel;
use osek_base::{Owner, ResourceNumber, WINDOW_WORDS};
use ready_queues::ReadyQueues;

impl<'s, Q: ReadyQueues, B: Blockers> Kernel<'s, Q, B> {
    /// The word of a task's or routine's window. An index is below [`WINDOW_WORDS`].
    pub fn word(&self, owner: Owner, index: u32) -> u32
        requires { index < WINDOW_WORDS }
        ensures { result ≡ (run_of self.now).state.words owner index }
    {
        self.machine.word(owner, index)
    }

    /// The word of a standard resource's window.
    pub fn shared_word(&self, resource: ResourceNumber, index: u32) -> u32
        requires { IsSharedWord self.now.system resource index }
        ensures { result
            ≡ slice_index (shared_window (run_of self.now).state.shared resource) index }
    {
        self.machine.shared_word(resource, index)
    }

    /// The ready queues: for each level the tasks that are ready and don't run, oldest first.
    pub fn queues(&self) -> &Q
        ensures { by_level (level_lists (Q.queues result.now))
            ≡ (kept self.now.system (run_of self.now).state).queues }
    {
        self.machine.queues()
    }
}
