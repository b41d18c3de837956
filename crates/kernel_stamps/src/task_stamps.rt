//! Since which tick each job of a task is ready.

ghost use Rattle.std.specs.Prelude.{◌≡◌, ◌<◌, ◌≤◌, [], ◌∷◌, ◌++◌, Some, length, is_none};
ghost use Rattle.kernel_stamps.specs.Stamps.{stamp_oldest, stamp_of_oldest, spent_oldest, without_oldest};

use arrayvec::ArrayVec;
use osek_base::MAX_ACTIVATION;
use std::marker::Model;

const MOST_LATER: usize = MAX_ACTIVATION as usize - 1;

/// The stamps of a task's jobs, oldest first: of each the first tick whose instruction comes behind
/// the moment at which the job became ready, while it hasn't executed since. That of the oldest job
/// has its own place, so that it is taken without a look at how many jobs there are.
#[derive(Drop)]
pub struct TaskStamps {
    has_job: bool,
    /// None where there is no job, too.
    oldest: Option<u32>,
    later: ArrayVec<Option<u32>, MOST_LATER>,
}

impl Model for TaskStamps {
    ghost use Rattle.std.specs.Prelude.{ℕ, List, Option};
    ghost use Rattle.kernel_stamps.specs.Stamps.{IsTask, listed};

    ghost Value = { List (Option ℕ) };

    ghost view = { λ s. listed s.has_job s.oldest s.later.items };

    ghost invariant = { λ s. IsTask s.has_job s.oldest s.later.items };
}

impl Default for TaskStamps {
    fn default() -> Self {
        TaskStamps::new()
    }
}

impl TaskStamps {
    /// No job.
    pub fn new() -> Self
        ensures { result ≡ [] }
    {
        TaskStamps {
            has_job: false,
            oldest: None,
            later: ArrayVec::new(),
        }
    }

    /// The same stamps once more.
    pub fn copied(&self) -> Self
        ensures { result ≡ self.now }
    {
        let mut copy = TaskStamps::new();
        copy.copy_from(self);
        copy
    }

    /// The stamps become those of another task.
    pub fn copy_from(&mut self, other: &TaskStamps)
        ensures { self.new ≡ other.now }
    {
        self.has_job = other.has_job;
        self.oldest = other.oldest;
        self.later.clear();
        match self.later.try_extend_from_slice(other.later.as_slice()) {
            Ok(()) => {}
            Err(_) => unreachable!(),
        }
    }

    /// A job more, ready from a tick on: it is the newest.
    #[inline(always)]
    pub fn add(&mut self, tick: u32)
        requires { length self.old < MAX_ACTIVATION }
        ensures { self.new ≡ self.old ++ Some tick ∷ [] }
    {
        if self.has_job {
            self.later.push(Some(tick));
        } else {
            self.has_job = true;
            self.oldest = Some(tick);
        }
    }

    /// The oldest job ends, if there is one.
    #[inline(always)]
    pub fn end(&mut self)
        ensures { self.new ≡ without_oldest self.old }
    {
        if self.later.is_empty() {
            self.has_job = false;
            self.oldest = None;
        } else {
            self.end_of_several();
        }
    }

    /// The oldest of several jobs ends.
    #[inline(never)]
    fn end_of_several(&mut self)
        requires { 2 ≤ length self.old }
        ensures { self.new ≡ without_oldest self.old }
    {
        self.oldest = self.later.remove(0);
    }

    /// The oldest job, if there is one, is ready from a tick on, where it has no stamp.
    #[inline(always)]
    pub fn stamp(&mut self, tick: u32)
        ensures { self.new ≡ stamp_oldest tick self.old }
    {
        if self.has_job && self.oldest.is_none() {
            self.oldest = Some(tick);
        }
    }

    /// Whether the oldest job has no stamp any more, or there is no job.
    #[inline(always)]
    pub fn is_spent(&self) -> bool
        ensures { result ≡ is_none (stamp_of_oldest self.now) }
    {
        self.oldest.is_none()
    }

    /// The oldest job executes: its stamp is taken.
    #[inline(always)]
    pub fn take(&mut self) -> Option<u32>
        ensures stamp { result ≡ stamp_of_oldest self.old }
        ensures after { self.new ≡ spent_oldest self.old }
    {
        let stamp = self.oldest;
        self.oldest = None;
        stamp
    }
}
