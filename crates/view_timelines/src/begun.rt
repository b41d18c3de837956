//! OSEK/VDX OS: task state model. Whether a job that is ready has executed already.

ghost use Rattle.std.specs.Prelude.{◌≡◌};
ghost use Rattle.view_timelines.specs.Moments.{begun_behind};

use osek_base::TaskState;
use seen_ticks::TaskSeen;

/// Whether a task's oldest job has executed since it became ready, behind a tick: `before` says whether it had before the
/// tick.
pub fn begun_behind(before: bool, seen: TaskSeen) -> bool
    ensures { result ≡ begun_behind before seen }
{
    match seen.state {
        TaskState::Running => !seen.ended && !seen.waits,
        TaskState::Ready => before,
        TaskState::Waiting | TaskState::Suspended => false,
    }
}
