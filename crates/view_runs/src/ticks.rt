//! The ticks of a run, one after another, as views are handed them.

ghost use Rattle.std.specs.Prelude.{◌≡◌, ◌≤◌, IfNone, IfSome, IsFalse, IsTrue};
ghost use Rattle.view_runs.specs.Seen.{DoesNext, HasNone, PassesSome};

use crate::progress::Progress;
use kernel::Blockers;
use seen_runs::ObservedRun;
use std::io::Write;

/// Does the next tick, where fewer than asked for are done. Answers false, and does nothing, where
/// there is none or the run is over.
#[inline(always)]
pub(crate) fn next_tick<B: Blockers, E: Write>(
    run: &mut ObservedRun<'_, B>,
    ticks: u32,
    progress: &mut Progress<'_, E>,
) -> bool
    ensures next { IsTrue result → DoesNext B.are_counted ticks run.old run.new }
    ensures none { IsFalse result → HasNone ticks run.old run.new }
{
    let done = run.ticks_done();
    progress.note(done, ticks);
    done < ticks && run.advance()
}

/// Does the ticks behind the last one in which the same is seen, before as many as asked for are
/// done. Answers the first of them, where there is one.
#[inline(always)]
pub(crate) fn pass_alike<B: Blockers>(run: &mut ObservedRun<'_, B>, ticks: u32) -> Option<u32>
    requires { run.old.ticks ≤ ticks }
    ensures some { IfSome result (PassesSome B.are_counted ticks run.old run.new) }
    ensures none { IfNone result (run.new ≡ run.old) }
{
    let first = run.ticks_done();
    if run.pass_alike(ticks - first) == 0 {
        return None;
    }
    Some(first)
}
