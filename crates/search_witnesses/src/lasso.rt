//! Whether a run comes twice to one state while a job of a task stands, tried by walking it.

ghost use Rattle.std.specs.Prelude.{◌≡◌, IfOk, IsTrue};
ghost use Rattle.law_bounds.specs.Unending.{StandsBetween};
ghost use Rattle.kernel.specs.Progress.{AreKnown};
ghost use Rattle.search_needs.specs.Table.{need_of};
ghost use Rattle.search_witnesses.specs.Walks.{ComesTwice};

use crate::walk::Walk;
use osek_base::{Arrivals, ModeId, System};
use search_needs::Needs;
use std::alloc::{AllocError, Global};

/// Does ticks up to one. At true the walk stands before it.
fn go_to(walk: &mut Walk<'_, '_>, tick: u32) -> bool
    ensures { IsTrue result → walk.new ≡ record walk.old { ticks = tick } }
{
    while walk.ticks() < tick {
        if !walk.advance() {
            return false;
        }
    }
    walk.ticks() == tick
}

/// Does ticks up to one. At true the walk stands before it, and a job of a task stood in each tick
/// on the way, and stayed.
fn stand_to(walk: &mut Walk<'_, '_>, tick: u32, task: usize) -> bool
    ensures run { IsTrue result → walk.new ≡ record walk.old { ticks = tick } }
    ensures stands { IsTrue result → StandsBetween walk.old.system walk.old.mode
        walk.old.arrivals walk.old.ticks tick task }
{
    while walk.ticks() < tick {
        if !walk.advance() {
            return false;
        }
        if !walk.stood(task) {
            return false;
        }
    }
    walk.ticks() == tick
}

/// Whether bytes are the same.
fn are_equal(one: &[u8], other: &[u8]) -> bool
    ensures { IsTrue result → one.now ≡ other.now }
{
    one == other
}

/// Whether a run comes to one state before two ticks, and a job of a task stands in each between;
/// at true it does. An error is want of memory.
pub(crate) fn comes_twice(
    alloc: Global,
    system: &System,
    mode: ModeId,
    needs: &Needs,
    arrivals: &Arrivals,
    from: u32,
    until: u32,
    task: usize,
) -> Result<bool, AllocError>
    requires { AreKnown system.now arrivals.now }
    ensures { IfOk result (λ twice. IsTrue twice → ComesTwice system.now mode (need_of needs.now)
        arrivals.now from until task) }
{
    let mut walk = Walk::begin(alloc, system, mode, arrivals)?;
    if !go_to(&mut walk, from) {
        return Ok(false);
    }
    let first = walk.key(alloc, needs)?;
    if !stand_to(&mut walk, until, task) {
        return Ok(false);
    }
    let second = walk.key(alloc, needs)?;
    Ok(are_equal(&first, &second))
}
