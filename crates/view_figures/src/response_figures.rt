//! OSEK/VDX OS: task management. Responses of a task's jobs.

ghost use Rattle.std.specs.Prelude.{List, [], ◌∷◌, ◌≡◌, ◌<◌, Some, nat_le, length};
ghost use Rattle.view_figures.specs.declared.task_tick.TaskTick.{TaskTick};
ghost use Rattle.view_figures.specs.declared.reached.Reached.{Reached};
ghost use Rattle.view_figures.specs.Reaching.{put};
ghost use Rattle.view_figures.specs.ResponseSums.{
  response_figures,
  response,
  oldest_response,
  standing,
  standing_jobs,
  later,
  entered,
  some_more,
  spread,
  one_more,
};

use crate::reached::Reached;
use crate::spread::Spread;
use crate::task_tick::TaskTick;
use arrayvec::ArrayVec;
use osek_base::{MAX_ACTIVATION, TaskState};
use seen_ticks::TaskSeen;
use std::marker::Model;

/// How many jobs of a task are followed: as many as it may have.
pub const MAX_UNFINISHED: usize = MAX_ACTIVATION as usize;

// The ticks from one to another, both counted.
fn response(since: u32, tick: u32) -> u32
    ensures { result ≡ response since tick }
{
    tick.saturating_sub(since).saturating_add(1)
}

/// The responses of a task's jobs, and since which tick each job is ready that neither ended nor
/// waits, oldest first.
#[derive(Drop)]
pub struct ResponseFigures {
    ready_since: ArrayVec<u32, MAX_UNFINISHED>,
    spread: Spread,
}

impl Model for ResponseFigures {
    ghost use Rattle.view_figures.specs.ResponseSums.{Responses};

    ghost Value = { Responses };

    ghost view = { λ r. record { ready_since = r.ready_since.items; spread = r.spread } };
}

impl ResponseFigures {
    /// Nothing was seen.
    #[tactic(auto, unfolding(crate::specs::ResponseSums::response_figures))]
    pub fn new() -> Self
        ensures { result ≡ response_figures [] }
    {
        ResponseFigures {
            ready_since: ArrayVec::new(),
            spread: Spread::new(),
        }
    }

    /// The responses' count, sum, least and greatest, in ticks.
    pub fn spread(&self) -> Spread
        ensures { result ≡ self.now.spread }
    {
        self.spread
    }

    /// The age in a tick of the oldest job that neither ended nor waits: as its response, if it
    /// ended in that tick.
    pub fn oldest(&self, tick: u32) -> Option<Reached>
        ensures { result ≡ oldest_response tick self.now.ready_since }
    {
        oldest(&self.ready_since, tick)
    }

    /// Whether all jobs that stand in a tick were followed before.
    #[inline(always)]
    pub fn follows(&self, tick: &TaskTick) -> bool
        ensures { result ≡ nat_le (standing tick.now) (length self.now.ready_since) }
    {
        usize::from(tick.standing()) <= self.ready_since.len()
    }

    /// Whether all jobs of a task that stand, by what is seen of it, were followed before.
    #[inline(always)]
    pub(crate) fn has_followed(&self, seen: TaskSeen) -> bool
        ensures { result ≡ nat_le (standing_jobs seen) (length self.now.ready_since) }
    {
        let followed = self.ready_since.len();
        match seen.state {
            TaskState::Waiting => usize::from(seen.jobs.saturating_sub(1)) <= followed,
            _ => usize::from(seen.jobs) <= followed,
        }
    }

    /// A tick more is seen.
    #[inline(always)]
    pub fn observe(&mut self, tick: &TaskTick)
        ensures { (before : List TaskTick) → self.old ≡ response_figures before
            → self.new ≡ response_figures (tick.now ∷ before) }
    {
        enter(&mut self.ready_since, tick);
        if tick.leaves() {
            self.respond(tick.tick);
        }
    }

    // The oldest job ends or waits in a tick.
    #[inline(never)]
    fn respond(&mut self, tick: u32)
        ensures left { self.new.ready_since ≡ later self.old.ready_since }
        ensures response { (before : List Reached) → self.old.spread ≡ spread before
            → self.new.spread ≡ spread (put (oldest_response tick self.old.ready_since) before) }
    {
        let response = leave(&mut self.ready_since, tick);
        self.spread.note(response);
    }
}

// The response of the oldest job, if it ends or waits in a tick.
fn oldest(since: &ArrayVec<u32, MAX_UNFINISHED>, tick: u32) -> Option<Reached>
    ensures { result ≡ oldest_response tick since.now.items }
{
    let first = since.as_slice().first()?;
    Some(Reached {
        ticks: response(*first, tick),
        at: tick,
    })
}

// The oldest job ends or waits in a tick: its response, where there is one.
#[inline(always)]
fn leave(since: &mut ArrayVec<u32, MAX_UNFINISHED>, tick: u32) -> Option<Reached>
    ensures response { result ≡ oldest_response tick since.old.items }
    ensures left { since.new.items ≡ later since.old.items }
{
    if since.len() > 1 {
        return Some(leave_some(since, tick));
    }
    let oldest = since.pop()?;
    Some(Reached {
        ticks: response(oldest, tick),
        at: tick,
    })
}

// The oldest of some jobs ends or waits in a tick: its response.
#[inline(never)]
fn leave_some(since: &mut ArrayVec<u32, MAX_UNFINISHED>, tick: u32) -> Reached
    requires { 0 < length since.old.items }
    ensures response { Some result ≡ oldest_response tick since.old.items }
    ensures left { since.new.items ≡ later since.old.items }
{
    let oldest = since.remove(0);
    Reached {
        ticks: response(oldest, tick),
        at: tick,
    }
}

// The jobs that stand and weren't followed are ready since this tick.
fn enter(since: &mut ArrayVec<u32, MAX_UNFINISHED>, tick: &TaskTick)
    ensures { since.new.items ≡ entered tick.now since.old.items }
{
    let stands = usize::from(tick.standing());
    if stands > since.len() {
        enter_some(since, tick.tick, stands - since.len());
    }
}

// Some jobs are ready since a tick.
#[inline(never)]
fn enter_some(since: &mut ArrayVec<u32, MAX_UNFINISHED>, tick: u32, count: usize)
    ensures { since.new.items ≡ some_more tick count since.old.items }
{
    for _entered in 0..count {
        enter_one(since, tick);
    }
}

// A job is ready since a tick.
fn enter_one(since: &mut ArrayVec<u32, MAX_UNFINISHED>, tick: u32)
    ensures { since.new.items ≡ one_more tick since.old.items }
{
    if !since.is_full() {
        since.push(tick);
    }
}
