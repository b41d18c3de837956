//! The ticks of a run that are drawn.

ghost use Rattle.std.specs.Prelude.{
  ◌≡◌,
  ◌≤◌,
  ◌<◌,
  ◌+◌,
  ◌-◌,
  ◌++◌,
  ◌∷◌,
  ◌⊎◌,
  [],
  List,
  ℕ,
  length,
  min,
  IfOk,
  IsFalse,
  IsTrue,
  OnOk,
};
ghost use Rattle.osek_base.specs.System.{System};
ghost use Rattle.seen_ticks.specs.declared.observation.Observation.{Observation};
ghost use Rattle.seen_ticks.specs.Seen.{alike_ticks};
ghost use Rattle.view_timelines.specs.Rows.{AreRows};
ghost use Rattle.view_timelines.specs.Marks.{AreMarks, LeaveNothing, Records};
ghost use Rattle.view_timelines.specs.RowSteps.{
  AreChanged,
  AreDrawn,
  ArePassed,
  Drawn,
  IsDrawnPart,
  Passed,
  routine_more,
  task_more,
};

use crate::rows::{draw_routines, draw_tasks, keep_begun};
use crate::signs::{mark_alarms, mark_records};
use crate::track::{Track, bare_tracks};
use osek_base::{Entry, System, TickRecord};
use seen_ticks::Observation;
use std::alloc::{AllocError, Global};
use std::marker::Model;

/// How many ticks a picture has at most.
pub const MAX_DRAWN: u32 = 5_000;

/// The ticks of a run that are drawn: what each task and routine does, and what comes to it.
/// Contracts see which ticks these are, the rows with their marks, and what tasks have begun.
#[derive(Drop)]
pub struct Timeline {
    /// The first tick that is drawn.
    pub(crate) from: u32,
    /// The tick behind the last that is drawn.
    to: u32,
    /// The tick behind the last that was observed and is drawn, at first `from`.
    pub(crate) end: u32,
    pub(crate) routines: Vec<Track>,
    pub(crate) tasks: Vec<Track>,
}

impl Model for Timeline {
    ghost use Rattle.view_timelines.specs.Rows.{Picture};

    ghost Value = { Picture };

    ghost view = { λ t. record {
      from = t.from;
      to = t.to;
      tasks = t.tasks.items;
      routines = t.routines.items;
    } };
}

impl Timeline {
    /// A picture of the ticks from `from` on and before `to`, of [`MAX_DRAWN`] ticks at most:
    /// later ones aren't drawn. An error is want of memory.
    pub fn new(alloc: Global, system: &System, from: u32, to: u32) -> Result<Self, AllocError>
        ensures rows { IfOk result (λ picture. AreRows system.now [] picture) }
        ensures marks { (told : Records)
            → IfOk result (λ picture. AreMarks system.now told [] picture) }
        ensures from { IfOk result (λ picture. picture.from ≡ from) }
        ensures to { IfOk result (λ picture. picture.to ≡ min to (from + 5000)) }
    {
        let routines = bare_tracks(alloc, system.routine_count())?;
        let tasks = bare_tracks(alloc, system.task_count())?;
        Ok(Timeline {
            from,
            to: to.min(from.saturating_add(MAX_DRAWN)),
            end: from,
            routines,
            tasks,
        })
    }

    /// Keeps what is seen of a tick and its records, if it is drawn. Ticks come in order, from the
    /// first of the run on, as what a ready task shows depends on what it did before: where the
    /// rows and marks were those of the ticks before, they are those of one more. An error is want
    /// of memory.
    pub fn observe(
        &mut self,
        system: &System,
        observation: &Observation,
        records: &TickRecord,
    ) -> Result<(), AllocError>
        ensures rows { (seen : List Observation) → length seen ≡ observation.now.tick
            → AreRows system.now seen self.old
            → OnOk result (AreRows system.now (seen ++ observation.now ∷ []) self.new) }
        ensures marks { (told : Records) (seen : List Observation)
            → length seen ≡ observation.now.tick → told observation.now.tick ≡ records.now
            → AreMarks system.now told seen self.old
            → OnOk result (AreMarks system.now told (seen ++ observation.now ∷ []) self.new) }
        ensures from { OnOk result (self.new.from ≡ self.old.from) }
        ensures to { OnOk result (self.new.to ≡ self.old.to) }
    {
        let tick = observation.tick;
        if self.draws(tick) {
            return self.draw(system, tick, observation, records.entries());
        }
        self.pass(observation);
        Ok(())
    }

    /// The same of the ticks from one on and before another, in each of which all but the number
    /// is as in an observation, and whose records leave no mark.
    pub fn observe_alike(
        &mut self,
        system: &System,
        observation: &Observation,
        first: u32,
        end: u32,
    ) -> Result<(), AllocError>
        ensures rows { (seen : List Observation) → length seen ≡ first → first ≤ end
            → AreRows system.now seen self.old
            → OnOk result (AreRows system.now
            (seen ++ alike_ticks observation.now first (end - first)) self.new) }
        ensures marks { (told : Records) (seen : List Observation) → length seen ≡ first
            → first ≤ end → ((t : ℕ) → first ≤ t → t < end → LeaveNothing (told t))
            → AreMarks system.now told seen self.old
            → OnOk result (AreMarks system.now told
            (seen ++ alike_ticks observation.now first (end - first)) self.new) }
        ensures from { OnOk result (self.new.from ≡ self.old.from) }
        ensures to { OnOk result (self.new.to ≡ self.old.to) }
    {
        let (begins, ends) = self.drawn_part(first, end);
        self.pass_alike(observation, first, begins);
        self.draw_alike(system, observation, begins, ends)?;
        self.pass_alike(observation, ends, end);
        Ok(())
    }

    /// Whether a tick is drawn.
    fn draws(&self, tick: u32) -> bool
        ensures drawn { IsTrue result → (self.now.from ≤ tick) × (tick < self.now.to) }
        ensures passed { IsFalse result → (tick < self.now.from) ⊎ (self.now.to ≤ tick) }
    {
        self.from <= tick && tick < self.to
    }

    /// Of the ticks from one on and before another those that are drawn: the first, and the one
    /// behind the last.
    fn drawn_part(&self, first: u32, end: u32) -> (u32, u32)
        ensures { IsDrawnPart self.now first end result.0 result.1 }
    {
        let begins = first.max(self.from).min(end);
        (begins, begins.max(end.min(self.to)))
    }

    /// Keeps what is seen of ticks that aren't drawn. What a tick leaves of what tasks have begun,
    /// another such tick leaves as it is.
    fn pass_alike(&mut self, observation: &Observation, first: u32, end: u32)
        requires { ArePassed self.old first end }
        ensures rows { (S : System) (seen : List Observation) → length seen ≡ first → first ≤ end
            → AreRows S seen self.old
            → AreRows S (seen ++ alike_ticks observation.now first (end - first)) self.new }
        ensures marks { (S : System) (told : Records) (seen : List Observation)
            → length seen ≡ first → first ≤ end → AreMarks S told seen self.old
            → AreMarks S told (seen ++ alike_ticks observation.now first (end - first)) self.new }
        ensures from { self.new.from ≡ self.old.from }
        ensures to { self.new.to ≡ self.old.to }
    {
        if first < end {
            self.pass(observation);
        }
    }

    /// Keeps what is seen of ticks that are drawn, and whose records leave no mark. An error is
    /// want of memory.
    fn draw_alike(
        &mut self,
        system: &System,
        observation: &Observation,
        first: u32,
        end: u32,
    ) -> Result<(), AllocError>
        requires { AreDrawn self.old first end }
        ensures rows { (seen : List Observation) → length seen ≡ first → first ≤ end
            → AreRows system.now seen self.old
            → OnOk result (AreRows system.now
            (seen ++ alike_ticks observation.now first (end - first)) self.new) }
        ensures marks { (told : Records) (seen : List Observation) → length seen ≡ first
            → first ≤ end → ((t : ℕ) → first ≤ t → t < end → LeaveNothing (told t))
            → AreMarks system.now told seen self.old
            → OnOk result (AreMarks system.now told
            (seen ++ alike_ticks observation.now first (end - first)) self.new) }
        ensures from { OnOk result (self.new.from ≡ self.old.from) }
        ensures to { OnOk result (self.new.to ≡ self.old.to) }
    {
        for tick in first..end {
            self.draw(system, tick, observation, &[])?;
        }
        Ok(())
    }

    /// Keeps what is seen of a tick that is drawn, and its records. An error is want of memory.
    fn draw(
        &mut self,
        system: &System,
        tick: u32,
        observation: &Observation,
        records: &[Entry],
    ) -> Result<(), AllocError>
        ensures { OnOk result
            (Drawn system.now observation.now records.now tick self.old self.new) }
    {
        self.end = tick.saturating_add(1);
        draw_all(
            self.tasks.as_mut_slice(),
            self.routines.as_mut_slice(),
            system,
            tick,
            observation,
            records,
        )
    }

    /// Keeps what tasks have begun behind a tick that isn't drawn.
    fn pass(&mut self, observation: &Observation)
        ensures { Passed observation.now self.old self.new }
    {
        keep_begun(self.tasks.as_mut_slice(), observation);
    }
}

/// Draws a tick on all rows, and marks what came in it.
fn draw_all(
    tasks: &mut [Track],
    routines: &mut [Track],
    system: &System,
    tick: u32,
    observation: &Observation,
    records: &[Entry],
) -> Result<(), AllocError>
    ensures tasks { OnOk result (AreChanged
        (task_more system.now observation.now records.now tick) tasks.old tasks.new) }
    ensures routines { OnOk result (AreChanged
        (routine_more system.now observation.now records.now tick) routines.old routines.new) }
{
    draw_tasks(tasks, system, tick, observation)?;
    draw_routines(routines, system, tick, observation)?;
    mark_alarms(system, tick, observation, tasks)?;
    mark_records(tick, records, tasks, routines)?;
    keep_begun(tasks, observation);
    Ok(())
}
