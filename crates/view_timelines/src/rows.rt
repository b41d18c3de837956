//! A tick more on the rows of a picture.

ghost use Rattle.std.specs.Prelude.{◌≡◌, OnOk};
ghost use Rattle.view_timelines.specs.RowSteps.{AreChanged, begun_kept, routine_met, task_met};

use crate::mark::Sign;
use crate::seen::{routine_shown, task_shown};
use crate::track::Track;
use osek_base::System;
use seen_ticks::Observation;
use std::alloc::AllocError;

fn draw_task(
    track: &mut Track,
    system: &System,
    tick: u32,
    observation: &Observation,
    number: usize,
) -> Result<(), AllocError>
    ensures { OnOk result
        (track.new ≡ task_met system.now observation.now tick number track.old) }
{
    let moment = task_shown(system, observation, number, track.has_begun());
    track.draw(tick, moment)?;
    let made = observation.task(number).made;
    track.mark_if(made > 0, tick, Sign::Activated(made))
}

/// Draws a tick on the row of each task, with the jobs that are made.
pub(crate) fn draw_tasks(
    tracks: &mut [Track],
    system: &System,
    tick: u32,
    observation: &Observation,
) -> Result<(), AllocError>
    ensures { OnOk result
        (AreChanged (task_met system.now observation.now tick) tracks.old tracks.new) }
{
    for (number, track) in tracks.iter_mut().enumerate() {
        draw_task(track, system, tick, observation, number)?;
    }
    Ok(())
}

fn draw_routine(
    track: &mut Track,
    system: &System,
    tick: u32,
    observation: &Observation,
    number: usize,
) -> Result<(), AllocError>
    ensures { OnOk result
        (track.new ≡ routine_met system.now observation.now tick number track.old) }
{
    track.draw(tick, routine_shown(system, observation, number))?;
    let seen = observation.routine(number);
    track.mark_if(seen.arrived > 0, tick, Sign::Arrived(seen.arrived))?;
    track.mark_if(seen.lost > 0, tick, Sign::Lost(seen.lost))
}

/// Draws a tick on the row of each routine, with the interrupts that arrive or are lost.
pub(crate) fn draw_routines(
    tracks: &mut [Track],
    system: &System,
    tick: u32,
    observation: &Observation,
) -> Result<(), AllocError>
    ensures { OnOk result
        (AreChanged (routine_met system.now observation.now tick) tracks.old tracks.new) }
{
    for (number, track) in tracks.iter_mut().enumerate() {
        draw_routine(track, system, tick, observation, number)?;
    }
    Ok(())
}

/// Keeps of each task whether its oldest job has executed since it became ready.
pub(crate) fn keep_begun(tracks: &mut [Track], observation: &Observation)
    ensures { AreChanged (begun_kept observation.now) tracks.old tracks.new }
{
    for (number, track) in tracks.iter_mut().enumerate() {
        track.keep_begun(observation.task(number));
    }
}
