//! A picture of a run as SVG.

use crate::chosen_rows::drawn_count;
use crate::drawn_marks::write_marks;
use crate::drawn_row::DrawnRow;
use crate::frame::{write_head, write_heading, write_legend, write_ticks};
use crate::kind::RowKind;
use crate::layout::Layout;
use crate::timeline::Timeline;
use crate::track::Track;
use osek_base::{Name, Routine, System};
use std::io::{self, Write};

/// How many bytes the longest of some names has, 0 without names.
fn longest(names: &[Name]) -> usize {
    let mut longest = 0;
    for name in names {
        longest = name.as_str().len().max(longest);
    }
    longest
}

/// Whether a routine of a PRIORITY and a number stands above one of another PRIORITY and another number.
fn stands_above(priority: u8, number: usize, other_priority: u8, other: usize) -> bool {
    other_priority < priority || (other_priority == priority && number < other)
}

/// How many routines that are drawn stand above that of a number: those of higher PRIORITY, and of equal PRIORITY those before
/// it.
pub(crate) fn place_of_routine(
    tracks: &[Track],
    routines: &[Routine],
    number: usize,
    priority: u8,
) -> usize {
    let mut place = 0_usize;
    for (other, (track, routine)) in tracks.iter().zip(routines).enumerate() {
        if track.is_drawn && stands_above(routine.priority, other, priority, number) {
            place = place.saturating_add(1);
        }
    }
    place
}

fn write_track<W: Write>(
    system: &System,
    row: DrawnRow<'_>,
    track: &Track,
    layout: Layout,
    out: &mut W,
) -> io::Result<()> {
    row.write(system, track, layout, out)?;
    write_marks(system, track.marks.as_slice(), layout, out)
}

fn write_routines<W: Write>(
    system: &System,
    tracks: &[Track],
    layout: Layout,
    out: &mut W,
) -> io::Result<()> {
    let routines = system.parts().routines.as_slice();
    let names = system.names().routines.as_slice();
    for (number, ((track, routine), name)) in tracks.iter().zip(routines).zip(names).enumerate() {
        if !track.is_drawn {
            continue;
        }
        let row = DrawnRow {
            kind: RowKind::Routine,
            name: name.as_str(),
            priority: routine.priority,
            place: place_of_routine(tracks, routines, number, routine.priority),
        };
        write_track(system, row, track, layout, out)?;
    }
    Ok(())
}

/// Writes the tasks, which stand below so many rows.
fn write_tasks<W: Write>(
    system: &System,
    tracks: &[Track],
    above: usize,
    layout: Layout,
    out: &mut W,
) -> io::Result<()> {
    let tasks = system.parts().tasks.as_slice();
    let names = system.names().tasks.as_slice();
    let mut place = above;
    for ((track, task), name) in tracks.iter().zip(tasks).zip(names) {
        if !track.is_drawn {
            continue;
        }
        let row = DrawnRow {
            kind: RowKind::Task,
            name: name.as_str(),
            priority: task.priority,
            place,
        };
        write_track(system, row, track, layout, out)?;
        place = place.saturating_add(1);
    }
    Ok(())
}

impl Timeline {
    fn layout(&self, system: &System) -> Layout {
        let names = system.names();
        let longest = longest(names.tasks.as_slice()).max(longest(names.routines.as_slice()));
        let routines = drawn_count(self.routines.as_slice());
        let rows = drawn_count(self.tasks.as_slice()).saturating_add(routines);
        Layout::new(self.from, self.end, rows, longest)
    }

    /// Writes the picture: an SVG document of its own, without scripts and without references to others. A row for each
    /// routine and then each task that was chosen, by falling priority. An error is a failed write.
    pub fn write<W: Write>(&self, system: &System, out: &mut W) -> io::Result<()> {
        let layout = self.layout(system);
        write_head(layout, out)?;
        write_heading(layout, out)?;
        write_ticks(layout, out)?;
        write_routines(system, self.routines.as_slice(), layout, out)?;
        let above = drawn_count(self.routines.as_slice());
        write_tasks(system, self.tasks.as_slice(), above, layout, out)?;
        write_legend(layout, out)
    }
}
