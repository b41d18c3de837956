//! Where things stand in a picture, in pixels.

ghost use Rattle.std.specs.Prelude.{◌≤◌};

use crate::timeline::MAX_DRAWN;
use osek_base::{MAX_NAME, MAX_ROUTINES, MAX_TASKS};

/// How many rows there are at most.
const MAX_ROWS: u32 = MAX_TASKS as u32 + MAX_ROUTINES as u32;

/// What stands above the first row.
const TOP: u32 = 48;

const ROW_HEIGHT: u32 = 60;

const AXIS_HEIGHT: u32 = 32;

const LEGEND_HEIGHT: u32 = 140;

const LEGEND_WIDTH: u32 = 960;
/// How far the names of the rows stand apart in a wide picture.
const NAME_STEP: u32 = 800;
/// What stands to the right of the last tick.
const MARGIN: u32 = 32;
/// How wide a letter of a name and a digit of a tick's number are.
const LETTER: u32 = 8;

const DIGIT: u32 = 7;
/// How wide a name is at most.
const LONGEST_NAME: u32 = LETTER * MAX_NAME as u32;
/// How wide a tick is at least and at most, and how wide all ticks shall be.
const NARROWEST: u32 = 2;

const WIDEST: u32 = 24;

const ALL_TICKS: u32 = 2_400;

/// Where things stand in a picture.
#[derive(Clone, Copy)]
pub(crate) struct Layout {
    /// The first tick.
    pub(crate) from: u32,
    /// How many ticks there are.
    pub(crate) ticks: u32,
    /// How wide a tick is.
    pub(crate) cell: u32,
    /// How many rows there are.
    rows: u32,
    /// Where the first tick begins.
    pub(crate) left: u32,
    ghost few_ticks: { ticks ≤ 5000 },
    ghost narrow: { cell ≤ 24 },
    ghost few_rows: { rows ≤ 80 },
    ghost near: { left ≤ 1000 },
}

impl Layout {
    /// The picture of the ticks from `from` on and before `end`, with so many rows, of whose names the longest has so many
    /// bytes.
    pub(crate) fn new(from: u32, end: u32, rows: usize, longest: usize) -> Self {
        let ticks = end.saturating_sub(from).min(MAX_DRAWN);
        let cell = (ALL_TICKS / ticks.max(1)).max(NARROWEST).min(WIDEST);
        let rows = rows.min(MAX_ROWS as usize) as u32;
        let left = MARGIN + LETTER * longest.min(MAX_NAME) as u32;
        Layout {
            from,
            ticks,
            cell,
            rows,
            left: left.max(120),
        }
    }

    /// Where a tick begins.
    pub(crate) fn x(self, tick: u32) -> u32
        ensures { result ≤ 121000 }
    {
        self.left + self.cell * tick.saturating_sub(self.from).min(self.ticks)
    }

    /// The middle of a tick.
    pub(crate) fn middle(self, tick: u32) -> u32
        ensures { result ≤ 121012 }
    {
        self.x(tick) + self.cell / 2
    }

    /// How wide the ticks from `first` to `last` are.
    pub(crate) fn span(self, first: u32, last: u32) -> u32 {
        self.x(last.saturating_add(1)).saturating_sub(self.x(first))
    }

    /// Where the row of a place from 0 on begins.
    pub(crate) fn row(self, place: usize) -> u32
        ensures { result ≤ 5000 }
    {
        TOP + ROW_HEIGHT * place.min(self.rows as usize) as u32
    }

    /// Where the rows end.
    pub(crate) fn bottom(self) -> u32
        ensures { result ≤ 5000 }
    {
        self.row(self.rows as usize)
    }

    /// Where the legend begins.
    pub(crate) fn legend(self) -> u32
        ensures { result ≤ 6000 }
    {
        self.bottom() + AXIS_HEIGHT
    }

    /// At how many places a row's name is repeated to the right of its beginning, with room for a longest name.
    pub(crate) fn repeated_names(self) -> u32
        ensures { result ≤ 150 }
    {
        (self.cell * self.ticks).saturating_sub(LONGEST_NAME) / NAME_STEP
    }

    /// Where a row's name stands for that time, 0 for the first.
    pub(crate) fn repeated_name(self, time: u32) -> u32 {
        self.left
            .saturating_add(NAME_STEP.saturating_mul(time.saturating_add(1)))
    }

    pub(crate) fn width(self) -> u32 {
        (self.left + self.cell * self.ticks + MARGIN).max(LEGEND_WIDTH)
    }

    pub(crate) fn height(self) -> u32 {
        self.legend() + LEGEND_HEIGHT
    }

    /// From tick number to tick number, so that no number runs into the next.
    pub(crate) fn step(self) -> u32 {
        let last = self.from.saturating_add(self.ticks.saturating_sub(1));
        let digits = last.checked_ilog10().unwrap_or(0).min(10) + 1;
        let room = DIGIT * (digits + 1);
        for step in [1, 2, 5, 10, 20, 50, 100, 200, 500] {
            if room <= self.cell * step {
                return step;
            }
        }
        1_000
    }
}
