//! What is told of a figure.

ghost use Rattle.std.specs.Prelude.{◌≡◌, ◌++◌, OnOk};
ghost use Rattle.std.specs.String.{string_bytes};
ghost use Rattle.cli_tables.specs.Cells.{cell_below};
ghost use Rattle.cli_tables.specs.Texts.{
  number_of,
  number_text,
  reached_or,
  shown_text,
  standing_of,
};

use crate::numbers::{push_number, push_signed, sign_of};
use itoa::Buffer;
use std::alloc::AllocError;
use view_measures::Sort;

/// What is told of a figure.
#[derive(Clone, Copy)]
pub enum Cell {
    /// A time below the cap, in ticks, and whether a run shows it.
    Time { ticks: u32, is_reached: bool },
    /// A time that reaches the cap.
    Above,
    /// A time that some run can make as long as one likes.
    Unbounded,
    /// A number that none exceeds, and whether a run shows it.
    Count { value: u32, is_reached: bool },
    /// Whether something may come, and whether a run shows that it does or doesn't.
    Coming { comes: bool, is_reached: bool },
}

/// The word where a run is known, or else another one.
pub(crate) fn reached_or(is_reached: bool, other: &'static str) -> &'static str
    ensures { result.now ≡ reached_or is_reached other.now }
{
    if is_reached { "reached" } else { other }
}

/// 1 for what may come, and 0 for what doesn't.
fn number_of(comes: bool) -> u32
    ensures { result ≡ number_of comes }
{
    if comes { 1 } else { 0 }
}

impl Cell {
    /// What is told below the cap of a figure whose number is of a sort.
    pub(crate) fn below(sort: Sort, value: u32, is_reached: bool) -> Self
        ensures { result ≡ cell_below sort value is_reached }
    {
        match sort {
            Sort::Time => Cell::Time {
                ticks: value,
                is_reached,
            },
            Sort::Count => Cell::Count { value, is_reached },
            Sort::Coming => Cell::Coming {
                comes: value > 0,
                is_reached,
            },
        }
    }

    /// Whether it is a time or a number that a run shows, or says that something doesn't come.
    pub fn is_plain(self) -> bool {
        matches!(
            self,
            Cell::Time {
                is_reached: true,
                ..
            } | Cell::Count {
                is_reached: true,
                ..
            } | Cell::Coming { comes: false, .. }
        )
    }

    /// What is promised of the figure: `reached` where a run shows it and none shows more, `bound`
    /// where none shows more, `unbounded` where some run shows as much as one likes, or `above`
    /// where nothing is promised.
    pub fn standing(self) -> &'static str
        ensures { result.now ≡ standing_of self }
    {
        match self {
            Cell::Time { is_reached, .. } => reached_or(is_reached, "bound"),
            Cell::Above => "above",
            Cell::Unbounded => "unbounded",
            Cell::Count { is_reached, .. } => reached_or(is_reached, "bound"),
            Cell::Coming { comes, is_reached } => {
                reached_or(is_reached, if comes { "above" } else { "bound" })
            }
        }
    }

    /// Appends the figure as a number, where one is told.
    pub(crate) fn push_number(self, text: &mut String) -> Result<(), AllocError>
        ensures { OnOk result
            (string_bytes text.new ≡ string_bytes text.old ++ number_text self) }
    {
        match self {
            Cell::Time { ticks, .. } => push_number(text, ticks),
            Cell::Above => Ok(()),
            Cell::Unbounded => Ok(()),
            Cell::Count { value, .. } => push_number(text, value),
            Cell::Coming { comes, .. } => push_number(text, number_of(comes)),
        }
    }

    /// The figure as a table prints it, without the spaces before it, in two parts.
    pub(crate) fn shown(self, digits: &mut Buffer) -> (&'static str, &str)
        ensures { result.0.now ++ result.1.now ≡ shown_text self }
    {
        match self {
            Cell::Time { ticks, is_reached } => (sign_of(is_reached), digits.format(ticks)),
            Cell::Above => ("above", ""),
            Cell::Unbounded => ("unbounded", ""),
            Cell::Count { value, is_reached } => (sign_of(is_reached), digits.format(value)),
            Cell::Coming { comes, is_reached } => {
                (sign_of(is_reached), digits.format(number_of(comes)))
            }
        }
    }

    /// Appends the figure as a table prints it. The only error is want of memory.
    pub fn push_shown(self, text: &mut String) -> Result<(), AllocError>
        ensures { OnOk result
            (string_bytes text.new ≡ string_bytes text.old ++ shown_text self) }
    {
        match self {
            Cell::Time { ticks, is_reached } => push_signed(text, is_reached, ticks),
            Cell::Above => text.push_str("above"),
            Cell::Unbounded => text.push_str("unbounded"),
            Cell::Count { value, is_reached } => push_signed(text, is_reached, value),
            Cell::Coming { comes, is_reached } => push_signed(text, is_reached, number_of(comes)),
        }
    }
}
