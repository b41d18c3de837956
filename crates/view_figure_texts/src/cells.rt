//! The figures of a line, and their texts.

ghost use Rattle.std.specs.Prelude.{◌≡◌, Some};
ghost use Rattle.view_figure_texts.specs.Rounding.{rounded};
ghost use Rattle.view_figure_texts.specs.Csv.{cell_text};
ghost use Rattle.view_figure_texts.specs.Sections.{quotient as share};

use std::fmt;
use std::io::{self, Write};

/// One figure of a line.
#[derive(Clone, Copy)]
pub enum Cell {
    /// A count, or a number of ticks.
    Count(u32),
    /// A number of tenths.
    Tenths(u64),
    /// No figure, as there is nothing to take it of.
    Nothing,
}

/// A quotient in tenths, rounded half up; None of nothing.
pub fn rounded(part: u64, whole: u32) -> Option<u64>
    ensures { result ≡ rounded part whole }
{
    if whole == 0 {
        return None;
    }
    let whole = u64::from(whole);
    Some(part.saturating_mul(20).saturating_add(whole) / (2 * whole))
}

/// That quotient as a figure.
pub fn quotient(part: u64, whole: u32) -> Cell
    ensures { result ≡ share part whole }
{
    match rounded(part, whole) {
        Some(tenths) => Cell::Tenths(tenths),
        None => Cell::Nothing,
    }
}

impl Cell {
    /// Writes the figure behind a space, at the right of 11 columns. An error is a failed write.
    pub fn write_aligned<W: Write>(self, out: &mut W) -> io::Result<()> {
        match self {
            Cell::Count(count) => write!(out, " {count:>11}"),
            Cell::Tenths(tenths) => write!(out, " {:>9}.{}", tenths / 10, tenths % 10),
            Cell::Nothing => write!(out, "           -"),
        }
    }
}

/// The figure, where there is one.
impl fmt::Display for Cell {
    ghost output = { λ c. Some (cell_text c) };

    fn fmt<W: fmt::Write>(&self, f: &mut fmt::Formatter<W>) -> fmt::Result {
        match self {
            Cell::Count(count) => write!(f, "{count}"),
            Cell::Tenths(tenths) => write!(f, "{}.{}", tenths / 10, tenths % 10),
            Cell::Nothing => Ok(()),
        }
    }
}
