//! Tables of texts.

use std::alloc::{AllocError, Global};
use std::io::{self, Write};

/// A table: its cells row by row, those of the heading first.
#[derive(Drop)]
pub(crate) struct ListingTable {
    alloc: Global,
    /// How many cells a row has.
    columns: usize,
    cells: Vec<String>,
}

/// Writes a cell, and blanks up to a width and two more behind it.
fn write_cell<W: Write>(cell: &str, width: usize, out: &mut W) -> io::Result<()> {
    out.write_all(cell.as_bytes())?;
    for _missing in cell.len()..width {
        out.write_all(b" ")?;
    }
    out.write_all(b"  ")
}

impl ListingTable {
    /// A table with a heading and no rows.
    pub(crate) fn new(alloc: Global, heading: &[&str]) -> Result<Self, AllocError> {
        let mut table = ListingTable {
            alloc,
            columns: heading.len(),
            cells: Vec::new(alloc),
        };
        for column in heading {
            table.text(*column)?;
        }
        Ok(table)
    }

    /// Adds a text as the next cell, or `-` in place of an empty one.
    pub(crate) fn text(&mut self, text: &str) -> Result<(), AllocError> {
        let text = if text.is_empty() { "-" } else { text };
        self.cells.push(format!(in self.alloc; "{text}")?)?;
        Ok(())
    }

    pub(crate) fn number(&mut self, number: usize) -> Result<(), AllocError> {
        self.cells.push(format!(in self.alloc; "{number}")?)?;
        Ok(())
    }

    pub(crate) fn mask(&mut self, mask: u32) -> Result<(), AllocError> {
        self.cells.push(format!(in self.alloc; "0x{mask:08x}")?)?;
        Ok(())
    }

    /// Adds names as one cell, with commas between them.
    pub(crate) fn names(&mut self, names: Vec<&str>) -> Result<(), AllocError> {
        let mut text = String::new(self.alloc);
        for (number, name) in names.iter().enumerate() {
            if number > 0 {
                text.push(',')?;
            }
            text.push_str(*name)?;
        }
        self.text(text.as_str())
    }

    /// In which column the cell of a number stands.
    fn column_of(&self, number: usize) -> usize {
        number.checked_rem(self.columns).unwrap_or(0)
    }

    /// How many letters the longest cell of a column has.
    fn width(&self, column: usize) -> usize {
        let mut width: usize = 0;
        for (number, cell) in self.cells.iter().enumerate() {
            if self.column_of(number) == column {
                width = width.max(cell.len());
            }
        }
        width
    }

    /// Writes an empty line and the table, where it has rows. Nothing stands behind the last cell
    /// of a row.
    pub(crate) fn write<W: Write>(&self, out: &mut W) -> io::Result<()> {
        if self.cells.len() <= self.columns {
            return Ok(());
        }
        out.write_all(b"\n")?;
        for (number, cell) in self.cells.iter().enumerate() {
            let column = self.column_of(number);
            if column.saturating_add(1) == self.columns {
                writeln!(out, "{cell}")?;
            } else {
                write_cell(cell.as_str(), self.width(column), out)?;
            }
        }
        Ok(())
    }
}
