//! OIL of AUTOSAR: the names of the alarms that stand for the actions of schedule tables.

use crate::long_names::end_within;
use osek_base::MAX_NAME;
use std::alloc::AllocError;
use std::fmt::{self, Display};

/// The name of the alarm of an action: `TABLE_OFFSET`, or of a later one at the same offset
/// `TABLE_OFFSET_NUMBER`.
#[derive(Clone, Copy)]
pub struct ExpiryName<'a> {
    /// The table's name, or as much of its end as there is room for.
    table: &'a str,
    /// In counts from the table's start.
    offset: u32,
    /// Which action at this offset it is, counted from 1.
    number: usize,
}

/// How many digits a number has.
fn digits(number: usize) -> usize {
    let mut count: usize = 1;
    let mut rest = number / 10;
    for _digit in 0..20 {
        if rest > 0 {
            count = count.saturating_add(1);
            rest /= 10;
        }
    }
    count
}

impl<'a> ExpiryName<'a> {
    /// The name of an action of a table. A table's name that is too long for it is taken by its
    /// end; there is none where that is no name.
    pub(crate) fn new(table: &'a str, offset: u32, number: usize) -> Option<Self> {
        let mut behind = digits(offset as usize).saturating_add(1);
        if number > 1 {
            behind = behind.saturating_add(digits(number)).saturating_add(1);
        }
        let table = end_within(table, MAX_NAME.saturating_sub(behind))?;
        Some(ExpiryName {
            table,
            offset,
            number,
        })
    }
}

impl Display for ExpiryName<'_> {
    fn fmt<W: fmt::Write>(&self, f: &mut fmt::Formatter<W>) -> fmt::Result {
        write!(f, "{}_{}", self.table, self.offset)?;
        if self.number > 1 {
            write!(f, "_{}", self.number)?;
        }
        Ok(())
    }
}
