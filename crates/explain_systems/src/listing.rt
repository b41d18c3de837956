//! The listing of a system.

use crate::class::write_class;
use crate::events::event_table;
use crate::objects::{alarm_table, counter_table, resource_table, routine_table};
use crate::table::ListingTable;
use crate::tasks::task_table;
use oil_reader::SyntaxTree;
use osek_base::{Class, System};
use std::alloc::{AllocError, Global};
use std::io::{self, Write};

/// Writes a table for which memory sufficed.
fn write_table<W: Write>(table: Result<ListingTable, AllocError>, out: &mut W) -> io::Result<()> {
    table?.write(out)
}

/// Writes the class of a system and a table for each kind of objects that it has. An error is want
/// of memory or a failed write.
pub(crate) fn write_listing<W: Write>(
    alloc: Global,
    system: &System,
    class: Class,
    tree: &SyntaxTree<'_>,
    out: &mut W,
) -> io::Result<()> {
    write_class(system, class, out)?;
    write_table(task_table(alloc, system, tree), out)?;
    write_table(routine_table(alloc, tree), out)?;
    write_table(resource_table(alloc, system, tree), out)?;
    write_table(event_table(alloc, system, tree), out)?;
    write_table(counter_table(alloc, tree), out)?;
    write_table(alarm_table(alloc, tree), out)
}
