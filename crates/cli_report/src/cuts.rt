//! At which priorities a system can be cut.

use crate::pieces::Escaped;
use cli_answers::{Stretch, stretches};
use osek_base::System;
use partition_isolation::check_isolation;
use std::alloc::Global;
use std::io::{self, Write};
use tracer::RunFault;

const MEANING: &str = "<p>Where the cut at a priority is accepted, the tasks from it upward and all
routines run the same, tick by tick, whatever the tasks below it do.</p>
<table>
<thead><tr><th scope=\"col\">priority</th><th scope=\"col\">verdict</th></tr></thead>
<tbody>
";

/// Writes the row of neighbouring priorities with one verdict. An error is a failed write.
fn write_row<O: Write>(system: &System, stretch: Stretch, out: &mut O) -> io::Result<()> {
    write!(out, "<tr><th scope=\"row\">{stretch}</th>")?;
    match check_isolation(system, stretch.first) {
        Ok(()) => out.write_all(b"<td class=\"kept\">accepted")?,
        Err(denial) => {
            out.write_all(b"<td class=\"broken\">denied: ")?;
            let denial = denial.named(system);
            write!(Escaped::new(&mut *out), "{denial}")?;
        }
    }
    out.write_all(b"</td></tr>\n")
}

/// Writes the verdict at each priority from 0 to the greatest of a task.
pub(crate) fn write_cuts<O: Write>(
    alloc: Global,
    system: &System,
    out: &mut O,
) -> Result<(), RunFault> {
    out.write_all(b"<section id=\"cuts\">\n<h2>Cuts</h2>\n")?;
    out.write_all(MEANING.as_bytes())?;
    for stretch in stretches(alloc, system)? {
        write_row(system, stretch, out)?;
    }
    Ok(out.write_all(b"</tbody>\n</table>\n</section>\n")?)
}
