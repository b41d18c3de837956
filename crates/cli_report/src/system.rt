//! What a system consists of.

use crate::pieces::{Escaped, write_list};
use crate::report::Report;
use cli_answers::{Verdict, write_shown};
use std::alloc::Global;
use std::io::Write;
use tracer::RunFault;

/// Writes the listing of the system, and what is surely a mistake in it.
pub(crate) fn write_system<O: Write>(
    alloc: Global,
    report: &Report<'_>,
    out: &mut O,
) -> Result<(), RunFault> {
    out.write_all(b"<section id=\"system\">\n<h2>System</h2>\n<pre>")?;
    let request = report.asked.request;
    let shown = write_shown(alloc, request, report.texts, &mut Escaped::new(&mut *out))?;
    out.write_all(b"</pre>\n")?;
    if let Verdict::Warned(warnings) = &shown {
        write_list(warnings, out)?;
    }
    Ok(out.write_all(b"</section>\n")?)
}
