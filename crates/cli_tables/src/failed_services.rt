//! The services that may be answered other than E_OK, behind the tables of figures.

use crate::failed_service::{behind_tick, put_failure};
use osek_base::System;
use search_witnesses::Findings;
use std::io::{self, Write};
use trace_lines::LineText;

/// Writes a line for each service that may be answered other than E_OK, as a trace writes it but
/// for the tick, behind `<=` where no run is known in which it is, all behind an empty line and a
/// heading; nothing where none may. An error is a failed write.
pub fn write_services<W: Write>(system: &System, found: &Findings, out: &mut W) -> io::Result<()> {
    let failures = found.bounds.peaks.failures();
    if failures.is_empty() {
        return Ok(());
    }
    out.write_all(b"\nservices answered other than E_OK\n")?;
    let mut text = LineText::new();
    for (number, failure) in failures.iter().enumerate() {
        put_failure(system, failure, &mut text);
        let mark = if found.is_failing(number) { "" } else { "<=" };
        writeln!(out, "{mark}{}", behind_tick(&text))?;
    }
    Ok(())
}
