//! The program `osek`: runs a system that an OIL file and programs describe, and prints its
//! trace, or answers another command line. `main` hands the line, the files and the streams to
//! `cli`.
#![tactic(auto)]

use cli::{HostFiles, REFUSED, REFUSED_LINE, command};
use std::env;
use std::io::{self, BufWriter, ErrorKind, IsTerminal, Write};
use std::process::ExitCode;

/// The words of the command line.
fn words(rt: &HostRuntime) -> io::Result<Vec<String>> {
    let words = env::args(rt)?.collect(rt.alloc())?;
    Ok(words)
}

/// Answers the command line over the real files and streams. Output is buffered.
fn answer(rt: &HostRuntime, err: &mut (impl Write + IsTerminal)) -> io::Result<u8> {
    let words = words(rt)?;
    let mut out = BufWriter::new(rt.alloc(), rt.stdout())?;
    let mut files = HostFiles::new(rt);
    // Progress would stand between the lines of a trace on one terminal.
    let shows_progress = err.is_terminal() && !rt.stdout().is_terminal();
    let status = command(
        rt.alloc(),
        words.as_slice(),
        &mut files,
        &mut out,
        err,
        shows_progress,
    );
    // What a failed write left is not tried again.
    let (_stdout, _unwritten) = out.into_parts();
    Ok(status)
}

fn main(rt: HostRuntime) -> ExitCode {
    let mut err = rt.stderr();
    let status = match answer(&rt, &mut err) {
        Ok(status) => status,
        Err(error) if error.kind() == ErrorKind::OutOfMemory => {
            let _ = writeln!(err, "memory");
            REFUSED
        }
        Err(_) => {
            let _ = writeln!(err, "error: a word of the command line is not UTF-8");
            REFUSED_LINE
        }
    };
    ExitCode::from(status)
}
