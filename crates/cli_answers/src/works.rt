//! What is made of an OIL file and a work file: the four files of a system, or what is wrong with
//! either.

use crate::making::{refuse_unread, write_files, write_remarks};
use cli_requests::{DONE, Files, MakeLine, NAMES, REFUSED, read_file};
use explain_systems::explain_generation;
use explain_texts::{Source, explain_oil};
use make_work::{WorkAnswer, WorkTexts, make_work};
use oil_reader::read_oil;
use std::alloc::{AllocError, Global};
use std::io::{self, Write};
use tracer::{RunFault, read_system};

/// A line with an OIL file, and both files.
#[derive(Clone, Copy)]
struct MakeTexts<'t> {
    line: MakeLine<'t>,
    oil: Source<'t>,
    work: Source<'t>,
}

/// Writes why an OIL file and its programs are no system, and where.
fn write_fault<E: Write>(
    alloc: Global,
    oil: Source<'_>,
    asm: &[u8],
    fault: &RunFault,
    err: &mut E,
) -> io::Result<()> {
    writeln!(err, "{fault}")?;
    let [_, name, _] = NAMES;
    let asm = Source { name, text: asm };
    match fault {
        RunFault::Oil(fault) => explain_oil(alloc, oil, *fault, err),
        RunFault::Gen(fault) => explain_generation(alloc, oil, asm, fault, err),
        _ => Ok(()),
    }
}

/// Writes the OIL file as it is, and the files beside it, where they are a system. Behind that a
/// line tells of each task and routine that works one tick, and then of the load.
fn write_beside<F: Files, E: Write>(
    alloc: Global,
    texts: MakeTexts<'_>,
    made: &WorkTexts,
    files: &mut F,
    err: &mut E,
) -> Result<u8, AllocError> {
    if let Err(fault) = read_system(alloc, texts.oil.text, &made.asm) {
        let _ = write_fault(alloc, texts.oil, &made.asm, &fault, err);
        return Ok(REFUSED);
    }
    let bytes = [texts.oil.text, made.asm.as_slice(), made.irq.as_slice()];
    let folder = texts.line.folder;
    let status = write_files(alloc, bytes, &made.rules, files, folder, err)?;
    if status == DONE {
        for line in &made.bare {
            let _ = writeln!(err, "{}: {line}", texts.work.name);
        }
        for line in &made.load {
            let _ = writeln!(err, "{line}");
        }
    }
    Ok(status)
}

/// Makes the files of an OIL file and a work file.
fn make_read<F: Files, E: Write>(
    alloc: Global,
    texts: MakeTexts<'_>,
    files: &mut F,
    err: &mut E,
) -> Result<u8, AllocError> {
    let file = match read_oil(alloc, texts.oil.text) {
        Ok(file) => file,
        Err(fault) => {
            let _ = write_fault(alloc, texts.oil, b"", &RunFault::from(fault), err);
            return Ok(REFUSED);
        }
    };
    let Ok(answer) = make_work(alloc, texts.work.text, &file) else {
        return Err(AllocError);
    };
    match answer {
        WorkAnswer::Made(made) => write_beside(alloc, texts, &made, files, err),
        WorkAnswer::Refused(remarks) => {
            let _ = write_remarks(texts.work, remarks.as_slice(), err);
            Ok(REFUSED)
        }
    }
}

/// Makes the files of an OIL file of that name and of a work file's text, and gives the exit
/// status.
pub(crate) fn make_beside<F: Files, E: Write>(
    alloc: Global,
    line: MakeLine<'_>,
    oil: &str,
    work: &[u8],
    files: &mut F,
    err: &mut E,
) -> Result<u8, AllocError> {
    let text = match read_file(alloc, files, oil) {
        Ok(text) => text,
        Err(unread) => return Ok(refuse_unread(unread, err)),
    };
    let texts = MakeTexts {
        line,
        oil: Source {
            name: oil,
            text: &text,
        },
        work: Source {
            name: line.file,
            text: work,
        },
    };
    make_read(alloc, texts, files, err)
}
