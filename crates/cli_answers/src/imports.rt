//! The import of OIL files as they are used.

use cli_requests::{
    DONE, Files, ImportLine, REFUSED, Unread, WRITE_FAILED, explain_unread, read_file,
};
use make_work::write_skeleton;
use oil_import::{PlainOil, Source, import};
use oil_reader::read_oil;
use std::alloc::{AllocError, Global};
use std::io::{self, Write};

/// A file that was read.
#[derive(Drop)]
struct NamedText<'a> {
    name: &'a str,
    text: Vec<u8>,
}

fn read_all<'a, F: Files>(
    alloc: Global,
    names: &[&'a str],
    files: &mut F,
) -> Result<Vec<NamedText<'a>>, Unread<'a>> {
    let mut texts = Vec::new(alloc);
    for name in names {
        let text = read_file(alloc, files, *name)?;
        if texts.push(NamedText { name: *name, text }).is_err() {
            return Err(Unread::Memory);
        }
    }
    Ok(texts)
}

fn sources<'t>(alloc: Global, texts: &'t [NamedText<'_>]) -> Result<Vec<Source<'t>>, AllocError> {
    let mut sources = Vec::new(alloc);
    for text in texts {
        sources.push(Source {
            name: text.name,
            text: &text.text,
        })?;
    }
    Ok(sources)
}

/// What is written of plain OIL: it as it is, or a work file for it. Plain OIL is read, so an error
/// is want of memory.
fn written(
    alloc: Global,
    import: &PlainOil<'_>,
    text: &str,
    is_work: bool,
) -> Result<Vec<u8>, AllocError> {
    let mut bytes = Vec::new(alloc);
    let done = if is_work {
        match read_oil(alloc, text.as_bytes()) {
            Ok(file) => write_skeleton(&file, &import.budgets, &mut bytes),
            Err(_) => return Err(AllocError),
        }
    } else {
        bytes.write_all(text.as_bytes())
    };
    match done {
        Ok(()) => Ok(bytes),
        Err(_) => Err(AllocError),
    }
}

/// Writes what files become, and what is told of it, and gives the exit status.
fn write_import<O: Write, E: Write>(
    alloc: Global,
    import: &PlainOil<'_>,
    sources: &[Source<'_>],
    is_work: bool,
    out: &mut O,
    err: &mut E,
) -> Result<u8, AllocError> {
    let status = match &import.text {
        None => REFUSED,
        Some(text) => {
            let bytes = written(alloc, import, text.as_str(), is_work)?;
            if out.write_all(&bytes).is_err() || out.flush().is_err() {
                let _ = writeln!(err, "write");
                return Ok(WRITE_FAILED);
            }
            DONE
        }
    };
    let _ = import.messages.write(sources, err);
    Ok(status)
}

fn import_texts<O: Write, E: Write>(
    alloc: Global,
    texts: &[NamedText<'_>],
    line: &ImportLine<'_>,
    out: &mut O,
    err: &mut E,
) -> Result<u8, AllocError> {
    let sources = sources(alloc, texts)?;
    let plain = import(alloc, &sources, line.is_bending)?;
    write_import(alloc, &plain, &sources, line.is_work, out, err)
}

/// Imports the files of a line, and gives the exit status.
pub fn answer_import<F: Files, O: Write, E: Write>(
    alloc: Global,
    line: &ImportLine<'_>,
    files: &mut F,
    out: &mut O,
    err: &mut E,
) -> u8 {
    match read_all(alloc, &line.names, files) {
        Err(unread) => {
            let _ = writeln!(err, "{unread}");
            let _ = explain_unread(unread, err);
            REFUSED
        }
        Ok(texts) => match import_texts(alloc, &texts, line, out, err) {
            Ok(status) => status,
            Err(_) => {
                let _ = writeln!(err, "memory");
                REFUSED
            }
        },
    }
}
