//! What is made of a description: the four files of a system, or the places of all that is wrong.

use crate::works::make_beside;
use cli_requests::{
    DONE, FileFault, Files, MakeLine, NAMES, REFUSED, Unread, WRITE_FAILED, explain_unread,
    read_file,
};
use explain_texts::{Piece, Source};
use make_systems::{Answer, Made, Remark, make};
use std::alloc::{AllocError, Global};
use std::io::{self, Write};
use tracer::read_system;

/// Writes how many things are wrong with a description, and each at its place.
pub(crate) fn write_remarks<E: Write>(
    source: Source<'_>,
    remarks: &[Remark],
    err: &mut E,
) -> io::Result<()> {
    let word = if remarks.len() == 1 {
        "fault"
    } else {
        "faults"
    };
    writeln!(err, "toml: {} {word}", remarks.len())?;
    for remark in remarks {
        source.tell(remark.place, &[Piece::Text(remark.text.as_str())], err)?;
    }
    Ok(())
}

/// Writes a file into a folder. False where that failed, which is told.
pub(crate) fn write_file<F: Files, E: Write>(
    alloc: Global,
    files: &mut F,
    folder: &str,
    name: &str,
    bytes: &[u8],
    err: &mut E,
) -> Result<bool, AllocError> {
    match files.write(alloc, folder, name, bytes) {
        Ok(()) => Ok(true),
        Err(FileFault::Memory) => Err(AllocError),
        Err(FileFault::Refused(_)) => {
            let _ = writeln!(err, "file: {folder}/{name}");
            Ok(false)
        }
    }
}

/// The name of the file of rules in a folder.
const RULES: &str = "rules.txt";

/// Writes the files of a system, in the order of their names, and its rules into a folder, and gives
/// the exit status.
pub(crate) fn write_files<F: Files, E: Write>(
    alloc: Global,
    texts: [&[u8]; 3],
    rules: &[u8],
    files: &mut F,
    folder: &str,
    err: &mut E,
) -> Result<u8, AllocError> {
    for (name, bytes) in NAMES.iter().zip(texts.iter()) {
        if !write_file(alloc, files, folder, name, bytes, err)? {
            return Ok(WRITE_FAILED);
        }
    }
    if !write_file(alloc, files, folder, RULES, rules, err)? {
        return Ok(WRITE_FAILED);
    }
    Ok(DONE)
}

/// Writes the files of a system, where the program's own reader takes them, and tells the load.
fn write_made<F: Files, E: Write>(
    alloc: Global,
    made: &Made,
    files: &mut F,
    folder: &str,
    err: &mut E,
) -> Result<u8, AllocError> {
    if let Err(fault) = read_system(alloc, &made.oil, &made.asm) {
        let _ = writeln!(err, "{fault}");
        return Ok(REFUSED);
    }
    let texts = [
        made.oil.as_slice(),
        made.asm.as_slice(),
        made.irq.as_slice(),
    ];
    let status = write_files(alloc, texts, &made.rules, files, folder, err)?;
    if status == DONE {
        for line in &made.load {
            let _ = writeln!(err, "{line}");
        }
    }
    Ok(status)
}

/// Makes the files of the description that a text is.
fn make_text<F: Files, E: Write>(
    alloc: Global,
    line: MakeLine<'_>,
    text: &[u8],
    files: &mut F,
    err: &mut E,
) -> Result<u8, AllocError> {
    let Ok(answer) = make(alloc, text) else {
        return Err(AllocError);
    };
    match answer {
        Answer::Made(made) => write_made(alloc, &made, files, line.folder, err),
        Answer::Refused(remarks) => {
            let source = Source {
                name: line.file,
                text,
            };
            let _ = write_remarks(source, remarks.as_slice(), err);
            Ok(REFUSED)
        }
    }
}

/// Tells why a file can't be had, and gives the exit status.
pub(crate) fn refuse_unread<E: Write>(unread: Unread<'_>, err: &mut E) -> u8 {
    let _ = writeln!(err, "{unread}");
    let _ = explain_unread(unread, err);
    REFUSED
}

/// Makes the files of a description, or of an OIL file and its work file, and gives the exit
/// status. Where anything is wrong, no file is written.
pub fn make_files<F: Files, E: Write>(
    alloc: Global,
    line: MakeLine<'_>,
    files: &mut F,
    err: &mut E,
) -> u8 {
    let made = match read_file(alloc, files, line.file) {
        Ok(text) => match line.oil {
            Some(oil) => make_beside(alloc, line, oil, &text, files, err),
            None => make_text(alloc, line, &text, files, err),
        },
        Err(unread) => return refuse_unread(unread, err),
    };
    match made {
        Ok(status) => status,
        Err(AllocError) => {
            let _ = writeln!(err, "memory");
            REFUSED
        }
    }
}
