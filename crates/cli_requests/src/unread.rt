//! Files of a command line that can't be had.

use crate::host_files::{FileFault, Files, Refusal};
use std::alloc::Global;
use std::io::{self, Write};
use thiserror::Error;

/// Why a file of a command line could not be had.
#[derive(Clone, Copy, Debug, Drop, Error)]
pub enum Unread<'a> {
    #[error("file: {0}")]
    File(&'a str, Refusal),
    #[error("memory")]
    Memory,
}

/// Reads a file.
pub fn read_file<'a, F: Files>(
    alloc: Global,
    files: &mut F,
    name: &'a str,
) -> Result<Vec<u8>, Unread<'a>> {
    match files.read(alloc, name) {
        Ok(bytes) => Ok(bytes),
        Err(FileFault::Refused(refusal)) => Err(Unread::File(name, refusal)),
        Err(FileFault::Memory) => Err(Unread::Memory),
    }
}

/// Reads a file that may be missing.
pub fn read_if_there<'a, F: Files>(
    alloc: Global,
    files: &mut F,
    name: &'a str,
) -> Result<Option<Vec<u8>>, Unread<'a>> {
    match files.read(alloc, name) {
        Ok(bytes) => Ok(Some(bytes)),
        Err(FileFault::Refused(Refusal::Missing)) => Ok(None),
        Err(FileFault::Refused(refusal)) => Err(Unread::File(name, refusal)),
        Err(FileFault::Memory) => Err(Unread::Memory),
    }
}

/// What is said of a file that can't be read.
fn refusal_text(refusal: Refusal) -> &'static str {
    match refusal {
        Refusal::Missing => "there is no file of that name",
        Refusal::Folder => "it is a folder",
        Refusal::Failed => "it can't be read",
    }
}

/// Writes why a file could not be had. Want of memory has no explanation.
pub fn explain_unread<W: Write>(unread: Unread<'_>, out: &mut W) -> io::Result<()> {
    match unread {
        Unread::File(name, refusal) => writeln!(out, "{name}: {}", refusal_text(refusal)),
        Unread::Memory => Ok(()),
    }
}
