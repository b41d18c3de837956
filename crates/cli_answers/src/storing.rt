//! Runs that are stored: each in a folder of its own, with all that shows it again.

use crate::inputs::Texts;
use crate::making::write_file;
use cli_requests::{DONE, FileFault, Files, NAMES, Refusal, WRITE_FAILED};
use std::alloc::{AllocError, Global};
use std::io::Write;

/// The name of the file that tells of a run, in its folder.
const TOLD: &str = "run.txt";

/// A run that is to be stored.
#[derive(Drop)]
pub struct StoredRun {
    /// The name of its folder.
    pub folder: String,
    /// The text of its arrivals.
    pub arrivals: String,
    /// What it shows, in lines. The first begins with the number of its ticks and `ticks: `.
    pub told: String,
}

/// Whether a text tells of a run that was stored: it begins with a number and ` ticks: `.
fn is_told(text: &[u8]) -> bool {
    let mut parts = text.splitn(2, |byte| *byte == b' ');
    let Some(number) = parts.next() else {
        return false;
    };
    let Some(rest) = parts.next() else {
        return false;
    };
    !number.is_empty()
        && number.iter().all(|byte| byte.is_ascii_digit())
        && rest.starts_with(b"ticks: ")
}

/// Whether there is a file or a folder of that name, or something that can't be read.
fn is_there<F: Files>(alloc: Global, files: &mut F, path: &str) -> Result<bool, AllocError> {
    match files.read(alloc, path) {
        Ok(_) => Ok(true),
        Err(FileFault::Refused(Refusal::Missing)) => Ok(false),
        Err(FileFault::Refused(_)) => Ok(true),
        Err(FileFault::Memory) => Err(AllocError),
    }
}

/// Whether a folder has a run that was stored.
fn has_run<F: Files>(alloc: Global, files: &mut F, folder: &str) -> Result<bool, AllocError> {
    let path = format!(in alloc; "{folder}/{TOLD}")?;
    match files.read(alloc, path.as_str()) {
        Ok(text) => Ok(is_told(&text)),
        Err(FileFault::Refused(_)) => Ok(false),
        Err(FileFault::Memory) => Err(AllocError),
    }
}

/// The name of the first file of a folder that would be replaced and is no stored run's, if there
/// is one.
fn foreign_file<F: Files>(
    alloc: Global,
    files: &mut F,
    folder: &str,
) -> Result<Option<String>, AllocError> {
    if has_run(alloc, files, folder)? {
        return Ok(None);
    }
    let [oil, asm, irq] = NAMES;
    for name in &[oil, asm, irq, TOLD] {
        let path = format!(in alloc; "{folder}/{name}")?;
        if is_there(alloc, files, path.as_str())? {
            return Ok(Some(path));
        }
    }
    Ok(None)
}

/// Whether a run can be stored in a folder. If it has a file of others that would be replaced, that
/// is told.
pub fn is_free<F: Files, E: Write>(
    alloc: Global,
    files: &mut F,
    folder: &str,
    err: &mut E,
) -> Result<bool, AllocError> {
    match foreign_file(alloc, files, folder)? {
        None => Ok(true),
        Some(path) => {
            let _ = writeln!(
                err,
                "file: {path}: it is there already, and no stored run's"
            );
            Ok(false)
        }
    }
}

/// Stores a run with its system. False where that failed, which is told.
fn store_run<F: Files, E: Write>(
    alloc: Global,
    texts: &Texts,
    run: &StoredRun,
    files: &mut F,
    err: &mut E,
) -> Result<bool, AllocError> {
    let folder = run.folder.as_str();
    if !is_free(alloc, files, folder, err)? {
        return Ok(false);
    }
    let [oil, asm, irq] = NAMES;
    let arrivals = run.arrivals.as_bytes();
    Ok(
        write_file(alloc, files, folder, TOLD, run.told.as_bytes(), err)?
            && write_file(alloc, files, folder, oil, &texts.oil, err)?
            && write_file(alloc, files, folder, asm, &texts.asm, err)?
            && write_file(alloc, files, folder, irq, arrivals, err)?,
    )
}

/// Stores runs with their system, and gives the exit status.
pub fn store_runs<F: Files, E: Write>(
    alloc: Global,
    texts: &Texts,
    runs: &[StoredRun],
    files: &mut F,
    err: &mut E,
) -> Result<u8, AllocError> {
    for run in runs {
        if !store_run(alloc, texts, run, files, err)? {
            return Ok(WRITE_FAILED);
        }
    }
    Ok(DONE)
}
