//! The file of a page.

use cli_requests::{DONE, FileFault, Files, WRITE_FAILED};
use std::alloc::{AllocError, Global};
use std::io::Write;

/// The folder of a file, and its name in it.
fn folder_and_name(path: &str) -> (&str, &str) {
    match path.rsplit_once('/') {
        Some((folder, name)) => (folder, name),
        None => (".", path),
    }
}

/// Writes a page to a file, in place of what it had, and gives the exit status. Where that failed,
/// `err` is told.
pub fn store_page<F: Files, E: Write>(
    alloc: Global,
    path: &str,
    page: &[u8],
    files: &mut F,
    err: &mut E,
) -> Result<u8, AllocError> {
    let (folder, name) = folder_and_name(path);
    match files.write(alloc, folder, name, page) {
        Ok(()) => Ok(DONE),
        Err(FileFault::Memory) => Err(AllocError),
        Err(FileFault::Refused(_)) => {
            let _ = writeln!(err, "file: {path}");
            Ok(WRITE_FAILED)
        }
    }
}
