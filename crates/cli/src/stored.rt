//! What files get of an answer.

use cli_answers::{StoredRun, Texts, store_runs};
use cli_report::store_page;
use cli_requests::{DONE, Files, Request};
use std::alloc::{AllocError, Global};
use std::io::Write;

/// What files get, and not the streams.
#[derive(Drop)]
pub(crate) struct Stored {
    pub(crate) runs: Vec<StoredRun>,
    /// The page that is wanted; empty where there is none.
    pub(crate) page: Vec<u8>,
}

impl Stored {
    /// Nothing.
    pub(crate) fn new(alloc: Global) -> Self {
        Stored {
            runs: Vec::new(alloc),
            page: Vec::new(alloc),
        }
    }
}

/// Writes the files, and gives the exit status.
pub(crate) fn store<F: Files, E: Write>(
    alloc: Global,
    request: &Request<'_>,
    texts: &Texts,
    stored: &Stored,
    files: &mut F,
    err: &mut E,
) -> Result<u8, AllocError> {
    let Some(asked) = request.question.page() else {
        return store_runs(alloc, texts, &stored.runs, files, err);
    };
    match asked.output {
        Some(path) if !stored.page.is_empty() => {
            store_page(alloc, path, &stored.page, files, err)
        }
        _ => Ok(DONE),
    }
}
