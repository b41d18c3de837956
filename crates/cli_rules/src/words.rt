//! The words of a line.

use std::alloc::{AllocError, Global};

/// A word of a text.
#[derive(Clone, Copy)]
pub(crate) struct Word<'t> {
    /// Where it begins, in bytes from the beginning of the text.
    pub place: usize,
    /// Empty where it isn't UTF-8.
    pub text: &'t str,
}

impl Word<'_> {
    /// The place behind it.
    pub(crate) fn end(&self) -> usize {
        self.place.saturating_add(self.text.len())
    }
}

fn is_blank(byte: u8) -> bool {
    matches!(byte, b' ' | b'\t' | b'\r')
}

/// What of a line stands before a comment.
fn without_comment(line: &[u8]) -> &[u8] {
    line.splitn(2, |byte| *byte == b'#').next().unwrap_or(line)
}

/// The words of a line that begins at a place.
pub(crate) fn words_of<'t>(
    alloc: Global,
    line: &'t [u8],
    start: usize,
) -> Result<Vec<Word<'t>>, AllocError> {
    let mut words = Vec::new(alloc);
    let mut place = start;
    for run in without_comment(line).split(|byte| is_blank(*byte)) {
        if !run.is_empty() {
            let text = std::str::from_utf8(run).unwrap_or("");
            words.push(Word { place, text })?;
        }
        place = place.saturating_add(run.len()).saturating_add(1);
    }
    Ok(words)
}
