//! Arrival lists as people write them, and as they are read.

use arrival_reader::IrqFault;
use std::alloc::{AllocError, Global};

fn is_blank(byte: u8) -> bool {
    matches!(byte, b' ' | b'\t' | b'\r')
}

/// What of a line stands before a comment.
fn without_comment(line: &[u8]) -> &[u8] {
    line.splitn(2, |byte| *byte == b'#').next().unwrap_or(line)
}

/// Whether a line says nothing.
fn is_empty(line: &[u8]) -> bool {
    without_comment(line).iter().all(|byte| is_blank(*byte))
}

/// Appends the words of a line, with one space between them.
fn push_words(line: &[u8], plain: &mut Vec<u8>) -> Result<(), AllocError> {
    let mut is_first = true;
    for word in without_comment(line).split(|byte| is_blank(*byte)) {
        if !word.is_empty() {
            if !is_first {
                plain.push(b' ')?;
            }
            plain.extend_from_slice(word)?;
            is_first = false;
        }
    }
    Ok(())
}

/// An arrival list without its comments, without lines that say nothing, and with one space between
/// words. One that has none of these, nor tabs, CR and other spaces, stays as it is.
pub(crate) fn plain_arrivals(alloc: Global, text: &[u8]) -> Result<Vec<u8>, AllocError> {
    let mut plain = Vec::new(alloc);
    for line in text.split(|byte| *byte == b'\n') {
        if !is_empty(line) {
            if !plain.is_empty() {
                plain.push(b'\n')?;
            }
            push_words(line, &mut plain)?;
        }
    }
    if text.ends_with(b"\n") && !plain.is_empty() {
        plain.push(b'\n')?;
    }
    Ok(plain)
}

/// The number of the line of a list that is the line of a number in what is read, both counted from
/// 1.
fn written_line(text: &[u8], number: usize) -> usize {
    let mut left = number;
    let mut line: usize = 0;
    for written in text.split(|byte| *byte == b'\n') {
        line = line.saturating_add(1);
        if !is_empty(written) {
            left = left.saturating_sub(1);
            if left == 0 {
                return line;
            }
        }
    }
    line
}

/// A fault of what is read of a list, at its line in the list.
pub(crate) fn written_fault(text: &[u8], fault: IrqFault) -> IrqFault {
    match fault {
        IrqFault::Syntax(line) => IrqFault::Syntax(written_line(text, line)),
        IrqFault::UnknownIsr(line) => IrqFault::UnknownIsr(written_line(text, line)),
        IrqFault::Order(line) => IrqFault::Order(written_line(text, line)),
        IrqFault::TooMany(line) => IrqFault::TooMany(written_line(text, line)),
        IrqFault::TickRange(line) => IrqFault::TickRange(written_line(text, line)),
        IrqFault::Memory => IrqFault::Memory,
    }
}
