//! Bytes as they are shown, one column a character: nothing in them moves what stands below, or
//! reaches the terminal as an order.

use std::io::{self, Write};

/// What is shown for a byte or a character that can't be shown.
const UNSHOWN: char = '\u{FFFD}';

/// Whether a character isn't seen or turns the direction of what follows: Unicode's default
/// ignorable characters, and the separators of lines and paragraphs.
fn is_unseen(c: char) -> bool {
    matches!(
        c,
        '\u{AD}'
            | '\u{34F}'
            | '\u{61C}'
            | '\u{115F}'..='\u{1160}'
            | '\u{17B4}'..='\u{17B5}'
            | '\u{180B}'..='\u{180F}'
            | '\u{200B}'..='\u{200F}'
            | '\u{2028}'..='\u{202E}'
            | '\u{2060}'..='\u{206F}'
            | '\u{3164}'
            | '\u{FE00}'..='\u{FE0F}'
            | '\u{FEFF}'
            | '\u{FFA0}'
            | '\u{FFF0}'..='\u{FFF8}'
            | '\u{1BCA0}'..='\u{1BCA3}'
            | '\u{1D173}'..='\u{1D17A}'
            | '\u{E0000}'..='\u{E0FFF}'
    )
}

/// The character that is shown for one: a space for a tab.
fn shown(c: char) -> char {
    if c == '\t' {
        ' '
    } else if c.is_control() || is_unseen(c) {
        UNSHOWN
    } else {
        c
    }
}

/// Writes bytes as they are shown. An error is a failed write.
pub(crate) fn write_shown<W: Write>(bytes: &[u8], out: &mut W) -> io::Result<()> {
    for chunk in bytes.utf8_chunks() {
        for c in chunk.valid().chars() {
            write!(out, "{}", shown(c))?;
        }
        for _ in chunk.invalid() {
            write!(out, "{UNSHOWN}")?;
        }
    }
    Ok(())
}

/// How many columns bytes take as they are shown.
pub(crate) fn columns(bytes: &[u8]) -> usize {
    let mut count: usize = 0;
    for chunk in bytes.utf8_chunks() {
        let valid = chunk.valid().chars().count();
        count = count
            .saturating_add(valid)
            .saturating_add(chunk.invalid().len());
    }
    count
}
