//! What isn't seen in a text: marks of its encoding.

/// Whether the byte order mark of UTF-8 stands at the front of a text.
pub(crate) fn is_utf8_mark(text: &[u8]) -> bool {
    text.starts_with(b"\xEF\xBB\xBF")
}

/// What the mark of an encoding is called, where one stands at the front of a text.
pub(crate) fn mark_at(text: &[u8]) -> Option<&'static str> {
    match text {
        [0xEF, 0xBB, 0xBF, ..] => Some("a byte order mark"),
        [0xFF, 0xFE, ..] | [0xFE, 0xFF, ..] => Some("a byte order mark of UTF-16"),
        _ => None,
    }
}
