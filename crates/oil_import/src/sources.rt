//! The files that are imported, and the places in them.

/// A file: its name as it was given, and its bytes.
#[derive(Clone, Copy)]
pub struct Source<'a> {
    pub name: &'a str,
    pub text: &'a [u8],
}

/// A place in a file: which file of those given, counted from 0, and a line and a column in bytes,
/// counted from 1. LF, CR and CR LF end a line. A byte order mark isn't counted.
#[derive(Clone, Copy)]
pub struct Place {
    pub file: usize,
    pub line: usize,
    pub column: usize,
}

const LF: u8 = b'\n';

const CR: u8 = b'\r';

impl Place {
    /// The first place of a file.
    pub(crate) fn first(file: usize) -> Place {
        Place {
            file,
            line: 1,
            column: 1,
        }
    }

    /// The place behind a byte, which stands behind another.
    pub(crate) fn behind(self, before: u8, byte: u8) -> Place {
        let Place { file, line, column } = self;
        if byte == LF && before == CR {
            return self;
        }
        if byte == LF || byte == CR {
            return Place {
                file,
                line: line.saturating_add(1),
                column: 1,
            };
        }
        Place {
            file,
            line,
            column: column.saturating_add(1),
        }
    }
}

impl<'a> Source<'a> {
    /// Its bytes without a byte order mark.
    pub(crate) fn content(self) -> &'a [u8] {
        self.text.strip_prefix(b"\xEF\xBB\xBF").unwrap_or(self.text)
    }
}

/// The last part of a path, behind its last `/` or `\`.
pub(crate) fn last_part(path: &[u8]) -> &[u8] {
    let mut behind = 0;
    for (number, byte) in path.iter().enumerate() {
        if *byte == b'/' || *byte == b'\\' {
            behind = number.saturating_add(1);
        }
    }
    let (_, part) = path.split_at(behind.min(path.len()));
    part
}
