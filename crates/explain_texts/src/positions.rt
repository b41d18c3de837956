//! Lines and columns.

ghost use Rattle.std.specs.Prelude.{◌≡◌, ◌<◌, ◌≤◌, length, take};
ghost use Rattle.explain_texts.specs.Positions.{line_ends, bytes_since, line_of, column_of};

/// A line of a text and a column in bytes, both counted from 1.
#[derive(Clone, Copy)]
pub struct Position {
    pub line: usize,
    pub column: usize,
}

fn line_ends(text: &[u8]) -> usize
    ensures value { result ≡ line_ends text.now }
    ensures short { result ≤ length text.now }
{
    text.iter().filter(|byte| **byte == b'\n').count()
}

/// How many bytes stand behind the last line end.
fn bytes_since(text: &[u8]) -> usize
    ensures value { result ≡ bytes_since 0 text.now }
    ensures short { result ≤ length text.now }
{
    let mut since = 0;
    'text: for byte in text {
        since = if *byte == b'\n' { 0 } else { since + 1 };
    }
    since
}

/// The line and the column of a place of a text, counted in bytes from 0 and below the greatest `usize`, so that both can be
/// told. A place beyond the text counts as its end.
pub fn line_and_column(text: &[u8], place: usize) -> Position
    requires { place < 18446744073709551615 }
    ensures line { result.line ≡ line_of text.now place }
    ensures column { result.column ≡ column_of text.now place }
{
    let before = &text[..place.min(text.len())];
    Position {
        line: 1 + line_ends(before),
        column: 1 + bytes_since(before),
    }
}
