//! Faults of an OIL text's tokens and syntax.

use crate::hints::{write_hint_at, write_nearest_or_hint};
use crate::notes::write_names;
use crate::pieces::Piece::{Number, Text};
use crate::source::Source;
use crate::unseen::mark_at;
use oil_reader::{OilFault, read_oil};
use std::alloc::{AllocError, Global};
use std::io::{self, Write};

/// What is wrong with a text at a place where no token begins, what is allowed there, and how many
/// bytes are shown.
struct BadToken {
    what: &'static str,
    allowed: &'static str,
    len: usize,
}

const fn bad_token(what: &'static str, allowed: &'static str, len: usize) -> BadToken {
    BadToken { what, allowed, len }
}

const NUMBERS: &str =
    "0, decimal digits without a leading zero, or 0x and hexadecimal digits; at most 4294967295";

fn begins_with_digit(word: &str) -> bool {
    match word.as_bytes().first() {
        Some(byte) => b'0' <= *byte && *byte <= b'9',
        None => false,
    }
}

/// What is wrong where a word or a number begins and breaks its rule.
pub(crate) fn explain_run<W: Write>(
    source: Source<'_>,
    place: usize,
    out: &mut W,
) -> io::Result<()> {
    let word = source.word(place);
    if begins_with_digit(word) {
        let what = [Text(word), Text(" is no number")];
        return source.note(place, &what, "allowed", &[Text(NUMBERS)], out);
    }
    let what = [Text("a name of "), Number(word.len()), Text(" bytes")];
    let allowed = Text("names of 1 to 32 bytes");
    source.note(place, &what, "allowed", &[allowed], out)
}

fn bad_token_at(text: &[u8]) -> BadToken {
    match text {
        [b'"', ..] => bad_token("an unknown string", "\"2.5\", behind OIL_VERSION =", 1),
        [b'/', b'*', ..] => bad_token("a comment without an end", "*/ at its end", 2),
        [b'/', ..] => bad_token(
            "a single slash",
            "comments: // to the end of the line, /* to */",
            1,
        ),
        _ => bad_token(
            mark_at(text).unwrap_or("no token begins here"),
            "names, numbers, \"2.5\", { } = ; and comments",
            1,
        ),
    }
}

/// Explains a fault of the tokens.
pub(crate) fn explain_token<W: Write>(
    source: Source<'_>,
    place: usize,
    out: &mut W,
) -> io::Result<()> {
    if !source.word(place).is_empty() {
        return explain_run(source, place, out);
    }
    let BadToken { what, allowed, len } = bad_token_at(source.from(place));
    source.note_bytes(place, len, &[Text(what)], "allowed", &[Text(allowed)], out)?;
    write_hint_at(source, place, out)
}

/// A word that is none of the grammar, which stands for all names when tokens are tried.
const A_NAME: &str = "a_name";

/// The tokens that are tried but for words of the grammar.
const TOKENS: [&str; 7] = [A_NAME, "0", "\"2.5\"", "=", "{", "}", ";"];

/// The words of the grammar.
const WORDS: [&str; 10] = [
    "OIL_VERSION",
    "CPU",
    "OS",
    "APPMODE",
    "TASK",
    "ISR",
    "RESOURCE",
    "EVENT",
    "COUNTER",
    "ALARM",
];

/// How a token is told.
fn told(token: &'static str) -> &'static str {
    match token {
        "a_name" => "NAME",
        "0" => "NUMBER",
        _ => token,
    }
}

/// A text with a token behind it, on a line of its own.
fn followed(alloc: Global, before: &[u8], token: &str) -> Result<Vec<u8>, AllocError> {
    let mut text = Vec::from_slice(alloc, before)?;
    text.extend_from_slice(b"\n")?;
    text.extend_from_slice(token.as_bytes())?;
    Ok(text)
}

/// Whether a file can go on with a token behind a text: whether the reader doesn't refuse just that
/// token.
fn goes_on(alloc: Global, before: &[u8], token: &str) -> Result<bool, AllocError> {
    let text = followed(alloc, before, token)?;
    match read_oil(alloc, &text) {
        Err(OilFault::Syntax(at)) => Ok(at != before.len().saturating_add(1)),
        Err(OilFault::Memory) => Err(AllocError),
        _ => Ok(true),
    }
}

/// Adds those of some tokens with which a file can go on behind a text.
fn add_wanted(
    alloc: Global,
    before: &[u8],
    tried: &[&'static str],
    found: &mut Vec<&'static str>,
) -> Result<(), AllocError> {
    for token in tried {
        if goes_on(alloc, before, *token)? {
            found.push(told(*token))?;
        }
    }
    Ok(())
}

/// The tokens with which a file can go on behind a text. Where any name can stand, no word is told.
fn wanted(alloc: Global, before: &[u8]) -> Result<Vec<&'static str>, AllocError> {
    let mut found: Vec<&'static str> = Vec::new(alloc);
    add_wanted(alloc, before, &TOKENS, &mut found)?;
    if !found.contains(&"NAME") {
        add_wanted(alloc, before, &WORDS, &mut found)?;
    }
    Ok(found)
}

/// Those of some tokens that are words of the grammar.
fn words_among(alloc: Global, wanted: &[&'static str]) -> Result<Vec<&'static str>, AllocError> {
    let mut found: Vec<&'static str> = Vec::new(alloc);
    for token in wanted {
        if WORDS.contains(token) {
            found.push(*token)?;
        }
    }
    Ok(found)
}

/// Writes which word of the grammar may have been meant by another, where one is wanted, or that
/// `import` may read it.
fn write_meant<W: Write>(
    alloc: Global,
    source: Source<'_>,
    place: usize,
    wanted: &[&'static str],
    out: &mut W,
) -> io::Result<()> {
    let word = source.word(place);
    let words = words_among(alloc, wanted)?;
    if words.is_empty() || word.is_empty() || begins_with_digit(word) {
        return Ok(());
    }
    write_nearest_or_hint(alloc, source, word, &words, out)
}

/// Explains a fault of the syntax.
pub(crate) fn explain_syntax<W: Write>(
    alloc: Global,
    source: Source<'_>,
    place: usize,
    out: &mut W,
) -> io::Result<()> {
    let cut = place.min(source.text.len());
    let what = if cut == source.text.len() {
        "the file ends too early"
    } else {
        "this can't stand here"
    };
    source.tell(place, &[Text(what)], out)?;
    let wanted = wanted(alloc, &source.text[..cut])?;
    write_names("wanted", &wanted, out)?;
    write_meant(alloc, source, place, &wanted, out)
}
