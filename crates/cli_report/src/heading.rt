//! What stands above the sections of a page.

use crate::pieces::{Escaped, Piece, write_pieces, write_text};
use crate::report::{Report, mode_name};
use crate::style::STYLE;
use cli_requests::VERSION;
use cli_tables::{write_count, write_outcome};
use std::io::{self, Write};

/// What all pages begin with. They may load nothing.
const HEAD: &str = "<!doctype html>
<html lang=\"en\">
<head>
<meta charset=\"utf-8\">
<meta name=\"viewport\" content=\"width=device-width, initial-scale=1\">
<meta http-equiv=\"Content-Security-Policy\"
 content=\"default-src 'none'; style-src 'unsafe-inline'; script-src 'unsafe-inline'\">
<title>Report: ";

const NAVIGATION: &str = "</p>
<nav aria-label=\"Sections\">
<a href=\"#bounds\">Bounds</a>
<a href=\"#limits\">Limits</a>
<a href=\"#interrupts\">Interrupts</a>
<a href=\"#worst\">Worst cases</a>
<a href=\"#cuts\">Cuts</a>
<a href=\"#system\">System</a>
</nav>
</header>
<main>
";

/// Writes the head of the page. An error is a failed write.
pub(crate) fn write_head<O: Write>(report: &Report<'_>, out: &mut O) -> io::Result<()> {
    write_pieces(
        &[
            Piece::Own(HEAD),
            Piece::Text(report.asked.request.oil),
            Piece::Own("</title>\n<style>\n"),
            Piece::Own(STYLE),
            Piece::Own("</style>\n</head>\n<body>\n<header>\n"),
        ],
        out,
    )
}

/// Writes of which part the bounds are, where they aren't of the whole system. An error is a failed
/// write.
fn write_part<O: Write>(upper: Option<u8>, out: &mut O) -> io::Result<()> {
    match upper {
        Some(priority) => write!(out, ", from priority <b>{priority}</b> upward"),
        None => Ok(()),
    }
}

/// Writes whether the search has come to its end, or how many nodes were looked at in its place. An
/// error is a failed write.
fn write_result<O: Write>(report: &Report<'_>, out: &mut O) -> io::Result<()> {
    match report.found {
        Some(found) => write_outcome(found.bounds.outcome, out),
        None => write_count(report.counted.as_ref(), out),
    }
}

/// Writes of what the page is, whether the search has come to its end, and links to the sections.
/// An error is a failed write.
pub(crate) fn write_heading<O: Write>(report: &Report<'_>, out: &mut O) -> io::Result<()> {
    write_pieces(
        &[
            Piece::Own("<h1>"),
            Piece::Text(report.asked.request.oil),
            Piece::Own("</h1>\n<p>Programs <b>"),
            Piece::Text(report.asked.request.asm),
            Piece::Own("</b>, mode <b>"),
        ],
        out,
    )?;
    write_text(mode_name(report).as_bytes(), out)?;
    out.write_all(b"</b>")?;
    write_part(report.asked.line.upper, out)?;
    write_pieces(
        &[
            Piece::Own(", osek "),
            Piece::Own(VERSION),
            Piece::Own("</p>\n<p class=\"outcome\">All runs: "),
        ],
        out,
    )?;
    write_result(report, &mut Escaped::new(&mut *out))?;
    out.write_all(NAVIGATION.as_bytes())
}
