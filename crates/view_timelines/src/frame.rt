//! What stands round the rows of a picture: its head, the numbers of the ticks, and the legend.

use crate::layout::Layout;
use crate::pieces::{Piece, write_pieces};
use crate::style::{LEGEND, STYLE};
use std::io::{self, Write};

/// Writes the head of the picture, up to its rows. An error is a failed write.
pub(crate) fn write_head<W: Write>(layout: Layout, out: &mut W) -> io::Result<()> {
    let width = Piece::Number(layout.width());
    let height = Piece::Number(layout.height());
    write_pieces(
        &[
            Piece::Text(r#"<svg xmlns="http://www.w3.org/2000/svg" width=""#),
            width,
            Piece::Text(r#"" height=""#),
            height,
            Piece::Text(r#"" viewBox="0 0 "#),
            width,
            Piece::Text(" "),
            height,
            Piece::Text("\">\n"),
            Piece::Text(STYLE),
            Piece::Text("<path class=\"page\" d=\"M0 0h"),
            width,
            Piece::Text("v"),
            height,
            Piece::Text("H0z\"/>\n"),
        ],
        out,
    )
}

/// Writes which ticks are drawn. An error is a failed write.
pub(crate) fn write_heading<W: Write>(layout: Layout, out: &mut W) -> io::Result<()> {
    if layout.ticks == 0 {
        return write_pieces(
            &[Piece::Text("<text class=\"heading\" x=\"16\" y=\"22\">no ticks</text>\n")],
            out,
        );
    }
    write_pieces(
        &[
            Piece::Text("<text class=\"heading\" x=\"16\" y=\"22\">ticks "),
            Piece::Number(layout.from),
            Piece::Text(" to "),
            Piece::Number(layout.from.saturating_add(layout.ticks - 1)),
            Piece::Text("</text>\n"),
        ],
        out,
    )
}

/// Writes the number of a tick, at a height. An error is a failed write.
fn write_number<W: Write>(layout: Layout, tick: u32, y: u32, out: &mut W) -> io::Result<()> {
    write_pieces(
        &[
            Piece::Text("<text class=\"number\" x=\""),
            Piece::Number(layout.middle(tick)),
            Piece::Text("\" y=\""),
            Piece::Number(y),
            Piece::Text("\">"),
            Piece::Number(tick),
            Piece::Text("</text>\n"),
        ],
        out,
    )
}

/// Writes the line at which a tick begins, and its number above and below the rows. An error is a failed write.
fn write_tick<W: Write>(layout: Layout, tick: u32, out: &mut W) -> io::Result<()> {
    let bottom = layout.bottom();
    write_pieces(
        &[
            Piece::Text("<path class=\"grid\" d=\"M"),
            Piece::Number(layout.x(tick)),
            Piece::Text(" 44V"),
            Piece::Number(bottom + 4),
            Piece::Text("\"/>\n"),
        ],
        out,
    )?;
    write_number(layout, tick, 40, out)?;
    write_number(layout, tick, bottom + 16, out)
}

/// Writes the lines and numbers of the ticks, at a step at which numbers keep apart. An error is a failed write.
pub(crate) fn write_ticks<W: Write>(layout: Layout, out: &mut W) -> io::Result<()> {
    let step = layout.step();
    for place in 0..layout.ticks {
        let tick = layout.from.saturating_add(place);
        if tick.checked_rem(step) == Some(0) {
            write_tick(layout, tick, out)?;
        }
    }
    Ok(())
}

/// Writes the legend, and the end of the picture. An error is a failed write.
pub(crate) fn write_legend<W: Write>(layout: Layout, out: &mut W) -> io::Result<()> {
    write_pieces(
        &[
            Piece::Text("<g transform=\"translate(16 "),
            Piece::Number(layout.legend()),
            Piece::Text(")\">\n"),
            Piece::Text(LEGEND),
            Piece::Text("</g>\n</svg>\n"),
        ],
        out,
    )
}
