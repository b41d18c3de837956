//! A row of a picture as SVG.

use crate::drawn_stretch::write_stretch;
use crate::kind::RowKind;
use crate::layout::Layout;
use crate::pieces::{Piece, write_pieces};
use crate::track::Track;
use osek_base::System;
use std::io::{self, Write};

/// A row: whose it is, by its name and static priority, and at which place it stands, from 0 on.
#[derive(Clone, Copy)]
pub(crate) struct DrawnRow<'a> {
    pub(crate) kind: RowKind,
    pub(crate) name: &'a str,
    pub(crate) priority: u8,
    pub(crate) place: usize,
}

impl<'a> DrawnRow<'a> {
    /// Writes the beginning of the row: its name, and a line below its stretches. An error is a failed write.
    fn write_label<W: Write>(self, layout: Layout, out: &mut W) -> io::Result<()> {
        write_pieces(
            &[
                Piece::Text("<g transform=\"translate(0 "),
                Piece::Number(layout.row(self.place)),
                Piece::Text(")\">\n<text class=\"name\" x=\"16\" y=\"30\">"),
                Piece::Name(self.name),
                Piece::Text("</text><text class=\"small\" x=\"16\" y=\"43\">"),
                Piece::Text(self.kind.name()),
                Piece::Text(", priority "),
                Piece::Number(u32::from(self.priority)),
                Piece::Text("</text>\n<path class=\"base\" d=\"M"),
                Piece::Number(layout.left),
                Piece::Text(" 38h"),
                Piece::Number(layout.span(layout.from, u32::MAX)),
                Piece::Text("\"/>\n"),
            ],
            out,
        )
    }

    /// Writes the name again, so often that in a wide picture one is in sight. An error is a failed write.
    fn repeat_name<W: Write>(self, layout: Layout, out: &mut W) -> io::Result<()> {
        for time in 0..layout.repeated_names() {
            write_pieces(
                &[
                    Piece::Text("<text class=\"again\" x=\""),
                    Piece::Number(layout.repeated_name(time)),
                    Piece::Text("\" y=\"58\">"),
                    Piece::Name(self.name),
                    Piece::Text("</text>\n"),
                ],
                out,
            )?;
        }
        Ok(())
    }

    /// Writes the row. An error is a failed write.
    pub(crate) fn write<W: Write>(
        self,
        system: &System,
        track: &Track,
        layout: Layout,
        out: &mut W,
    ) -> io::Result<()> {
        self.write_label(layout, out)?;
        self.repeat_name(layout, out)?;
        let (closed, last) = track.row.stretches();
        for stretch in closed {
            write_stretch(system, self, stretch, layout, out)?;
        }
        if let Some(last) = last {
            write_stretch(system, self, &last, layout, out)?;
        }
        Ok(())
    }
}
