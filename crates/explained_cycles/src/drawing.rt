//! A scene as a picture: an SVG file, for light and for dark.

mod arrows;
mod boxes;
mod layout;
mod routes;
mod style;

use crate::scene::Scene;
use arrows::{Part, write_arrows};
use boxes::write_boxes;
use layout::Layout;
use routes::Routes;
use std::alloc::Global;
use std::io;
use std::io::Write;
use style::{STYLE, write_legend};
use svg_drawing::{write_begin, write_end, write_shown_text, write_style};

/// Draws a scene as one SVG file (docs/FORMATS.md): a column a hart, with its accesses one below the other, what is
/// there at the start above and what is there at the end below them, and arrows with their relations, which go round
/// all boxes. An error is the one that `out` answered, or want of memory.
pub(crate) fn draw<W: Write>(scene: &Scene, out: &mut W, alloc: Global) -> io::Result<()> {
    let routes = Routes::of(scene, alloc)?;
    let layout = Layout::of(scene, &routes);
    write_head(scene, &layout, out)?;
    write_legend(out)?;
    write_arrows(Part::Lines, scene, &routes, &layout, out)?;
    write_boxes(scene, &layout, out)?;
    write_arrows(Part::Names, scene, &routes, &layout, out)?;
    write_end(out)
}

fn write_head<W: Write>(scene: &Scene, layout: &Layout<'_>, out: &mut W) -> io::Result<()> {
    let heading = &scene.heading;
    write_begin(layout.width(), layout.height(), out)?;
    out.write_all(b"<title>")?;
    write_shown_text(heading.name.as_slice(), out)?;
    out.write_all(b": ")?;
    write_shown_text(heading.sentence.as_slice(), out)?;
    out.write_all(b"</title>\n")?;
    write_style(STYLE, out)?;
    write_line("name", 26, heading.name.as_slice(), out)?;
    write_line("said", 46, heading.sentence.as_slice(), out)?;
    write_line("far", 64, heading.way.as_slice(), out)
}

fn write_line<W: Write>(class: &str, y: u32, line: &[u8], out: &mut W) -> io::Result<()> {
    write!(out, "<text class=\"{class}\" x=\"24\" y=\"{y}\">")?;
    write_shown_text(line, out)?;
    out.write_all(b"</text>\n")
}
