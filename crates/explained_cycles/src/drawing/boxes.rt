//! The boxes of accesses, and of what is there at the start and at the end.

use super::layout::{Corner, Layout};
use crate::scene::{Scene, Shape};
use std::io;
use std::io::Write;
use svg_drawing::write_shown_text;

/// Writes the boxes of the accesses, the names of their harts, and the boxes of the start and the end.
pub(super) fn write_boxes<W: Write>(
    scene: &Scene,
    layout: &Layout<'_>,
    out: &mut W,
) -> io::Result<()> {
    write_line_box(
        "start",
        &layout.start(),
        scene.start.as_slice(),
        layout,
        out,
    )?;
    for hart in 0..layout.columns() {
        let (x, y) = layout.hart(hart);
        write!(out, "<text class=\"far hart\" x=\"{x}\" y=\"{y}\">")?;
        writeln!(out, "hart {hart}</text>")?;
    }
    for shape in scene.shapes.iter() {
        write_box(shape, layout, out)?;
    }
    write_line_box("end", &layout.end(), scene.end.as_slice(), layout, out)
}

/// Writes a box across the page, with one line in it.
fn write_line_box<W: Write>(
    class: &str,
    corner: &Corner,
    line: &[u8],
    layout: &Layout<'_>,
    out: &mut W,
) -> io::Result<()> {
    write_frame(class, corner, layout.line_height(), out)?;
    write_text("said", corner, 18, line, out)
}

fn write_box<W: Write>(shape: &Shape, layout: &Layout<'_>, out: &mut W) -> io::Result<()> {
    let corner = layout.shape(shape);
    write_frame("box", &corner, layout.box_height(), out)?;
    write_text("said", &corner, 21, shape.title.as_slice(), out)?;
    write_text("far", &corner, 39, shape.below.as_slice(), out)
}

fn write_frame<W: Write>(class: &str, corner: &Corner, height: u32, out: &mut W) -> io::Result<()> {
    let (x, y, width) = (corner.x, corner.y, corner.width);
    write!(out, "<rect class=\"{class}\" x=\"{x}\" y=\"{y}\" ")?;
    writeln!(out, "width=\"{width}\" height=\"{height}\" rx=\"4\"/>")
}

/// Writes a line into a box, so far below its upper edge.
fn write_text<W: Write>(
    class: &str,
    corner: &Corner,
    below: u32,
    line: &[u8],
    out: &mut W,
) -> io::Result<()> {
    let (x, y) = (corner.x.saturating_add(10), corner.y.saturating_add(below));
    write!(out, "<text class=\"{class}\" x=\"{x}\" y=\"{y}\">")?;
    write_shown_text(line, out)?;
    out.write_all(b"</text>\n")
}
