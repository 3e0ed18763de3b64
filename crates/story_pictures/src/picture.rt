//! The whole picture.

ghost use Rattle.std.specs.Prelude.{◌≡◌, ◌≤◌, OnOk, length};
ghost use Rattle.std.specs.Io.KnownBytes.{Appends};
ghost use Rattle.story_pictures.specs.Form.{most_rows, plan_of};
ghost use Rattle.story_pictures.specs.Picture.{begin_text, lane_line, lane_name, lane_text, lanes_text};
ghost use Rattle.story_pictures.specs.Picture.{page_height, picture_body, picture_head, picture_text, view_text};

use crate::arrows::write_arrows;
use crate::boxes::write_boxes;
use crate::elements::{write_close_text, write_number, write_open_text, write_point};
use crate::foot::{foot_height, write_foot};
use crate::form::PictureForm;
use crate::geometry::{foot_top, lane_middle, lanes_end, page_width};
use crate::style::{write_legend, write_style};
use std::io;
use std::io::Write;
use stories::Row;
use svg_drawing::write_end;

/// Writes the picture of a story, an SVG file (docs/FORMATS.md). The rows are those of the story, the first one first;
/// there are `MOST_ROWS` at the most. Errors: those of `out`.
pub fn write_story_picture<W: Write>(
    rows: &[Row],
    form: &PictureForm<'_, '_>,
    out: &mut W,
) -> io::Result<()>
    requires { length rows.now ≤ most_rows }
    ensures { OnOk result (Appends (W.contents out.old) (W.contents out.new)
        (picture_text (plan_of form.now) rows.now)) }
{
    write_head(rows, form, out)?;
    write_body(rows, form, out)
}

/// Writes what stands over the lanes.
#[tactic(auto, unfolding(crate::specs::Picture::picture_head))]
fn write_head<W: Write>(rows: &[Row], form: &PictureForm<'_, '_>, out: &mut W) -> io::Result<()>
    requires { length rows.now ≤ most_rows }
    ensures { OnOk result (Appends (W.contents out.old) (W.contents out.new)
        (picture_head (plan_of form.now) rows.now)) }
{
    write_begin(page_width(form.harts), page_height(form, rows.len()), out)?;
    write_style(form.theme, out)?;
    write_legend(out)
}

/// The height of the page, of so many rows.
fn page_height(form: &PictureForm<'_, '_>, rows: usize) -> u32
    requires { rows ≤ most_rows }
    ensures { result ≡ page_height (plan_of form.now) rows }
{
    foot_top(rows) + foot_height(form.foot)
}

/// Writes the lanes and what is in them, the foot, and the end.
#[tactic(auto, unfolding(crate::specs::Picture::picture_body))]
fn write_body<W: Write>(rows: &[Row], form: &PictureForm<'_, '_>, out: &mut W) -> io::Result<()>
    requires { length rows.now ≤ most_rows }
    ensures { OnOk result (Appends (W.contents out.old) (W.contents out.new)
        (picture_body (plan_of form.now) rows.now)) }
{
    write_lanes(lanes_end(rows.len()), form.harts, out)?;
    write_arrows(rows, out)?;
    write_boxes(rows, form, out)?;
    write_foot(form.foot, foot_top(rows.len()), out)?;
    write_end(out)
}

/// Writes the beginning of a picture of this size.
fn write_begin<W: Write>(width: u32, height: u32, out: &mut W) -> io::Result<()>
    ensures { OnOk result (Appends (W.contents out.old) (W.contents out.new) (begin_text width height)) }
{
    out.write_all(b"<svg xmlns=\"http://www.w3.org/2000/svg\" width=\"")?;
    write_number(u64::from(width), out)?;
    out.write_all(b"\" height=\"")?;
    write_number(u64::from(height), out)?;
    write_view(width, height, out)
}

#[tactic(auto, unfolding(crate::specs::Picture::view_text))]
fn write_view<W: Write>(width: u32, height: u32, out: &mut W) -> io::Result<()>
    ensures { OnOk result (Appends (W.contents out.old) (W.contents out.new) (view_text width height)) }
{
    out.write_all(b"\" viewBox=\"0 0 ")?;
    write_point(width, height, out)?;
    out.write_all(b"\">\n<title>The story of an order of harts</title>\n")
}

/// Writes the lanes of the harts, down to this height, and their names.
fn write_lanes<W: Write>(height: u32, harts: u8, out: &mut W) -> io::Result<()>
    ensures { OnOk result (Appends (W.contents out.old) (W.contents out.new) (lanes_text height harts)) }
{
    for hart in 0..harts {
        write_lane(height, hart, out)?;
    }
    Ok(())
}

fn write_lane<W: Write>(height: u32, hart: u8, out: &mut W) -> io::Result<()>
    ensures { OnOk result (Appends (W.contents out.old) (W.contents out.new) (lane_text height hart)) }
{
    write_lane_line(height, hart, out)?;
    write_lane_name(hart, out)
}

fn write_lane_line<W: Write>(height: u32, hart: u8, out: &mut W) -> io::Result<()>
    ensures { OnOk result (Appends (W.contents out.old) (W.contents out.new) (lane_line height hart)) }
{
    out.write_all(b"<path class=\"lane\" d=\"M")?;
    write_point(lane_middle(hart), 104, out)?;
    out.write_all(b"V")?;
    write_number(u64::from(height), out)?;
    out.write_all(b"\"/>\n")
}

#[tactic(auto, unfolding(crate::specs::Picture::lane_name))]
fn write_lane_name<W: Write>(hart: u8, out: &mut W) -> io::Result<()>
    ensures { OnOk result (Appends (W.contents out.old) (W.contents out.new) (lane_name hart)) }
{
    write_open_text("name", lane_middle(hart), 96, out)?;
    out.write_all(b"hart ")?;
    write_number(u64::from(hart), out)?;
    write_close_text(out)
}
