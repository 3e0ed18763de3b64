//! The arrows between boxes, by their ways: first their lines, below all boxes, and at last their names.

use super::layout::{Corner, Layout};
use super::routes::{Route, Routes};
use crate::naming::relation_name;
use crate::scene::{Arrow, Scene};
use litmus_cycles::Relation;
use std::io;
use std::io::Write;

/// What is written of arrows: their lines, behind all boxes, or their names, before them.
#[derive(Clone, Copy, Drop)]
pub(super) enum Part {
    Lines,
    Names,
}

pub(super) fn write_arrows<W: Write>(
    part: Part,
    scene: &Scene,
    routes: &Routes,
    layout: &Layout<'_>,
    out: &mut W,
) -> io::Result<()> {
    for (index, arrow) in scene.arrows.iter().enumerate() {
        if let Some(route) = routes.routes.get(index) {
            write_arrow(part, scene, arrow, *route, layout, out)?;
        }
    }
    Ok(())
}

fn write_arrow<W: Write>(
    part: Part,
    scene: &Scene,
    arrow: &Arrow,
    route: Route,
    layout: &Layout<'_>,
    out: &mut W,
) -> io::Result<()> {
    let Some(to) = scene.shapes.get(arrow.to) else {
        return Ok(());
    };
    let end = layout.shape(to);
    let start = start_of(scene, arrow, layout);
    match part {
        Part::Lines => {
            write_begin(arrow, out)?;
            write_way(arrow.relation, route, &start, &end, layout, out)?;
            out.write_all(b"\"/>\n")
        }
        Part::Names => write_name(arrow.relation, route, &start, &end, layout, out),
    }
}

/// The box from which an arrow comes.
fn start_of(scene: &Scene, arrow: &Arrow, layout: &Layout<'_>) -> Corner {
    let Some(from) = arrow.from else {
        return layout.start();
    };
    match scene.shapes.get(from) {
        Some(shape) => layout.shape(shape),
        None => layout.start(),
    }
}

/// The beginning of an arrow, up to its way.
fn write_begin<W: Write>(arrow: &Arrow, out: &mut W) -> io::Result<()> {
    let class = if arrow.is_thick {
        "arrow thick"
    } else {
        "arrow"
    };
    let name = relation_name(arrow.relation);
    write!(out, "<path class=\"{class} {name}\" ")?;
    write!(out, "marker-end=\"url(#to-{name})\" d=\"")
}

fn write_way<W: Write>(
    relation: Relation,
    route: Route,
    start: &Corner,
    end: &Corner,
    layout: &Layout<'_>,
    out: &mut W,
) -> io::Result<()> {
    match route {
        Route::Down => {
            let (x, y, down) = (start.middle(), start.bottom(), end.y);
            write!(out, "M{x} {y}V{down}")
        }
        Route::Start(track) => {
            let (x, top) = (layout.track(track, relation), layout.start_bottom());
            let (to_x, to_y) = (side(end, x), end.coming(relation, x));
            write!(out, "M{x} {top}V{to_y}H{to_x}")
        }
        Route::Beside(track) => {
            let x = layout.track(track, relation);
            let (from_x, from_y) = (side(start, x), start.leaving(relation, x));
            let (to_x, to_y) = (side(end, x), end.coming(relation, x));
            write!(out, "M{from_x} {from_y}H{x}V{to_y}H{to_x}")
        }
        Route::Over { first, lane, last } => {
            let (x, far) = (layout.track(first, relation), layout.track(last, relation));
            let (from_x, from_y) = (side(start, x), start.leaving(relation, x));
            let (to_x, to_y) = (side(end, far), end.coming(relation, far));
            let over = layout.lane(lane);
            write!(out, "M{from_x} {from_y}H{x}V{over}H{far}V{to_y}H{to_x}")
        }
    }
}

/// The side of a box that a track is beside.
fn side(corner: &Corner, x: u32) -> u32 {
    if x < corner.x {
        corner.x
    } else {
        corner.right()
    }
}

/// Writes the name of an arrow's relation in the middle of its first part from above to below, or below the start.
fn write_name<W: Write>(
    relation: Relation,
    route: Route,
    start: &Corner,
    end: &Corner,
    layout: &Layout<'_>,
    out: &mut W,
) -> io::Result<()> {
    let name = relation_name(relation);
    let (x, y) = middle(relation, route, start, end, layout);
    let base = y.saturating_add(4);
    write!(out, "<text class=\"mark {name}-is\" ")?;
    writeln!(out, "x=\"{x}\" y=\"{base}\">{name}</text>")
}

fn middle(
    relation: Relation,
    route: Route,
    start: &Corner,
    end: &Corner,
    layout: &Layout<'_>,
) -> (u32, u32) {
    match route {
        Route::Down => (start.middle(), between(start.bottom(), end.y)),
        Route::Start(track) => {
            let top = layout.start_bottom();
            (layout.track(track, relation), top.saturating_add(10))
        }
        Route::Beside(track) => {
            let x = layout.track(track, relation);
            (
                x,
                between(start.leaving(relation, x), end.coming(relation, x)),
            )
        }
        Route::Over { first, lane, .. } => {
            let x = layout.track(first, relation);
            (x, between(start.leaving(relation, x), layout.lane(lane)))
        }
    }
}

fn between(from: u32, to: u32) -> u32 {
    from.saturating_add(to) / 2
}
