//! Where the boxes of a picture stand, and the tracks and lanes between them.

use super::routes::{Lane, Routes, Track};
use crate::scene::{Scene, Shape};
use litmus_cycles::Relation;

/// The height of a box of two lines, and of one of a line, in the picture's units.
const BOX_HEIGHT: u32 = 52;

/// How much lower arrows go that go to the left.
const TURN: u32 = 4;

const LINE_HEIGHT: u32 = 28;

/// The least width of a box.
const LEAST_WIDTH: u32 = 150;

/// The room beside a box without tracks, and how much one adds.
const BESIDE: u32 = 52;

const TRACK: u32 = 24;

/// The room above a row without lanes, and how much one adds; and how much more is above the first row, for the names
/// of harts.
const ABOVE: u32 = 40;

const LANE: u32 = 16;

const NAMES: u32 = 22;

/// Where the box of what is there at the start stands.
const START_TOP: u32 = 100;

/// The room at the edges.
const MARGIN: u32 = 24;

/// Where everything stands.
#[derive(Drop)]
pub(super) struct Layout<'a> {
    routes: &'a Routes,
    columns: usize,
    rows: usize,
    box_width: u32,
    across: u32,
}

/// The left upper corner of a box, and its width.
#[derive(Clone, Copy, Drop)]
pub(super) struct Corner {
    pub x: u32,
    pub y: u32,
    pub width: u32,
}

impl Corner {
    pub fn right(&self) -> u32 {
        self.x.saturating_add(self.width)
    }

    pub fn bottom(&self) -> u32 {
        self.y.saturating_add(BOX_HEIGHT)
    }

    pub fn middle(&self) -> u32 {
        self.x.saturating_add(self.width / 2)
    }

    /// The height at which an arrow of a relation leaves it to a track. What goes to the left stands lower, so that no
    /// two arrows lie upon each other.
    pub fn leaving(&self, relation: Relation, x: u32) -> u32 {
        let below = match relation {
            Relation::ReadsFrom => 4,
            Relation::Coherence => 12,
            Relation::FromRead | Relation::ProgramOrder | Relation::Breaks => 20,
        };
        let more = if x < self.x { TURN } else { 0 };
        self.y.saturating_add(below + more)
    }

    /// The height at which one comes from a track.
    pub fn coming(&self, relation: Relation, x: u32) -> u32 {
        let below = match relation {
            Relation::ReadsFrom => 28,
            Relation::Coherence => 36,
            Relation::FromRead | Relation::ProgramOrder | Relation::Breaks => 44,
        };
        let more = if x < self.x { 0 } else { TURN };
        self.y.saturating_add(below + more)
    }
}

impl<'a> Layout<'a> {
    pub fn of(scene: &Scene, routes: &'a Routes) -> Layout<'a> {
        Layout {
            routes,
            columns: scene.columns,
            rows: scene.rows(),
            box_width: width_of(scene.letters()).max(LEAST_WIDTH),
            across: width_of(scene.letters_across()),
        }
    }

    /// The box of an access.
    pub fn shape(&self, shape: &Shape) -> Corner {
        Corner {
            x: self.left_of(shape.column),
            y: self.top_of(shape.row),
            width: self.box_width,
        }
    }

    /// The box of what is there at the start, as wide as the page.
    pub fn start(&self) -> Corner {
        Corner {
            x: MARGIN,
            y: START_TOP,
            width: self.inside(),
        }
    }

    /// The box of what is there at the end.
    pub fn end(&self) -> Corner {
        let last = self.top_of(self.rows.saturating_sub(1));
        Corner {
            x: MARGIN,
            y: last.saturating_add(BOX_HEIGHT + ABOVE),
            width: self.inside(),
        }
    }

    /// Where the name of a hart stands.
    pub fn hart(&self, hart: usize) -> (u32, u32) {
        (self.left_of(hart), self.top_of(0).saturating_sub(10))
    }

    pub fn columns(&self) -> usize {
        self.columns
    }

    pub fn box_height(&self) -> u32 {
        BOX_HEIGHT
    }

    pub fn line_height(&self) -> u32 {
        LINE_HEIGHT
    }

    pub fn start_bottom(&self) -> u32 {
        START_TOP + LINE_HEIGHT
    }

    pub fn width(&self) -> u32 {
        self.inside().saturating_add(2 * MARGIN)
    }

    pub fn height(&self) -> u32 {
        self.end().y.saturating_add(LINE_HEIGHT + MARGIN)
    }

    /// How far to the right a track is.
    pub fn track(&self, track: Track, relation: Relation) -> u32 {
        let more = if relation == Relation::Breaks {
            TRACK / 2
        } else {
            0
        };
        self.room_left(track.room)
            .saturating_add(BESIDE / 2 + TRACK / 2)
            .saturating_add(track.place.saturating_mul(TRACK))
            .saturating_add(more)
    }

    /// How far down a lane is.
    pub fn lane(&self, lane: Lane) -> u32 {
        self.top_of(lane.row)
            .saturating_sub(self.above(lane.row))
            .saturating_add(18)
            .saturating_add(lane.place.saturating_mul(LANE))
    }

    /// The width of all columns and rooms; that of the longest line at least.
    fn inside(&self) -> u32 {
        let all = self
            .room_left(self.columns)
            .saturating_add(self.room(self.columns));
        all.saturating_sub(MARGIN).max(self.across)
    }

    fn left_of(&self, column: usize) -> u32 {
        self.room_left(column).saturating_add(self.room(column))
    }

    /// The left edge of the room left of a column.
    fn room_left(&self, room: usize) -> u32 {
        let mut left = MARGIN;
        for before in 0..room {
            left = left
                .saturating_add(self.room(before))
                .saturating_add(self.box_width);
        }
        left
    }

    /// The width of a room.
    fn room(&self, room: usize) -> u32 {
        let tracks = count_at(&self.routes.tracks, room);
        BESIDE.saturating_add(tracks.saturating_mul(TRACK))
    }

    fn top_of(&self, row: usize) -> u32 {
        let mut top = START_TOP + LINE_HEIGHT;
        for before in 0..row {
            top = top
                .saturating_add(self.above(before))
                .saturating_add(BOX_HEIGHT);
        }
        top.saturating_add(self.above(row))
    }

    /// The room above a row.
    fn above(&self, row: usize) -> u32 {
        let lanes = count_at(&self.routes.lanes, row);
        let names = if row == 0 { NAMES } else { 0 };
        (ABOVE + names).saturating_add(lanes.saturating_mul(LANE))
    }
}

fn count_at(counts: &Vec<u32>, index: usize) -> u32 {
    match counts.get(index) {
        Some(count) => *count,
        None => 0,
    }
}

/// How wide a box of so many letters is.
fn width_of(letters: usize) -> u32 {
    let letters = u32::try_from(letters).unwrap_or(u32::MAX);
    (letters.saturating_mul(29) / 4).saturating_add(22)
}
