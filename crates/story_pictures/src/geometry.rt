//! Where things stand in a picture, in its units.

ghost use Rattle.std.specs.Prelude.{◌≡◌, ◌≤◌, ◌+◌, ◌-◌};
ghost use Rattle.story_pictures.specs.Form.{most_rows};
ghost use Rattle.story_pictures.specs.Geometry.{
  bulge,
  foot_top,
  lane_left,
  lane_middle,
  lane_right,
  lanes_end,
  page_width,
  row_base,
  row_coming,
  row_leaving,
  row_top,
  way_of,
};

/// The room at the left, in which the numbers of rows stand.
const LEFT: u32 = 64;

/// How far it is from a lane to the next one.
const LANE: u32 = 470;

/// The width of a box.
const BOX_WIDTH: u32 = 320;

/// The room behind the last lane, for what is said beside its boxes.
const BESIDE: u32 = 310;

/// The room over the first row, and how far it is from a row to the next one.
const TOP: u32 = 120;

const ROW: u32 = 34;

/// How far the two points between the ends of an arrow to another lane are from these.
const REACH: u32 = 60;

/// How far to the right the ends of an arrow are, and the two points between them by which its curve goes.
#[derive(Clone, Copy, Drop)]
pub(crate) struct Way {
    pub(crate) from: u32,
    pub(crate) near: u32,
    pub(crate) far: u32,
    pub(crate) to: u32,
}

/// The left edge of a hart's boxes.
pub(crate) fn lane_left(hart: u8) -> u32
    ensures { result ≡ lane_left hart }
{
    LEFT + LANE * u32::from(hart)
}

/// The right edge of a hart's boxes.
pub(crate) fn lane_right(hart: u8) -> u32
    ensures { result ≡ lane_right hart }
{
    lane_left(hart) + BOX_WIDTH
}

/// The middle of a hart's lane.
pub(crate) fn lane_middle(hart: u8) -> u32
    ensures { result ≡ lane_middle hart }
{
    lane_left(hart) + BOX_WIDTH / 2
}

/// The upper edge of a row.
pub(crate) fn row_top(index: usize) -> u32
    requires { index ≤ most_rows }
    ensures { result ≡ row_top index }
{
    TOP + ROW * index as u32
}

/// Where the text of a row stands.
pub(crate) fn row_base(index: usize) -> u32
    requires { index ≤ most_rows }
    ensures { result ≡ row_base index }
{
    row_top(index) + 16
}

/// Where an arrow leaves a row.
pub(crate) fn row_leaving(index: usize) -> u32
    requires { index ≤ most_rows }
    ensures { result ≡ row_leaving index }
{
    row_top(index) + 18
}

/// Where an arrow comes to a row.
pub(crate) fn row_coming(index: usize) -> u32
    requires { index ≤ most_rows }
    ensures { result ≡ row_coming index }
{
    row_top(index) + 6
}

/// The width of the page.
pub(crate) fn page_width(harts: u8) -> u32
    ensures { result ≡ page_width harts }
{
    lane_left(harts) + BESIDE
}

/// Where the lanes end, of so many rows.
pub(crate) fn lanes_end(rows: usize) -> u32
    requires { rows ≤ most_rows }
    ensures { result ≡ lanes_end rows }
{
    row_top(rows) + 4
}

/// Where the page ends, of so many rows, and its foot begins.
pub(crate) fn foot_top(rows: usize) -> u32
    requires { rows ≤ most_rows }
    ensures value { result ≡ foot_top rows }
    ensures few { result ≤ 40000 }
{
    row_top(rows) + 12
}

/// How far an arrow between two rows of a lane goes out of it.
fn bulge(apart: usize) -> u32
    ensures value { result ≡ bulge apart }
    ensures few { result ≤ 60 }
{
    if apart < 10 {
        return 20 + 4 * apart as u32;
    }
    60
}

/// The way of an arrow from a hart's lane to that of another one, or of the same; `apart` says how many rows further
/// down it ends.
pub(crate) fn way_of(from: u8, to: u8, apart: usize) -> Way
    ensures { result ≡ way_of from to apart }
{
    if from == to {
        return way_beside(from, apart);
    }
    if from < to {
        return way_right(from, to);
    }
    way_left(from, to)
}

fn way_beside(hart: u8, apart: usize) -> Way
    ensures { result ≡ way_of hart hart apart }
{
    let side = lane_right(hart);
    let out = side + bulge(apart);
    Way {
        from: side,
        near: out,
        far: out,
        to: side,
    }
}

fn way_right(from: u8, to: u8) -> Way
    ensures { result ≡ record {
      from = lane_right from;
      near = lane_right from + 60;
      far = lane_left to - 60;
      to = lane_left to;
    } }
{
    Way {
        from: lane_right(from),
        near: lane_right(from) + REACH,
        far: lane_left(to) - REACH,
        to: lane_left(to),
    }
}

fn way_left(from: u8, to: u8) -> Way
    ensures { result ≡ record {
      from = lane_left from;
      near = lane_left from - 60;
      far = lane_right to + 60;
      to = lane_right to;
    } }
{
    Way {
        from: lane_left(from),
        near: lane_left(from) - REACH,
        far: lane_right(to) + REACH,
        to: lane_right(to),
    }
}
