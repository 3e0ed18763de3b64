//! How a story is drawn.

ghost use Rattle.std.specs.Prelude.{◌≡◌};
ghost use Rattle.story_pictures.specs.Form.{theme_or};

use address_labels::Labels;
use symbols::Symbols;

/// The most rows of a picture. A longer one shows nobody anything.
pub const MOST_ROWS: usize = 1000;

/// The colours of a picture.
#[derive(Clone, Copy, PartialEq, Eq, Drop)]
pub enum Theme {
    /// Light or dark, as whoever looks at it wants.
    Automatic,
    Light,
    Dark,
}

/// The colours that are wanted, or else those that whoever looks at the picture wants.
pub fn theme_or(theme: Option<Theme>) -> Theme
    ensures { result ≡ theme_or theme }
{
    match theme {
        Some(theme) => theme,
        None => Theme::Automatic,
    }
}

/// How a story is drawn.
#[derive(Clone, Copy, Drop)]
pub struct PictureForm<'a, 'b> {
    /// How many harts there are: each has a lane.
    pub harts: u8,
    /// The names of the program, by which places in memory are shown.
    pub names: &'a Symbols<'a>,
    /// What is wanted beside the pc of a row, which a browser shows where one points at the row.
    pub labels: Labels<'a>,
    /// Whether the order ends in a state from which nothing can end: then the last row of each hart that goes on is
    /// marked.
    pub is_stuck: bool,
    /// What stands behind the story's text, and below the lanes here; nothing where it is empty.
    pub foot: &'b [u8],
    pub theme: Theme,
}
