//! What is asked of a picture.

use chart_counters::Counters;
use chart_registers::Registers;

/// The colours of a picture.
#[derive(Clone, Copy, PartialEq, Eq, Drop)]
pub enum Theme {
    /// Light or dark, as whoever looks at it wants.
    Automatic,
    Light,
    Dark,
}

/// What is asked of a picture.
#[derive(Clone, Copy, Drop)]
pub struct PictureForm<'a> {
    /// The most columns of a band.
    pub width: u32,
    /// How many harts the core has.
    pub harts: u8,
    /// What stands over the picture; without it, the names of both files.
    pub title: Option<&'a [u8]>,
    /// The names of the image and of the trace, as they were typed.
    pub image: &'a [u8],
    pub trace: &'a [u8],
    pub theme: Theme,
    /// The numbers behind each event from the first one that is drawn on; nothing where they aren't wanted.
    pub counters: &'a [Counters],
    /// The registers of each instruction by rising number; nothing where they aren't wanted.
    pub registers: &'a [Option<Registers>],
}
