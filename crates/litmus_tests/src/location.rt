ghost use Rattle.std.specs.Prelude.{◌≡◌, option_map, position};
ghost use Rattle.litmus_tests.specs.Locations.{beginning_at, begins_at, type_of};

use crate::condition::Observed;
use crate::number_type::{INT, NumberType};

/// A number in memory with a name: a location that is no array, or an element of one.
#[derive(Drop)]
pub struct Location {
    /// A letter or `_`, then letters, digits and `_`; of an element, its array's.
    pub name: Vec<u8>,
    /// Which element of an array it is.
    pub element: Option<Element>,
    /// Where it stands, and where its array begins (of what is no array, itself), in bytes behind the first of all
    /// locations.
    pub byte: usize,
    pub begin: usize,
    pub number_type: NumberType,
}

/// An element of an array.
#[derive(Clone, Copy, Debug, PartialEq, Eq, Drop)]
pub struct Element {
    /// Its index, below how many elements the array has.
    pub index: usize,
    pub count: usize,
    /// Whether a final state shows the array as a whole.
    pub is_whole: bool,
}

/// What number something is that is looked at.
pub fn type_of(locations: &[Location], observed: Observed) -> NumberType
    ensures { result ≡ type_of locations.now observed }
{
    match observed {
        Observed::Register { .. } => INT,
        Observed::Location(index) => match locations.get(index) {
            Some(location) => location.number_type,
            None => INT,
        },
    }
}

/// The location that begins at a byte, or the element that does. One begins each word of the locations.
pub fn beginning_at(locations: &[Location], byte: usize) -> Option<&Location>
    ensures { option_map (λ location. location.now) result ≡ beginning_at locations.now byte }
{
    match place_of(locations, byte) {
        Some(index) => locations.get(index),
        None => None,
    }
}

fn place_of(locations: &[Location], byte: usize) -> Option<usize>
    ensures { result ≡ position (begins_at byte) locations.now }
{
    locations.iter().position(|location| location.byte == byte)
}
