//! What is watched in the ends of a litmus test.

ghost use Rattle.std.specs.Prelude.{◌≡◌, ◌≤◌, length};
ghost use Rattle.litmus_tests.specs.WellFormed.{IsWellFormed};
ghost use Rattle.litmus_tests.specs.Limits.{most_observed};
ghost use Rattle.litmus_images.specs.Watching.{register_of, location_of, registers_observed};
ghost use Rattle.litmus_images.specs.Watching.{bytes_watched, cell_of, words_observed};

use arrayvec::ArrayVec;
use elf_image::RAM_START;
use litmus_tests::{LitmusTest, Location, Observed};
use watched_outcomes::{MOST_WATCHED, Watch, WatchedBytes, WatchedRegister, Width};

/// How many harts the test has: 1 to `MOST_HARTS`.
pub fn harts_of(test: &LitmusTest) -> u8
    requires { IsWellFormed test.now }
    ensures { result ≡ length test.now.threads.items }
{
    test.threads.len() as u8
}

/// The register that is looked at, where it is one.
pub(crate) fn register_of(observed: Observed) -> Option<WatchedRegister>
    ensures { result ≡ register_of observed }
{
    match observed {
        Observed::Register { hart, register } => Some(WatchedRegister { hart, register }),
        Observed::Location(_) => None,
    }
}

/// The location that is looked at, where it is one.
pub(crate) fn location_of(observed: Observed) -> Option<usize>
    ensures { result ≡ location_of observed }
{
    match observed {
        Observed::Register { .. } => None,
        Observed::Location(index) => Some(index),
    }
}

/// The registers and the words, halves and bytes that tell the final states of the test apart, each in the test's order.
pub fn watch_of(test: &LitmusTest) -> Watch
    requires { IsWellFormed test.now }
    ensures registers { result.registers.items ≡ registers_observed test.now.observed.items }
    ensures words { result.words.items ≡ words_observed test.now.locations.items test.now.observed.items }
{
    let registers = registers_watched(&test.observed);
    let words = words_watched(&test.locations, &test.observed);
    Watch { registers, words }
}

/// The registers that are looked at, in order.
fn registers_watched(observed: &[Observed]) -> ArrayVec<WatchedRegister, MOST_WATCHED>
    requires { length observed.now ≤ most_observed }
    ensures { result.items ≡ registers_observed observed.now }
{
    let mut registers = ArrayVec::<WatchedRegister, MOST_WATCHED>::new();
    for each in observed {
        match register_of(*each) {
            Some(register) => registers.push(register),
            None => {}
        }
    }
    registers
}

/// The bytes of the locations that are looked at, in order.
fn words_watched(
    locations: &[Location],
    observed: &[Observed],
) -> ArrayVec<WatchedBytes, MOST_WATCHED>
    requires { length observed.now ≤ most_observed }
    ensures { result.items ≡ words_observed locations.now observed.now }
{
    let mut words = ArrayVec::<WatchedBytes, MOST_WATCHED>::new();
    for each in observed {
        match location_of(*each) {
            Some(index) => words.push(cell_of(locations, index)),
            None => {}
        }
    }
    words
}

/// The bytes of the location with this index.
fn cell_of(locations: &[Location], index: usize) -> WatchedBytes
    ensures { result ≡ cell_of locations.now index }
{
    match locations.get(index) {
        Some(location) => bytes_watched(location),
        None => WatchedBytes {
            address: RAM_START,
            width: Width::Word,
        },
    }
}

/// The bytes of a location.
fn bytes_watched(location: &Location) -> WatchedBytes
    ensures { result ≡ bytes_watched location.now }
{
    let address = RAM_START as u128 + location.byte as u128;
    WatchedBytes {
        address: (address % 0x1_0000_0000) as u32,
        width: location.number_type.width,
    }
}
