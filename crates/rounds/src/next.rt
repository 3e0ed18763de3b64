//! Whose turn comes.

ghost use Rattle.std.specs.Prelude.{◌≡◌, ◌<◌, ◌≤◌, ◌++◌, [], ◌∷◌, if◌then◌else◌, length};
ghost use Rattle.std.specs.Prelude.{nat_lt, find, option_map};
ghost use Rattle.numbers.specs.Sizes.{most_harts};
ghost use Rattle.sc_machine.specs.Machine.{InEachState};
ghost use Rattle.rounds.specs.Turns.{going, next_number, drawn, in_turn, chosen};

use arrayvec::ArrayVec;
use numbers::sizes::HART_ROOM;
use sc_machine::Plain;

/// What the generator of the draws multiplies a number by.
const MULTIPLIER: u64 = 6_364_136_223_846_793_005;

/// What it adds.
const INCREMENT: u64 = 1_442_695_040_888_963_407;

/// Whose turn comes: drawn by `number` where there is one, else the next behind `last`. None where no
/// hart goes.
pub fn next_hart(machine: &Plain, number: Option<u64>, last: Option<u8>) -> Option<u8>
    ensures { InEachState machine.now
        (λ setup s. result ≡ chosen number last (going setup s)) }
{
    let going = going_harts(machine);
    match number {
        Some(number) => drawn(number, going.as_slice()),
        None => in_turn(last, going.as_slice()),
    }
}

/// The number of the first draw, where harts are drawn.
pub fn first_number(seed: Option<u32>) -> Option<u64>
    ensures { result ≡ option_map next_number seed }
{
    match seed {
        Some(seed) => Some(next_number(u64::from(seed))),
        None => None,
    }
}

/// The number of the draw behind that of `number`.
pub fn following(number: Option<u64>) -> Option<u64>
    ensures { result ≡ option_map next_number number }
{
    match number {
        Some(number) => Some(next_number(number)),
        None => None,
    }
}

/// The number of the generator behind this one.
fn next_number(number: u64) -> u64
    ensures { result ≡ next_number number }
{
    MULTIPLIER.wrapping_mul(number).wrapping_add(INCREMENT)
}

/// The hart that a number draws: each of them has the same share of the numbers.
fn drawn(number: u64, going: &[u8]) -> Option<u8>
    requires { length going.now ≤ most_harts }
    ensures { result ≡ drawn number going.now }
{
    let index = (number >> 32) * going.len() as u64 >> 32;
    going.get(index as usize).copied()
}

/// The first hart behind the last one; where there is none, the first of all.
fn in_turn(last: Option<u8>, going: &[u8]) -> Option<u8>
    ensures { result ≡ in_turn last going.now }
{
    let Some(last) = last else {
        return going.first().copied();
    };
    match behind(last, going) {
        Some(hart) => Some(hart),
        None => going.first().copied(),
    }
}

/// The first hart behind this one.
fn behind(last: u8, going: &[u8]) -> Option<u8>
    ensures { result ≡ find (λ hart. nat_lt last hart) going.now }
{
    going.iter().copied().find(|hart| *hart > last)
}

/// How many harts go.
pub fn count_going(machine: &Plain) -> usize
    ensures { InEachState machine.now (λ setup s. result ≡ length (going setup s)) }
{
    going_harts(machine).len()
}

/// The harts that go, by rising number.
fn going_harts(machine: &Plain) -> ArrayVec<u8, HART_ROOM>
    ensures harts { InEachState machine.now (λ setup s. result.items ≡ going setup s) }
    ensures few { length result.items ≤ most_harts }
{
    let mut going = ArrayVec::new();
    for hart in 0..machine.harts() {
        push_if(machine.status(hart).is_going(), hart, &mut going);
    }
    going
}

/// Puts a hart behind others, where it goes.
fn push_if(goes: bool, hart: u8, going: &mut ArrayVec<u8, HART_ROOM>)
    requires { length going.old.items < most_harts }
    ensures { going.new.items ≡ going.old.items ++ (if goes then hart ∷ [] else []) }
{
    if goes {
        going.push(hart);
    }
}
