ghost use Rattle.std.specs.Prelude.{◌≡◌};
ghost use Rattle.litmus_tests.specs.Conditions.{narrowed};

use watched_outcomes::Width;

/// What a number in memory is, as its type says: how many bytes it has, and whether it has a sign.
#[derive(Clone, Copy, Debug, PartialEq, Eq, Drop)]
pub struct NumberType {
    pub width: Width,
    pub is_signed: bool,
}

/// `int`: what a register holds, and a location of which nothing else is said.
pub const INT: NumberType = NumberType {
    width: Width::Word,
    is_signed: true,
};

/// As many of the lower bits of a number as a number of this width has.
pub fn narrowed(width: Width, number: u32) -> u32
    ensures { result ≡ narrowed width number }
{
    match width {
        Width::Byte => number % 256,
        Width::Half => number % 65536,
        Width::Word => number,
    }
}
