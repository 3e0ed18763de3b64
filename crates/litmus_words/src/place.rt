//! Lines and columns.

ghost use Rattle.std.specs.Prelude.{◌≤◌, length};
ghost use Rattle.litmus_words.specs.Places.{IsPlaceIn};

/// A place in a text: a line and a column, both from 1, in bytes.
#[derive(Clone, Copy, Debug, PartialEq, Eq, Drop)]
pub struct Place {
    pub line: usize,
    pub column: usize,
}

/// The place of the byte with this index, or of the end.
pub fn place_of(text: &[u8], offset: usize) -> Place
    requires { offset ≤ length text.now }
    ensures { IsPlaceIn text.now result }
{
    let mut line = 1;
    let mut column = 1;
    for byte in &text[..offset] {
        if *byte == b'\n' {
            line += 1;
            column = 1;
        } else {
            column += 1;
        }
    }
    Place { line, column }
}
