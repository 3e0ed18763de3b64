//! Comments in scripts and orders.

ghost use Rattle.std.specs.Prelude.{◌≡◌, ◌==◌, ◌&&◌, ◌||◌, not, true, false};
ghost use Rattle.scripts.specs.Comments.{is_commented, uncommented};

use crate::splitting::is_separator;

/// Blanks the comments of a script or an order: each of their bytes becomes a space, and no other byte
/// changes, so that all else keeps its line and its column. A comment is a `#` at the start of a word, and
/// what stands behind it up to the end of its line.
pub fn blank_comments(text: &mut [u8])
    ensures { text.new ≡ uncommented text.old }
{
    let mut commented = false;
    let mut starts = true;
    for place in 0..text.len() {
        let byte = text[place];
        commented = is_commented(commented, starts, byte);
        starts = is_separator(byte);
        if commented {
            text[place] = b' ';
        }
    }
}

/// Whether a byte is one of a comment, behind one that is or isn't, where a word may start or not.
fn is_commented(commented: bool, starts: bool, byte: u8) -> bool
    ensures { result ≡ is_commented commented starts byte }
{
    commented && byte != b'\n' || starts && byte == b'#'
}
