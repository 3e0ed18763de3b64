//! Where a byte stands outside of parentheses and quotation marks.

ghost use Rattle.std.specs.Prelude.{◌≡◌, ◌<◌, ◌≤◌, ◌+◌, ◌^◌, length, IfSome};
ghost use Rattle.outcome_queries.specs.Outer.{outer_place, stands_at, behind};

/// What a place in a text stands in.
#[derive(Clone, Copy, Drop)]
pub(crate) struct Inside {
    /// Whether it stands in quotation marks.
    pub is_quoted: bool,
    /// In how many parentheses it stands.
    pub depth: usize,
}

/// Where the byte first stands outside of parentheses and quotation marks.
pub(crate) fn outer_place(text: &[u8], wanted: u8) -> Option<usize>
    ensures place { result ≡ outer_place wanted text.now }
    ensures inside { IfSome result (λ place. place < length text.now) }
{
    let mut inside = Inside {
        is_quoted: false,
        depth: 0,
    };
    for (index, byte) in text.iter().enumerate() {
        if stands_at(inside, *byte, wanted) {
            return Some(index);
        }
        inside = behind(inside, *byte);
    }
    None
}

/// Whether a byte is the wanted one, and nothing is around it.
fn stands_at(inside: Inside, byte: u8, wanted: u8) -> bool
    ensures { result ≡ stands_at inside wanted byte }
{
    byte == wanted && !inside.is_quoted && inside.depth == 0
}

/// What stands around what is behind a byte. A parenthesis that closes none is passed over.
fn behind(inside: Inside, byte: u8) -> Inside
    requires { inside.depth < 2 ^ 63 }
    ensures said { result ≡ behind inside byte }
    ensures deeper { result.depth ≤ inside.depth + 1 }
{
    let Inside { is_quoted, depth } = inside;
    match byte {
        b'\'' => Inside {
            is_quoted: !is_quoted,
            depth,
        },
        b'(' if !is_quoted => Inside {
            is_quoted,
            depth: depth + 1,
        },
        b')' if !is_quoted => Inside {
            is_quoted,
            depth: depth.saturating_sub(1),
        },
        _ => inside,
    }
}
