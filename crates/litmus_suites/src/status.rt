//! The exit status of several tests.

ghost use Rattle.std.specs.Prelude.{◌≡◌};
ghost use Rattle.litmus_suites.specs.Statuses.{badness, worse};

/// The worse of two exit statuses: 5 is worse than 2, that than 3, that than 1, and that than 0. A trace that is refused (4) is none of a
/// test's, and stands between 5 and 2.
pub fn worse(one: u8, other: u8) -> u8
    ensures { result ≡ worse one other }
{
    if badness(one) < badness(other) {
        other
    } else {
        one
    }
}

/// How bad an exit status is.
fn badness(status: u8) -> u8
    ensures { result ≡ badness status }
{
    match status {
        0 => 0,
        1 => 1,
        3 => 2,
        2 => 3,
        4 => 4,
        _ => 5,
    }
}
