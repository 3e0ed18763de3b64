//! Whether two events say the same.

ghost use Rattle.std.specs.Prelude.{◌≡◌};
ghost use Rattle.smt_model.specs.Basics.{same_number};
ghost use Rattle.smt_model.specs.Comparisons.{same_next, same_write, same_outcome, same_effect};

use events::{Effect, Next, Outcome, Written};

pub(super) fn is_same_number(one: Option<u32>, other: Option<u32>) -> bool
    ensures { result ≡ same_number one other }
{
    one == other
}

fn is_same_byte(one: Option<u8>, other: Option<u8>) -> bool
    ensures { result ≡ same_number one other }
{
    one == other
}

fn is_same_next(one: Next, other: Next) -> bool
    ensures { result ≡ same_next one other }
{
    one == other
}

fn is_same_write(one: Option<Written>, other: Option<Written>) -> bool
    ensures { result ≡ same_write one other }
{
    one == other
}

pub(super) fn is_same_outcome(one: Outcome, other: Outcome) -> bool
    ensures { result ≡ same_outcome one other }
{
    is_same_number(one.value, other.value)
        && is_same_next(one.next, other.next)
        && is_same_number(one.addr, other.addr)
        && is_same_number(one.datum, other.datum)
        && is_same_byte(one.out, other.out)
}

pub(super) fn is_same_effect(one: Effect, other: Effect) -> bool
    ensures { result ≡ same_effect one other }
{
    is_same_number(one.value, other.value)
        && is_same_next(one.next, other.next)
        && is_same_write(one.write, other.write)
        && is_same_byte(one.out, other.out)
}
