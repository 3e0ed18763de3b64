//! The condition of a test, written from its tree.

ghost use Rattle.std.specs.Prelude.{◌≡◌, IsOk, OnOk};
ghost use Rattle.std.specs.Io.KnownBytes.{Appends};
ghost use Rattle.litmus_text.specs.Condition.{condition_text, term_text, opening, closing, joint, binding, binds_less};

use crate::value::{write_observed, write_value};
use litmus_tests::{Condition, LitmusTest, Term};
use std::io;
use std::io::Write;

/// Writes a condition, with parentheses where they are needed: `not` binds most tightly, then `/\`, `\/`, `=>`
/// and `<=>`.
pub fn write_condition<W: Write>(
    condition: &Condition,
    test: &LitmusTest,
    out: &mut W,
) -> io::Result<()>
    ensures { OnOk result (Appends (W.contents out.old) (W.contents out.new)
        (condition_text test.now condition.now)) }
{
    let mut went = Ok(());
    put_condition(condition, test, out, &mut went);
    went
}

/// Writes a condition where all went well so far. No result goes from call to call, so that a frame is small:
/// there are as many at a time as the condition has terms and levels.
fn put_condition<W: Write>(
    condition: &Condition,
    test: &LitmusTest,
    out: &mut W,
    went: &mut io::Result<()>,
)
    ensures { OnOk went.new (IsOk went.old × Appends (W.contents out.old) (W.contents out.new)
        (condition_text test.now condition.now)) }
{
    match condition {
        Condition::Always => put("true", out, went),
        Condition::Holds(term) => put_term(test, term, out, went),
        Condition::Not(inner) => {
            let is_wrapped = binds_less(inner, 4);
            put("not ", out, went);
            put(opening(is_wrapped), out, went);
            put_condition(inner, test, out, went);
            put(closing(is_wrapped), out, went);
        }
        Condition::Both(first, second) => {
            let (left, right) = (binds_less(first, 3), binds_less(second, 3));
            put(opening(left), out, went);
            put_condition(first, test, out, went);
            put_joint(left, " /\\ ", right, out, went);
            put_condition(second, test, out, went);
            put(closing(right), out, went);
        }
        Condition::Either(first, second) => {
            let (left, right) = (binds_less(first, 2), binds_less(second, 2));
            put(opening(left), out, went);
            put_condition(first, test, out, went);
            put_joint(left, " \\/ ", right, out, went);
            put_condition(second, test, out, went);
            put(closing(right), out, went);
        }
        Condition::Implies(first, second) => {
            let (left, right) = (binds_less(first, 2), binds_less(second, 1));
            put(opening(left), out, went);
            put_condition(first, test, out, went);
            put_joint(left, " => ", right, out, went);
            put_condition(second, test, out, went);
            put(closing(right), out, went);
        }
        Condition::Equivalent(first, second) => {
            let (left, right) = (binds_less(first, 0), binds_less(second, 1));
            put(opening(left), out, went);
            put_condition(first, test, out, went);
            put_joint(left, " <=> ", right, out, went);
            put_condition(second, test, out, went);
            put(closing(right), out, went);
        }
    }
}

/// Writes a text where all went well so far.
#[inline(never)]
fn put<W: Write>(text: &'static str, out: &mut W, went: &mut io::Result<()>)
    ensures { OnOk went.new (IsOk went.old × Appends (W.contents out.old) (W.contents out.new) text.now) }
{
    if went.is_ok() {
        *went = out.write_all(text.as_bytes());
    }
}

/// Writes a term where all went well so far.
#[inline(never)]
fn put_term<W: Write>(test: &LitmusTest, term: &Term, out: &mut W, went: &mut io::Result<()>)
    ensures { OnOk went.new (IsOk went.old × Appends (W.contents out.old) (W.contents out.new)
        (term_text test.now term.now)) }
{
    if went.is_ok() {
        *went = write_term(test, term, out);
    }
}

fn write_term<W: Write>(test: &LitmusTest, term: &Term, out: &mut W) -> io::Result<()>
    ensures { OnOk result (Appends (W.contents out.old) (W.contents out.new)
        (term_text test.now term.now)) }
{
    write_observed(test, term.observed, out)?;
    out.write_all(b"=")?;
    write_value(test, term.value, out)
}

/// The parenthesis before a part of a condition, where it has some.
fn opening(is_wrapped: bool) -> &'static str
    ensures { result.now ≡ opening is_wrapped }
{
    if is_wrapped { "(" } else { "" }
}

fn closing(is_wrapped: bool) -> &'static str
    ensures { result.now ≡ closing is_wrapped }
{
    if is_wrapped { ")" } else { "" }
}

/// Writes what stands between two parts, with the parentheses of each, where all went well so far.
#[tactic(auto, unfolding(crate::specs::Condition::joint))]
fn put_joint<W: Write>(
    left: bool,
    sign: &'static str,
    right: bool,
    out: &mut W,
    went: &mut io::Result<()>,
)
    ensures { OnOk went.new (IsOk went.old × Appends (W.contents out.old) (W.contents out.new)
        (joint left sign.now right)) }
{
    put(closing(left), out, went);
    put(sign, out, went);
    put(opening(right), out, went);
}

/// Whether a condition binds less tightly than it has to at its place.
#[tactic(auto, unfolding(crate::specs::Condition::binds_less))]
fn binds_less(condition: &Condition, least: u8) -> bool
    ensures { result ≡ binds_less condition.now least }
{
    binding(condition) < least
}

/// How tightly a condition binds: 4 where nothing does more.
fn binding(condition: &Condition) -> u8
    ensures { result ≡ binding condition.now }
{
    match condition {
        Condition::Equivalent(_, _) => 0,
        Condition::Implies(_, _) => 1,
        Condition::Either(_, _) => 2,
        Condition::Both(_, _) => 3,
        Condition::Always | Condition::Holds(_) | Condition::Not(_) => 4,
    }
}
